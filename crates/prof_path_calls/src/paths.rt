//! Copies of lists and views, terms, what each kind of transform makes of paths, and why one is refused.
ghost use Rattle.std.specs.Prelude.{◌≡◌, ◌<◌, ◌+◌, length, IfOk};
ghost use Rattle.std.specs.List.{All};
ghost use Rattle.prof_tables.specs.declared.rows.Step.{Step};

use prof_io::Steps;
use prof_path::Implementation::{Combined, Cpp, Js};
use prof_path::{
    FuncPath, Implementation, PushRefusal, Range, Span, SpanList, Step, StepList, TermList,
    Transform, View, check, path_of, rewrite, terms, visible,
};
use prof_tables::Thread;
use prof_worked::profiles::SEVEN;
use prof_worked::{Change, funcs_of, text_of, thread_of, transform_of};
use std::alloc::Global;
use std::marker::Brand;
use std::process::Abort;
use std::sync::ledger::{Blank, Ledger};
use std::test::Fail;

/// How many functions the thread of seven has, and the number of its resource collapsed.
const FUNCS: u32 = 7;

#[test]
fn small_lists_are_copied(rt: HostRuntime) -> Result<(), Fail> {
    let alloc = rt.alloc();
    let step = Step {
        func: 3,
        category: 1,
    };
    let mut path = StepList::new(alloc);
    path.push(step)?;
    let path = path.copy(alloc)?;
    assert_eq!(rt; path.as_slice(), [step].as_slice());
    let funcs = funcs_of(alloc, &[4, 2])?.copy(alloc)?;
    assert_eq!(rt; funcs.as_slice(), [4, 2].as_slice());
    let span = Span { start: -5, end: 7 };
    let mut spans = SpanList::new(alloc);
    spans.push(span)?;
    let spans = spans.copy(alloc)?;
    assert_eq!(rt; spans.as_slice(), [span].as_slice());
    let mut list = TermList::new(alloc);
    list.push(text_of(alloc, "gc")?)?;
    let list = list.copy(alloc)?;
    assert_eq!(rt; list.as_slice().len(), 1);
    assert_eq!(rt; list.as_slice()[0].as_str(), "gc");
    Ok(())
}

#[test]
fn views_are_copied(rt: HostRuntime) -> Result<(), Fail> {
    let alloc = rt.alloc();
    let range = Range { start: 1, end: 2 };
    let view = View {
        thread: 6,
        ranges: vec![in alloc; range]?,
        transforms: vec![in alloc;
            Transform::FocusSubtree {
                filter: Implementation::Cpp,
                path: funcs_of(alloc, &[3, 1])?,
                inverted: true
            },
        ]?,
        implementation: Implementation::Js,
        search: text_of(alloc, "app")?,
    };
    let copy = view.copy(alloc)?;
    assert_eq!(rt; copy.thread, 6);
    assert_eq!(rt; copy.ranges.as_slice(), [range].as_slice());
    assert_eq!(rt; copy.implementation, Implementation::Js);
    assert_eq!(rt; copy.search.as_str(), "app");
    assert_eq!(rt; copy.transforms.len(), 1);
    match &copy.transforms[0] {
        Transform::FocusSubtree {
            filter,
            path,
            inverted,
        } => {
            assert_eq!(rt; *filter, Implementation::Cpp);
            assert_eq!(rt; path.as_slice(), [3, 1].as_slice());
            assert!(rt; *inverted);
        }
        _ => assert!(rt; false, "another transform"),
    }
    Ok(())
}

#[test]
fn terms_are_trimmed_and_keep_their_case(rt: HostRuntime) -> Result<(), Fail> {
    let alloc = rt.alloc();
    let list = terms(alloc, " \tApp , D x\t,, \t,")?;
    assert_eq!(rt; list.as_slice().len(), 2);
    assert_eq!(rt; list.as_slice()[0].as_str(), "App");
    assert_eq!(rt; list.as_slice()[1].as_str(), "D x");
    assert_eq!(rt; terms(alloc, "")?.as_slice().len(), 0);
    Ok(())
}

/// A path of functions that the thread has, each step with its function's number as its category.
fn path_of_funcs(alloc: Global, thread: &Thread, funcs: &[u32]) -> Result<StepList, Fail>
    ensures { IfOk result (λ x. All (λ (s : Step). s.func < length thread.now.shared.funcs + length thread.now.shared.resources) x) }
{
    let bound = thread.func_count() + thread.resource_count();
    let mut path = StepList::new(alloc);
    for func in funcs {
        if *func >= bound {
            return Err(Fail::new("no such function"));
        }
        path.push(Step {
            func: *func,
            category: *func,
        })?;
    }
    Ok(path)
}

/// The functions of what a transform makes of a path, at the moment 0 and with no intervals.
fn rewritten(
    alloc: Global,
    thread: &Thread,
    transform: &Transform,
    funcs: &[u32],
) -> Result<FuncPath, Fail> {
    check(transform, thread)?;
    let path = path_of_funcs(alloc, thread, funcs)?;
    let kept = rewrite(alloc, transform, &path, 0, &SpanList::new(alloc), thread)?;
    let mut funcs = FuncPath::new(alloc);
    for step in kept.as_slice() {
        funcs.push(step.func)?;
    }
    Ok(funcs)
}

/// The longest stack of the small thread.
const LONGEST: &[u32] = &[0, 1, 2, 1, 3];

/// A change, a path of functions, and what it becomes.
type Case = (Change, &'static [u32], &'static [u32]);

const OF_FUNCTIONS: [Case; 9] = [
    (Change::Merge(1), LONGEST, &[0, 2, 3]),
    (Change::Drop(2), LONGEST, &[]),
    (Change::Drop(4), LONGEST, LONGEST),
    (Change::Focus(1), LONGEST, &[1, 2, 1, 3]),
    (Change::Focus(4), LONGEST, &[]),
    (Change::Category(1), LONGEST, &[1, 1]),
    (Change::Recursion(1), LONGEST, &[0, 1, 3]),
    (Change::FunctionSubtree(1), LONGEST, &[0, 1]),
    (Change::Samples(""), LONGEST, &[]),
];

/// In the last of the inverted ones over all steps the path of the call node ends at the root.
const OF_CALL_NODES: [Case; 9] = [
    (Change::MergeNode(Combined, &[0, 1]), LONGEST, &[0, 2, 1, 3]),
    (Change::MergeNode(Combined, &[1]), LONGEST, LONGEST),
    (Change::MergeNode(Js, &[3]), LONGEST, &[0, 1, 2, 1]),
    (Change::Subtree(Combined, &[0, 1, 2]), LONGEST, &[2, 1, 3]),
    (Change::Subtree(Combined, &[1, 2]), LONGEST, &[]),
    (Change::Subtree(Js, &[3]), LONGEST, &[3]),
    (
        Change::InvertedSubtree(Combined, &[3, 1]),
        LONGEST,
        &[0, 1, 2, 1],
    ),
    (
        Change::InvertedSubtree(Combined, &[3, 1, 2, 1, 0]),
        LONGEST,
        &[0],
    ),
    (Change::InvertedSubtree(Cpp, &[1, 2]), LONGEST, &[0, 1, 2]),
];

/// Runs of the resource become its number, which stands behind those of the functions. Hidden steps don't end a run, and
/// don't part two steps of a recursion.
const COLLAPSED: [Case; 8] = [
    (Change::Resource(Combined, 0), LONGEST, &[0, FUNCS, 3]),
    (
        Change::Resource(Combined, 0),
        &[1, 0, 2],
        &[FUNCS, 0, FUNCS],
    ),
    (
        Change::Resource(Js, 0),
        &[1, 0, 2, 3, 5],
        &[FUNCS, 3, FUNCS],
    ),
    (Change::Resource(Js, 0), &[0, 1], &[0, FUNCS]),
    (Change::DirectRecursion(Combined, 1), LONGEST, LONGEST),
    (
        Change::DirectRecursion(Combined, 1),
        &[1, 1, 0, 1],
        &[1, 0, 1],
    ),
    (Change::DirectRecursion(Js, 1), LONGEST, &[0, 1, 2, 3]),
    (
        Change::DirectRecursion(Js, 1),
        &[1, 2, 0, 1, 3, 1],
        &[1, 2, 0, 3, 1],
    ),
];

#[test]
fn transforms_rewrite_paths(rt: HostRuntime) -> Result<(), Fail> {
    let alloc = rt.alloc();
    let held = thread_of(alloc, SEVEN)?;
    let thread = &*held;
    for cases in [
        OF_FUNCTIONS.as_slice(),
        OF_CALL_NODES.as_slice(),
        COLLAPSED.as_slice(),
    ] {
        for (change, funcs, wanted) in cases {
            let transform = transform_of(alloc, *change)?;
            let kept = rewritten(alloc, thread, &transform, funcs)?;
            assert_eq!(rt; kept.as_slice(), *wanted);
            let kept = rewritten(alloc, thread, &transform, &[])?;
            assert_eq!(rt; kept.as_slice().len(), 0);
        }
    }
    Ok(())
}

#[test]
fn samples_stay_within_closed_intervals(rt: HostRuntime) -> Result<(), Fail> {
    let alloc = rt.alloc();
    let held = thread_of(alloc, SEVEN)?;
    let thread = &*held;
    let path = path_of_funcs(alloc, thread, LONGEST)?;
    let mut spans = SpanList::new(alloc);
    spans.push(Span { start: -4, end: -2 })?;
    spans.push(Span { start: 1, end: 3 })?;
    let transform = transform_of(alloc, Change::Samples(""))?;
    for (time, length) in [(-4, 5), (-1, 0), (0, 0), (1, 5), (3, 5), (4, 0)] {
        check(&transform, thread)?;
        let kept = rewrite(alloc, &transform, &path, time, &spans, thread)?;
        assert_eq!(rt; kept.as_slice().len(), length, "at {time}");
    }
    Ok(())
}

/// A change, and why it is refused.
const REFUSED: [(Change, Option<PushRefusal>); 8] = [
    (Change::Samples("a,b,c,d,e,f,g,h,,"), None),
    (
        Change::Samples("a,b,c,d,e,f,g,h,i"),
        Some(PushRefusal::LongSearch),
    ),
    (Change::Merge(FUNCS), None),
    (Change::Merge(8), Some(PushRefusal::FuncOut { func: 8 })),
    (
        Change::Resource(Js, 1),
        Some(PushRefusal::ResourceOut { resource: 1 }),
    ),
    (
        Change::Category(8),
        Some(PushRefusal::CategoryOut { category: 8 }),
    ),
    (Change::MergeNode(Js, &[]), Some(PushRefusal::EmptyPath)),
    (
        Change::InvertedSubtree(Js, &[0, 9, 8]),
        Some(PushRefusal::FuncOut { func: 9 }),
    ),
];

#[test]
fn transforms_that_do_not_fit_are_refused(rt: HostRuntime) -> Result<(), Fail> {
    let alloc = rt.alloc();
    let held = thread_of(alloc, SEVEN)?;
    let thread = &*held;
    for (change, refusal) in REFUSED {
        let transform = transform_of(alloc, change)?;
        assert_eq!(rt; check(&transform, thread).err(), refusal);
    }
    let path = funcs_of(alloc, &vec![in alloc; 0u32; 4097]?)?;
    let long = Transform::MergeCallNode { filter: Js, path };
    let refusal = PushRefusal::LongPath { length: 4097 };
    assert_eq!(rt; check(&long, thread).err(), Some(refusal));
    Ok(())
}

#[test]
fn filters_show_functions(rt: HostRuntime) -> Result<(), Fail> {
    let held = thread_of(rt.alloc(), SEVEN)?;
    let thread = &*held;
    assert_eq!(rt; thread.func_count(), FUNCS);
    assert_eq!(rt; thread.resource_count(), 1);
    for (func, js, cpp) in [
        (0, false, true),
        (1, false, true),
        (3, true, false),
        (4, false, false),
        (5, false, true),
        (6, true, true),
        (FUNCS, true, true),
    ] {
        assert!(rt; func <= FUNCS);
        assert!(rt; visible(Combined, thread, func));
        assert_eq!(rt; visible(Js, thread, func), js, "of {func}");
        assert_eq!(rt; visible(Cpp, thread, func), cpp, "of {func}");
    }
    Ok(())
}

/// Row 4 is that of 0 1 2 1 3, and row 5 that of 3 alone.
fn paths_of<L: Ledger>(
    rt: &impl Abort,
    alloc: Global,
    thread: &Thread,
    blank: Blank,
) -> Result<(), Fail>
    requires name { blank.name ≡ L.name }
    requires parts { blank.parts ≡ L.parts }
    requires some { 0 < L.parts }
{
    let mut reads: Steps<L> = Steps::new(blank);
    assert_eq!(rt; thread.stacks().count(), 6);
    for (stack, funcs) in [
        (Some(4), LONGEST),
        (Some(5), [3].as_slice()),
        (None, [].as_slice()),
    ] {
        if let Some(row) = stack {
            assert!(rt; row < 6);
        }
        let path = path_of(alloc, thread, stack, &mut reads)?;
        assert_eq!(rt; path.as_slice().len(), funcs.len());
        for (step, func) in path.as_slice().iter().zip(funcs) {
            let wanted = Step {
                func: *func,
                category: *func,
            };
            assert_eq!(rt; *step, wanted);
        }
    }
    Ok(())
}

#[test]
fn stacks_have_paths(rt: HostRuntime) -> Result<(), Fail> {
    let alloc = rt.alloc();
    let held = thread_of(alloc, SEVEN)?;
    let thread = &*held;
    paths_of::<Brand>(&rt, alloc, thread, Blank::new(1))
}
