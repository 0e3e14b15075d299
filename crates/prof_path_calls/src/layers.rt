//! Layers over two small threads: the paths of their samples, by functions, under each kind of transform.
ghost use Rattle.std.specs.Prelude.{◌≡◌, ◌<◌, [], None, length, replicate, All, IfOk, OnOk};
ghost use Rattle.prof_path.specs.declared.transform.Transform.{Transform};
ghost use Rattle.prof_path.specs.Refusals.{refusal_of};

use prof_io::Steps;
use prof_layer::Layers;
use prof_path::Implementation::{Combined, Js};
use prof_path::{Span, SpanList, Transform, check};
use prof_tables::{Stacks, Thread};
use prof_worked::profiles::{MOMENTS, P, Q};
use prof_worked::{Change, spans_of, thread_of, transform_of};
use std::alloc::Global;
use std::marker::Brand;
use std::process::Abort;
use std::sync::ledger::{Blank, Ledger};
use std::test::Fail;

/// The functions of a row's path.
fn funcs_of<L: Ledger>(
    rt: &impl Abort,
    alloc: Global,
    top: &Stacks,
    row: Option<u32>,
    reads: &mut Steps<L>,
) -> Result<Vec<u32>, Fail> {
    let mut funcs = Vec::new(alloc);
    let mut next = row;
    for _step in 0..top.count() {
        let Some(i) = next else {
            break;
        };
        assert!(rt; i < top.count());
        let row = top.row(i, reads);
        funcs.push(row.func)?;
        next = row.prefix;
    }
    funcs.reverse();
    Ok(funcs)
}

/// Transforms over a thread, and the functions of its samples' paths.
type Case = (&'static str, &'static [Change], &'static [&'static [u32]]);

const SIMPLE: [Case; 8] = [
    (
        P,
        &[],
        &[
            &[0, 1, 2],
            &[0, 1, 2, 1, 3],
            &[0, 1, 2, 1, 3],
            &[0, 1],
            &[3],
            &[],
        ],
    ),
    (
        P,
        &[Change::Merge(1)],
        &[&[0, 2], &[0, 2, 3], &[0, 2, 3], &[0], &[3], &[]],
    ),
    (
        P,
        &[
            Change::Merge(0),
            Change::Merge(1),
            Change::Merge(2),
            Change::Merge(3),
        ],
        &[&[], &[], &[], &[], &[], &[]],
    ),
    (P, &[Change::Drop(2)], &[&[], &[], &[], &[0, 1], &[3], &[]]),
    (
        P,
        &[Change::Focus(1)],
        &[&[1, 2], &[1, 2, 1, 3], &[1, 2, 1, 3], &[1], &[], &[]],
    ),
    (
        P,
        &[Change::FunctionSubtree(1)],
        &[&[0, 1], &[0, 1], &[0, 1], &[0, 1], &[3], &[]],
    ),
    (
        P,
        &[Change::Samples("")],
        &[&[], &[0, 1, 2, 1, 3], &[0, 1, 2, 1, 3], &[], &[], &[]],
    ),
    (
        P,
        &[Change::Samples(""), Change::Merge(2), Change::Samples("")],
        &[&[], &[0, 1, 1, 3], &[0, 1, 1, 3], &[], &[], &[]],
    ),
];

const OF_CALL_NODES: [Case; 3] = [
    (
        P,
        &[Change::InvertedSubtree(Combined, &[3, 1])],
        &[&[], &[0, 1, 2, 1], &[0, 1, 2, 1], &[], &[], &[]],
    ),
    (
        P,
        &[Change::MergeNode(Combined, &[0, 1])],
        &[&[0, 2], &[0, 2, 1, 3], &[0, 2, 1, 3], &[0], &[3], &[]],
    ),
    (
        P,
        &[Change::Subtree(Combined, &[0, 1])],
        &[&[1, 2], &[1, 2, 1, 3], &[1, 2, 1, 3], &[1], &[], &[]],
    ),
];

/// The resource's own number stands behind those of the functions.
const COLLAPSED: [Case; 6] = [
    (
        P,
        &[Change::Resource(Combined, 0)],
        &[&[0, 4], &[0, 4, 3], &[0, 4, 3], &[0, 4], &[3], &[]],
    ),
    (
        P,
        &[Change::Recursion(1)],
        &[&[0, 1, 2], &[0, 1, 3], &[0, 1, 3], &[0, 1], &[3], &[]],
    ),
    (
        P,
        &[Change::DirectRecursion(Combined, 1)],
        &[
            &[0, 1, 2],
            &[0, 1, 2, 1, 3],
            &[0, 1, 2, 1, 3],
            &[0, 1],
            &[3],
            &[],
        ],
    ),
    (
        P,
        &[Change::DirectRecursion(Js, 1)],
        &[&[0, 1, 2], &[0, 1, 2, 3], &[0, 1, 2, 3], &[0, 1], &[3], &[]],
    ),
    (
        Q,
        &[Change::Resource(Combined, 0)],
        &[&[0, 3], &[0, 3], &[0, 3]],
    ),
    (
        Q,
        &[Change::Resource(Combined, 0), Change::Category(1)],
        &[&[3], &[], &[]],
    ),
];

/// Whether the samples have these paths.
fn has_paths<L: Ledger>(
    rt: &impl Abort,
    alloc: Global,
    layers: &Layers,
    wanted: &[&'static [u32]],
    reads: &mut Steps<L>,
) -> Result<(), Fail> {
    assert_eq!(rt; layers.base().sample_count() as usize, wanted.len());
    for (k, funcs) in wanted.iter().enumerate() {
        assert!(rt; (k as u32) < layers.base().sample_count());
        let row = layers.row_of_sample(k as u32);
        assert_eq!(rt; row.is_none(), funcs.is_empty(), "of sample {k}");
        let found = funcs_of(rt, alloc, layers.top(), row, reads)?;
        assert_eq!(rt; found.as_slice(), *funcs, "of sample {k}");
    }
    Ok(())
}

/// The layers of a thread under transforms that are pushed in order.
fn pushed<L: Ledger>(
    alloc: Global,
    text: &str,
    changes: &[Change],
    reads: &mut Steps<L>,
) -> Result<Layers, Fail> {
    let mut layers = Layers::new(alloc, thread_of(alloc, text)?);
    for change in changes {
        let t = transform_of(alloc, *change)?;
        check(&t, layers.base())?;
        layers.push(alloc, &t, spans_of(alloc, *change)?, reads)?;
    }
    Ok(layers)
}

fn holds_paths<L: Ledger>(
    rt: &impl Abort,
    alloc: Global,
    case: Case,
    reads: &mut Steps<L>,
) -> Result<(), Fail> {
    let (text, changes, wanted) = case;
    let layers = pushed(alloc, text, changes, reads)?;
    assert_eq!(rt; layers.settled().len(), changes.len());
    assert_eq!(rt; layers.spans().len(), changes.len());
    assert!(rt; layers.top().count() <= layers.base().stacks().count());
    has_paths(rt, alloc, &layers, wanted, reads)
}

fn each_kind<L: Ledger>(rt: &impl Abort, alloc: Global, blank: Blank) -> Result<(), Fail>
    requires name { blank.name ≡ L.name }
    requires parts { blank.parts ≡ L.parts }
    requires some { 0 < L.parts }
{
    let mut reads: Steps<L> = Steps::new(blank);
    for case in SIMPLE {
        holds_paths(rt, alloc, case, &mut reads)?;
    }
    for case in OF_CALL_NODES {
        holds_paths(rt, alloc, case, &mut reads)?;
    }
    for case in COLLAPSED {
        holds_paths(rt, alloc, case, &mut reads)?;
    }
    Ok(())
}

#[test]
fn layers_hold_the_rewritten_paths(rt: HostRuntime) -> Result<(), Fail> {
    each_kind::<Brand>(&rt, rt.alloc(), Blank::new(1))
}

/// So many empty lists of intervals.
fn no_spans(alloc: Global, count: usize) -> Result<Vec<SpanList>, Fail>
    ensures { IfOk result (λ list. list.items ≡ replicate count []) }
{
    let mut list = Vec::new(alloc);
    for _place in 0..count {
        list.push(SpanList::new(alloc))?;
    }
    Ok(list)
}

/// The transforms of these changes, each of which fits the thread.
fn transforms_of(alloc: Global, thread: &Thread, changes: &[Change]) -> Result<Vec<Transform>, Fail>
    ensures { IfOk result (λ list. All (λ (t : Transform). refusal_of thread.now.shared t ≡ None) list.items) }
{
    let mut list = Vec::new(alloc);
    for change in changes {
        let t = transform_of(alloc, *change)?;
        check(&t, thread)?;
        list.push(t)?;
    }
    Ok(list)
}

/// Settles the transforms of these changes, none of which has intervals.
fn settle_to<L: Ledger>(
    alloc: Global,
    layers: &mut Layers,
    changes: &[Change],
    reads: &mut Steps<L>,
) -> Result<(), Fail>
    requires { layers.old.spans ≡ replicate (length layers.old.settled) [] }
    ensures { OnOk result (layers.new.spans ≡ replicate (length layers.new.settled) []) }
{
    let wanted = transforms_of(alloc, layers.base(), changes)?;
    let spans = no_spans(alloc, wanted.len())?;
    layers.settle(alloc, &wanted, spans, reads)?;
    Ok(())
}

/// The functions of the samples' paths without A and D, where no path has C; without A, where none has D; and without A
/// alone.
const DROPPED: [&[u32]; 6] = [&[], &[], &[], &[1], &[], &[]];

const REPLACED: [&[u32]; 6] = [&[1, 2], &[], &[], &[1], &[], &[]];

const MERGED: [&[u32]; 6] = [&[1, 2], &[1, 2, 1, 3], &[1, 2, 1, 3], &[1], &[3], &[]];

fn settled_in_turn<L: Ledger>(rt: &impl Abort, alloc: Global, blank: Blank) -> Result<(), Fail>
    requires name { blank.name ≡ L.name }
    requires parts { blank.parts ≡ L.parts }
    requires some { 0 < L.parts }
{
    let mut reads: Steps<L> = Steps::new(blank);
    let mut layers = Layers::new(alloc, thread_of(alloc, P)?);
    let changes = [Change::Merge(0), Change::Drop(2), Change::Merge(3)];
    settle_to(alloc, &mut layers, &changes, &mut reads)?;
    has_paths(rt, alloc, &layers, &DROPPED, &mut reads)?;
    let changes = [Change::Merge(0), Change::Drop(3), Change::Recursion(1)];
    settle_to(alloc, &mut layers, &changes, &mut reads)?;
    has_paths(rt, alloc, &layers, &REPLACED, &mut reads)?;
    assert_eq!(rt; layers.settled().len(), 3);
    layers.pop();
    has_paths(rt, alloc, &layers, &REPLACED, &mut reads)?;
    layers.pop();
    has_paths(rt, alloc, &layers, &MERGED, &mut reads)
}

#[test]
fn layers_are_settled_in_turn(rt: HostRuntime) -> Result<(), Fail> {
    settled_in_turn::<Brand>(&rt, rt.alloc(), Blank::new(1))
}

/// One that another one nests in and a third overlaps, two that touch, and two without a moment.
const UNSORTED: [Span; 7] = [
    Span {
        start: 50_000_000,
        end: 60_000_000,
    },
    Span {
        start: 10_000_000,
        end: 40_000_000,
    },
    Span {
        start: 48_000_000,
        end: 47_000_000,
    },
    Span {
        start: 20_000_000,
        end: 25_000_000,
    },
    Span {
        start: 60_000_000,
        end: 70_000_000,
    },
    Span {
        start: 80_000_000,
        end: 30_000_000,
    },
    Span {
        start: 35_000_000,
        end: 45_000_000,
    },
];

/// Whether one of these holds each of the seventeen moments: those of 10 to 45 and of 50 to 70 milliseconds.
const HELD: [bool; 17] = [
    false, false, true, true, true, true, true, false, false, false, false, true, true, true, true,
    false, false,
];

fn unsorted_spans(alloc: Global) -> Result<SpanList, Fail> {
    let mut spans = SpanList::new(alloc);
    for span in UNSORTED {
        spans.push(span)?;
    }
    Ok(spans)
}

fn held_moments<L: Ledger>(rt: &impl Abort, alloc: Global, blank: Blank) -> Result<(), Fail>
    requires name { blank.name ≡ L.name }
    requires parts { blank.parts ≡ L.parts }
    requires some { 0 < L.parts }
{
    let mut reads: Steps<L> = Steps::new(blank);
    let mut layers = Layers::new(alloc, thread_of(alloc, MOMENTS)?);
    let filter = transform_of(alloc, Change::Samples(""))?;
    check(&filter, layers.base())?;
    layers.push(alloc, &filter, unsorted_spans(alloc)?, &mut reads)?;
    for (k, held) in (0u32..17).zip(HELD) {
        assert!(rt; k < layers.base().sample_count());
        assert_eq!(rt; layers.row_of_sample(k).is_some(), held, "of sample {k}");
    }
    Ok(())
}

#[test]
fn samples_stay_at_the_moments_of_unsorted_intervals(rt: HostRuntime) -> Result<(), Fail> {
    held_moments::<Brand>(&rt, rt.alloc(), Blank::new(1))
}
