//! The worked trees, by the calls of the libraries.
ghost use Rattle.std.specs.Prelude.{◌≡◌, ◌+◌, ◌<◌, ◌^◌, [], List, length, IfOk, IsTrue};
ghost use Rattle.std.specs.List.{All};
ghost use Rattle.prof_tables.specs.declared.rows.Step.{Step};

use crate::worked::{BY_FUNCTION, BY_SEARCH, BY_STEPS, BY_VIEW, Worked};
use prof_io::Steps;
use prof_layer::Layers;
use prof_path::{
    Implementation, Range, Step, StepList, TermList, Transform, View, check, path_of, rewrite,
    terms, visible,
};
use prof_tables::Thread;
use prof_tree::{InvertRefusal, Node, Tree, of_paths, of_reversed};
use prof_view_tree::{inverted, plain};
use prof_worked::{Change, spans_of, text_of, thread_of, transform_of};
use std::alloc::Global;
use std::marker::Brand;
use std::process::Abort;
use std::sync::ledger::{Blank, Ledger};
use std::test::Fail;

/// How many functions there are, the collapsed resources among them.
fn bound_of(thread: &Thread) -> u32
    ensures { result ≡ length thread.now.shared.funcs + length thread.now.shared.resources }
{
    thread.func_count() + thread.resource_count()
}

/// Whether each step's function is one of the thread's.
fn are_known(thread: &Thread, path: &StepList) -> bool
    ensures { IsTrue result → All (λ (s : Step). s.func < length thread.now.shared.funcs + length thread.now.shared.resources) path.now }
{
    let bound = bound_of(thread);
    path.as_slice().iter().all(|step| step.func < bound)
}

/// What the changes make of a path, in order.
fn rewritten(
    alloc: Global,
    thread: &Thread,
    path: StepList,
    changes: &[Change],
    time: i64,
) -> Result<StepList, Fail> {
    let mut path = path;
    for change in changes {
        let transform = transform_of(alloc, *change)?;
        check(&transform, thread)?;
        if !are_known(thread, &path) {
            return Err(Fail::new("no such function"));
        }
        let spans = spans_of(alloc, *change)?;
        path = rewrite(alloc, &transform, &path, time, &spans, thread)?;
    }
    Ok(path)
}

/// The steps that a filter shows.
fn seen(
    alloc: Global,
    thread: &Thread,
    filter: Implementation,
    path: &StepList,
) -> Result<StepList, Fail> {
    let bound = bound_of(thread);
    let mut seen = StepList::new(alloc);
    for step in path.as_slice() {
        if step.func < bound && visible(filter, thread, step.func) {
            seen.push(*step)?;
        }
    }
    Ok(seen)
}

/// Whether a text has a term somewhere, ASCII letters without case.
fn has_term(text: &str, term: &str) -> bool {
    let term = term.as_bytes();
    !term.is_empty()
        && text
            .as_bytes()
            .windows(term.len())
            .any(|part| part.eq_ignore_ascii_case(term))
}

/// Whether a term occurs in the name, the file or the resource of a function.
fn occurs(thread: &Thread, term: &str, func: u32) -> bool {
    if func >= bound_of(thread) {
        return false;
    }
    if let Some(file) = thread.file_name(func)
        && has_term(file, term)
    {
        return true;
    }
    if let Some(resource) = thread.func_resource(func)
        && has_term(thread.resource_name(resource), term)
    {
        return true;
    }
    has_term(thread.func_name(func), term)
}

/// Whether each term occurs in some step.
fn is_found(thread: &Thread, terms: &TermList, path: &StepList) -> bool {
    terms.as_slice().iter().all(|term| {
        path.as_slice()
            .iter()
            .any(|step| occurs(thread, term.as_str(), step.func))
    })
}

fn is_within(time: i64, ranges: &[Range]) -> bool {
    ranges
        .iter()
        .all(|range| range.start <= time && time < range.end)
}

/// The paths of the samples in the ranges as they are shown, and their weights.
fn paths_of<L: Ledger>(
    alloc: Global,
    thread: &Thread,
    worked: &Worked,
    reads: &mut Steps<L>,
) -> Result<(Vec<StepList>, Vec<i64>), Fail> {
    let terms = terms(alloc, worked.search)?;
    let mut paths = Vec::new(alloc);
    let mut weights = Vec::new(alloc);
    for k in 0..thread.sample_count() {
        let sample = thread.sample(k);
        if is_within(sample.time, worked.ranges) {
            let path = path_of(alloc, thread, sample.stack, reads)?;
            let path = rewritten(alloc, thread, path, worked.changes, sample.time)?;
            let mut path = seen(alloc, thread, worked.filter, &path)?;
            if !is_found(thread, &terms, &path) {
                path = StepList::new(alloc);
            }
            paths.push(path)?;
            weights.push(sample.weight)?;
        }
    }
    Ok((paths, weights))
}

/// Whether each path is as short as a tree's paths have to be.
fn are_short(paths: &[StepList]) -> bool
    ensures { IsTrue result → All (λ (x : List Step). length x < 2 ^ 32) paths.now }
{
    paths
        .iter()
        .all(|path| path.as_slice().len() < 4_294_967_296)
}

/// The tree of the samples' paths, each rewritten by itself.
fn tree_of_paths<L: Ledger>(
    alloc: Global,
    worked: &Worked,
    is_inverted: bool,
    reads: &mut Steps<L>,
) -> Result<Tree, Fail> {
    let held = thread_of(alloc, worked.text)?;
    let thread = &*held;
    let (paths, weights) = paths_of(alloc, thread, worked, reads)?;
    if weights.len() != paths.len() || paths.len() > 8_388_608 || !are_short(&paths) {
        return Err(Fail::new("no tree is made of these"));
    }
    let default = thread.default_category();
    if is_inverted {
        return Ok(of_reversed(alloc, &paths, &weights, default)?);
    }
    Ok(of_paths(alloc, &paths, &weights, default)?)
}

/// Settles the changes one by one.
fn settle_changes<L: Ledger>(
    alloc: Global,
    layers: &mut Layers,
    changes: &[Change],
    reads: &mut Steps<L>,
) -> Result<Vec<Transform>, Fail>
    requires { layers.old.settled ≡ [] }
    ensures { IfOk result (λ transforms. layers.new.settled ≡ transforms.items) }
{
    let mut transforms = Vec::new(alloc);
    for change in changes {
        let t = transform_of(alloc, *change)?;
        check(&t, layers.base())?;
        layers.push(alloc, &t, spans_of(alloc, *change)?, reads)?;
        transforms.push(t)?;
    }
    Ok(transforms)
}

/// The tree of the same view, out of layers.
fn tree_of_layers<L: Ledger>(
    alloc: Global,
    worked: &Worked,
    is_inverted: bool,
    reads: &mut Steps<L>,
) -> Result<Tree, Fail> {
    let mut layers = Layers::new(alloc, thread_of(alloc, worked.text)?);
    let transforms = settle_changes(alloc, &mut layers, worked.changes, reads)?;
    let view = View {
        thread: 0,
        ranges: Vec::from_slice(alloc, worked.ranges)?,
        transforms,
        implementation: worked.filter,
        search: text_of(alloc, worked.search)?,
    };
    if is_inverted {
        return Ok(inverted(alloc, &layers, &view, reads)?);
    }
    Ok(plain(alloc, &layers, &view, reads)?)
}

fn assert_tree(rt: &impl Abort, tree: &Tree, worked: &Worked) {
    let (name, search) = (worked.name, worked.search);
    assert_eq!(rt;
        tree.nodes.len(),
        worked.nodes.len(),
        "{name}, search {search}"
    );
    for (node, row) in tree.nodes.iter().zip(worked.nodes) {
        let (depth, func, total, own, category) = *row;
        let wanted = Node {
            depth,
            func,
            total,
            own,
            category,
        };
        assert_eq!(rt; *node, wanted, "{name}, search {search}");
    }
    assert_eq!(rt; tree.selected, worked.selected, "{name}, search {search}");
    assert_eq!(rt; tree.dropped, worked.dropped, "{name}, search {search}");
}

/// Makes both trees of each case by its paths and out of layers, and compares them with each other and with the one that
/// is written down.
fn assert_trees<L: Ledger>(
    rt: &impl Abort,
    alloc: Global,
    table: &[Worked],
    blank: Blank,
) -> Result<(), Fail>
    requires name { blank.name ≡ L.name }
    requires parts { blank.parts ≡ L.parts }
    requires some { 0 < L.parts }
{
    let mut reads: Steps<L> = Steps::new(blank);
    for worked in table {
        for is_inverted in [false, true] {
            let tree = tree_of_layers(alloc, worked, is_inverted, &mut reads)?;
            let of_paths = tree_of_paths(alloc, worked, is_inverted, &mut reads)?;
            let (name, search) = (worked.name, worked.search);
            assert_eq!(rt; tree.nodes, of_paths.nodes, "{name}, search {search}");
            assert_eq!(rt; tree.selected, of_paths.selected, "{name}, search {search}");
            assert_eq!(rt; tree.dropped, of_paths.dropped, "{name}, search {search}");
            if is_inverted == worked.inverted {
                assert_tree(rt, &tree, worked);
            }
        }
    }
    Ok(())
}

#[test]
fn calls_make_the_worked_trees(rt: HostRuntime) -> Result<(), Fail> {
    for table in [BY_FUNCTION, BY_STEPS, BY_VIEW, BY_SEARCH] {
        assert_trees::<Brand>(&rt, rt.alloc(), table, Blank::new(1))?;
    }
    Ok(())
}

/// How many nodes an inverted tree has, if it isn't refused for having too many.
fn count_of(
    rt: &impl Abort,
    tree: Result<Tree, InvertRefusal>,
) -> Result<Option<usize>, InvertRefusal> {
    match tree {
        Ok(tree) => Ok(Some(tree.nodes.len())),
        Err(InvertRefusal::TooManyNodes { limit }) => {
            assert_eq!(rt; limit, 4_194_304);
            Ok(None)
        }
        Err(refusal) => Err(refusal),
    }
}

/// The paths that end at each row of a chain of distinct functions.
fn chain(alloc: Global, count: u32) -> Result<Vec<StepList>, Fail> {
    let mut paths = Vec::new(alloc);
    for last in 0..count {
        let mut path = StepList::new(alloc);
        for func in 0..=last {
            path.push(Step { func, category: 0 })?;
        }
        paths.push(path)?;
    }
    Ok(paths)
}

/// How many nodes the inverted tree of such a chain has.
fn reversed_chain(rt: &impl Abort, alloc: Global, count: u32) -> Result<Option<usize>, Fail> {
    let paths = chain(alloc, count)?;
    let weights = vec![in alloc; 1i64; count as usize]?;
    assert_eq!(rt; paths.len(), weights.len());
    assert!(rt; paths.len() <= 8_388_608);
    Ok(count_of(rt, of_reversed(alloc, &paths, &weights, 0))?)
}

#[test]
fn an_inverted_tree_within_the_limit(rt: HostRuntime) -> Result<(), Fail> {
    assert_eq!(rt; reversed_chain(&rt, rt.alloc(), 2895)?, Some(4_191_960));
    Ok(())
}

#[test]
fn an_inverted_tree_past_the_limit(rt: HostRuntime) -> Result<(), Fail> {
    assert_eq!(rt; reversed_chain(&rt, rt.alloc(), 2896)?, None);
    Ok(())
}

/// A column of a profile's text: a first cell, and then the numbers up to a count, or as many zeros.
fn column(alloc: Global, first: &str, count: u32, rises: bool) -> Result<String, Fail> {
    let mut text = String::from_str(alloc, first)?;
    for place in 0..count {
        let comma = if text.is_empty() { "" } else { "," };
        let value = if rises { place } else { 0 };
        text.push_str(format!(in alloc; "{comma}{value}")?.as_str())?;
    }
    Ok(text)
}

/// A profile of a chain of distinct functions with a sample on each row.
fn chain_text(alloc: Global, count: u32) -> Result<String, Fail> {
    let names = column(alloc, "", count, false)?;
    let all = column(alloc, "", count, true)?;
    let prefixes = column(alloc, "null", count.saturating_sub(1), true)?;
    let text = format!(in alloc;
        "{{\"meta\":{{\"preprocessedProfileVersion\":47}},\"threads\":[{{\"stringArray\":[\"A\"],\"funcTable\":{{\"name\":[{names}]}},\"frameTable\":{{\"func\":[{all}]}},\"stackTable\":{{\"frame\":[{all}],\"prefix\":[{prefixes}]}},\"samples\":{{\"stack\":[{all}],\"time\":[{all}]}}}}]}}"
    )?;
    Ok(text)
}

/// The same out of layers.
fn inverted_chain<L: Ledger>(
    rt: &impl Abort,
    alloc: Global,
    count: u32,
    blank: Blank,
) -> Result<Option<usize>, Fail>
    requires name { blank.name ≡ L.name }
    requires parts { blank.parts ≡ L.parts }
    requires some { 0 < L.parts }
{
    let mut reads: Steps<L> = Steps::new(blank);
    let text = chain_text(alloc, count)?;
    let layers = Layers::new(alloc, thread_of(alloc, text.as_str())?);
    let view = View {
        thread: 0,
        ranges: Vec::new(alloc),
        transforms: Vec::new(alloc),
        implementation: Implementation::Combined,
        search: text_of(alloc, "")?,
    };
    Ok(count_of(rt, inverted(alloc, &layers, &view, &mut reads))?)
}

#[test]
fn an_inverted_tree_of_a_view_within_the_limit(rt: HostRuntime) -> Result<(), Fail> {
    let found = inverted_chain::<Brand>(&rt, rt.alloc(), 2895, Blank::new(1))?;
    assert_eq!(rt; found, Some(4_191_960));
    Ok(())
}

#[test]
fn an_inverted_tree_of_a_view_past_the_limit(rt: HostRuntime) -> Result<(), Fail> {
    let found = inverted_chain::<Brand>(&rt, rt.alloc(), 2896, Blank::new(1))?;
    assert_eq!(rt; found, None);
    Ok(())
}
