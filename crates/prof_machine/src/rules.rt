//! Why changes, addresses and kept views are refused.
ghost use Rattle.std.specs.Prelude.{◌≡◌, ◌<◌, ◌≤◌, ◌||◌, ◌∷◌, [], length, map, nat_lt, nat_le, Some, None, true, false, ℕ, List};
ghost use Rattle.std.specs.List.{list_any};
ghost use Rattle.prof_path.specs.Terms.{is_long_search};
ghost use Rattle.prof_machine.specs.Machine.{first_of, when, refused_by, transform_refusal, has_long_search, is_past, is_bad_range, view_refusal, content_refusal};

use crate::known::KnownProfile;
use crate::refusal::Refusal;
use prof_path::{PushRefusal, Range, Transform, View, check_rules, is_long_search};
use prof_request::Command;
use prof_tables::Thread;

/// The most transforms of a view.
const MOST_TRANSFORMS: usize = 32;

/// The most ranges of a view.
const MOST_RANGES: usize = 16;

/// The least and the greatest time.
const LEAST_TIME: i64 = -9_000_000_000_000_000_000;

const GREATEST_TIME: i64 = 9_000_000_000_000_000_000;

/// The refusal of a transform that breaks a rule.
fn refused_by(rule: PushRefusal) -> Refusal
    ensures { result ≡ refused_by rule }
{
    match rule {
        PushRefusal::FuncOut { func } => Refusal::FuncOut { func },
        PushRefusal::ResourceOut { resource } => Refusal::ResourceOut { resource },
        PushRefusal::CategoryOut { category } => Refusal::CategoryOut { category },
        PushRefusal::EmptyPath => Refusal::EmptyPath,
        PushRefusal::LongPath { length } => Refusal::LongPath { length },
        PushRefusal::LongSearch => Refusal::LongSearch,
    }
}

/// Why a transform doesn't fit a thread, its search aside.
fn transform_refusal(thread: &Thread, t: &Transform) -> Option<Refusal>
    ensures { result ≡ transform_refusal thread.now t.now }
{
    match check_rules(t, thread) {
        Ok(()) => None,
        Err(rule) => Some(refused_by(rule)),
    }
}

/// Why the first transform that doesn't fit a thread doesn't.
fn transforms_refusal(thread: &Thread, transforms: &[Transform]) -> Option<Refusal>
    ensures { result ≡ first_of (map (transform_refusal thread.now) transforms.now) }
{
    for t in transforms {
        if let Some(refusal) = transform_refusal(thread, t) {
            return Some(refusal);
        }
    }
    None
}

/// Whether a transform has a search that is too long.
fn has_long_search(t: &Transform) -> bool
    ensures { result ≡ has_long_search t.now }
{
    match t {
        Transform::FilterSamples { search } => is_long_search(search.as_str()),
        _ => false,
    }
}

fn has_long_among(transforms: &[Transform]) -> bool
    ensures { result ≡ list_any has_long_search transforms.now }
{
    transforms.iter().any(has_long_search)
}

/// Whether a view has a search that is too long, in a transform or of its own.
fn has_long_searches(view: &View) -> bool
    ensures { result ≡ (is_long_search view.now.search || list_any has_long_search view.now.transforms) }
{
    is_long_search(view.search.as_str()) || has_long_among(&view.transforms)
}

fn is_past(n: i64) -> bool
    ensures { result ≡ is_past n }
{
    n < LEAST_TIME || GREATEST_TIME < n
}

fn is_bad_range(range: &Range) -> bool
    ensures { result ≡ is_bad_range range.now }
{
    range.end < range.start || is_past(range.start) || is_past(range.end)
}

fn has_bad_range(ranges: &[Range]) -> bool
    ensures { result ≡ list_any is_bad_range ranges.now }
{
    ranges.iter().any(is_bad_range)
}

/// The first rule that a view breaks at a profile.
pub fn view_refusal(known: &KnownProfile, view: &View) -> Option<Refusal>
    ensures { result ≡ view_refusal known.now view.now }
{
    let threads = known.count();
    if view.thread >= threads {
        return Some(Refusal::NoThread { threads });
    }
    let of_transforms = transforms_refusal(known.thread(view.thread), &view.transforms);
    if of_transforms.is_some() {
        return of_transforms;
    }
    if view.transforms.len() > MOST_TRANSFORMS {
        return Some(Refusal::TooManyTransforms);
    }
    if has_bad_range(&view.ranges) {
        return Some(Refusal::BadRange);
    }
    if view.ranges.len() > MOST_RANGES {
        return Some(Refusal::TooManyRanges);
    }
    if has_long_searches(view) {
        return Some(Refusal::LongSearch);
    }
    None
}

/// Why a transform isn't pushed at a view.
fn push_refusal(thread: &Thread, view: &View, t: &Transform) -> Option<Refusal>
    ensures { result ≡ first_of (
        transform_refusal thread.now t.now
        ∷ when (nat_le 32 (length view.now.transforms)) Refusal.TooManyTransforms
        ∷ when (has_long_search t.now) Refusal.LongSearch
        ∷ []) }
{
    let of_transform = transform_refusal(thread, t);
    if of_transform.is_some() {
        return of_transform;
    }
    if view.transforms.len() >= MOST_TRANSFORMS {
        return Some(Refusal::TooManyTransforms);
    }
    if has_long_search(t) {
        return Some(Refusal::LongSearch);
    }
    None
}

/// Why a range isn't committed at a view.
fn range_refusal(view: &View, range: &Range) -> Option<Refusal>
    ensures { result ≡ first_of (
        when (is_bad_range range.now) Refusal.BadRange
        ∷ when (nat_le 16 (length view.now.ranges)) Refusal.TooManyRanges
        ∷ []) }
{
    if is_bad_range(range) {
        return Some(Refusal::BadRange);
    }
    if view.ranges.len() >= MOST_RANGES {
        return Some(Refusal::TooManyRanges);
    }
    None
}

/// Why a list of so many isn't cut to n.
fn cut_refusal(depth: usize, n: u32) -> Option<Refusal>
    requires few { depth ≤ 32 }
    ensures { result ≡ when (nat_lt depth n) (Refusal.DepthOut depth) }
{
    if depth < n as usize {
        return Some(Refusal::DepthOut {
            depth: depth as u32,
        });
    }
    None
}

/// Why a change other than a Goto is refused for what it says, at an accepted view, where the present place is `place` of
/// `count`.
pub fn content_refusal(
    known: &KnownProfile,
    view: &View,
    place: usize,
    count: usize,
    command: &Command,
) -> Option<Refusal>
    requires accepted { view_refusal known.now view.now ≡ None }
    requires other { (at : ℕ) (address : List ℕ) → command.now ≡ Command.Goto at address → ⊥ }
    requires within { place < count }
    ensures { result ≡ content_refusal known.now view.now place count command.now }
{
    match command {
        Command::Push { transform, .. } => {
            push_refusal(known.thread(view.thread), view, transform)
        }
        Command::PopTo { n, .. } => cut_refusal(view.transforms.len(), *n),
        Command::CommitRange { range, .. } => range_refusal(view, range),
        Command::PopRangesTo { n, .. } => cut_refusal(view.ranges.len(), *n),
        Command::SetSearch { search, .. } if is_long_search(search.as_str()) => {
            Some(Refusal::LongSearch)
        }
        Command::Undo { .. } if place == 0 => Some(Refusal::NothingToUndo),
        Command::Redo { .. } if place + 1 >= count => Some(Refusal::NothingToRedo),
        _ => None,
    }
}
