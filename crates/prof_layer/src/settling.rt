//! Other transforms settled in place of the present ones: the layers that both begin with stay.
ghost use Rattle.std.specs.Prelude.{◌≡◌, ◌<◌, ◌≤◌, ◌+◌, ◌-◌, ◌*◌, ◌↔◌, ℕ, None, ◌++◌, length, take, drop, All, IsTrue, OnOk};
ghost use Rattle.std.specs.Vec.Iter.{into_iter_items};
ghost use Rattle.prof_path.specs.declared.transform.Transform.{Transform};
ghost use Rattle.prof_path.specs.Refusals.{refusal_of};
ghost use Rattle.prof_layer.specs.Common.{IsCommon};

use crate::layers::Layers;
use prof_io::{NoMemory, Steps};
use prof_path::{FuncPath, SpanList, Transform};
use std::alloc::Global;
use std::sync::ledger::Ledger;
use std::vec::IntoIter;

/// Whether two paths are the same.
fn same_path(a: &FuncPath, b: &FuncPath) -> bool
    ensures { IsTrue result ↔ (a.now ≡ b.now) }
{
    a.as_slice() == b.as_slice()
}

/// Whether two transforms are the same: of one kind, with the same fields.
pub fn same(a: &Transform, b: &Transform) -> bool
    ensures { IsTrue result ↔ (a.now ≡ b.now) }
{
    use Transform::*;
    match a {
        MergeFunction { func } => matches!(b, MergeFunction { func: g } if func == g),
        MergeCallNode { filter, path } => {
            matches!(b, MergeCallNode { filter: j, path: q } if filter == j && same_path(path, q))
        }
        DropFunction { func } => matches!(b, DropFunction { func: g } if func == g),
        FocusSubtree {
            filter,
            path,
            inverted,
        } => {
            matches!(
                b,
                FocusSubtree { filter: j, path: q, inverted: v }
                    if filter == j && inverted == v && same_path(path, q)
            )
        }
        FocusFunction { func } => matches!(b, FocusFunction { func: g } if func == g),
        FocusCategory { category } => matches!(b, FocusCategory { category: c } if category == c),
        CollapseResource { filter, resource } => {
            matches!(b, CollapseResource { filter: j, resource: r } if filter == j && resource == r)
        }
        CollapseDirectRecursion { filter, func } => {
            matches!(b, CollapseDirectRecursion { filter: j, func: g } if filter == j && func == g)
        }
        CollapseRecursion { func } => matches!(b, CollapseRecursion { func: g } if func == g),
        CollapseFunctionSubtree { func } => {
            matches!(b, CollapseFunctionSubtree { func: g } if func == g)
        }
        FilterSamples { search } => {
            matches!(b, FilterSamples { search: s } if search.as_str() == s.as_str())
        }
    }
}

/// How many transforms both lists begin with.
fn common_len(a: &[Transform], b: &[Transform]) -> usize
    ensures common { IsCommon result a.now b.now }
    ensures longest { (k : ℕ) → IsCommon k a.now b.now → k ≤ result }
{
    let mut common = 0;
    while common < a.len() && common < b.len() && same(&a[common], &b[common]) {
        common += 1;
    }
    common
}

/// The lists from a place on.
fn spans_after(spans: Vec<SpanList>, count: usize) -> IntoIter<SpanList>
    requires { count ≤ length spans.items }
    ensures { into_iter_items result ≡ drop count spans.items }
{
    let mut rest = spans.into_iter();
    for _place in 0..count {
        rest.next();
    }
    rest
}

impl Layers {
    /// Takes the last transforms away, but for so many.
    fn keep(&mut self, count: usize)
        requires { count ≤ length self.old.settled }
        ensures settled { self.new.settled ≡ take count self.old.settled }
        ensures spans { self.new.spans ≡ take count self.old.spans }
        ensures base { self.new.base ≡ self.old.base }
    {
        let mut many = self.spans().len();
        while count < many {
            self.pop();
            many -= 1;
        }
    }

    /// Settles transforms more, each with its intervals.
    fn push_each<L: Ledger>(
        &mut self,
        alloc: Global,
        wanted: &[Transform],
        spans: IntoIter<SpanList>,
        reads: &mut Steps<L>,
    ) -> Result<(), NoMemory>
        requires checked { All (λ (t : Transform). refusal_of self.old.base.shared t ≡ None) wanted.now }
        requires count { length (into_iter_items spans) ≡ length wanted.now }
        ensures settled { OnOk result (self.new.settled ≡ self.old.settled ++ wanted.now) }
        ensures spans { OnOk result (self.new.spans ≡ self.old.spans ++ into_iter_items spans) }
        ensures front { (k : ℕ) × (k ≤ length wanted.now) × (self.new.settled ≡ self.old.settled ++ take k wanted.now) × (self.new.spans ≡ self.old.spans ++ take k (into_iter_items spans)) }
        ensures base { self.new.base ≡ self.old.base }
        ensures reads { reads.new ≤ reads.old + length wanted.now * length self.old.base.shared.stacks }
    {
        let mut rest = spans;
        for t in wanted {
            let Some(found) = rest.next() else {
                break;
            };
            // `top` says that it has no more rows than the base.
            let _count = self.top().count();
            self.push(alloc, t, found, reads)?;
        }
        Ok(())
    }

    /// Settles other transforms, each with its intervals. The layers that both lists begin with stay, the others are taken
    /// away, and the missing ones are pushed, which reads each row of the base once at most for each of these.
    pub fn settle<L: Ledger>(
        &mut self,
        alloc: Global,
        wanted: &[Transform],
        spans: Vec<SpanList>,
        reads: &mut Steps<L>,
    ) -> Result<(), NoMemory>
        requires checked { All (λ (t : Transform). refusal_of self.old.base.shared t ≡ None) wanted.now }
        requires count { length spans.items ≡ length wanted.now }
        requires same { (k : ℕ) → IsCommon k self.old.settled wanted.now → take k self.old.spans ≡ take k spans.items }
        ensures settled { OnOk result (self.new.settled ≡ wanted.now) }
        ensures spans { OnOk result (self.new.spans ≡ spans.items) }
        ensures front { self.new.settled ≡ take (length self.new.settled) wanted.now }
        ensures front_spans { self.new.spans ≡ take (length self.new.settled) spans.items }
        ensures kept { (k : ℕ) → IsCommon k self.old.settled wanted.now → k ≤ length self.new.settled }
        ensures base { self.new.base ≡ self.old.base }
        ensures reads { (k : ℕ) → IsCommon k self.old.settled wanted.now → reads.new ≤ reads.old + (length wanted.now - k) * length self.old.base.shared.stacks }
    {
        let common = common_len(self.settled(), wanted);
        self.keep(common);
        self.push_each(alloc, &wanted[common..], spans_after(spans, common), reads)
    }
}
