//! Layers brought to a list of transforms, each with its intervals.
ghost use Rattle.std.specs.Prelude.{◌≡◌, ◌+◌, ◌-◌, ◌*◌, ◌≤◌, None, ℕ, length, map, take, All, OnOk};
ghost use Rattle.prof_path.specs.declared.transform.Transform.{Transform};
ghost use Rattle.prof_path.specs.Refusals.{refusal_of};
ghost use Rattle.prof_machine.specs.Known.{intervals};
ghost use Rattle.prof_layer.specs.Common.{IsCommon};

use prof_io::{NoMemory, Steps};
use prof_layer::{Layers, same};
use prof_machine::intervals_of;
use prof_path::Transform;
use std::alloc::Global;
use std::sync::ledger::Ledger;

/// How many transforms both lists begin with.
fn common_len(a: &[Transform], b: &[Transform]) -> usize
    ensures common { IsCommon result a.now b.now }
    ensures longest { (k : ℕ) → IsCommon k a.now b.now → k ≤ result }
{
    let mut common = 0;
    while common < a.len() && common < b.len() && same(&a[common], &b[common]) {
        common += 1;
    }
    common
}

/// Takes the layers away past those of the transforms that `wanted` begins with.
pub(crate) fn cut(layers: &mut Layers, wanted: &[Transform])
    ensures front { layers.new.settled ≡ take (length layers.new.settled) wanted.now }
    ensures settled { layers.new.settled ≡ take (length layers.new.settled) layers.old.settled }
    ensures spans { layers.new.spans ≡ take (length layers.new.settled) layers.old.spans }
    ensures kept { (k : ℕ) → IsCommon k layers.old.settled wanted.now → k ≤ length layers.new.settled }
    ensures base { layers.new.base ≡ layers.old.base }
{
    let common = common_len(layers.settled(), wanted);
    let mut many = layers.spans().len();
    while common < many {
        layers.pop();
        many -= 1;
    }
}

/// Settles transforms, each with the intervals of the markers that it finds. Where memory runs out, no other layers are left
/// than some with which the transforms begin.
pub(crate) fn settle_on<L: Ledger>(
    alloc: Global,
    layers: &mut Layers,
    wanted: &[Transform],
    reads: &mut Steps<L>,
) -> Result<(), NoMemory>
    requires allowed { All (λ (t : Transform). refusal_of layers.old.base.shared t ≡ None) wanted.now }
    requires found { layers.old.spans ≡ map (intervals layers.old.base) layers.old.settled }
    ensures settled { OnOk result (layers.new.settled ≡ wanted.now) }
    ensures front { layers.new.settled ≡ take (length layers.new.settled) wanted.now }
    ensures kept { (k : ℕ) → IsCommon k layers.old.settled wanted.now → k ≤ length layers.new.settled }
    ensures found { layers.new.spans ≡ map (intervals layers.new.base) layers.new.settled }
    ensures base { layers.new.base ≡ layers.old.base }
    ensures few { OnOk result (length layers.new.top ≤ length layers.new.base.shared.stacks) }
    ensures reads { (k : ℕ) → IsCommon k layers.old.settled wanted.now → reads.new ≤ reads.old + (length wanted.now - k) * length layers.old.base.shared.stacks }
{
    cut(layers, wanted);
    let spans = intervals_of(alloc, layers.base(), wanted)?;
    layers.settle(alloc, wanted, spans, reads)?;
    // `top` says that it has no more rows than the base.
    let _count = layers.top().count();
    Ok(())
}
