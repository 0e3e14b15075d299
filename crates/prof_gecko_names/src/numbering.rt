//! Keys numbered by their first use.
ghost use Rattle.std.specs.Prelude.{◌≡◌, ◌<◌, ◌^◌, length, IfOk};
ghost use Rattle.prof_gecko_names.specs.FirstUses.{numbered};

use indexmap::IndexSet;
use prof_io::NoMemory;
use std::alloc::Global;
use std::hash::Hash;

/// The number of each row's key, and the row where each number was first used.
#[derive(Drop)]
pub struct Numbering {
    pub rows: Vec<u32>,
    pub numbers: Vec<u32>,
}

/// Numbers keys by their first use, in one pass.
#[tactic(auto, using(std::proofs::lemmas::List::Sums::fold_more))]
pub fn number_by_first_use<K: Eq + Hash + Copy + Drop>(
    alloc: Global,
    keys: &[K],
) -> Result<Numbering, NoMemory>
    requires { length keys.now < 2 ^ 32 }
    ensures rows { IfOk result (λ n. n.rows.items ≡ (numbered K.eq keys.now).rows) }
    ensures numbers { IfOk result (λ n. n.numbers.items ≡ (numbered K.eq keys.now).numbers) }
{
    let mut uses = IndexSet::new(alloc);
    let mut rows = Vec::new(alloc);
    let mut numbers = Vec::with_capacity(alloc, keys.len())?;
    for key in keys {
        let row = numbers.len() as u32;
        let (number, is_new) = uses.insert_full(*key)?;
        if is_new {
            rows.push(row)?;
        }
        numbers.push(number as u32)?;
    }
    Ok(Numbering { rows, numbers })
}
