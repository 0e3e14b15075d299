//! The stack rows that stand at the nodes of a tree of reversed paths.
ghost use Rattle.std.specs.Prelude.{unsigned_abs, ◌^◌, ◌≡◌, ◌≢◌, ◌+◌, ◌*◌, ◌<◌, ◌≤◌, ◌==◌, ◌++◌, ◌∷◌, [], ℕ, List, length, replicate, Option, IfOk, OnOk, if◌then◌else◌};
ghost use Rattle.prof_tables.specs.Paths.{PrefixesBelow};
ghost use Rattle.prof_tables.specs.declared.rows.Step.{Step};
ghost use Rattle.prof_view_tree.specs.Groups.{AreEntries, Joins, bulk, bundle, group_at, rest_path};
ghost use Rattle.prof_view_tree.specs.Weighing.{AreAlike, back_path, held, mass};

use crate::row_weight::RowWeight;
use prof_tables::StackRow;
use std::alloc::{AllocError, Global};
use std::mem;

/// A stack row, and the weight of the samples whose paths, read from their leaves, come to it at a node.
#[derive(Clone, Copy, Debug)]
pub struct Entry {
    pub row: u32,
    pub weight: i128,
}

/// The rows that have a weight.
pub fn entries_of(alloc: Global, own: &[RowWeight]) -> Result<Vec<Entry>, AllocError>
    requires few { length own.now < 2 ^ 32 }
    requires light { mass own.now ≤ 8388608 * 9223372036854775808 }
    ensures paths { IfOk result (λ es. (path_at : ℕ → List Step) → bundle path_at es.items ≡ held path_at 0 own.now) }
    ensures entries { IfOk result (λ es. AreEntries (length own.now) es.items) }
{
    let mut entries = Vec::new(alloc);
    for (place, weight) in own.iter().enumerate() {
        if let Some(weight) = weight.get() {
            entries.push(Entry {
                row: place as u32,
                weight,
            })?;
        }
    }
    Ok(entries)
}

/// Adds a row with a weight: to the entry of the same row, or as a new one. `seats` says for each row where its entry may
/// be.
fn join(
    entries: &mut Vec<Entry>,
    seats: &mut [usize],
    row: u32,
    weight: i128,
) -> Result<(), AllocError>
    requires row { row < length seats.old }
    requires light { bulk entries.old.items + unsigned_abs weight ≤ 8388608 * 9223372036854775808 }
    ensures { OnOk result (Joins entries.old.items row weight entries.new.items) }
{
    let seat = seats[row as usize];
    if seat < entries.len() && entries[seat].row == row {
        entries[seat].weight += weight;
        return Ok(());
    }
    seats[row as usize] = entries.len();
    entries.push(Entry { row, weight })?;
    Ok(())
}

/// The prefixes of the rows of a group, each once, with their weights together.
pub fn prefixes_of(
    alloc: Global,
    stacks: &[StackRow],
    group: &[Entry],
    seats: &mut [usize],
) -> Result<Vec<Entry>, AllocError>
    requires below { PrefixesBelow stacks.now }
    requires seats { length seats.old ≡ length stacks.now }
    requires entries { AreEntries (length stacks.now) group.now }
    ensures paths { IfOk result (λ es. AreAlike (bundle (rest_path stacks.now) group.now) (bundle (back_path stacks.now) es.items)) }
    ensures entries { IfOk result (λ es. AreEntries (length stacks.now) es.items) }
{
    let mut above = Vec::new(alloc);
    for entry in group {
        if let Some(prefix) = stacks[entry.row as usize].prefix {
            join(&mut above, seats, prefix, entry.weight)?;
        }
    }
    Ok(above)
}

/// Puts an entry to the group of a node, which may be new.
pub fn stand(
    alloc: Global,
    groups: &mut Vec<Vec<Entry>>,
    node: u32,
    entry: Entry,
) -> Result<(), AllocError>
    requires { node ≤ length groups.old.items }
    ensures len { OnOk result (length groups.new.items ≡ (if node == length groups.old.items then node + 1 else length groups.old.items)) }
    ensures here { OnOk result (group_at groups.new.items node ≡ group_at groups.old.items node ++ entry ∷ []) }
    ensures others { OnOk result ((q : ℕ) → q ≢ node → group_at groups.new.items q ≡ group_at groups.old.items q) }
{
    if node as usize == groups.len() {
        groups.push(Vec::new(alloc))?;
    }
    groups[node as usize].push(entry)?;
    Ok(())
}

/// Takes the group of a node away, and leaves an empty one.
pub fn take_group(alloc: Global, groups: &mut Vec<Vec<Entry>>, node: usize) -> Vec<Entry>
    requires { node < length groups.old.items }
    ensures here { result.items ≡ group_at groups.old.items node }
    ensures len { length groups.new.items ≡ length groups.old.items }
    ensures others { (q : ℕ) → q ≢ node → group_at groups.new.items q ≡ group_at groups.old.items q }
{
    mem::replace(&mut groups[node], Vec::new(alloc))
}

/// A seat for each row.
pub fn no_seats(alloc: Global, count: usize) -> Result<Vec<usize>, AllocError>
    ensures { IfOk result (λ seats. seats.items ≡ replicate count 0) }
{
    vec![in alloc; 0; count]
}
