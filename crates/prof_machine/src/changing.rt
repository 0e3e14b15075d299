//! What a change makes of a view.
ghost use Rattle.std.specs.Prelude.{◌≡◌, ℕ, List, IfOk};
ghost use Rattle.prof_address.specs.Parts.{fresh};
ghost use Rattle.prof_machine.specs.Session.{at_of, changed_view};

use prof_io::{NoMemory, Text};
use prof_path::{Implementation, View};
use prof_request::Command;
use std::alloc::Global;

/// The view of a thread that changes nothing.
pub fn fresh(alloc: Global, thread: u32) -> View
    ensures { result ≡ fresh thread }
{
    View {
        thread,
        ranges: Vec::new(alloc),
        transforms: Vec::new(alloc),
        implementation: Implementation::Combined,
        search: Text::new(alloc),
    }
}

/// The version that a change is meant for.
pub fn at_of(command: &Command) -> u32
    ensures { result ≡ at_of command.now }
{
    use Command::*;
    match command {
        Push { at, .. }
        | PopTo { at, .. }
        | CommitRange { at, .. }
        | PopRangesTo { at, .. }
        | SetImplementation { at, .. }
        | SetSearch { at, .. }
        | Undo { at }
        | Redo { at }
        | Goto { at, .. } => *at,
        _ => 0,
    }
}

/// The view that a change other than a Goto makes of the present one.
pub fn changed_view(alloc: Global, view: &View, command: &Command) -> Result<View, NoMemory>
    requires { (at : ℕ) (address : List ℕ) → command.now ≡ Command.Goto at address → ⊥ }
    ensures { IfOk result (λ v. v ≡ changed_view view.now command.now) }
{
    let mut view = view.copy(alloc)?;
    match command {
        Command::Push { transform, .. } => view.transforms.push(transform.copy(alloc)?)?,
        Command::PopTo { n, .. } => view.transforms.truncate(*n as usize),
        Command::CommitRange { range, .. } => view.ranges.push(*range)?,
        Command::PopRangesTo { n, .. } => view.ranges.truncate(*n as usize),
        Command::SetImplementation { implementation, .. } => view.implementation = *implementation,
        Command::SetSearch { search, .. } => view.search = search.copy(alloc)?,
        _ => {}
    }
    Ok(view)
}
