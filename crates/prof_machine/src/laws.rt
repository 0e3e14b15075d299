//! Laws of the machine.
ghost use Rattle.std.specs.Prelude.{◌≡◌, ◌↔◌, true};
ghost use Rattle.prof_request.specs.declared.request.Command.{Command};
ghost use Rattle.prof_machine.specs.Session.{is_change, same_change};

/// The test says which changes are equal. This function does nothing: its contract is the law.
pub fn same_changes()
    ensures same { (c d : Command) → same_change c d ≡ true → c ≡ d }
    ensures own { (c : Command) → is_change c ≡ true → same_change c c ≡ true }
{}
