//! Whether a change is the last one.
ghost use Rattle.std.specs.Prelude.{◌≡◌, true};
ghost use Rattle.prof_machine.specs.Session.{is_change, is_last};

use prof_request::Command;

/// Whether a change is the last one that was accepted.
pub fn is_last(last: &Option<Command>, command: &Command) -> bool
    requires { is_change command.now ≡ true }
    ensures { result ≡ is_last last.now command.now }
{
    match last {
        Some(last) => last.is_same(command),
        None => false,
    }
}
