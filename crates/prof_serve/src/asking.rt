//! The lines of the requests that messages ask for.
ghost use Rattle.std.specs.Prelude.{◌≡◌, IfOk};
ghost use Rattle.prof_serve.specs.Errands.{request_line};

use prof_io::NoMemory;
use std::alloc::Global;

/// The line of a request: the session, the command, and the body of the message, if there is one.
pub fn request_line(
    alloc: Global,
    session: &str,
    command: &str,
    body: &[u8],
) -> Result<Vec<u8>, NoMemory>
    ensures { IfOk result (λ line. line.items ≡ request_line session.now command.now body.now) }
{
    let mut line = Vec::new(alloc);
    line.extend_from_slice(session.as_bytes())?;
    line.push(b' ')?;
    line.extend_from_slice(command.as_bytes())?;
    if !body.is_empty() {
        line.push(b' ')?;
        line.extend_from_slice(body)?;
    }
    Ok(line)
}
