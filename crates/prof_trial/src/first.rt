//! The first lines of texts.
ghost use Rattle.std.specs.Prelude.{◌≡◌, ◌≤◌, length, take};
ghost use Rattle.prof_io.specs.Outside.{seen};
ghost use Rattle.prof_io.specs.Sinks.{Wrote};
ghost use Rattle.prof_trial.specs.Firsts.{first_line};

use prof_io::{OutFault, Sink, copy_out};

/// How long the first line of a text is, with its line feed.
fn first_len(text: &[u8]) -> usize
    ensures within { result ≤ length text.now }
    ensures line { take result text.now ≡ first_line text.now }
{
    let mut len = 0;
    while len < text.len() {
        if text[len] == b'\n' {
            return len + 1;
        }
        len += 1;
    }
    len
}

/// Writes the first line of a text.
pub(crate) fn write_first<S: Sink>(out: &mut S, text: &[u8]) -> Result<(), OutFault>
    ensures { Wrote (seen S.Counted out.old) (seen S.Counted out.new) result (first_line text.now) }
{
    copy_out(out, &text[..first_len(text)])
}
