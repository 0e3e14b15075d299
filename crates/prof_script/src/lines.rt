//! The lines of a script.
ghost use Rattle.std.specs.Prelude.{◌≡◌, ◌≤◌, ◌+◌, ◌++◌, drop, length, take};
ghost use Rattle.prof_script.specs.Lines.{lines, some_line};

/// Where the first line of a text ends: at its first line feed, or at its end.
pub fn line_len(text: &[u8]) -> usize
    ensures within { result ≤ length text.now }
    ensures lines { lines text.now ≡ some_line (take result text.now) ++ lines (drop (result + 1) text.now) }
{
    let mut len = 0;
    while len < text.len() && text[len] != b'\n' {
        len += 1;
    }
    len
}

/// What stands before a place of a text.
pub fn front(text: &[u8], len: usize) -> &[u8]
    requires { len ≤ length text.now }
    ensures { result.now ≡ take len text.now }
{
    &text[..len]
}

/// What stands behind the byte at a place of a text.
pub fn behind(text: &[u8], len: usize) -> &[u8]
    requires { len ≤ length text.now }
    ensures { result.now ≡ drop (len + 1) text.now }
{
    if len < text.len() {
        &text[len + 1..]
    } else {
        &text[len..]
    }
}
