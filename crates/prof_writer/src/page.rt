//! Strings on a page that is put together before it is written.
ghost use Rattle.std.specs.Prelude.{◌≡◌, ◌≤◌, ◌+◌, ◌++◌, ◌↔◌, IsTrue, length};
ghost use Rattle.std.specs.Bool.{OnTrue, OnFalse};
ghost use Rattle.std.specs.List.{list_all};
ghost use Rattle.arrayvec.specs.ArrayString.{array_string_len};
ghost use Rattle.prof_writer.specs.Writing.{is_plain, quoted};

use crate::escaping::is_escaped;
use arrayvec::ArrayString;

/// Whether none of the bytes is escaped.
fn is_plain_text(bytes: &[u8]) -> bool
    ensures { result ≡ list_all is_plain bytes.now }
{
    bytes.iter().all(|byte| !is_escaped(*byte))
}

/// Appends a string in quotation marks, where it fits and none of its bytes is escaped, and says whether it did. Else the
/// page stays.
pub fn push_unescaped<const N: usize>(page: &mut ArrayString<N>, text: &str) -> bool
    ensures fits { IsTrue result ↔ (IsTrue (list_all is_plain text.now) × (array_string_len page.old + length text.now + 2 ≤ N)) }
    ensures pushed { OnTrue result (page.new.bytes ≡ page.old.bytes ++ quoted text.now) }
    ensures longer { OnTrue result (array_string_len page.new ≡ array_string_len page.old + length text.now + 2) }
    ensures stays { OnFalse result (page.new ≡ page.old) }
{
    let room = page.remaining_capacity();
    if room < 2 || room - 2 < text.len() || !is_plain_text(text.as_bytes()) {
        return false;
    }
    page.push_str("\"");
    page.push_str(text);
    page.push_str("\"");
    true
}
