//! Short texts.
ghost use Rattle.std.specs.Prelude.{◌≡◌, ◌≤◌, ◌+◌, ◌++◌, length};
ghost use Rattle.arrayvec.specs.ArrayString.{array_string_len};
ghost use Rattle.prof_time.specs.Spelling.{scaled_text};

use arrayvec::ArrayString;
use itoa::{Buffer, Integer};
use prof_time::write_scaled;

/// The longest line but for a name: five numbers of at most 40 digits, and the words between.
const ROOM: usize = 256;

pub type Line = ArrayString<ROOM>;

/// Appends a number, and what stands behind it.
pub fn push_number<I: Integer>(line: &mut Line, n: I, behind: &str)
    requires { array_string_len line.old + 40 + length behind.now ≤ ROOM }
    ensures text { line.new.bytes ≡ line.old.bytes ++ (I.text n ++ behind.now) }
    ensures short { array_string_len line.new ≤ array_string_len line.old + 40 + length behind.now }
{
    let mut buffer = Buffer::new();
    line.push_str(buffer.format(n));
    line.push_str(behind);
}

/// A number alone.
pub fn number_line<I: Integer>(n: I) -> Line
    ensures { result.bytes ≡ I.text n }
{
    let mut line = ArrayString::new();
    let mut buffer = Buffer::new();
    line.push_str(buffer.format(n));
    line
}

/// A number of which ten to the power `decimals` are one.
pub fn scaled_line(n: i64, decimals: u32) -> Line
    requires { decimals ≤ 6 }
    ensures { result.bytes ≡ scaled_text decimals n }
{
    let mut text = ArrayString::new();
    write_scaled(n, decimals, &mut text);
    let mut line = ArrayString::new();
    line.push_str(text.as_str());
    line
}
