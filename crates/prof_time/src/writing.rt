//! Numbers written as texts.
ghost use Rattle.std.specs.Prelude.{◌≡◌, [], ◌++◌, ◌+◌, ◌^◌, ◌<◌, ◌≤◌, length};
ghost use Rattle.prof_time.specs.Scaled.{IsScaled};
ghost use Rattle.prof_time.specs.Spelling.{IsSpelling, scaled_text, fraction_digits, with_point};

use arrayvec::ArrayString;
use itoa::Buffer;

/// Writes a number of which ten to the power `decimals` are one, as the shortest decimal text without exponent.
///
/// 1500000 with six decimals is `1.5`, -20 with one decimal is `-2`, and 5 with three is `0.005`.
pub fn write_scaled(n: i64, decimals: u32, out: &mut ArrayString<32>)
    requires few { decimals ≤ 6 }
    requires empty { out.old.bytes ≡ [] }
    ensures text { out.new.bytes ≡ scaled_text decimals n }
    ensures shortest { IsSpelling decimals n out.new.bytes }
    ensures reads_back { IsScaled out.new.bytes decimals n }
    ensures short { length out.new.bytes ≤ 28 }
{
    if n < 0 {
        out.push_str("-");
    }
    let size = n.unsigned_abs();
    let unit = 10u64.pow(decimals);
    let mut buffer = Buffer::new();
    out.push_str(buffer.format(size / unit));
    push_fraction(size % unit, decimals, out);
}

/// Appends a point and the digits of a fraction, `rest` out of ten to the power `places`, up to the last that isn't 0.
fn push_fraction(rest: u64, places: u32, out: &mut ArrayString<32>)
    requires few { places ≤ 6 }
    requires fraction { rest < 10 ^ places }
    requires room { length out.old.bytes ≤ 21 }
    ensures text { out.new.bytes ≡ out.old.bytes ++ with_point (fraction_digits places rest) }
    ensures short { length out.new.bytes ≤ length out.old.bytes + 7 }
{
    if rest > 0 {
        out.push_str(".");
        push_digits(rest, places, out);
    }
}

fn push_digits(rest: u64, places: u32, out: &mut ArrayString<32>)
    requires few { places ≤ 6 }
    requires fraction { rest < 10 ^ places }
    requires room { length out.old.bytes ≤ 22 }
    ensures text { out.new.bytes ≡ out.old.bytes ++ fraction_digits places rest }
    ensures short { length out.new.bytes ≤ length out.old.bytes + places }
{
    let mut rest = rest;
    let mut places = places;
    while rest > 0 {
        places -= 1;
        let weight = 10u64.pow(places);
        let digit = b'0' + (rest / weight) as u8;
        out.push(char::from(digit));
        rest %= weight;
    }
}
