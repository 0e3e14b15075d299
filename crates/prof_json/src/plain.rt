// Numbers that lie whole within a window, without a sign and without an exponent, as most are.
ghost use Rattle.std.specs.Prelude.{◌≡◌, ◌<◌, ◌≤◌, true, false, length, take, IfErr, Ok};
ghost use Rattle.prof_time.specs.Numeral.{IsInt};
ghost use Rattle.prof_json.specs.Parts.{behind};
ghost use Rattle.prof_json.specs.Step.{ReadsNumber};
ghost use Rattle.prof_token.specs.Numbers.{IsFractionText, IsPlain};

use crate::behind::may_follow;
use crate::{Bracket, JsonFault};
use prof_token::{Buffer, Input, digit_len};

/// How long the whole part of a number is that stands at the front, 0 where none does.
fn whole_len(bytes: &[u8]) -> usize
    ensures within { result ≤ length bytes.now }
    ensures whole { 0 < result → IsInt (take result bytes.now) }
{
    if bytes.is_empty() {
        return 0;
    }
    if bytes[0] == b'0' {
        return 1;
    }
    digit_len(bytes)
}

/// How long the fraction is that stands at the front, with its point, 0 where none does.
fn fraction_len(bytes: &[u8]) -> usize
    ensures within { result ≤ length bytes.now }
    ensures fraction { IsFractionText (take result bytes.now) }
{
    if bytes.is_empty() || bytes[0] != b'.' {
        return 0;
    }
    let digits = digit_len(&bytes[1..]);
    if digits == 0 {
        return 0;
    }
    digits + 1
}

/// How long the plain number is that stands at the front, 0 where none does.
fn number_len(bytes: &[u8]) -> usize
    ensures within { result ≤ length bytes.now }
    ensures plain { 0 < result → IsPlain (take result bytes.now) }
{
    let whole = whole_len(bytes);
    if whole == 0 {
        return 0;
    }
    whole + fraction_len(&bytes[whole..])
}

/// Reads a plain number with the bytes before it, of which so many stand ahead, where it and a byte that may stand behind
/// it lie whole within the window, and says whether they do. Else nothing is read.
pub fn read_plain_number(
    input: &mut Input,
    text: &mut Buffer,
    brackets: &[Bracket],
    before: usize,
) -> Result<bool, JsonFault>
    ensures number { result ≡ Ok true → ReadsNumber before (behind brackets.now) input.old text.old input.new text.new }
    ensures none { result ≡ Ok false → (input.new ≡ input.old) × (text.new ≡ text.old) }
    ensures err { IfErr result (λ fault. (fault ≡ JsonFault.NoMemory) × (input.new ≡ input.old)) }
{
    let ahead = input.ahead();
    if ahead.len() < before {
        return Ok(false);
    }
    let rest = &ahead[before..];
    let len = number_len(rest);
    if len == 0 || len == rest.len() || !may_follow(brackets, Some(rest[len])) {
        return Ok(false);
    }
    text.push(&rest[..len])?;
    input.pass(before + len);
    Ok(true)
}
