// Escapes of strings.
ghost use Rattle.std.specs.Prelude.{◌≡◌, ◌<◌, ◌≤◌, ℕ, ◌+◌, ◌*◌, List, [], ◌∷◌, true, Option, is_some, IfOk, IfErr, IfSome, OnOk};
ghost use Rattle.std.specs.Char.{is_ascii_hexdigit, digit_value};
ghost use Rattle.std.specs.Char.Utf16.{is_high_surrogate, is_low_surrogate, surrogate_pair_char, lone_unit_char};
ghost use Rattle.std.specs.Option.{unwrap_or};
ghost use Rattle.prof_grammar.specs.Machine.{Part, Role, chars, hex, nothing, escaped, settled, add_first, add_unit, with_unit, with_hex};
ghost use Rattle.prof_grammar.specs.Reading.{max_depth};
ghost use Rattle.prof_grammar.specs.Told.{depth};
ghost use Rattle.prof_io.specs.Outside.{seen};
ghost use Rattle.prof_token.specs.Ahead.{IsNext};
ghost use Rattle.prof_token.specs.Goes.{Goes};
ghost use Rattle.prof_token.specs.Writes.{Writes, IsUnit, silent, shown_of, value_of};
ghost use Rattle.prof_token.specs.Kept.{Kept, Gains};
ghost use Rattle.prof_token.specs.Moves.{Moves, fault_of};

use crate::JsonFault;
use crate::buffer::Buffer;
use crate::input::Input;
use prof_io::Source;

/// The character that a backslash and this letter stand for.
pub fn short_escape(letter: u8) -> Option<char>
    ensures { result ≡ escaped letter }
{
    match letter {
        b'"' => Some('"'),
        b'\\' => Some('\\'),
        b'/' => Some('/'),
        b'b' => Some('\u{8}'),
        b'f' => Some('\u{C}'),
        b'n' => Some('\n'),
        b'r' => Some('\r'),
        b't' => Some('\t'),
        _ => None,
    }
}

/// The value of a hexadecimal digit.
pub fn hex_value(byte: u8) -> Option<u16>
    ensures test { is_some result ≡ is_ascii_hexdigit byte }
    ensures value { IfSome result (λ v. (v ≡ digit_value byte) × (v < 16)) }
{
    match byte {
        b'0'..=b'9' => Some((byte - b'0') as u16),
        b'a'..=b'f' => Some((byte - b'a') as u16 + 10),
        b'A'..=b'F' => Some((byte - b'A') as u16 + 10),
        _ => None,
    }
}

/// Whether the unit is the first of a pair.
pub fn is_high(unit: u16) -> bool
    ensures { result ≡ is_high_surrogate unit }
{
    unit >= 0xD800 && unit < 0xDC00
}

/// Whether the unit is the second of a pair.
pub fn is_low(unit: u16) -> bool
    ensures { result ≡ is_low_surrogate unit }
{
    unit >= 0xDC00 && unit < 0xE000
}

/// The character of a pair.
pub fn pair_char(high: u16, low: u16) -> char
    requires high { is_high_surrogate high ≡ true }
    requires low { is_low_surrogate low ≡ true }
    ensures { result ≡ surrogate_pair_char high low }
{
    let code = 0x1_0000 + (high - 0xD800) as u32 * 0x400 + (low - 0xDC00) as u32;
    char::from_u32(code).unwrap_or('\u{FFFD}')
}

/// The character of a unit that is in no pair.
fn lone_char(unit: u16) -> char
    ensures { result ≡ unwrap_or (lone_unit_char unit) 0xFFFD }
{
    char::from_u32(unit as u32).unwrap_or('\u{FFFD}')
}

/// Adds what stands for a high surrogate that waits in vain for its partner.
pub fn push_lone(text: &mut Buffer, high: Option<u16>) -> Result<(), JsonFault>
    ensures err { IfErr result (λ fault. fault ≡ JsonFault.NoMemory) }
    ensures text { OnOk result ((begun : Kept) (s : List ℕ) → Gains begun s text.old → Gains begun (settled s high) text.new) }
{
    match high {
        None => Ok(()),
        Some(_) => text.push_char('\u{FFFD}'),
    }
}

/// Adds the unit of a `\u` that is the second of no pair. Gives it where it waits for its partner.
fn push_unpaired(text: &mut Buffer, high: Option<u16>, unit: u16) -> Result<Option<u16>, JsonFault>
    ensures waits { IfOk result (λ o. IfSome o (λ u. is_high_surrogate u ≡ true)) }
    ensures err { IfErr result (λ fault. fault ≡ JsonFault.NoMemory) }
    ensures text { IfOk result (λ o. (begun : Kept) (s : List ℕ) → Gains begun s text.old → IsUnit begun (add_first (settled s high) unit) text.new o) }
{
    push_lone(text, high)?;
    if is_high(unit) {
        return Ok(Some(unit));
    }
    text.push_char(lone_char(unit))?;
    Ok(None)
}

/// Adds the unit of a `\u`, behind a high surrogate that waits for its partner. Gives the one that waits then.
pub fn push_unit(text: &mut Buffer, high: Option<u16>, unit: u16) -> Result<Option<u16>, JsonFault>
    requires { IfSome high (λ u. is_high_surrogate u ≡ true) }
    ensures waits { IfOk result (λ o. IfSome o (λ u. is_high_surrogate u ≡ true)) }
    ensures err { IfErr result (λ fault. fault ≡ JsonFault.NoMemory) }
    ensures text { IfOk result (λ o. (begun : Kept) (s : List ℕ) → Gains begun s text.old → IsUnit begun (add_unit s high unit) text.new o) }
{
    match high {
        Some(first) if is_low(unit) => {
            text.push_char(pair_char(first, unit))?;
            Ok(None)
        }
        _ => push_unpaired(text, high, unit),
    }
}

/// Reads a hexadecimal digit.
fn read_hex<S: Source>(input: &mut Input, src: &mut S) -> Result<u16, JsonFault>
    ensures moves { Moves (fault_of result) input.old (seen S.Counted src.old) input.new (seen S.Counted src.new) }
    ensures small { IfOk result (λ v. v < 16) }
    ensures exact { (k : Role) (s : List ℕ) (p : Option ℕ) (n v : ℕ) (ps : List Part) → depth ps ≤ max_depth →
        Goes (fault_of result) input.old (S.left src.old) (chars k s p (hex n v) ∷ ps) [] input.new (S.left src.new) (with_hex k s p n (v * 16 + value_of result) ∷ ps) }
{
    let byte = input.need(src)?;
    match hex_value(byte) {
        None => Err(input.wrong()),
        Some(digit) => {
            input.pass(1);
            Ok(digit)
        }
    }
}

/// Reads the four digits of a `\u`.
fn read_unit<S: Source>(input: &mut Input, src: &mut S) -> Result<u16, JsonFault>
    ensures moves { Moves (fault_of result) input.old (seen S.Counted src.old) input.new (seen S.Counted src.new) }
    ensures exact { (k : Role) (s : List ℕ) (p : Option ℕ) (ps : List Part) → depth ps ≤ max_depth →
        Goes (fault_of result) input.old (S.left src.old) (chars k s p (hex 3 0) ∷ ps) [] input.new (S.left src.new) (with_unit k s p (value_of result) ∷ ps) }
{
    let a = read_hex(input, src)?;
    let b = read_hex(input, src)?;
    let c = read_hex(input, src)?;
    let d = read_hex(input, src)?;
    Ok(a * 4096 + b * 256 + c * 16 + d)
}

/// Reads an escape, whose backslash is shown, behind a high surrogate that waits for its partner. Gives the one that
/// waits then.
pub fn read_escape<S: Source>(
    input: &mut Input,
    src: &mut S,
    text: &mut Buffer,
    high: Option<u16>,
) -> Result<Option<u16>, JsonFault>
    requires next { IsNext 92 input.old }
    requires high { IfSome high (λ u. is_high_surrogate u ≡ true) }
    ensures moves { Moves (fault_of result) input.old (seen S.Counted src.old) input.new (seen S.Counted src.new) }
    ensures waits { IfOk result (λ o. IfSome o (λ u. is_high_surrogate u ≡ true)) }
    ensures further { OnOk result (input.old.place < input.new.place) }
    ensures exact { (begun : Kept) (k : Role) (s : List ℕ) (ps : List Part) → Gains begun s text.old → depth ps ≤ max_depth →
        Writes (fault_of result) begun input.old (S.left src.old) (chars k s high nothing ∷ ps) silent input.new (S.left src.new) text.new (λ t. chars k t (shown_of result) nothing ∷ ps) }
{
    input.pass(1);
    let letter = input.need(src)?;
    if letter == b'u' {
        input.pass(1);
        let unit = read_unit(input, src)?;
        return push_unit(text, high, unit);
    }
    match short_escape(letter) {
        None => Err(input.wrong()),
        Some(c) => {
            input.pass(1);
            push_lone(text, high)?;
            text.push_char(c)?;
            Ok(None)
        }
    }
}
