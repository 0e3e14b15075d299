// Strings.
ghost use Rattle.std.specs.Prelude.{◌≡◌, ◌≢◌, ℕ, ◌<◌, ◌≤◌, ◌⊎◌, List, [], ◌∷◌, ◌++◌, true, Option, None, length, IfOk, IfErr, IfSome, OnOk, Ok, false};
ghost use Rattle.std.specs.Char.Utf16.{is_high_surrogate};
ghost use Rattle.prof_io.specs.Outside.{seen};
ghost use Rattle.prof_token.specs.Ahead.{IsNext, Passes};
ghost use Rattle.prof_token.specs.Bytes as bytes_spec;
ghost use Rattle.prof_grammar.specs.Machine.{Part, Role, Tail, chars, nothing, lead, told, settled, tail_low, tail_high, tail_next, with_byte};
ghost use Rattle.prof_grammar.specs.Reading.{max_depth};
ghost use Rattle.prof_grammar.specs.Told.{depth};
ghost use Rattle.prof_token.specs.Goes.{Goes};
ghost use Rattle.prof_token.specs.Writes.{Writes, ReadsString, silent, shown_of, value_of};
ghost use Rattle.prof_token.specs.Kept.{Kept, Gains};
ghost use Rattle.prof_token.specs.Own.{Owns};
ghost use Rattle.prof_token.specs.Moves.{Moves, fault_of};

use crate::JsonFault;
use crate::buffer::Buffer;
use crate::escape::{push_lone, read_escape};
use crate::input::Input;
use crate::scan::plain_len;
use prof_io::Source;

/// Reads a run of plain bytes, of which the first is shown.
fn read_plain(input: &mut Input, text: &mut Buffer, first: u8) -> Result<(), JsonFault>
    requires next { IsNext first input.old }
    requires ascii { (first < 128) × (first ≢ 34) × (first ≢ 92) }
    ensures run { OnOk result ((n : ℕ) × (0 < n) × Passes n input.old input.new) }
    ensures err { IfErr result (λ fault. (input.new ≡ input.old) × ((fault ≡ JsonFault.NoMemory) ⊎ (fault ≡ JsonFault.NotJson input.old.place))) }
    ensures exact { (left : Option (List ℕ)) (begun : Kept) (k : Role) (s : List ℕ) (p : Option ℕ) (ps : List Part) → Gains begun (settled s p) text.old → depth ps ≤ max_depth →
        Writes (fault_of result) begun input.old left (chars k s p nothing ∷ ps) silent input.new left text.new (λ t. chars k t None nothing ∷ ps) }
{
    let ahead = input.ahead();
    let run = plain_len(ahead);
    if run == 0 {
        return Err(input.wrong());
    }
    text.push(&ahead[..run])?;
    input.pass(run);
    Ok(())
}

/// The least byte that may stand behind this one, where a character of three bytes or four begins.
fn second_low(first: u8) -> u8
    ensures { result ≡ bytes_spec.second_low first }
{
    match first {
        0xE0 => 0xA0,
        0xF0 => 0x90,
        _ => 0x80,
    }
}

/// The greatest byte that may stand behind this one, where a character of three bytes or four begins.
fn second_high(first: u8) -> u8
    ensures { result ≡ bytes_spec.second_high first }
{
    match first {
        0xED => 0x9F,
        0xF4 => 0x8F,
        _ => 0xBF,
    }
}

/// Reads a byte that stands between two others.
fn read_between<S: Source>(
    input: &mut Input,
    src: &mut S,
    low: u8,
    high: u8,
) -> Result<u8, JsonFault>
    ensures moves { Moves (fault_of result) input.old (seen S.Counted src.old) input.new (seen S.Counted src.new) }
    ensures between { IfOk result (λ b. (low ≤ b) × (b ≤ high)) }
    ensures further { OnOk result (input.old.place < input.new.place) }
    ensures exact { (k : Role) (s : List ℕ) (p : Option ℕ) (t : Tail) (bytes : List ℕ) (ps : List Part) → tail_low t ≡ low → tail_high t ≡ high → depth ps ≤ max_depth →
        Goes (fault_of result) input.old (S.left src.old) (chars k s p (lead t bytes) ∷ ps) [] input.new (S.left src.new) (with_byte k s p (tail_next t) (bytes ++ value_of result ∷ []) ∷ ps) }
{
    let byte = input.need(src)?;
    if byte < low || byte > high {
        return Err(input.wrong());
    }
    input.pass(1);
    Ok(byte)
}

/// Reads a character of two bytes, of which the first is shown.
fn read_two<S: Source>(
    input: &mut Input,
    src: &mut S,
    text: &mut Buffer,
    first: u8,
) -> Result<(), JsonFault>
    requires next { IsNext first input.old }
    requires range { (194 ≤ first) × (first ≤ 223) }
    ensures moves { Moves (fault_of result) input.old (seen S.Counted src.old) input.new (seen S.Counted src.new) }
    ensures further { OnOk result (input.old.place < input.new.place) }
    ensures exact { (begun : Kept) (k : Role) (s : List ℕ) (p : Option ℕ) (ps : List Part) → Gains begun (settled s p) text.old → depth ps ≤ max_depth →
        Writes (fault_of result) begun input.old (S.left src.old) (chars k s p nothing ∷ ps) silent input.new (S.left src.new) text.new (λ t. chars k t None nothing ∷ ps) }
{
    input.pass(1);
    let second = read_between(input, src, 0x80, 0xBF)?;
    text.push(&[first, second])
}

/// Reads a character of three bytes, of which the first is shown.
fn read_three<S: Source>(
    input: &mut Input,
    src: &mut S,
    text: &mut Buffer,
    first: u8,
) -> Result<(), JsonFault>
    requires next { IsNext first input.old }
    requires range { (224 ≤ first) × (first ≤ 239) }
    ensures moves { Moves (fault_of result) input.old (seen S.Counted src.old) input.new (seen S.Counted src.new) }
    ensures further { OnOk result (input.old.place < input.new.place) }
    ensures exact { (begun : Kept) (k : Role) (s : List ℕ) (p : Option ℕ) (ps : List Part) → Gains begun (settled s p) text.old → depth ps ≤ max_depth →
        Writes (fault_of result) begun input.old (S.left src.old) (chars k s p nothing ∷ ps) silent input.new (S.left src.new) text.new (λ t. chars k t None nothing ∷ ps) }
{
    input.pass(1);
    let second = read_between(input, src, second_low(first), second_high(first))?;
    let third = read_between(input, src, 0x80, 0xBF)?;
    text.push(&[first, second, third])
}

/// Reads a character of four bytes, of which the first is shown.
fn read_four<S: Source>(
    input: &mut Input,
    src: &mut S,
    text: &mut Buffer,
    first: u8,
) -> Result<(), JsonFault>
    requires next { IsNext first input.old }
    requires range { (240 ≤ first) × (first ≤ 244) }
    ensures moves { Moves (fault_of result) input.old (seen S.Counted src.old) input.new (seen S.Counted src.new) }
    ensures further { OnOk result (input.old.place < input.new.place) }
    ensures exact { (begun : Kept) (k : Role) (s : List ℕ) (p : Option ℕ) (ps : List Part) → Gains begun (settled s p) text.old → depth ps ≤ max_depth →
        Writes (fault_of result) begun input.old (S.left src.old) (chars k s p nothing ∷ ps) silent input.new (S.left src.new) text.new (λ t. chars k t None nothing ∷ ps) }
{
    input.pass(1);
    let second = read_between(input, src, second_low(first), second_high(first))?;
    let third = read_between(input, src, 0x80, 0xBF)?;
    let fourth = read_between(input, src, 0x80, 0xBF)?;
    text.push(&[first, second, third, fourth])
}

/// Reads characters that stand for themselves, of which the first byte is shown.
fn read_themselves<S: Source>(
    input: &mut Input,
    src: &mut S,
    text: &mut Buffer,
    first: u8,
) -> Result<(), JsonFault>
    requires next { IsNext first input.old }
    requires plain { (first ≢ 34) × (first ≢ 92) }
    ensures moves { Moves (fault_of result) input.old (seen S.Counted src.old) input.new (seen S.Counted src.new) }
    ensures further { OnOk result (input.old.place < input.new.place) }
    ensures exact { (begun : Kept) (k : Role) (s : List ℕ) (p : Option ℕ) (ps : List Part) → Gains begun (settled s p) text.old → depth ps ≤ max_depth →
        Writes (fault_of result) begun input.old (S.left src.old) (chars k s p nothing ∷ ps) silent input.new (S.left src.new) text.new (λ t. chars k t None nothing ∷ ps) }
{
    if first < 0x80 {
        return read_plain(input, text, first);
    }
    if first < 0xC2 {
        return Err(input.wrong());
    }
    if first < 0xE0 {
        return read_two(input, src, text, first);
    }
    if first < 0xF0 {
        return read_three(input, src, text, first);
    }
    if first < 0xF5 {
        return read_four(input, src, text, first);
    }
    Err(input.wrong())
}

/// Reads a piece of a string, whose first byte is shown, behind a high surrogate that waits for its partner. Gives the
/// one that waits then.
fn read_piece<S: Source>(
    input: &mut Input,
    src: &mut S,
    text: &mut Buffer,
    high: Option<u16>,
    first: u8,
) -> Result<Option<u16>, JsonFault>
    requires next { IsNext first input.old }
    requires piece { first ≢ 34 }
    requires high { IfSome high (λ u. is_high_surrogate u ≡ true) }
    ensures moves { Moves (fault_of result) input.old (seen S.Counted src.old) input.new (seen S.Counted src.new) }
    ensures waits { IfOk result (λ o. IfSome o (λ u. is_high_surrogate u ≡ true)) }
    ensures further { OnOk result (input.old.place < input.new.place) }
    ensures exact { (begun : Kept) (k : Role) (s : List ℕ) (ps : List Part) → Gains begun s text.old → depth ps ≤ max_depth →
        Writes (fault_of result) begun input.old (S.left src.old) (chars k s high nothing ∷ ps) silent input.new (S.left src.new) text.new (λ t. chars k t (shown_of result) nothing ∷ ps) }
{
    if first == b'\\' {
        return read_escape(input, src, text, high);
    }
    push_lone(text, high)?;
    read_themselves(input, src, text, first)?;
    Ok(None)
}

/// Reads the rest of a string behind its first quote with the bytes before it, of which so many stand ahead, where it is
/// plain and lies whole within the window, and says whether it is. Else nothing is read.
pub fn read_plain_string(
    input: &mut Input,
    text: &mut Buffer,
    before: usize,
) -> Result<bool, JsonFault>
    ensures string { result ≡ Ok true → ReadsString before input.old text.old input.new text.new }
    ensures none { result ≡ Ok false → (input.new ≡ input.old) × (text.new ≡ text.old) }
    ensures err { IfErr result (λ fault. (fault ≡ JsonFault.NoMemory) × (input.new ≡ input.old)) }
{
    let ahead = input.ahead();
    if ahead.len() < before {
        return Ok(false);
    }
    let rest = &ahead[before..];
    let run = plain_len(rest);
    if run == rest.len() || rest[run] != b'"' {
        return Ok(false);
    }
    text.push(&rest[..run])?;
    input.pass(before + run + 1);
    Ok(true)
}

/// Reads the rest of a string behind its first quote, a piece at a time.
fn read_pieces<S: Source>(
    input: &mut Input,
    src: &mut S,
    text: &mut Buffer,
) -> Result<(), JsonFault>
    ensures moves { Moves (fault_of result) input.old (seen S.Counted src.old) input.new (seen S.Counted src.new) }
    ensures own { OnOk result (Owns input.old.bytes (S.left src.old) input.new.bytes (S.left src.new)) }
    ensures exact { (begun : Kept) (k : Role) (s : List ℕ) (ps : List Part) → Gains begun s text.old → depth ps ≤ max_depth →
        Writes (fault_of result) begun input.old (S.left src.old) (chars k s None nothing ∷ ps) (λ t. told k t ∷ []) input.new (S.left src.new) text.new (λ t. ps) }
{
    let mut high = None;
    'pieces: loop {
        let first = match input.need(src) {
            Err(fault) => return Err(fault),
            Ok(first) => first,
        };
        if first == b'"' {
            input.pass(1);
            return push_lone(text, high);
        }
        match read_piece(input, src, text, high, first) {
            Err(fault) => return Err(fault),
            Ok(waiting) => high = waiting,
        }
    }
}

/// Reads the rest of a string behind its first quote, and adds its characters to the text.
pub fn read_string<S: Source>(
    input: &mut Input,
    src: &mut S,
    text: &mut Buffer,
) -> Result<(), JsonFault>
    ensures moves { Moves (fault_of result) input.old (seen S.Counted src.old) input.new (seen S.Counted src.new) }
    ensures own { OnOk result (Owns input.old.bytes (S.left src.old) input.new.bytes (S.left src.new)) }
    ensures exact { (begun : Kept) (k : Role) (s : List ℕ) (ps : List Part) → Gains begun s text.old → depth ps ≤ max_depth →
        Writes (fault_of result) begun input.old (S.left src.old) (chars k s None nothing ∷ ps) (λ t. told k t ∷ []) input.new (S.left src.new) text.new (λ t. ps) }
{
    if read_plain_string(input, text, 0)? {
        return Ok(());
    }
    read_pieces(input, src, text)
}
