// Values.
ghost use Rattle.std.specs.Prelude.{◌≡◌, ◌||◌, ◌==◌, ℕ, ◌<◌, ◌≤◌, ◌⊎◌, List, [], ◌∷◌, ◌++◌, true, length, IfOk, IfErr, OnOk};
ghost use Rattle.prof_grammar.specs.Event.{number};
ghost use Rattle.prof_grammar.specs.Machine as machine;
ghost use Rattle.prof_grammar.specs.Machine.{Part, class, step};
ghost use Rattle.prof_io.specs.Outside.{seen};
ghost use Rattle.prof_token.specs.Ahead.{IsNext, Passes};
ghost use Rattle.prof_token.specs.Bytes as bytes_spec;
ghost use Rattle.prof_token.specs.Writes.{Writes};
ghost use Rattle.prof_json.specs.Gives.{told_by, parts_behind};
ghost use Rattle.prof_token.specs.Kept.{Kept, Adds, Gains};
ghost use Rattle.prof_json.specs.Parts.{behind};
ghost use Rattle.prof_token.specs.Numbers.{IsNumeral};
ghost use Rattle.prof_json.specs.Step.{BeginsValue};
ghost use Rattle.prof_token.specs.Own.{Owns};
ghost use Rattle.prof_token.specs.Moves.{Moves, fault_of};

use crate::behind::may_follow;
use crate::plain::read_plain_number;
use crate::{Bracket, Event, JsonFault};
use prof_io::Source;
use prof_token::{Buffer, Input, is_digit, pass_word, read_number, read_string};

/// How many brackets may be open at once.
const MOST_DEEP: usize = 256;

/// Opens the bracket that is shown.
fn open_bracket(
    input: &mut Input,
    brackets: &mut Vec<Bracket>,
    bracket: Bracket,
) -> Result<(), JsonFault>
    requires next { (b : ℕ) × IsNext b input.old }
    requires few { length brackets.old.items ≤ 256 }
    ensures ok { OnOk result ((Passes 1 input.old input.new) × (brackets.new.items ≡ brackets.old.items ++ bracket ∷ []) × (length brackets.new.items ≤ 256)) }
    ensures err { IfErr result (λ fault. (input.new ≡ input.old) × ((fault ≡ JsonFault.NoMemory) ⊎ (fault ≡ JsonFault.TooDeep input.old.place))) }
    ensures deep { IfErr result (λ fault. (fault ≡ JsonFault.NoMemory) ⊎ ((fault ≡ JsonFault.TooDeep input.old.place) × (length brackets.old.items ≡ 256))) }
{
    if brackets.len() == MOST_DEEP {
        return Err(input.deep());
    }
    if let Err(_) = brackets.push(bracket) {
        return Err(JsonFault::NoMemory);
    }
    input.pass(1);
    Ok(())
}

/// Whether the byte begins a number.
fn begins_number(byte: u8) -> bool
    ensures { result ≡ (byte == 45) || bytes_spec.is_digit byte }
{
    byte == b'-' || is_digit(byte)
}

/// Reads a number, whose first byte is shown, a part at a time, up to a byte that may stand behind it.
fn read_number_parts<S: Source>(
    input: &mut Input,
    src: &mut S,
    brackets: &[Bracket],
    text: &mut Buffer,
    first: u8,
) -> Result<(), JsonFault>
    requires next { IsNext first input.old }
    requires begins { (first ≡ 45) ⊎ (bytes_spec.is_digit first ≡ true) }
    ensures moves { Moves (fault_of result) input.old (seen S.Counted src.old) input.new (seen S.Counted src.new) }
    ensures text { OnOk result (Adds IsNumeral text.old text.new) }
    ensures further { OnOk result (input.old.place < input.new.place) }
    ensures own { OnOk result (Owns input.old.bytes (S.left src.old) input.new.bytes (S.left src.new)) }
    ensures exact { (begun : Kept) (qs : List Part) → step qs (class first) first ≡ machine.begin_value (class first) first (behind brackets.now) → Gains begun [] text.old → length brackets.now ≤ 256 →
        Writes (fault_of result) begun input.old (S.left src.old) qs (λ t. number t ∷ []) input.new (S.left src.new) text.new (λ t. behind brackets.now) }
{
    let behind = read_number(input, src, text, first)?;
    if may_follow(brackets, behind) {
        Ok(())
    } else {
        Err(input.wrong())
    }
}

/// Reads a number, whose first byte is shown, up to a byte that may stand behind it.
fn read_whole_number<S: Source>(
    input: &mut Input,
    src: &mut S,
    brackets: &[Bracket],
    text: &mut Buffer,
    first: u8,
) -> Result<(), JsonFault>
    requires next { IsNext first input.old }
    requires begins { (first ≡ 45) ⊎ (bytes_spec.is_digit first ≡ true) }
    ensures moves { Moves (fault_of result) input.old (seen S.Counted src.old) input.new (seen S.Counted src.new) }
    ensures text { OnOk result (Adds IsNumeral text.old text.new) }
    ensures further { OnOk result (input.old.place < input.new.place) }
    ensures own { OnOk result (Owns input.old.bytes (S.left src.old) input.new.bytes (S.left src.new)) }
    ensures exact { (begun : Kept) (qs : List Part) → step qs (class first) first ≡ machine.begin_value (class first) first (behind brackets.now) → Gains begun [] text.old → length brackets.now ≤ 256 →
        Writes (fault_of result) begun input.old (S.left src.old) qs (λ t. number t ∷ []) input.new (S.left src.new) text.new (λ t. behind brackets.now) }
{
    if read_plain_number(input, text, brackets, 0)? {
        return Ok(());
    }
    read_number_parts(input, src, brackets, text, first)
}

/// Begins the value whose first byte is shown, and reads it where it is no array and no object.
pub fn begin_value<S: Source>(
    input: &mut Input,
    src: &mut S,
    brackets: &mut Vec<Bracket>,
    text: &mut Buffer,
    first: u8,
) -> Result<Event, JsonFault>
    requires next { IsNext first input.old }
    requires few { length brackets.old.items ≤ 256 }
    ensures moves { Moves (fault_of result) input.old (seen S.Counted src.old) input.new (seen S.Counted src.new) }
    ensures ok { IfOk result (λ e. BeginsValue brackets.old.items e brackets.new.items input.old input.new text.old text.new) }
    ensures own { OnOk result (Owns input.old.bytes (S.left src.old) input.new.bytes (S.left src.new)) }
    ensures exact { (begun : Kept) (qs : List Part) → step qs (class first) first ≡ machine.begin_value (class first) first (behind brackets.old.items) → Gains begun [] text.old →
        Writes (fault_of result) begun input.old (S.left src.old) qs (told_by result) input.new (S.left src.new) text.new (λ t. parts_behind result brackets.new.items) }
{
    match first {
        b'[' => {
            open_bracket(input, brackets, Bracket::Array)?;
            Ok(Event::ArrayStart)
        }
        b'{' => {
            open_bracket(input, brackets, Bracket::Object)?;
            Ok(Event::ObjectStart)
        }
        b'"' => {
            input.pass(1);
            read_string(input, src, text)?;
            Ok(Event::Str)
        }
        b't' => {
            pass_word(input, src, b"true")?;
            Ok(Event::True)
        }
        b'f' => {
            pass_word(input, src, b"false")?;
            Ok(Event::False)
        }
        b'n' => {
            pass_word(input, src, b"null")?;
            Ok(Event::Null)
        }
        _ if begins_number(first) => {
            read_whole_number(input, src, brackets, text, first)?;
            Ok(Event::Number)
        }
        _ => Err(input.wrong()),
    }
}
