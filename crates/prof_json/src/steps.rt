// The next event, by what may come.
ghost use Rattle.std.specs.Prelude.{◌≡◌, ◌≢◌, ℕ, ◌<◌, ◌≤◌, List, [], ◌∷◌, ◌++◌, true, false, length, take, IfOk, IfErr, IfSome, OnOk, Ok, None};
ghost use Rattle.std.specs.Io.KnownBytes.{IsAtEnd};
ghost use Rattle.prof_grammar.specs.Grammar.{value};
ghost use Rattle.prof_grammar.specs.Machine.{Part, blank, symbol};
ghost use Rattle.prof_grammar.specs.Reading.{finished};
ghost use Rattle.prof_io.specs.Outside.{seen};
ghost use Rattle.prof_token.specs.Ahead.{IsNext, Passes};
ghost use Rattle.prof_token.specs.Goes.{Goes, Stops};
ghost use Rattle.prof_token.specs.Writes.{Writes, ReadsString};
ghost use Rattle.prof_json.specs.Gives.{TakesName, told_by, parts_behind};
ghost use Rattle.prof_token.specs.Kept.{Kept, Gains};
ghost use Rattle.prof_json.specs.Nest.{Occurs, IsWithin};
ghost use Rattle.prof_json.specs.Parts.{behind, parts_in};
ghost use Rattle.prof_json.specs.Step.{BeginsValue, IsStep, ReadsPlain};
ghost use Rattle.prof_token.specs.Own.{Owns};
ghost use Rattle.prof_token.specs.Moves.{Moves, fault_of};

use crate::plain::read_plain_number;
use crate::value::begin_value;
use crate::{Bracket, Event, JsonFault, Phase};
use prof_io::Source;
use prof_token::{
    Buffer, Input, need_behind_blank, pass_mark, read_plain_string, read_string, skip_blank,
};

/// Reads blanks, and the value behind them or its opening bracket.
fn read_value<S: Source>(
    input: &mut Input,
    src: &mut S,
    brackets: &mut Vec<Bracket>,
    text: &mut Buffer,
) -> Result<Event, JsonFault>
    requires few { length brackets.old.items ≤ 256 }
    ensures moves { Moves (fault_of result) input.old (seen S.Counted src.old) input.new (seen S.Counted src.new) }
    ensures ok { IfOk result (λ e. BeginsValue brackets.old.items e brackets.new.items input.old input.new text.old text.new) }
    ensures own { OnOk result (Owns input.old.bytes (S.left src.old) input.new.bytes (S.left src.new)) }
    ensures exact { (begun : Kept) → Gains begun [] text.old →
        Writes (fault_of result) begun input.old (S.left src.old) (blank ∷ symbol value ∷ behind brackets.old.items) (told_by result) input.new (S.left src.new) text.new (λ t. parts_behind result brackets.new.items) }
{
    let first = need_behind_blank(input, src)?;
    begin_value(input, src, brackets, text, first)
}

/// Reads the name of a member, whose first byte is shown.
fn read_name<S: Source>(
    input: &mut Input,
    src: &mut S,
    text: &mut Buffer,
    first: u8,
) -> Result<Event, JsonFault>
    requires { IsNext first input.old }
    ensures moves { Moves (fault_of result) input.old (seen S.Counted src.old) input.new (seen S.Counted src.new) }
    ensures ok { IfOk result (λ e. (e ≡ Event.Name) × (input.old.place < input.new.place)) }
    ensures own { OnOk result (Owns input.old.bytes (S.left src.old) input.new.bytes (S.left src.new)) }
    ensures exact { (begun : Kept) (qs : List Part) (xs : List Bracket) → TakesName first qs xs → Gains begun [] text.old → length xs ≤ 256 →
        Writes (fault_of result) begun input.old (S.left src.old) qs (told_by result) input.new (S.left src.new) text.new (λ t. parts_behind result xs) }
{
    if first != b'"' {
        return Err(input.wrong());
    }
    input.pass(1);
    read_string(input, src, text)?;
    Ok(Event::Name)
}

/// Closes the innermost bracket.
fn close_bracket(input: &mut Input, brackets: &mut Vec<Bracket>)
    requires next { (b : ℕ) × IsNext b input.old }
    ensures passed { Passes 1 input.old input.new }
    ensures closed { (bracket : Bracket) (outer : List Bracket) → brackets.old.items ≡ outer ++ bracket ∷ [] → brackets.new.items ≡ outer }
{
    input.pass(1);
    let _closed = brackets.pop();
}

/// At the beginning of the text.
fn read_start<S: Source>(
    input: &mut Input,
    src: &mut S,
    brackets: &mut Vec<Bracket>,
    text: &mut Buffer,
) -> Result<Event, JsonFault>
    requires occurs { Occurs Phase.Start brackets.old.items }
    requires few { length brackets.old.items ≤ 256 }
    ensures moves { Moves (fault_of result) input.old (seen S.Counted src.old) input.new (seen S.Counted src.new) }
    ensures ok { IfOk result (λ e. IsStep (record { open_ = brackets.old.items; phase = Phase.Start }) e brackets.new.items input.old input.new text.old text.new) }
    ensures own { OnOk result (Owns input.old.bytes (S.left src.old) input.new.bytes (S.left src.new)) }
    ensures exact { (begun : Kept) → Gains begun [] text.old →
        Writes (fault_of result) begun input.old (S.left src.old) (parts_in Phase.Start (behind brackets.old.items)) (told_by result) input.new (S.left src.new) text.new (λ t. parts_behind result brackets.new.items) }
{
    pass_mark(input, src)?;
    read_value(input, src, brackets, text)
}

/// Behind the bracket that opens an array.
fn read_first_item<S: Source>(
    input: &mut Input,
    src: &mut S,
    brackets: &mut Vec<Bracket>,
    text: &mut Buffer,
) -> Result<Event, JsonFault>
    requires occurs { Occurs Phase.FirstItem brackets.old.items }
    requires few { length brackets.old.items ≤ 256 }
    ensures moves { Moves (fault_of result) input.old (seen S.Counted src.old) input.new (seen S.Counted src.new) }
    ensures ok { IfOk result (λ e. IsStep (record { open_ = brackets.old.items; phase = Phase.FirstItem }) e brackets.new.items input.old input.new text.old text.new) }
    ensures own { OnOk result (Owns input.old.bytes (S.left src.old) input.new.bytes (S.left src.new)) }
    ensures exact { (begun : Kept) → Gains begun [] text.old →
        Writes (fault_of result) begun input.old (S.left src.old) (parts_in Phase.FirstItem (behind brackets.old.items)) (told_by result) input.new (S.left src.new) text.new (λ t. parts_behind result brackets.new.items) }
{
    let first = need_behind_blank(input, src)?;
    if first == b']' {
        close_bracket(input, brackets);
        return Ok(Event::ArrayEnd);
    }
    begin_value(input, src, brackets, text, first)
}

/// Behind the bracket that opens an object.
fn read_first_member<S: Source>(
    input: &mut Input,
    src: &mut S,
    brackets: &mut Vec<Bracket>,
    text: &mut Buffer,
) -> Result<Event, JsonFault>
    requires occurs { Occurs Phase.FirstMember brackets.old.items }
    requires few { length brackets.old.items ≤ 256 }
    ensures moves { Moves (fault_of result) input.old (seen S.Counted src.old) input.new (seen S.Counted src.new) }
    ensures ok { IfOk result (λ e. IsStep (record { open_ = brackets.old.items; phase = Phase.FirstMember }) e brackets.new.items input.old input.new text.old text.new) }
    ensures own { OnOk result (Owns input.old.bytes (S.left src.old) input.new.bytes (S.left src.new)) }
    ensures exact { (begun : Kept) → Gains begun [] text.old →
        Writes (fault_of result) begun input.old (S.left src.old) (parts_in Phase.FirstMember (behind brackets.old.items)) (told_by result) input.new (S.left src.new) text.new (λ t. parts_behind result brackets.new.items) }
{
    let first = need_behind_blank(input, src)?;
    if first == b'}' {
        close_bracket(input, brackets);
        return Ok(Event::ObjectEnd);
    }
    read_name(input, src, text, first)
}

/// Whether the byte stands ahead, and a quote behind it.
fn shows_quote_behind(input: &Input, mark: u8) -> bool
    ensures { result ≡ true → take 2 input.now.bytes ≡ mark ∷ 34 ∷ [] }
{
    let ahead = input.ahead();
    ahead.len() >= 2 && ahead[0] == mark && ahead[1] == b'"'
}

/// Whether the byte stands ahead.
fn shows(input: &Input, mark: u8) -> bool
    ensures { result ≡ true → take 1 input.now.bytes ≡ mark ∷ [] }
{
    let ahead = input.ahead();
    !ahead.is_empty() && ahead[0] == mark
}

/// Reads a value with this byte before it, where it is a plain string or a plain number that lies whole within the window,
/// and gives its event. Else nothing is read.
fn read_plain_value(
    input: &mut Input,
    text: &mut Buffer,
    brackets: &[Bracket],
    mark: u8,
) -> Result<Option<Event>, JsonFault>
    ensures value { IfOk result (λ o. IfSome o (λ e. ReadsPlain mark (behind brackets.now) input.old text.old input.new text.new e)) }
    ensures none { result ≡ Ok None → (input.new ≡ input.old) × (text.new ≡ text.old) }
    ensures err { IfErr result (λ fault. (fault ≡ JsonFault.NoMemory) × (input.new ≡ input.old)) }
{
    if shows_quote_behind(input, mark) {
        if read_plain_string(input, text, 2)? {
            return Ok(Some(Event::Str));
        }
        return Ok(None);
    }
    if shows(input, mark) && read_plain_number(input, text, brackets, 1)? {
        return Ok(Some(Event::Number));
    }
    Ok(None)
}

/// Reads the name of a member with the comma before it, where it is a plain string that lies whole within the window, and
/// says whether it is one. Else nothing is read.
fn read_plain_name(input: &mut Input, text: &mut Buffer) -> Result<bool, JsonFault>
    ensures name { result ≡ Ok true → (take 2 input.old.bytes ≡ 44 ∷ 34 ∷ []) × ReadsString 2 input.old text.old input.new text.new }
    ensures none { result ≡ Ok false → (input.new ≡ input.old) × (text.new ≡ text.old) }
    ensures err { IfErr result (λ fault. (fault ≡ JsonFault.NoMemory) × (input.new ≡ input.old)) }
{
    if !shows_quote_behind(input, b',') {
        return Ok(false);
    }
    read_plain_string(input, text, 2)
}

/// Behind the name of a member, whatever comes.
fn read_any_member_value<S: Source>(
    input: &mut Input,
    src: &mut S,
    brackets: &mut Vec<Bracket>,
    text: &mut Buffer,
) -> Result<Event, JsonFault>
    requires occurs { Occurs Phase.AfterName brackets.old.items }
    requires few { length brackets.old.items ≤ 256 }
    ensures moves { Moves (fault_of result) input.old (seen S.Counted src.old) input.new (seen S.Counted src.new) }
    ensures ok { IfOk result (λ e. IsStep (record { open_ = brackets.old.items; phase = Phase.AfterName }) e brackets.new.items input.old input.new text.old text.new) }
    ensures own { OnOk result (Owns input.old.bytes (S.left src.old) input.new.bytes (S.left src.new)) }
    ensures exact { (begun : Kept) → Gains begun [] text.old →
        Writes (fault_of result) begun input.old (S.left src.old) (parts_in Phase.AfterName (behind brackets.old.items)) (told_by result) input.new (S.left src.new) text.new (λ t. parts_behind result brackets.new.items) }
{
    let first = need_behind_blank(input, src)?;
    if first != b':' {
        return Err(input.wrong());
    }
    input.pass(1);
    read_value(input, src, brackets, text)
}

/// Behind the name of a member.
fn read_member_value<S: Source>(
    input: &mut Input,
    src: &mut S,
    brackets: &mut Vec<Bracket>,
    text: &mut Buffer,
) -> Result<Event, JsonFault>
    requires occurs { Occurs Phase.AfterName brackets.old.items }
    requires few { length brackets.old.items ≤ 256 }
    ensures moves { Moves (fault_of result) input.old (seen S.Counted src.old) input.new (seen S.Counted src.new) }
    ensures ok { IfOk result (λ e. IsStep (record { open_ = brackets.old.items; phase = Phase.AfterName }) e brackets.new.items input.old input.new text.old text.new) }
    ensures own { OnOk result (Owns input.old.bytes (S.left src.old) input.new.bytes (S.left src.new)) }
    ensures exact { (begun : Kept) → Gains begun [] text.old →
        Writes (fault_of result) begun input.old (S.left src.old) (parts_in Phase.AfterName (behind brackets.old.items)) (told_by result) input.new (S.left src.new) text.new (λ t. parts_behind result brackets.new.items) }
{
    match read_plain_value(input, text, brackets, b':')? {
        Some(event) => Ok(event),
        None => read_any_member_value(input, src, brackets, text),
    }
}

/// Behind an item of an array, whatever comes.
fn read_any_item<S: Source>(
    input: &mut Input,
    src: &mut S,
    brackets: &mut Vec<Bracket>,
    text: &mut Buffer,
) -> Result<Event, JsonFault>
    requires within { IsWithin Bracket.Array brackets.old.items }
    requires few { length brackets.old.items ≤ 256 }
    ensures moves { Moves (fault_of result) input.old (seen S.Counted src.old) input.new (seen S.Counted src.new) }
    ensures ok { IfOk result (λ e. IsStep (record { open_ = brackets.old.items; phase = Phase.AfterValue }) e brackets.new.items input.old input.new text.old text.new) }
    ensures own { OnOk result (Owns input.old.bytes (S.left src.old) input.new.bytes (S.left src.new)) }
    ensures exact { (begun : Kept) → Gains begun [] text.old →
        Writes (fault_of result) begun input.old (S.left src.old) (parts_in Phase.AfterValue (behind brackets.old.items)) (told_by result) input.new (S.left src.new) text.new (λ t. parts_behind result brackets.new.items) }
{
    let first = need_behind_blank(input, src)?;
    if first == b']' {
        close_bracket(input, brackets);
        return Ok(Event::ArrayEnd);
    }
    if first != b',' {
        return Err(input.wrong());
    }
    input.pass(1);
    read_value(input, src, brackets, text)
}

/// Behind an item of an array.
fn read_next_item<S: Source>(
    input: &mut Input,
    src: &mut S,
    brackets: &mut Vec<Bracket>,
    text: &mut Buffer,
) -> Result<Event, JsonFault>
    requires within { IsWithin Bracket.Array brackets.old.items }
    requires few { length brackets.old.items ≤ 256 }
    ensures moves { Moves (fault_of result) input.old (seen S.Counted src.old) input.new (seen S.Counted src.new) }
    ensures ok { IfOk result (λ e. IsStep (record { open_ = brackets.old.items; phase = Phase.AfterValue }) e brackets.new.items input.old input.new text.old text.new) }
    ensures own { OnOk result (Owns input.old.bytes (S.left src.old) input.new.bytes (S.left src.new)) }
    ensures exact { (begun : Kept) → Gains begun [] text.old →
        Writes (fault_of result) begun input.old (S.left src.old) (parts_in Phase.AfterValue (behind brackets.old.items)) (told_by result) input.new (S.left src.new) text.new (λ t. parts_behind result brackets.new.items) }
{
    match read_plain_value(input, text, brackets, b',')? {
        Some(event) => Ok(event),
        None => read_any_item(input, src, brackets, text),
    }
}

/// Behind a member of an object, whatever comes.
fn read_any_member<S: Source>(
    input: &mut Input,
    src: &mut S,
    brackets: &mut Vec<Bracket>,
    text: &mut Buffer,
) -> Result<Event, JsonFault>
    requires within { IsWithin Bracket.Object brackets.old.items }
    requires few { length brackets.old.items ≤ 256 }
    ensures moves { Moves (fault_of result) input.old (seen S.Counted src.old) input.new (seen S.Counted src.new) }
    ensures ok { IfOk result (λ e. IsStep (record { open_ = brackets.old.items; phase = Phase.AfterValue }) e brackets.new.items input.old input.new text.old text.new) }
    ensures own { OnOk result (Owns input.old.bytes (S.left src.old) input.new.bytes (S.left src.new)) }
    ensures exact { (begun : Kept) → Gains begun [] text.old →
        Writes (fault_of result) begun input.old (S.left src.old) (parts_in Phase.AfterValue (behind brackets.old.items)) (told_by result) input.new (S.left src.new) text.new (λ t. parts_behind result brackets.new.items) }
{
    let first = need_behind_blank(input, src)?;
    if first == b'}' {
        close_bracket(input, brackets);
        return Ok(Event::ObjectEnd);
    }
    if first != b',' {
        return Err(input.wrong());
    }
    input.pass(1);
    let quote = need_behind_blank(input, src)?;
    read_name(input, src, text, quote)
}

/// Behind a member of an object.
fn read_next_member<S: Source>(
    input: &mut Input,
    src: &mut S,
    brackets: &mut Vec<Bracket>,
    text: &mut Buffer,
) -> Result<Event, JsonFault>
    requires within { IsWithin Bracket.Object brackets.old.items }
    requires few { length brackets.old.items ≤ 256 }
    ensures moves { Moves (fault_of result) input.old (seen S.Counted src.old) input.new (seen S.Counted src.new) }
    ensures ok { IfOk result (λ e. IsStep (record { open_ = brackets.old.items; phase = Phase.AfterValue }) e brackets.new.items input.old input.new text.old text.new) }
    ensures own { OnOk result (Owns input.old.bytes (S.left src.old) input.new.bytes (S.left src.new)) }
    ensures exact { (begun : Kept) → Gains begun [] text.old →
        Writes (fault_of result) begun input.old (S.left src.old) (parts_in Phase.AfterValue (behind brackets.old.items)) (told_by result) input.new (S.left src.new) text.new (λ t. parts_behind result brackets.new.items) }
{
    if read_plain_name(input, text)? {
        return Ok(Event::Name);
    }
    read_any_member(input, src, brackets, text)
}

/// Behind the text's one value.
fn read_end<S: Source>(input: &mut Input, src: &mut S) -> Result<Event, JsonFault>
    ensures moves { Moves (fault_of result) input.old (seen S.Counted src.old) input.new (seen S.Counted src.new) }
    ensures ok { IfOk result (λ e. e ≡ Event.End) }
    ensures end { OnOk result (IsAtEnd (S.left src.new)) }
    ensures exact { Goes (fault_of result) input.old (S.left src.old) (blank ∷ []) [] input.new (S.left src.new) (blank ∷ []) }
    ensures finished { OnOk result (Stops finished input.old (S.left src.old) (blank ∷ [])) }
{
    match skip_blank(input, src)? {
        None => Ok(Event::End),
        Some(_) => Err(input.wrong()),
    }
}

/// Behind a value.
fn read_behind_value<S: Source>(
    input: &mut Input,
    src: &mut S,
    brackets: &mut Vec<Bracket>,
    text: &mut Buffer,
) -> Result<Event, JsonFault>
    requires few { length brackets.old.items ≤ 256 }
    ensures moves { Moves (fault_of result) input.old (seen S.Counted src.old) input.new (seen S.Counted src.new) }
    ensures ok { IfOk result (λ e. IsStep (record { open_ = brackets.old.items; phase = Phase.AfterValue }) e brackets.new.items input.old input.new text.old text.new) }
    ensures own { IfOk result (λ e. e ≢ Event.End → Owns input.old.bytes (S.left src.old) input.new.bytes (S.left src.new)) }
    ensures end { result ≡ Ok Event.End → IsAtEnd (S.left src.new) }
    ensures exact { (begun : Kept) → Gains begun [] text.old →
        Writes (fault_of result) begun input.old (S.left src.old) (parts_in Phase.AfterValue (behind brackets.old.items)) (told_by result) input.new (S.left src.new) text.new (λ t. parts_behind result brackets.new.items) }
    ensures finished { result ≡ Ok Event.End → Stops finished input.old (S.left src.old) (parts_in Phase.AfterValue (behind brackets.old.items)) }
{
    match brackets.last() {
        None => read_end(input, src),
        Some(Bracket::Array) => read_next_item(input, src, brackets, text),
        Some(Bracket::Object) => read_next_member(input, src, brackets, text),
    }
}

/// The next event, where the brackets are open and the phase says what may come.
pub fn read_event<S: Source>(
    input: &mut Input,
    src: &mut S,
    brackets: &mut Vec<Bracket>,
    phase: Phase,
    text: &mut Buffer,
) -> Result<Event, JsonFault>
    requires occurs { Occurs phase brackets.old.items }
    requires few { length brackets.old.items ≤ 256 }
    ensures moves { Moves (fault_of result) input.old (seen S.Counted src.old) input.new (seen S.Counted src.new) }
    ensures ok { IfOk result (λ e. IsStep (record { open_ = brackets.old.items; phase = phase }) e brackets.new.items input.old input.new text.old text.new) }
    ensures own { IfOk result (λ e. e ≢ Event.End → Owns input.old.bytes (S.left src.old) input.new.bytes (S.left src.new)) }
    ensures end { result ≡ Ok Event.End → IsAtEnd (S.left src.new) }
    ensures exact { (begun : Kept) → Gains begun [] text.old →
        Writes (fault_of result) begun input.old (S.left src.old) (parts_in phase (behind brackets.old.items)) (told_by result) input.new (S.left src.new) text.new (λ t. parts_behind result brackets.new.items) }
    ensures finished { result ≡ Ok Event.End → Stops finished input.old (S.left src.old) (parts_in phase (behind brackets.old.items)) }
{
    match phase {
        Phase::Start => read_start(input, src, brackets, text),
        Phase::FirstItem => read_first_item(input, src, brackets, text),
        Phase::FirstMember => read_first_member(input, src, brackets, text),
        Phase::AfterName => read_member_value(input, src, brackets, text),
        Phase::AfterValue => read_behind_value(input, src, brackets, text),
    }
}
