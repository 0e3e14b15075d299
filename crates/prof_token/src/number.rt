// Numbers.
#![tactic(auto, using(crate::proofs::Journeys::moves_trans, crate::proofs::Journeys::moves_here, crate::proofs::Journeys::moves_pass, crate::proofs::Journeys::moves_wrong, crate::proofs::Journeys::moves_deep, crate::proofs::Journeys::moves_full))]

ghost use Rattle.std.specs.Prelude.{◌≡◌, ◌≢◌, ◌<◌, ◌≤◌, ◌⊎◌, ℕ, List, [], ◌∷◌, ◌++◌, true, false, Option, IfOk, IfErr, IfSome, OnOk, Some};
ghost use Rattle.prof_grammar.specs.Machine.{Part, Stage, Next, class, step, digits, in_exponent, after_e, begin_value};
ghost use Rattle.prof_grammar.specs.Reading.{max_depth};
ghost use Rattle.prof_grammar.specs.Told.{depth};
ghost use Rattle.prof_time.specs.Numeral.{AreDigits, IsDigits, IsInt};
ghost use Rattle.prof_io.specs.Outside.{seen};
ghost use Rattle.prof_token.specs.Ahead.{IsNext, IsShown, Passes};
ghost use Rattle.prof_token.specs.Bytes as bytes_spec;
ghost use Rattle.prof_token.specs.Goes.{Goes};
ghost use Rattle.prof_token.specs.Writes.{Writes, silent, shown_of, value_of};
ghost use Rattle.prof_token.specs.Stages.{Counts, IsRunning, Wants, MayEnd, Signs, TakesFraction, TakesExponent, whole_stage, behind_fraction, behind_exponent, goes_further, no_byte};
ghost use Rattle.prof_token.specs.Kept.{Kept, Adds, Gains};
ghost use Rattle.prof_token.specs.Numbers.{IsFractionText, IsSignText, IsExponentText, IsUnsigned, IsNumeral};
ghost use Rattle.prof_token.specs.Own.{Owns, OwnsAny};
ghost use Rattle.prof_token.specs.Moves.{Moves, fault_of};

use crate::JsonFault;
use crate::buffer::Buffer;
use crate::input::Input;
use crate::scan::{digit_len, is_digit, is_e};
use prof_io::Source;

/// Reads the byte that is shown, and adds it to the text.
fn read_byte(input: &mut Input, text: &mut Buffer, byte: u8) -> Result<(), JsonFault>
    requires next { IsNext byte input.old }
    requires small { byte < 128 }
    ensures passed { OnOk result (Passes 1 input.old input.new) }
    ensures text { OnOk result (Gains text.old (byte ∷ []) text.new) }
    ensures err { IfErr result (λ fault. (fault ≡ JsonFault.NoMemory) × (input.new ≡ input.old)) }
{
    text.push(&[byte])?;
    input.pass(1);
    Ok(())
}

/// Reads the digits that are ahead, of which the first is shown.
fn read_run(input: &mut Input, text: &mut Buffer, first: u8) -> Result<(), JsonFault>
    requires next { IsNext first input.old }
    requires digit { bytes_spec.is_digit first ≡ true }
    ensures run { OnOk result ((n : ℕ) × (0 < n) × Passes n input.old input.new) }
    ensures own { OnOk result ((left : Option (List ℕ)) → OwnsAny input.old.bytes left input.new.bytes left) }
    ensures text { OnOk result ((ds : List ℕ) × AreDigits ds × Gains text.old (first ∷ ds) text.new) }
    ensures err { IfErr result (λ fault. (fault ≡ JsonFault.NoMemory) × (input.new ≡ input.old)) }
    ensures exact { (left : Option (List ℕ)) (begun : Kept) (n : Stage) (s : List ℕ) (qs ps : List Part) → step qs (class first) first ≡ Some ([], digits n (s ++ first ∷ []) ∷ ps) →
        IsRunning n → Gains begun s text.old → depth ps ≤ max_depth →
        Writes (fault_of result) begun input.old left qs silent input.new left text.new (λ t. digits n t ∷ ps) }
{
    let ahead = input.ahead();
    let run = digit_len(ahead);
    text.push(&ahead[..run])?;
    input.pass(run);
    Ok(())
}

/// Reads digits, as many as there are, and shows the byte behind them.
fn read_digits<S: Source>(
    input: &mut Input,
    src: &mut S,
    text: &mut Buffer,
) -> Result<Option<u8>, JsonFault>
    ensures moves { Moves (fault_of result) input.old (seen S.Counted src.old) input.new (seen S.Counted src.new) }
    ensures shown { IfOk result (λ o. IsShown o input.new (S.left src.new)) }
    ensures text { OnOk result (Adds AreDigits text.old text.new) }
    ensures own { OnOk result (OwnsAny input.old.bytes (S.left src.old) input.new.bytes (S.left src.new)) }
    ensures behind { IfOk result (λ o. IfSome o (λ b. bytes_spec.is_digit b ≡ false)) }
    ensures exact { (begun : Kept) (n : Stage) (s : List ℕ) (ps : List Part) → IsRunning n → Gains begun s text.old → depth ps ≤ max_depth →
        Writes (fault_of result) begun input.old (S.left src.old) (digits n s ∷ ps) silent input.new (S.left src.new) text.new (λ t. digits n t ∷ ps) }
{
    'digits: loop {
        let byte = match input.peek(src) {
            Err(fault) => return Err(fault),
            Ok(None) => return Ok(None),
            Ok(Some(byte)) => byte,
        };
        if !is_digit(byte) {
            return Ok(Some(byte));
        }
        let ahead = input.ahead();
        let run = digit_len(ahead);
        if let Err(fault) = text.push(&ahead[..run]) {
            return Err(fault);
        }
        input.pass(run);
    }
}

/// Reads one digit or more, of which the first has to be shown, and shows the byte behind them.
fn read_some_digits<S: Source>(
    input: &mut Input,
    src: &mut S,
    text: &mut Buffer,
    first: u8,
) -> Result<Option<u8>, JsonFault>
    requires { IsNext first input.old }
    ensures moves { Moves (fault_of result) input.old (seen S.Counted src.old) input.new (seen S.Counted src.new) }
    ensures shown { IfOk result (λ o. IsShown o input.new (S.left src.new)) }
    ensures text { OnOk result (Adds IsDigits text.old text.new) }
    ensures further { OnOk result (input.old.place < input.new.place) }
    ensures own { OnOk result (Owns input.old.bytes (S.left src.old) input.new.bytes (S.left src.new)) }
    ensures behind { IfOk result (λ o. IfSome o (λ b. bytes_spec.is_digit b ≡ false)) }
    ensures exact { (begun : Kept) (n n2 : Stage) (s : List ℕ) (ps : List Part) → Wants n first n2 → IsRunning n2 → Gains begun s text.old → depth ps ≤ max_depth →
        Writes (fault_of result) begun input.old (S.left src.old) (digits n s ∷ ps) silent input.new (S.left src.new) text.new (λ t. digits n2 t ∷ ps) }
{
    if !is_digit(first) {
        return Err(input.wrong());
    }
    read_run(input, text, first)?;
    read_digits(input, src, text)
}

/// Reads the whole part, whose first digit is shown, and shows the byte behind it.
fn read_whole<S: Source>(
    input: &mut Input,
    src: &mut S,
    text: &mut Buffer,
    first: u8,
) -> Result<Option<u8>, JsonFault>
    requires next { IsNext first input.old }
    requires digit { bytes_spec.is_digit first ≡ true }
    ensures moves { Moves (fault_of result) input.old (seen S.Counted src.old) input.new (seen S.Counted src.new) }
    ensures shown { IfOk result (λ o. IsShown o input.new (S.left src.new)) }
    ensures text { OnOk result (Adds IsInt text.old text.new) }
    ensures further { OnOk result (input.old.place < input.new.place) }
    ensures own { OnOk result (Owns input.old.bytes (S.left src.old) input.new.bytes (S.left src.new)) }
    ensures over { IfOk result (λ o. MayEnd (whole_stage first) goes_further o) }
    ensures exact { (begun : Kept) (s : List ℕ) (qs ps : List Part) → step qs (class first) first ≡ Some ([], digits (whole_stage first) (s ++ first ∷ []) ∷ ps) →
        Gains begun s text.old → depth ps ≤ max_depth →
        Writes (fault_of result) begun input.old (S.left src.old) qs silent input.new (S.left src.new) text.new (λ t. digits (whole_stage first) t ∷ ps) }
{
    if first == b'0' {
        read_byte(input, text, first)?;
        return input.peek(src);
    }
    read_run(input, text, first)?;
    read_digits(input, src, text)
}

/// Reads the fraction, if the byte that is shown begins one, and shows the byte behind it.
fn read_fraction<S: Source>(
    input: &mut Input,
    src: &mut S,
    text: &mut Buffer,
    shown: Option<u8>,
) -> Result<Option<u8>, JsonFault>
    requires { IsShown shown input.old (S.left src.old) }
    ensures moves { Moves (fault_of result) input.old (seen S.Counted src.old) input.new (seen S.Counted src.new) }
    ensures shown { IfOk result (λ o. IsShown o input.new (S.left src.new)) }
    ensures text { OnOk result (Adds IsFractionText text.old text.new) }
    ensures own { OnOk result (OwnsAny input.old.bytes (S.left src.old) input.new.bytes (S.left src.new)) }
    ensures over { IfOk result (λ o. (n : Stage) → MayEnd n goes_further shown → MayEnd (behind_fraction shown n) bytes_spec.is_e o) }
    ensures exact { (begun : Kept) (n : Stage) (s : List ℕ) (ps : List Part) → TakesFraction n → Gains begun s text.old → depth ps ≤ max_depth →
        Writes (fault_of result) begun input.old (S.left src.old) (digits n s ∷ ps) silent input.new (S.left src.new) text.new (λ t. digits (behind_fraction shown n) t ∷ ps) }
{
    match shown {
        Some(b'.') => {
            read_byte(input, text, b'.')?;
            let first = input.need(src)?;
            read_some_digits(input, src, text, first)
        }
        _ => Ok(shown),
    }
}

/// Reads the sign of an exponent, if there is one, and shows the byte behind it.
fn read_exponent_sign<S: Source>(
    input: &mut Input,
    src: &mut S,
    text: &mut Buffer,
) -> Result<u8, JsonFault>
    ensures moves { Moves (fault_of result) input.old (seen S.Counted src.old) input.new (seen S.Counted src.new) }
    ensures byte { IfOk result (λ b. IsNext b input.new) }
    ensures text { OnOk result (Adds IsSignText text.old text.new) }
    ensures exact { (begun : Kept) (s : List ℕ) (ps : List Part) → Gains begun s text.old → depth ps ≤ max_depth →
        Signs (fault_of result) begun input.old (S.left src.old) (digits after_e s ∷ ps) input.new (S.left src.new) text.new (value_of result) ps }
{
    let byte = input.need(src)?;
    if byte == b'+' || byte == b'-' {
        read_byte(input, text, byte)?;
        return input.need(src);
    }
    Ok(byte)
}

/// Reads the exponent, if the byte that is shown begins one, and shows the byte behind it.
fn read_exponent<S: Source>(
    input: &mut Input,
    src: &mut S,
    text: &mut Buffer,
    shown: Option<u8>,
) -> Result<Option<u8>, JsonFault>
    requires { IsShown shown input.old (S.left src.old) }
    ensures moves { Moves (fault_of result) input.old (seen S.Counted src.old) input.new (seen S.Counted src.new) }
    ensures shown { IfOk result (λ o. IsShown o input.new (S.left src.new)) }
    ensures text { OnOk result (Adds IsExponentText text.old text.new) }
    ensures own { OnOk result (OwnsAny input.old.bytes (S.left src.old) input.new.bytes (S.left src.new)) }
    ensures over { IfOk result (λ o. (n : Stage) → MayEnd n bytes_spec.is_e shown → MayEnd (behind_exponent shown n) no_byte o) }
    ensures exact { (begun : Kept) (n : Stage) (s : List ℕ) (ps : List Part) → TakesExponent n → Gains begun s text.old → depth ps ≤ max_depth →
        Writes (fault_of result) begun input.old (S.left src.old) (digits n s ∷ ps) silent input.new (S.left src.new) text.new (λ t. digits (behind_exponent shown n) t ∷ ps) }
{
    match shown {
        Some(letter) if is_e(letter) => {
            read_byte(input, text, letter)?;
            let first = read_exponent_sign(input, src, text)?;
            read_some_digits(input, src, text, first)
        }
        _ => Ok(shown),
    }
}

/// Reads a number without a sign, whose first digit is shown, and shows the byte behind it.
fn read_unsigned<S: Source>(
    input: &mut Input,
    src: &mut S,
    text: &mut Buffer,
    first: u8,
) -> Result<Option<u8>, JsonFault>
    requires next { IsNext first input.old }
    requires digit { bytes_spec.is_digit first ≡ true }
    ensures moves { Moves (fault_of result) input.old (seen S.Counted src.old) input.new (seen S.Counted src.new) }
    ensures shown { IfOk result (λ o. IsShown o input.new (S.left src.new)) }
    ensures text { OnOk result (Adds IsUnsigned text.old text.new) }
    ensures further { OnOk result (input.old.place < input.new.place) }
    ensures own { OnOk result (Owns input.old.bytes (S.left src.old) input.new.bytes (S.left src.new)) }
    ensures exact { (begun : Kept) (s : List ℕ) (qs ps : List Part) → step qs (class first) first ≡ Some ([], digits (whole_stage first) (s ++ first ∷ []) ∷ ps) →
        Gains begun s text.old → depth ps ≤ max_depth →
        Counts (fault_of result) begun input.old (S.left src.old) qs input.new (S.left src.new) text.new (shown_of result) ps }
{
    let behind_whole = read_whole(input, src, text, first)?;
    let behind_fraction = read_fraction(input, src, text, behind_whole)?;
    read_exponent(input, src, text, behind_fraction)
}

/// Reads a number, whose first byte is shown, and shows the byte behind it.
pub fn read_number<S: Source>(
    input: &mut Input,
    src: &mut S,
    text: &mut Buffer,
    first: u8,
) -> Result<Option<u8>, JsonFault>
    requires next { IsNext first input.old }
    requires begins { (first ≡ 45) ⊎ (bytes_spec.is_digit first ≡ true) }
    ensures moves { Moves (fault_of result) input.old (seen S.Counted src.old) input.new (seen S.Counted src.new) }
    ensures shown { IfOk result (λ o. IsShown o input.new (S.left src.new)) }
    ensures text { OnOk result (Adds IsNumeral text.old text.new) }
    ensures further { OnOk result (input.old.place < input.new.place) }
    ensures own { OnOk result (Owns input.old.bytes (S.left src.old) input.new.bytes (S.left src.new)) }
    ensures exact { (begun : Kept) (qs ps : List Part) → step qs (class first) first ≡ begin_value (class first) first ps → Gains begun [] text.old → depth ps ≤ max_depth →
        Counts (fault_of result) begun input.old (S.left src.old) qs input.new (S.left src.new) text.new (shown_of result) ps }
{
    if first != b'-' {
        return read_unsigned(input, src, text, first);
    }
    read_byte(input, text, first)?;
    let digit = input.need(src)?;
    if !is_digit(digit) {
        return Err(input.wrong());
    }
    read_unsigned(input, src, text, digit)
}
