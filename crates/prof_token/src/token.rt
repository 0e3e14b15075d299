// White space, words and the byte order mark.
ghost use Rattle.std.specs.Prelude.{◌≡◌, ◌+◌, ◌≤◌, ◌∷◌, List, [], false, None, length, IfOk, IfSome, OnOk};
ghost use Rattle.prof_io.specs.Outside.{seen};
ghost use Rattle.prof_token.specs.Ahead.{IsNext, IsShown};
ghost use Rattle.prof_token.specs.Bytes.{is_space};
ghost use Rattle.prof_grammar.specs.Machine.{Part, Literal, blank, mark, finish};
ghost use Rattle.prof_grammar.specs.Reading.{max_depth};
ghost use Rattle.prof_grammar.specs.Told.{depth};
ghost use Rattle.prof_token.specs.Goes.{Goes, behind_word, told_behind};
ghost use Rattle.prof_token.specs.Own.{ReadsOff};
ghost use Rattle.prof_token.specs.Moves.{Moves, fault_of};

use crate::JsonFault;
use crate::input::Input;
use crate::scan::{blank_len, is_blank};
use prof_io::Source;

/// Passes over white space, and shows the byte behind it.
pub fn skip_blank<S: Source>(input: &mut Input, src: &mut S) -> Result<Option<u8>, JsonFault>
    ensures moves { Moves (fault_of result) input.old (seen S.Counted src.old) input.new (seen S.Counted src.new) }
    ensures shown { IfOk result (λ o. IsShown o input.new (S.left src.new)) }
    ensures behind { IfOk result (λ o. IfSome o (λ b. is_space b ≡ false)) }
    ensures exact { (ps : List Part) → depth ps ≤ max_depth → Goes (fault_of result) input.old (S.left src.old) (blank ∷ ps) [] input.new (S.left src.new) (blank ∷ ps) }
{
    'blanks: loop {
        let byte = match input.peek(src) {
            Err(fault) => return Err(fault),
            Ok(None) => return Ok(None),
            Ok(Some(byte)) => byte,
        };
        if !is_blank(byte) {
            return Ok(Some(byte));
        }
        let run = blank_len(input.ahead());
        input.pass(run);
    }
}

/// Passes over white space, and shows the byte behind it, where the text can't end.
pub fn need_behind_blank<S: Source>(input: &mut Input, src: &mut S) -> Result<u8, JsonFault>
    ensures moves { Moves (fault_of result) input.old (seen S.Counted src.old) input.new (seen S.Counted src.new) }
    ensures byte { IfOk result (λ b. IsNext b input.new) }
    ensures behind { IfOk result (λ b. is_space b ≡ false) }
    ensures exact { (ps : List Part) → depth ps ≤ max_depth → finish ps ≡ None → Goes (fault_of result) input.old (S.left src.old) (blank ∷ ps) [] input.new (S.left src.new) (blank ∷ ps) }
{
    let ahead = input.ahead();
    if !ahead.is_empty() && !is_blank(ahead[0]) {
        return Ok(ahead[0]);
    }
    match skip_blank(input, src) {
        Err(fault) => Err(fault),
        Ok(None) => Err(input.wrong()),
        Ok(Some(byte)) => Ok(byte),
    }
}

/// Passes over a fixed text.
pub fn pass_word<S: Source>(input: &mut Input, src: &mut S, word: &[u8]) -> Result<(), JsonFault>
    ensures moves { Moves (fault_of result) input.old (seen S.Counted src.old) input.new (seen S.Counted src.new) }
    ensures further { OnOk result (input.old.place + length word.now ≡ input.new.place) }
    ensures read { OnOk result (ReadsOff word.now input.old.bytes (S.left src.old) input.new.bytes (S.left src.new)) }
    ensures exact { (w : Literal) (ps : List Part) → depth ps ≤ max_depth →
        Goes (fault_of result) input.old (S.left src.old) (behind_word word.now w ps) (told_behind word.now w) input.new (S.left src.new) ps }
{
    for letter in word {
        match input.need(src) {
            Err(fault) => return Err(fault),
            Ok(byte) => {
                if byte != *letter {
                    return Err(input.wrong());
                }
                input.pass(1);
            }
        }
    }
    Ok(())
}

/// Passes over a byte order mark, if there is one.
pub fn pass_mark<S: Source>(input: &mut Input, src: &mut S) -> Result<(), JsonFault>
    ensures moves { Moves (fault_of result) input.old (seen S.Counted src.old) input.new (seen S.Counted src.new) }
    ensures exact { (ps : List Part) → depth ps ≤ max_depth → Goes (fault_of result) input.old (S.left src.old) (mark ∷ ps) [] input.new (S.left src.new) ps }
{
    match input.peek(src)? {
        None => Ok(()),
        Some(0xEF) => {
            input.pass(1);
            pass_word(input, src, b"\xBB\xBF")
        }
        Some(_) => Ok(()),
    }
}
