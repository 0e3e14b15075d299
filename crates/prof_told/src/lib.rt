//! What the writer writes of a text and of a number is told as that text and that number. Each law is the contract of a
//! function that does nothing.
#![tactic(auto)]

ghost use Rattle.std.specs.Prelude.{◌<◌, ◌^◌, ℕ, ℤ, pos, unsigned_abs, List, IsUtf8};
ghost use Rattle.std.specs.Fmt.{decimal, signed_decimal};
ghost use Rattle.prof_grammar.specs.Lexical.{IsString};
ghost use Rattle.prof_time.specs.Scaled.{IsExact, IsScaled};
ghost use Rattle.prof_time.specs.Spelling.{scaled_text};
ghost use Rattle.prof_writer.specs.Writing.{quoted};

/// A text in UTF-8 that is written in quotation marks is a string of JSON, which tells that text.
pub fn quotes_truly()
    ensures { (text : List ℕ) → IsUtf8 text → IsString (quoted text) text }
{}

/// A number that is written is a number of JSON, of that value.
pub fn writes_numbers_truly()
    ensures natural { (n : ℕ) → n < 2 ^ 64 → IsExact (decimal n) (pos n) }
    ensures whole { (z : ℤ) → unsigned_abs z < 2 ^ 64 → IsExact (signed_decimal z) z }
    ensures scaled { (d : ℕ) (z : ℤ) → unsigned_abs z < 2 ^ 64 → IsScaled (scaled_text d z) d z }
{}
