//! The grammar of JSON texts, the machine that reads them a byte at a time, and its laws.
#![tactic(auto)]

ghost use Rattle.std.specs.Prelude.{◌≡◌, ◌↔◌, ◌≤◌, ◌++◌, ℕ, List, Some, IsSome, All, length};
ghost use Rattle.prof_grammar.specs.Event.{Event};
ghost use Rattle.prof_grammar.specs.Grammar.{IsJson, BeginsJson};
ghost use Rattle.prof_grammar.specs.Machine.{run, feed, start};
ghost use Rattle.prof_grammar.specs.Reading.{Ending, finished, IsReading, IsShallow};
ghost use Rattle.prof_grammar.specs.Texts.{IsWellTold};
ghost use Rattle.prof_grammar.specs.Told.{reading};
ghost use Rattle.prof_grammar.specs.Value.{Value, flatten};

/// The longest text that is read, in bytes.
pub const LONGEST: u64 = 268_435_456;

/// The machine tells the events of each JSON text, and of no other.
pub fn tells_json()
    ensures { (text : List ℕ) (es : List Event) → IsJson text es ↔ (run start text ≡ Some es) }
{}

/// A JSON text has one list of events.
pub fn one_list()
    ensures { (text : List ℕ) (es fs : List Event) → IsJson text es → IsJson text fs → es ≡ fs }
{}

/// The machine goes on exactly as long as the bytes begin a JSON text.
pub fn goes_on()
    ensures { (bytes : List ℕ) → BeginsJson bytes ↔ IsSome (feed start bytes) }
{}

/// What the machine reads of a text is the reading of that text.
pub fn reads_right()
    ensures { (limit : ℕ) (text : List ℕ) → IsReading limit text (reading limit 0 start text).events (reading limit 0 start text).ending }
{}

/// A text has one ending, and it is finished exactly where it is a shallow JSON text within the limit.
pub fn one_ending()
    ensures one { (limit : ℕ) (text : List ℕ) (es fs : List Event) (e f : Ending) → IsReading limit text es e → IsReading limit text fs f → e ≡ f }
    ensures whole { (limit : ℕ) (text : List ℕ) (es : List Event) → IsReading limit text es finished ↔ (IsShallow text es × (length text ≤ limit)) }
{}

/// Names and strings are told in UTF-8, and a number by a text that is one.
pub fn tells_texts()
    ensures { (limit : ℕ) (text : List ℕ) (es : List Event) (e : Ending) → IsReading limit text es e → All IsWellTold es }
{}

/// The events of a JSON text are those of a value.
pub fn is_value()
    ensures { (text : List ℕ) (es : List Event) → IsJson text es → (v : Value) × (es ≡ flatten v) }
{}

/// No value's events begin another's, so a text has one value.
pub fn one_value()
    ensures { (v w : Value) (a b : List Event) → flatten v ++ a ≡ flatten w ++ b → (v ≡ w) × (a ≡ b) }
{}
