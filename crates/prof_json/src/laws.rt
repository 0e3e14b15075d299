//! Laws of readings, each the contract of a function that does nothing.
ghost use Rattle.std.specs.Prelude.{ℕ, ◌++◌, List, Option, Some};
ghost use Rattle.prof_grammar.specs.Event.{Event};
ghost use Rattle.prof_grammar.specs.Reading.{Ending, IsReading};
ghost use Rattle.prof_json.specs.Position.{Position, fresh};
ghost use Rattle.prof_json.specs.Tells.{Tells, Ends};

/// What two calls tell one after the other is told in all.
pub fn tells_on()
    ensures { (p q r : Position) (l m n : Option (List ℕ)) (es fs : List Event) → Tells p l es q m → Tells q m fs r n → Tells p l (es ++ fs) r n }
{}

/// What a new reader tells of a text, up to where the reading ends, is all that the text tells.
pub fn tells_all()
    ensures { (limit : ℕ) (text : List ℕ) (es : List Event) (p : Position) (left : Option (List ℕ)) (ending : Ending) → Tells (fresh limit) (Some text) es p left → Ends ending p left → IsReading limit text es ending }
{}
