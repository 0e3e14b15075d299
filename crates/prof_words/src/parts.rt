//! Lists of words taken apart.
ghost use Rattle.std.specs.Prelude.{◌≡◌, ◌≤◌, [], ◌∷◌, length};
ghost use Rattle.prof_words.specs.Reading.{texts};

/// The only word.
pub fn one<'a>(words: &[&'a str]) -> &'a str
    requires { length words.now ≡ 1 }
    ensures { texts words.now ≡ result.now ∷ [] }
{
    match words {
        [first] => first,
        _ => unreachable!(),
    }
}

/// The two words.
pub fn two<'a>(words: &[&'a str]) -> (&'a str, &'a str)
    requires { length words.now ≡ 2 }
    ensures { texts words.now ≡ result.0.now ∷ result.1.now ∷ [] }
{
    match words {
        [first, second] => (first, second),
        _ => unreachable!(),
    }
}

/// The three words.
pub fn three<'a>(words: &[&'a str]) -> (&'a str, &'a str, &'a str)
    requires { length words.now ≡ 3 }
    ensures { texts words.now ≡ result.0.now ∷ result.1.now ∷ result.2.now ∷ [] }
{
    match words {
        [first, second, third] => (first, second, third),
        _ => unreachable!(),
    }
}

/// The first three words, and those behind them.
pub fn three_and_more<'w, 'a>(words: &'w [&'a str]) -> (&'a str, &'a str, &'a str, &'w [&'a str])
    requires { 3 ≤ length words.now }
    ensures { texts words.entry.now ≡ result.0.now ∷ result.1.now ∷ result.2.now ∷ texts result.3.now }
{
    match words {
        [first, second, third, more @ ..] => (first, second, third, more),
        _ => unreachable!(),
    }
}
