//! A law of numbers' texts, the contract of a function that does nothing.
ghost use Rattle.std.specs.Prelude.{◌≡◌, ℕ, ◌*◌, ◌^◌, ℤ, ◌*ℤ◌, pos, List, Some};
ghost use Rattle.prof_layout.specs.Numbers.{scaled_of, whole_of};

/// A text's whole value with six decimals is a million times that value.
pub fn whole_is_scaled()
    ensures { (text : List ℕ) (n : ℤ) → whole_of text ≡ Some n
        → scaled_of text 6 ≡ n *ℤ pos (10 ^ 6) }
{}
