//! Laws of numbers' texts, each the contract of a function that does nothing.
ghost use Rattle.std.specs.Prelude.{◌≡◌, ℕ, ℤ, List};
ghost use Rattle.prof_time.specs.Numeral.{Numeral, IsNumber};
ghost use Rattle.prof_time.specs.Scaled.{IsScaled, IsExact};

/// A text is a number in one way.
pub fn one_numeral()
    ensures { (text : List ℕ) (m n : Numeral) → IsNumber text m → IsNumber text n → m ≡ n }
{}

/// A number has one nearest whole number at each scale.
pub fn one_scaled()
    ensures one { (text : List ℕ) (d : ℕ) (y z : ℤ) → IsScaled text d y → IsScaled text d z → y ≡ z }
    ensures some { (text : List ℕ) (m : Numeral) (d : ℕ) → IsNumber text m → (z : ℤ) × IsScaled text d z }
{}

/// A number is at most one whole number.
pub fn one_exact()
    ensures { (text : List ℕ) (y z : ℤ) → IsExact text y → IsExact text z → y ≡ z }
{}
