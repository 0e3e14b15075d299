//! Short numbers: digits alone, or digits, a point and digits. Most numbers of a profile are short.
ghost use Rattle.std.specs.Prelude.{◌≡◌, ℕ, ◌*◌, ◌^◌, ◌<◌, ◌≤◌, IfSome, IfNone};
ghost use Rattle.prof_time.specs.Scaled.{IsNearest};

use crate::digits::{read_digits, ten_to};

/// The most bytes of a short number: what its digits write, and three times that, has 64 bits.
const MOST_BYTES: usize = 18;

/// The number that all its digits write, and how many of them stand behind the point.
#[derive(Drop)]
pub(crate) struct Short {
    value: u64,
    places: u32,
    ghost small: { value < 10 ^ 18 },
    ghost few: { places ≤ 18 },
}

impl Short {
    ghost use Rattle.prof_time.specs.TakenApart.{numeral_of};
    ghost use Rattle.prof_time.specs.Parts.{IsPlain};

    /// Reads the text of a short number. Any other text is None.
    #[inline]
    pub fn of(text: &[u8]) -> Option<Short>
        ensures { IfSome result (λ short. IsPlain (numeral_of text.now) short) }
    {
        if text.len() > MOST_BYTES {
            return None;
        }
        let (whole, rest) = read_digits(0, text);
        match rest {
            [] => Some(Short {
                value: whole,
                places: 0,
            }),
            [b'.', fraction @ ..] => {
                let (value, rest) = read_digits(whole, fraction);
                if rest.is_empty() {
                    Some(Short {
                        value,
                        places: fraction.len() as u32,
                    })
                } else {
                    None
                }
            }
            _ => None,
        }
    }

    /// The whole number nearest to the number times ten to the power `decimals`, ties upwards.
    #[inline]
    pub fn nearest(&self, decimals: u32) -> u128
        requires few { decimals ≤ 6 }
        ensures { IsNearest (self.now.value * 10 ^ decimals) (10 ^ self.now.places) result }
    {
        if self.places <= decimals {
            let unit = ten_to(decimals - self.places);
            return u128::from(self.value) * u128::from(unit);
        }
        let unit = ten_to(self.places - decimals);
        u128::from((2 * self.value + unit) / (2 * unit))
    }

    /// The number, where it is whole.
    #[inline]
    pub fn whole(&self) -> Option<u64>
        ensures some { IfSome result (λ n. self.now.value ≡ n * 10 ^ self.now.places) }
        ensures none { IfNone result ((n : ℕ) → ¬ (self.now.value ≡ n * 10 ^ self.now.places)) }
        ensures small { IfSome result (λ n. n < 10 ^ 18) }
    {
        if self.places == 0 {
            return Some(self.value);
        }
        let unit = ten_to(self.places);
        if self.value % unit == 0 {
            Some(self.value / unit)
        } else {
            None
        }
    }
}
