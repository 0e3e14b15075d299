//! A number's text taken apart.
ghost use Rattle.std.specs.Prelude.{◌≡◌, ℕ, ◌+◌, ◌-◌, ◌*◌, ◌^◌, ◌<◌, ◌≤◌, ◌++◌, min, take, drop, length, slice_index, All, IsTrue, ◌↔◌, IfSome, IfNone};
ghost use Rattle.prof_time.specs.Numeral.{AreDigits};
ghost use Rattle.prof_time.specs.Scaled.{digits_value, IsNearest};

use crate::digits::{
    are_zeros, split_digits, split_exponent, split_fraction, split_sign, times_ten_to, value_behind,
};

/// The greatest exponent that is told from others. It reaches past every digit of a text.
const FAR: u128 = 1 << 100;

/// A number whose size is what the digits before and behind the point write, as one whole number, times ten to the
/// power `up` and divided by ten to the power `down`.
#[derive(Drop)]
pub(crate) struct Decimal<'t> {
    pub negative: bool,
    pub whole: &'t [u8],
    pub fraction: &'t [u8],
    pub up: u128,
    pub down: u128,
    ghost fits: { length whole.now + length fraction.now < 2 ^ 64 },
    ghost small: { up ≤ 2 ^ 100 },
}

impl<'t> Decimal<'t> {
    ghost use Rattle.prof_time.specs.TakenApart.{numeral_of};
    ghost use Rattle.prof_time.specs.Parts.{IsTakenApart, digits_of, rounded_front};

    /// Takes the text of a number apart.
    pub fn of(text: &'t [u8]) -> Decimal<'t>
        ensures { IsTakenApart (numeral_of text.now) result }
    {
        let (negative, text) = split_sign(text);
        let (whole, text) = split_digits(text);
        let (fraction, text) = split_fraction(text);
        let (is_down, exponent) = split_exponent(text);
        let exponent = value_behind(0, exponent).min(FAR);
        let fraction_len = fraction.len() as u128;
        let (up, down) = if is_down {
            (0, fraction_len + exponent)
        } else {
            (exponent, fraction_len)
        };
        Decimal {
            negative,
            whole,
            fraction,
            up,
            down,
        }
    }

    fn len(&self) -> usize
        ensures { result ≡ length (digits_of self.now) }
    {
        self.whole.len() + self.fraction.len()
    }

    /// The number that the first `len` digits write, at most `u128::MAX`.
    fn front(&self, len: usize) -> u128
        requires { len ≤ length (digits_of self.now) }
        ensures { result ≡ min (digits_value (take len (digits_of self.now))) (2 ^ 128 - 1) }
    {
        let whole = len.min(self.whole.len());
        let value = value_behind(0, &self.whole[..whole]);
        value_behind(value, &self.fraction[..len - whole])
    }

    fn digit(&self, index: usize) -> u8
        requires { index < length (digits_of self.now) }
        ensures { result ≡ slice_index (digits_of self.now) index }
    {
        let whole = self.whole.len();
        if index < whole {
            self.whole[index]
        } else {
            self.fraction[index - whole]
        }
    }

    fn is_zero_from(&self, index: usize) -> bool
        requires { index ≤ length (digits_of self.now) }
        ensures { IsTrue result ↔ All (λ digit. digit ≡ 48) (drop index (digits_of self.now)) }
    {
        let whole = index.min(self.whole.len());
        are_zeros(&self.whole[whole..]) && are_zeros(&self.fraction[index - whole..])
    }

    /// The first `len` digits as a number, and one more where the digit behind them is 5 or greater.
    fn rounded(&self, len: usize) -> u128
        requires { len < length (digits_of self.now) }
        ensures { result ≡ min (rounded_front (digits_of self.now) len) (2 ^ 128 - 1) }
    {
        let front = self.front(len);
        if self.digit(len) >= b'5' {
            front.saturating_add(1)
        } else {
            front
        }
    }

    /// The whole number nearest to the size times ten to the power `decimals`, ties upwards, and at most `u128::MAX`.
    pub fn nearest(&self, decimals: u32) -> u128
        requires few { decimals ≤ 6 }
        requires digits { AreDigits (digits_of self.now) }
        ensures { (n : ℕ)
            × IsNearest (digits_value (digits_of self.now) * 10 ^ (decimals + self.now.up)) (10 ^ self.now.down) n
            × (result ≡ min n (2 ^ 128 - 1)) }
    {
        let up = u128::from(decimals) + self.up;
        let len = self.len();
        if self.down <= up {
            return times_ten_to(self.front(len), up - self.down);
        }
        let cut = self.down - up;
        if (len as u128) < cut {
            return 0;
        }
        self.rounded(len - cut as usize)
    }

    /// The size, at most `u128::MAX`, where it is a whole number.
    pub fn whole_size(&self) -> Option<u128>
        requires digits { AreDigits (digits_of self.now) }
        ensures some { IfSome result (λ size. (n : ℕ)
            × (digits_value (digits_of self.now) * 10 ^ self.now.up ≡ n * 10 ^ self.now.down)
            × (size ≡ min n (2 ^ 128 - 1))) }
        ensures none { IfNone result ((n : ℕ) → ¬ (digits_value (digits_of self.now) * 10 ^ self.now.up ≡ n * 10 ^ self.now.down)) }
    {
        let len = self.len();
        if self.down <= self.up {
            return Some(times_ten_to(self.front(len), self.up - self.down));
        }
        let cut = (self.down - self.up).min(len as u128) as usize;
        let kept = len - cut;
        if self.is_zero_from(kept) {
            Some(self.front(kept))
        } else {
            None
        }
    }
}
