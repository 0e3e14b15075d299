//! Numbers read from their texts.
ghost use Rattle.std.specs.Prelude.{◌≡◌, ℕ, ℤ, ◌*◌, ◌^◌, ◌<◌, ◌≤◌, IfOk, OnErr, IfSome, OnSome, IfNone, IsTrue, ◌↔◌, unsigned_abs};
ghost use Rattle.prof_time.specs.Numeral.{Numeral, IsNumber};
ghost use Rattle.prof_time.specs.Scaled.{IsScaled, IsExact, signed};

use crate::decimal::Decimal;
use crate::short::Short;
use thiserror::Error;

/// The greatest size of a number of nanoseconds.
const MOST: u128 = 9_000_000_000_000_000_000;

/// The number of a text is out of range.
#[derive(Clone, Copy, Debug, PartialEq, Eq, Error)]
#[error("the number is out of range")]
pub struct TimeRange;

/// The whole number nearest to a number's value times ten to the power `decimals`, ties away from zero.
///
/// The text is that of a JSON number. It takes time linear in the text, however great the exponent is.
pub fn read_scaled(text: &[u8], decimals: u32) -> Result<i64, TimeRange>
    requires number { (m : Numeral) × IsNumber text.now m }
    requires few { decimals ≤ 6 }
    ensures nearest { IfOk result (λ n. IsScaled text.now decimals n) }
    ensures within { IfOk result (λ n. unsigned_abs n ≤ 9 * 10 ^ 18) }
    ensures range { OnErr result ((n : ℤ) × IsScaled text.now decimals n × (9 * 10 ^ 18 < unsigned_abs n)) }
{
    match Short::of(text) {
        Some(short) => in_range(false, short.nearest(decimals)),
        None => any_scaled(text, decimals),
    }
}

/// The same by the way that serves every number, and is slower for a short one.
#[inline(never)]
fn any_scaled(text: &[u8], decimals: u32) -> Result<i64, TimeRange>
    requires number { (m : Numeral) × IsNumber text.now m }
    requires few { decimals ≤ 6 }
    ensures nearest { IfOk result (λ n. IsScaled text.now decimals n) }
    ensures within { IfOk result (λ n. unsigned_abs n ≤ 9 * 10 ^ 18) }
    ensures range { OnErr result ((n : ℤ) × IsScaled text.now decimals n × (9 * 10 ^ 18 < unsigned_abs n)) }
{
    let number = Decimal::of(text);
    in_range(number.negative, number.nearest(decimals))
}

/// The number of that sign and size.
#[inline]
fn in_range(negative: bool, size: u128) -> Result<i64, TimeRange>
    ensures ok { IfOk result (λ n. (n ≡ signed negative size) × (size ≤ 9 * 10 ^ 18)) }
    ensures range { OnErr result (9 * 10 ^ 18 < size) }
{
    if size > MOST {
        return Err(TimeRange);
    }
    let size = size as i64;
    Ok(if negative { -size } else { size })
}

/// A number's value, where it is whole and its size is at most 2^64 - 1.
///
/// The text is that of a JSON number.
pub fn read_exact(text: &[u8]) -> Option<i128>
    requires { (m : Numeral) × IsNumber text.now m }
    ensures exact { IfSome result (λ n. IsExact text.now n) }
    ensures within { IfSome result (λ n. unsigned_abs n < 2 ^ 64) }
    ensures none { IfNone result ((n : ℤ) → IsExact text.now n → 2 ^ 64 ≤ unsigned_abs n) }
{
    let Some(short) = Short::of(text) else {
        return any_exact(text);
    };
    let size = short.whole()?;
    Some(i128::from(size))
}

/// The same by the way that serves every number, and is slower for a short one.
#[inline(never)]
fn any_exact(text: &[u8]) -> Option<i128>
    requires { (m : Numeral) × IsNumber text.now m }
    ensures exact { IfSome result (λ n. IsExact text.now n) }
    ensures within { IfSome result (λ n. unsigned_abs n < 2 ^ 64) }
    ensures none { IfNone result ((n : ℤ) → IsExact text.now n → 2 ^ 64 ≤ unsigned_abs n) }
{
    let number = Decimal::of(text);
    let size = number.whole_size()?;
    if size > u128::from(u64::MAX) {
        return None;
    }
    let size = size as i128;
    Some(if number.negative { -size } else { size })
}

/// Whether a number's value is whole, of whatever size.
///
/// The text is that of a JSON number.
pub fn is_whole(text: &[u8]) -> bool
    requires { (m : Numeral) × IsNumber text.now m }
    ensures { IsTrue result ↔ ((n : ℤ) × IsExact text.now n) }
{
    Decimal::of(text).whole_size().is_some()
}
