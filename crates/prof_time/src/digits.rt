//! Runs of digits.
ghost use Rattle.std.specs.Prelude.{◌≡◌, ◌≤◌, ◌+◌, ◌-◌, ◌*◌, ◌^◌, ◌↔◌, fold, min, take_while, drop, length, All, IsTrue};
ghost use Rattle.std.specs.Char.{is_ascii_digit};
ghost use Rattle.std.specs.List.{prefix_len};
ghost use Rattle.prof_time.specs.TakenApart.{behind_digits, is_minus, without_sign, fraction_in_front, behind_fraction};

/// How many digits a text begins with.
fn digits_len(text: &[u8]) -> usize
    ensures value { result ≡ prefix_len is_ascii_digit text.now }
    ensures within { result ≤ length text.now }
{
    for (i, byte) in text.iter().enumerate() {
        if !byte.is_ascii_digit() {
            return i;
        }
    }
    text.len()
}

/// The digits that a text begins with, and the rest.
pub(crate) fn split_digits(text: &[u8]) -> (&[u8], &[u8])
    ensures digits { result.0.now ≡ take_while is_ascii_digit text.now }
    ensures rest { result.1.now ≡ behind_digits text.now }
    ensures len { length result.0.now + length result.1.now ≡ length text.now }
{
    let len = digits_len(text);
    (&text[..len], &text[len..])
}

/// Whether a text begins with a minus, and the rest behind its sign, if it has one.
pub(crate) fn split_sign(text: &[u8]) -> (bool, &[u8])
    ensures negative { result.0 ≡ is_minus text.now }
    ensures rest { result.1.now ≡ without_sign text.now }
    ensures len { length result.1.now ≤ length text.now }
{
    match text {
        [b'-', rest @ ..] => (true, rest),
        [b'+', rest @ ..] => (false, rest),
        _ => (false, text),
    }
}

/// The digits of the fraction that a text begins with, none where it begins with no point, and the rest.
pub(crate) fn split_fraction(text: &[u8]) -> (&[u8], &[u8])
    ensures digits { result.0.now ≡ fraction_in_front text.now }
    ensures rest { result.1.now ≡ behind_fraction text.now }
    ensures len { length result.0.now + length result.1.now ≤ length text.now }
{
    match text {
        [b'.', rest @ ..] => split_digits(rest),
        _ => (&[], text),
    }
}

/// Whether the exponent that a text begins with goes down, and its digits.
pub(crate) fn split_exponent(text: &[u8]) -> (bool, &[u8])
    ensures down { result.0 ≡ is_minus (drop 1 text.now) }
    ensures digits { result.1.now ≡ without_sign (drop 1 text.now) }
{
    match text {
        [_, exponent @ ..] => split_sign(exponent),
        [] => (false, text),
    }
}

pub(crate) fn are_zeros(digits: &[u8]) -> bool
    ensures { IsTrue result ↔ All (λ digit. digit ≡ 48) digits.now }
{
    digits.iter().all(|digit| *digit == b'0')
}

/// How many digits are few: the number that they write has 64 bits.
const FEW: usize = 17;

/// The number that a few digits write.
fn few_value(digits: &[u8]) -> u64
    requires { length digits.now ≤ FEW }
    ensures { result ≡ fold (λ n d. 10 * n + (d - 48)) 0 digits.now }
{
    let mut value = 0u64;
    for digit in digits {
        value = 10 * value + u64::from(digit.saturating_sub(b'0'));
    }
    value
}

/// The number that `front` and then many digits write, at most `u128::MAX`.
fn many_behind(front: u128, digits: &[u8]) -> u128
    ensures { result ≡ min (fold (λ n d. 10 * n + (d - 48)) front digits.now) (2 ^ 128 - 1) }
{
    let mut value = front;
    for digit in digits {
        let digit = digit.saturating_sub(b'0');
        value = value.saturating_mul(10).saturating_add(u128::from(digit));
    }
    value
}

/// The number that `front` and then the digits write, at most `u128::MAX`.
pub(crate) fn value_behind(front: u128, digits: &[u8]) -> u128
    ensures { result ≡ min (fold (λ n d. 10 * n + (d - 48)) front digits.now) (2 ^ 128 - 1) }
{
    if digits.is_empty() {
        return front;
    }
    if digits.len() > FEW {
        return many_behind(front, digits);
    }
    let value = u128::from(few_value(digits));
    if front == 0 {
        return value;
    }
    times_ten_to(front, digits.len() as u128).saturating_add(value)
}

/// The number that `front` and then the digits at the head of a text write, and the rest of the text.
#[inline]
pub(crate) fn read_digits(front: u64, text: &[u8]) -> (u64, &[u8])
    requires { (front + 1) * 10 ^ length text.now ≤ 10 ^ 18 }
    ensures value { result.0 ≡ fold (λ n d. 10 * n + (d - 48)) front (take_while is_ascii_digit text.now) }
    ensures rest { result.1.now ≡ behind_digits text.now }
    ensures small { (result.0 + 1) * 10 ^ length result.1.now ≤ 10 ^ 18 }
{
    let mut value = front;
    let mut rest = text;
    while let [byte, behind @ ..] = rest {
        if !byte.is_ascii_digit() {
            break;
        }
        value = 10 * value + u64::from(*byte - b'0');
        rest = behind;
    }
    (value, rest)
}

/// The powers of ten that have 64 bits.
const TENS: [u64; 20] = [
    1,
    10,
    100,
    1_000,
    10_000,
    100_000,
    1_000_000,
    10_000_000,
    100_000_000,
    1_000_000_000,
    10_000_000_000,
    100_000_000_000,
    1_000_000_000_000,
    10_000_000_000_000,
    100_000_000_000_000,
    1_000_000_000_000_000,
    10_000_000_000_000_000,
    100_000_000_000_000_000,
    1_000_000_000_000_000_000,
    10_000_000_000_000_000_000,
];

/// The greatest power of ten that has 64 bits.
const MOST_TENS: u128 = 19;

/// Ten to the power.
#[inline]
pub(crate) fn ten_to(power: u32) -> u64
    requires { power ≤ 19 }
    ensures { result ≡ 10 ^ power }
{
    TENS[power as usize]
}

/// The number times ten to the power, at most `u128::MAX`.
pub(crate) fn times_ten_to(number: u128, power: u128) -> u128
    ensures { result ≡ min (number * 10 ^ power) (2 ^ 128 - 1) }
{
    if power == 0 {
        return number;
    }
    if power > MOST_TENS || number > u128::from(u64::MAX) {
        return times_great_power(number, power);
    }
    number * u128::from(ten_to(power as u32))
}

/// The same for powers of any size.
fn times_great_power(number: u128, power: u128) -> u128
    ensures { result ≡ min (number * 10 ^ power) (2 ^ 128 - 1) }
{
    // From the 39th power of ten on no product but 0 fits.
    let power = power.min(39) as u32;
    number.saturating_mul(10u128.saturating_pow(power))
}
