//! Locations that are addresses.
ghost use Rattle.std.specs.Prelude.{◌≡◌, ◌+◌, ◌*◌, true, drop, Some, None, if◌then◌else◌};
ghost use Rattle.std.specs.List.{list_all};
ghost use Rattle.std.specs.Option.{option_copied};
ghost use Rattle.std.specs.Char.{digit_value};
ghost use Rattle.prof_location.specs.Locations as says;

/// Whether a character is one of 0 to 9.
pub(crate) fn is_decimal(c: u8) -> bool
    ensures { result ≡ says.is_decimal c }
{
    b'0' <= c && c <= b'9'
}

fn is_hexadecimal(c: u8) -> bool
    ensures { result ≡ says.is_hexadecimal c }
{
    is_decimal(c) || b'a' <= c && c <= b'f' || b'A' <= c && c <= b'F'
}

#[tactic(auto, using(std::proofs::lemmas::List::Folds::list_all_more, std::proofs::lemmas::List::Folds::list_all_at))]
fn are_hexadecimal(text: &[u8]) -> bool
    ensures { result ≡ says.are_some says.is_hexadecimal text.now }
{
    for c in text {
        if !is_hexadecimal(*c) {
            return false;
        }
    }
    !text.is_empty()
}

fn hex_digit(c: u8) -> u8
    requires { says.is_hexadecimal c ≡ true }
    ensures { result ≡ digit_value c }
{
    if c <= b'9' {
        c - b'0'
    } else if c <= b'F' {
        c - b'A' + 10
    } else {
        c - b'a' + 10
    }
}

/// One more digit behind a number, if it fits 64 bits.
fn with_digit(value: u64, digit: u64) -> Option<u64>
    ensures { result ≡ says.within_64 (value * 16 + digit) }
{
    match value.checked_mul(16) {
        Some(high) => high.checked_add(digit),
        None => None,
    }
}

/// The number that hexadecimal digits write, if it fits 64 bits.
fn hex_value(digits: &[u8]) -> Option<u64>
    requires { list_all says.is_hexadecimal digits.now ≡ true }
    ensures { result ≡ says.within_64 (says.hex_behind 0 digits.now) }
{
    let mut value: u64 = 0;
    for c in digits {
        let digit = u64::from(hex_digit(*c));
        let Some(next) = with_digit(value, digit) else {
            return None;
        };
        value = next;
    }
    Some(value)
}

/// The digits of an address.
fn address_digits(location: &[u8]) -> Option<&[u8]>
    ensures { option_copied result
        ≡ (if says.is_address location.now then Some (drop 2 location.now) else None) }
{
    if location.len() < 2 || location[0] != b'0' {
        return None;
    }
    if location[1] != b'x' && location[1] != b'X' {
        return None;
    }
    let digits = &location[2..];
    if are_hexadecimal(digits) {
        Some(digits)
    } else {
        None
    }
}

/// The number of an address, and none in it where the number doesn't fit 64 bits.
#[tactic(auto, unfolding(crate::specs::Locations::address_of))]
pub(crate) fn address_of(location: &[u8]) -> Option<Option<u64>>
    ensures { result ≡ says.address_of location.now }
{
    match address_digits(location) {
        Some(digits) => Some(hex_value(digits)),
        None => None,
    }
}
