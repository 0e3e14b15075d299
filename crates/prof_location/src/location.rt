//! What the location of a frame says.
ghost use Rattle.std.specs.Prelude.{◌≡◌, true};
ghost use Rattle.std.specs.Option.{option_map, option_copied};
ghost use Rattle.prof_location.specs.Cutting.{cut_at_last};
ghost use Rattle.prof_location.specs.Locations as says;
ghost use Rattle.prof_location.specs.Shown.{shown, pair_shown, parts_shown};

use crate::address::{address_of, is_decimal};

/// What the location of a frame says.
#[derive(Clone, Copy, PartialEq, Eq, Debug)]
pub enum Location<'t> {
    /// An address, without a number where it is 2^64 or more.
    Address {
        value: Option<u64>,
    },
    /// A JavaScript function. The parts are slices of the location; the line and the column are digits.
    Script {
        name: &'t str,
        file: &'t str,
        line: &'t str,
        column: Option<&'t str>,
    },
    /// Every other text.
    Label,
}

/// The parts of a JavaScript location.
struct Parts<'t> {
    name: &'t str,
    file: &'t str,
    line: &'t str,
    column: Option<&'t str>,
}

/// What stands before the last occurrence of a piece, and behind it.
fn cut_at_last<'t>(text: &'t str, piece: &str) -> Option<(&'t str, &'t str)>
    requires { says.is_some_text piece.now ≡ true }
    ensures { pair_shown result ≡ cut_at_last piece.now text.now }
{
    text.rsplit_once(piece)
}

/// What stands before a closing parenthesis at the end.
fn before_close<'t>(text: &'t str) -> Option<&'t str>
    ensures { option_copied result ≡ says.before_close text.now }
{
    text.strip_suffix(")")
}

#[tactic(auto, using(std::proofs::lemmas::List::Folds::list_all_more, std::proofs::lemmas::List::Folds::list_all_at))]
fn are_decimal(text: &[u8]) -> bool
    ensures { result ≡ says.are_some says.is_decimal text.now }
{
    for c in text {
        if !is_decimal(*c) {
            return false;
        }
    }
    !text.is_empty()
}

/// What stands before a colon and digits at the end of a text, and the digits.
#[tactic(auto, unfolding(crate::specs::Locations::numbered))]
fn numbered<'t>(text: &'t str) -> Option<(&'t str, &'t str)>
    ensures { pair_shown result ≡ says.numbered text.now }
{
    let Some((rest, digits)) = cut_at_last(text, ":") else {
        return None;
    };
    if !rest.is_empty() && are_decimal(digits.as_bytes()) {
        Some((rest, digits))
    } else {
        None
    }
}

/// The parts of a JavaScript location, of which this is the name and what stands in the parentheses.
fn script_in<'t>(name: &'t str, inner: &'t str) -> Option<Parts<'t>>
    ensures { option_map parts_shown result ≡ says.script_in (name.now, inner.now) }
{
    let Some((rest, last)) = numbered(inner) else {
        return None;
    };
    match numbered(rest) {
        Some((file, line)) => Some(Parts {
            name,
            file,
            line,
            column: Some(last),
        }),
        None => Some(Parts {
            name,
            file: rest,
            line: last,
            column: None,
        }),
    }
}

/// The parts of a JavaScript location.
#[tactic(auto, unfolding(crate::specs::Locations::script_of))]
fn script_of<'t>(location: &'t str) -> Option<Parts<'t>>
    ensures { option_map parts_shown result ≡ says.script_of location.now }
{
    let Some(front) = before_close(location) else {
        return None;
    };
    let Some((name, inner)) = cut_at_last(front, " (") else {
        return None;
    };
    script_in(name, inner)
}

/// What a location says.
#[tactic(auto, unfolding(crate::specs::Locations::kind_of))]
pub fn classify<'t>(location: &'t str) -> Location<'t>
    ensures { shown result ≡ says.kind_of location.now }
{
    if let Some(value) = address_of(location.as_bytes()) {
        return Location::Address { value };
    }
    match script_of(location) {
        Some(
            Parts {
                name,
                file,
                line,
                column,
            },
        ) => Location::Script {
            name,
            file,
            line,
            column,
        },
        None => Location::Label,
    }
}
