//! The cells of columns, out of the items of arrays.
ghost use Rattle.std.specs.Prelude.{◌≡◌, ◌≤◌, ◌<◌, ℕ, List, Some, option_map};
ghost use Rattle.prof_time.specs.Numeral.{Numeral, IsNumber};
ghost use Rattle.prof_gather.specs.Feeding.{IsBegun};
ghost use Rattle.prof_gather.specs.Taking.{Begins};
ghost use Rattle.prof_grammar.specs.Value.{Value};
ghost use Rattle.prof_layout.specs.Columns as layout;
ghost use Rattle.prof_layout.specs.Numbers.{whole_of, scaled_of};

use prof_gather::{Feed, Start};
use prof_io::Source;
use prof_json::Event;
use prof_layout::Reading;
use prof_raw::Rule;
use prof_time::{is_whole, read_exact, read_scaled};

/// A cell's number or null, or the rule that it breaks where no number stands for it.
pub type Cell = Result<Option<i64>, Rule>;

/// The i64 that is nearest.
fn clamped(n: i128) -> i64
    ensures { result ≡ layout.clamped n }
{
    if n > i64::MAX as i128 {
        i64::MAX
    } else if n < i64::MIN as i128 {
        i64::MIN
    } else {
        n as i64
    }
}

/// The i64 nearest to the whole number that the text writes, and none where that is no whole number.
fn nearest_whole(text: &[u8]) -> Option<i64>
    requires { (m : Numeral) × IsNumber text.now m }
    ensures { result ≡ option_map layout.clamped (whole_of text.now) }
{
    if let Some(n) = read_exact(text) {
        return Some(clamped(n));
    }
    if !is_whole(text) {
        return None;
    }
    if text.first() == Some(&b'-') {
        Some(i64::MIN)
    } else {
        Some(i64::MAX)
    }
}

fn whole_cell(text: &[u8], else_rule: Rule) -> Cell
    requires { (m : Numeral) × IsNumber text.now m }
    ensures { result ≡ layout.whole_cell else_rule (whole_of text.now) }
{
    match nearest_whole(text) {
        Some(n) => Ok(Some(n)),
        None => Err(else_rule),
    }
}

fn scaled_cell(text: &[u8], decimals: u32) -> Cell
    requires number { (m : Numeral) × IsNumber text.now m }
    requires few { decimals ≤ 6 }
    ensures { result ≡ layout.scaled_cell (scaled_of text.now decimals) }
{
    match read_scaled(text, decimals) {
        Ok(n) => Ok(Some(n)),
        Err(_) => Err(Rule::NumberRange),
    }
}

fn number_cell(reading: Reading, text: &[u8]) -> Cell
    requires { (m : Numeral) × IsNumber text.now m }
    ensures { result ≡ layout.read_cell reading (Value.number text.now) }
{
    match reading {
        Reading::Index | Reading::MaybeIndex => whole_cell(text, Rule::IndexOut),
        Reading::Phase => whole_cell(text, Rule::Phase),
        Reading::Count => scaled_cell(text, 0),
        Reading::Time | Reading::MaybeTime => scaled_cell(text, 6),
        Reading::Truth => Err(Rule::WrongKind),
    }
}

fn truth_cell(reading: Reading, truth: bool) -> Cell
    ensures { result ≡ layout.read_cell reading (Value.boolean truth) }
{
    match reading {
        Reading::Truth => Ok(Some(if truth { 1 } else { 0 })),
        _ => Err(Rule::WrongKind),
    }
}

fn null_cell(reading: Reading) -> Cell
    ensures { result ≡ layout.read_cell reading Value.null }
{
    match reading {
        Reading::Truth | Reading::MaybeIndex | Reading::MaybeTime => Ok(None),
        Reading::Index | Reading::Phase | Reading::Count | Reading::Time => Err(Rule::WrongKind),
    }
}

/// The cell of the item that this event has begun.
pub fn cell<R: Source, W: Start>(feed: &Feed<R, W>, reading: Reading, first: Event) -> Cell
    requires { IsBegun first feed.now }
    ensures { (v : Value) → Begins feed.now v → result ≡ layout.read_cell reading v }
{
    match first {
        Event::Number => number_cell(reading, feed.number_text()),
        Event::True => truth_cell(reading, true),
        Event::False => truth_cell(reading, false),
        Event::Null => null_cell(reading),
        _ => Err(Rule::WrongKind),
    }
}
