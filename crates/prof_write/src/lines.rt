//! Cells, as lines.
ghost use Rattle.std.specs.Prelude.{◌≡◌, ◌≤◌, length};
ghost use Rattle.prof_grammar.specs.Value.{boolean};
ghost use Rattle.prof_write.specs.Cells.{maybe_index, maybe_time, resource_index, time, weight};
ghost use Rattle.prof_write.specs.Compact.{compact};

use arrayvec::ArrayString;
use prof_page::{Line, number_line, scaled_line};
use prof_raw::Unit;

fn word_line(word: &str) -> Line
    requires { length word.now ≤ 256 }
    ensures { result.bytes ≡ word.now }
{
    let mut line = ArrayString::new();
    line.push_str(word);
    line
}

pub(crate) fn truth_line(value: bool) -> Line
    ensures { result.bytes ≡ compact (boolean value) }
{
    word_line(if value { "true" } else { "false" })
}

pub(crate) fn maybe_index_line(number: Option<u32>) -> Line
    ensures { result.bytes ≡ compact (maybe_index number) }
{
    match number {
        Some(number) => number_line(number),
        None => word_line("null"),
    }
}

pub(crate) fn resource_line(number: Option<u32>) -> Line
    ensures { result.bytes ≡ compact (resource_index number) }
{
    match number {
        Some(number) => number_line(number),
        None => word_line("-1"),
    }
}

pub(crate) fn time_line(nanoseconds: i64) -> Line
    ensures { result.bytes ≡ compact (time nanoseconds) }
{
    scaled_line(nanoseconds, 6)
}

pub(crate) fn maybe_time_line(nanoseconds: Option<i64>) -> Line
    ensures { result.bytes ≡ compact (maybe_time nanoseconds) }
{
    match nanoseconds {
        Some(nanoseconds) => time_line(nanoseconds),
        None => word_line("null"),
    }
}

pub(crate) fn weight_line(unit: Unit, number: i64) -> Line
    ensures { result.bytes ≡ compact (weight unit number) }
{
    match unit {
        Unit::Ns => time_line(number),
        Unit::Samples => number_line(number),
        Unit::Bytes => number_line(number),
    }
}
