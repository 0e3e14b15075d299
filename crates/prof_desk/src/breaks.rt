// What is told of a profile that isn't accepted.
ghost use Rattle.std.specs.Prelude.{◌≡◌, ◌≤◌, ◌+◌, ◌++◌, length, codes, Some};
ghost use Rattle.arrayvec.specs.ArrayString.{array_string_len};
ghost use Rattle.prof_desk.specs.Breaks.{break_text, broken_text, column_text, fault_text, rule_text, table_text, thread_text, row_text};

use arrayvec::ArrayString;
use prof_json::JsonFault;
use prof_page::{Line, push_number};
use prof_tables::{Broken, Column, Rule, Table};

/// Why a text isn't accepted.
#[derive(Clone, Copy, Debug, PartialEq, Eq)]
pub enum Break {
    /// A fault of its JSON.
    Json(JsonFault),
    /// A rule that the profile breaks.
    Rule(Broken),
    /// A script that has too many bytes.
    LongScript,
}

/// A rule's name.
fn rule_text(rule: Rule) -> &'static str
    ensures name { result.now ≡ rule_text rule }
    ensures short { length result.now ≤ 3 }
{
    match rule {
        Rule::WrongKind => "B1",
        Rule::Missing => "B2",
        Rule::LengthDiffers => "B3",
        Rule::IndexOut => "B4",
        Rule::PrefixOrder => "B5",
        Rule::NumberRange => "B6",
        Rule::Phase => "B7",
        Rule::RowLimit => "B8",
        Rule::UnknownFormat => "B9",
        Rule::WeightType => "B10",
    }
}

/// A table's name, as it stands in a profile.
fn table_text(table: Table) -> &'static str
    ensures name { result.now ≡ table_text table }
    ensures short { length result.now ≤ 13 }
{
    match table {
        Table::Meta => "meta",
        Table::Threads => "threads",
        Table::StringArray => "stringArray",
        Table::ResourceTable => "resourceTable",
        Table::FuncTable => "funcTable",
        Table::FrameTable => "frameTable",
        Table::StackTable => "stackTable",
        Table::Samples => "samples",
        Table::Markers => "markers",
        Table::Libs => "libs",
        Table::Processes => "processes",
        Table::StringTable => "stringTable",
    }
}

/// What stands behind a table's name: a point and the column's name, and nothing for a list without columns.
fn column_text(column: Column) -> &'static str
    ensures name { result.now ≡ column_text column }
    ensures short { length result.now ≤ 14 }
{
    match column {
        Column::List => "",
        Column::Version => ".version",
        Column::Categories => ".categories",
        Column::Name => ".name",
        Column::IsJs => ".isJS",
        Column::RelevantForJs => ".relevantForJS",
        Column::Resource => ".resource",
        Column::FileName => ".fileName",
        Column::Func => ".func",
        Column::Category => ".category",
        Column::Frame => ".frame",
        Column::Prefix => ".prefix",
        Column::Stack => ".stack",
        Column::Time => ".time",
        Column::TimeDeltas => ".timeDeltas",
        Column::WeightType => ".weightType",
        Column::Weight => ".weight",
        Column::Phase => ".phase",
        Column::StartTime => ".startTime",
        Column::EndTime => ".endTime",
        Column::Data => ".data",
        Column::Length => ".length",
        Column::Schema => ".schema",
        Column::Location => ".location",
    }
}

/// Appends a thread's number, where there is one.
fn push_thread(line: &mut Line, thread: Option<u32>)
    requires { array_string_len line.old ≤ 100 }
    ensures text { line.new.bytes ≡ line.old.bytes ++ thread_text thread }
    ensures short { array_string_len line.new ≤ array_string_len line.old + 48 }
{
    if let Some(thread) = thread {
        line.push_str(" thread ");
        push_number(line, thread, "");
    }
}

/// Appends a row's number, where there is one.
fn push_row(line: &mut Line, row: Option<u32>)
    requires { array_string_len line.old ≤ 100 }
    ensures text { line.new.bytes ≡ line.old.bytes ++ row_text row }
    ensures short { array_string_len line.new ≤ array_string_len line.old + 45 }
{
    if let Some(row) = row {
        line.push_str(" row ");
        push_number(line, row, "");
    }
}

/// A broken rule with its place.
pub fn broken_text(broken: Broken) -> Line
    ensures { result.bytes ≡ broken_text broken }
{
    let mut line = ArrayString::new();
    line.push_str("broken ");
    line.push_str(rule_text(broken.rule));
    push_thread(&mut line, broken.thread);
    line.push_str(" ");
    line.push_str(table_text(broken.table));
    line.push_str(column_text(broken.column));
    push_row(&mut line, broken.row);
    line
}

/// A fault of a JSON text with its place.
pub fn fault_text(fault: JsonFault) -> Line
    ensures { result.bytes ≡ fault_text fault }
{
    let mut line = ArrayString::new();
    match fault {
        JsonFault::NotJson { at } => {
            line.push_str("broken J1 ");
            push_number(&mut line, at, "");
        }
        JsonFault::TooDeep { at } => {
            line.push_str("broken J2 ");
            push_number(&mut line, at, "");
        }
        JsonFault::TooLong => line.push_str("broken J3"),
        JsonFault::ReadFault | JsonFault::NoMemory => {}
    }
    line
}

/// That a script is too long.
fn long_text() -> Line
    ensures { result.bytes ≡ codes "broken script" }
{
    let mut line = ArrayString::new();
    line.push_str("broken script");
    line
}

/// Why a text isn't accepted, or nothing.
pub fn break_text(broken: Option<Break>) -> Line
    ensures { result.bytes ≡ break_text broken }
{
    match broken {
        Some(Break::Json(fault)) => fault_text(fault),
        Some(Break::Rule(broken)) => broken_text(broken),
        Some(Break::LongScript) => long_text(),
        None => ArrayString::new(),
    }
}
