//! The rules that a profile's tables keep, and the place where one breaks.

/// What can be wrong with a table.
#[derive(Clone, Copy, PartialEq, Eq, Debug)]
pub enum Rule {
    /// A value of another kind than its place allows.
    WrongKind,
    /// A table or a column that is needed and absent.
    Missing,
    /// A column of another length than its table.
    LengthDiffers,
    /// An index that is no whole number in its range.
    IndexOut,
    /// A prefix that isn't a smaller row.
    PrefixOrder,
    /// A time, a weight or a running sum of times out of the range.
    NumberRange,
    /// A phase that isn't known, or a time that its phase needs and that is null.
    Phase,
    /// More rows than the limit.
    RowLimit,
    /// Neither a processed profile nor a Gecko profile.
    UnknownFormat,
    /// A weight type that isn't known.
    WeightType,
}

/// A table, `meta`, or a list without columns.
#[derive(Clone, Copy, PartialEq, Eq, Debug)]
pub enum Table {
    Meta,
    Threads,
    StringArray,
    ResourceTable,
    FuncTable,
    FrameTable,
    StackTable,
    Samples,
    Markers,
    Libs,
    Processes,
    StringTable,
}

/// A column of a table, a member of `meta`, or `List` for a list without columns.
#[derive(Clone, Copy, PartialEq, Eq, Debug)]
pub enum Column {
    List,
    Version,
    Categories,
    Name,
    IsJs,
    RelevantForJs,
    Resource,
    FileName,
    Func,
    Category,
    Frame,
    Prefix,
    Stack,
    Time,
    TimeDeltas,
    WeightType,
    Weight,
    Phase,
    StartTime,
    EndTime,
    Data,
    Length,
    Schema,
    Location,
}

/// The first rule that a list breaks, at a row or as a whole.
#[derive(Clone, Copy, PartialEq, Eq, Debug)]
pub struct ListFault {
    pub rule: Rule,
    pub row: Option<u32>,
}

/// A cell that breaks a rule.
#[derive(Clone, Copy, PartialEq, Eq, Debug)]
pub struct BadCell {
    pub row: u32,
    pub rule: Rule,
}

/// The first check that fails, with its place. Threads and rows are numbered from 0.
#[derive(Clone, Copy, PartialEq, Eq, Debug)]
pub struct Broken {
    pub rule: Rule,
    pub thread: Option<u32>,
    pub table: Table,
    pub column: Column,
    pub row: Option<u32>,
}
