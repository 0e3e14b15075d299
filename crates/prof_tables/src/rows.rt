//! Rows of the tables of a thread.

/// A step of a path: a function and a category.
#[derive(Clone, Copy, PartialEq, Eq, Debug)]
pub struct Step {
    pub func: u32,
    pub category: u32,
}

/// A frame: its function, and its own category where it has one.
#[derive(Clone, Copy, PartialEq, Eq, Debug)]
pub struct FrameRow {
    pub func: u32,
    pub category: Option<u32>,
}

/// A stack row: the row of its caller, and its own step.
#[derive(Clone, Copy, PartialEq, Eq, Debug)]
pub struct StackRow {
    pub prefix: Option<u32>,
    pub func: u32,
    pub category: u32,
}

/// A sample: its stack row, its time in nanoseconds, and its weight in the thread's unit.
#[derive(Clone, Copy, PartialEq, Eq, Debug)]
pub struct SampleRow {
    pub stack: Option<u32>,
    pub time: i64,
    pub weight: i64,
}

/// The places of a function's texts in the strings.
#[derive(Clone, Copy, PartialEq, Eq, Debug)]
pub struct FuncStrings {
    pub name: u32,
    pub file: Option<u32>,
}
