//! What functions and resources stand for, and the rows of functions.

/// What a function stands for: an address in a library, or a location by the first place of its text.
#[derive(Clone, Copy, PartialEq, Eq, Hash)]
pub enum FuncKey {
    Lib { lib: usize, offset: u64 },
    Text { place: u32 },
}

/// What a resource stands for: a library, or the JavaScript files of a name, by the first place of the name.
#[derive(Clone, Copy, PartialEq, Eq, Hash)]
pub enum ResourceKey {
    Lib { lib: usize },
    Name { place: u32 },
}

/// A function. Its name and its file are places in the strings.
#[derive(Clone, Copy)]
pub struct Func {
    pub name: u32,
    pub is_js: bool,
    pub relevant_for_js: bool,
    pub resource: Option<u32>,
    pub file: Option<u32>,
}
