//! The limits of a profile.

/// The most threads of a profile.
pub const MOST_THREADS: u32 = 1 << 10;

/// The most categories that a text lists.
pub const MOST_CATEGORIES: u32 = 1 << 16;

/// The most functions, and the most resources.
pub const MOST_FUNCS: u32 = 1 << 20;

/// The most frames, the most stack rows, and the most markers.
pub const MOST_ROWS: u32 = 1 << 22;

/// The most strings of a list.
pub const MOST_STRINGS: u32 = 1 << 22;

/// The most samples of a thread.
pub const MOST_SAMPLES: u32 = 1 << 23;

/// The greatest size of a time in nanoseconds, and of a weight.
pub const GREATEST: u64 = 9_000_000_000_000_000_000;
