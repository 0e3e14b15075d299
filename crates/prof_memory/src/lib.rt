//! Forms of the outside in memory.
//!
//! `MemSource` to `MapKeeper` hold all in memory and fail at the calls that are listed, for a file that
//! isn't there and for want of room. The `Steady` forms never fail.
#![tactic(auto)]

mod buffer;
mod giving;
mod map_keeper;
mod memory;
mod memory_files;
mod memory_hall;
mod seats;
mod steady;
mod texts;
mod trouble;

pub use map_keeper::MapKeeper;
pub use memory::{MemSink, MemSource};
pub use memory_files::MemFiles;
pub use memory_hall::MemHall;
pub use steady::{SteadyFiles, SteadyHall, SteadyKeeper, SteadySink, SteadySource};
pub use trouble::Planned;
