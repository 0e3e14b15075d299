//! Messages of HTTP/1.1 out of a hall's connections, their routes, and responses into connections.
//!
//! A `Wire` has two buffers, and lends each message from them. After `Wire::new` and `Routes::new`
//! nothing here takes memory.
#![tactic(auto)]

mod heads;
mod messages;
mod reading;
mod refusing;
mod responding;
mod routing;
mod wire;

pub use messages::{Message, Verb, Why, WireEnd};
pub use refusing::write_refusal;
pub use responding::{HallFault, write_response};
pub use routing::{Route, Routes};
pub use wire::Wire;
