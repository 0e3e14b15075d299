//! JSON texts, gathered member by member and item by item out of a source whose bytes are hashed.
#![tactic(auto)]

mod feed;
mod hashed;
mod lent;
mod objects;
mod refusal;
mod whole;

pub use feed::Feed;
pub use hashed::Start;
pub use objects::{
    Found, FromItems, FromMembers, Kind, array, array_behind, items, members, object,
    object_behind, skip_behind,
};
pub use refusal::GatherRefusal;
pub use whole::read_object;
