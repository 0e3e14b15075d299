//! Sessions in their seats: each with its history of views, and with the layers of the present one.
#![tactic(auto)]

mod cutting;
mod laws;
mod moving;
mod restoring;
mod seat;
mod showing;

pub use laws::{own_parts_suffice, repeats_act_once, saved_is_loaded};
pub use restoring::Unread;
pub use seat::Seat;
