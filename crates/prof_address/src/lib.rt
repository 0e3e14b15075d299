//! The texts of views and of transforms, each with one spelling.
#![tactic(auto)]

mod kind;
mod part;
mod reading;
mod refusal;
mod text;
mod view;
mod view_writing;
mod writing;

pub use kind::{FILTERS, Filter, Form};
pub use reading::{next_transform, read_transforms};
pub use refusal::TextRefusal;
pub use text::ViewText;
pub use view::{next_view, read_view};
pub use view_writing::{push_view, write_view};
pub use writing::write_transforms;
