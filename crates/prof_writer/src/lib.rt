//! A writer of JSON texts.
#![tactic(auto)]

mod escaping;
mod page;
mod writer;

pub use escaping::write_string;
pub use page::push_unescaped;
pub use writer::Writer;
