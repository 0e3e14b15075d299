//! The machine of sessions: what each request makes of its own session and its own kept text, and what is answered.
#![tactic(auto)]

mod changing;
mod known;
mod laws;
mod refusal;
mod rules;
mod same;
mod shown;

pub use changing::{at_of, changed_view, fresh};
pub use known::KnownProfile;
pub use laws::same_changes;
pub use refusal::{Refusal, Reply};
pub use rules::{content_refusal, view_refusal};
pub use same::is_last;
pub use shown::{intervals_of, markers_of};
