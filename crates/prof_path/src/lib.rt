//! Paths of steps, and the transforms that rewrite one path.
#![tactic(auto)]

mod call_nodes;
mod checking;
mod collapsing;
mod functions;
mod laws;
mod lists;
mod meeting;
mod paths;
mod rewriting;
mod searching;
mod seeking;
mod shown;
mod transform;

pub use checking::{PushRefusal, check, check_rules};
pub use laws::{
    call_node_step, collapse_step, direct_recursion_by_place, function_step, rewrite_all_steps,
    state_step,
};
pub use lists::{FuncPath, Span, SpanList, StepList, TermList};
pub use meeting::funcs_with;
pub use paths::path_of;
pub use prof_tables::Step;
pub use rewriting::rewrite;
pub use searching::{is_long_search, terms};
pub use seeking::Seeker;
pub use shown::visible;
pub use transform::{Implementation, Range, Transform, View};
