//! The functions of frame locations: what each stands for, how it is named, and the lists that grow with them.
#![tactic(auto)]

mod func;
mod keys;
mod libraries;
mod lists;
mod naming;
mod numbering;

pub use func::{Func, FuncKey, ResourceKey};
pub use keys::location_keys;
pub use libraries::Lib;
pub use lists::FuncLists;
pub use naming::{NamedFunc, NamedResource, named_of};
pub use numbering::{Numbering, number_by_first_use};
