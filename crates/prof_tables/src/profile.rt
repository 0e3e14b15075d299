//! A profile: its threads and the categories that they count in.
ghost use Rattle.prof_tables.specs.Profiles.{IsProfile};

use crate::thread::Thread;
use prof_io::Text;
use std::marker::Model;
use std::rc::Rc;

/// At most 1,024 threads, which all have these categories and this default.
#[derive(Drop)]
pub struct Profile {
    pub threads: Vec<Rc<Thread>>,
    pub categories: Vec<Text>,
    pub default: u32,
}

impl Model for Profile {
    ghost use Rattle.std.specs.Prelude.{map};
    ghost use Rattle.prof_tables.specs.Profiles.{ProfileTables, IsProfile};

    ghost Value = { ProfileTables };

    ghost view = { λ p. record {
      threads = map (λ t. t.value) p.threads.items;
      categories = p.categories.items;
      default = p.default;
    } };

    ghost invariant = { λ p. IsProfile (record {
      threads = map (λ t. t.value) p.threads.items;
      categories = p.categories.items;
      default = p.default;
    }) };
}

impl Profile {
    /// What each profile keeps: at most 1,024 threads, which all have its categories and its default. The call does nothing.
    pub fn keeps(&self)
        ensures { IsProfile self.now }
    {
        let _ = &self.default;
    }
}
