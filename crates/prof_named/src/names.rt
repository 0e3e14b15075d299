//! Names in their order, with an index to their places.
ghost use Rattle.std.specs.Prelude.{◌≡◌, ◌<◌, ◌≤◌, ◌∷◌, ◌++◌, [], ℕ, List, length, OnOk, OnErr};
ghost use Rattle.std.specs.List.{position_or_len, remove};
ghost use Rattle.std.specs.Str.{bytes_eq};
ghost use Rattle.prof_io.specs.Named.{place_of};
ghost use Rattle.prof_named.specs.Names.{names_of};

use indexmap::IndexSet;
use prof_io::NoMemory;
use std::alloc::Global;
use std::marker::Model;

/// Names, no two of them the same, in the order in which they came.
#[derive(Drop)]
pub struct Names {
    names: IndexSet<String>,
}

impl Model for Names {
    ghost use Rattle.std.specs.Prelude.{ℕ, List, map, string_bytes};

    ghost Value = { List (List ℕ) };

    ghost view = { λ n. map string_bytes n.names.keys };
}

impl Names {
    /// No names. It takes no memory yet.
    pub fn new(alloc: Global) -> Names
        ensures { result ≡ [] }
    {
        Names {
            names: IndexSet::new(alloc),
        }
    }

    /// The place of a name, or the number of all where it isn't among them.
    pub fn find(&self, name: &str) -> usize
        ensures { result ≡ position_or_len (bytes_eq name.now) self.now }
    {
        match self.names.get_index_of(name) {
            Some(place) => place,
            None => self.names.len(),
        }
    }

    /// Puts a name behind the others, among which it isn't.
    pub fn push(&mut self, alloc: Global, name: &str) -> Result<(), NoMemory>
        requires { length self.old ≤ position_or_len (bytes_eq name.now) self.old }
        ensures ok { OnOk result (self.new ≡ self.old ++ name.now ∷ []) }
        ensures err { OnErr result (self.new ≡ self.old) }
    {
        let name = String::from_str(alloc, name)?;
        self.names.insert(name)?;
        Ok(())
    }

    /// Takes the name at a place away. Those behind it move up.
    pub fn remove(&mut self, place: usize)
        requires { place < length self.old }
        ensures { self.new ≡ remove self.old place }
    {
        let _name = self.names.shift_remove_index(place);
    }
}

/// The names of entries stand at the places of these. This function does nothing: its contract is the law.
pub fn places_agree<T>()
    ensures { (es : List (List ℕ × T)) (name : List ℕ) → position_or_len (bytes_eq name) (names_of es) ≡ place_of es name }
{}
