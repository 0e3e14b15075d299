//! The texts of views and transforms.
ghost use Rattle.std.specs.Prelude.{◌≡◌, [], ◌++◌, IfOk, OnOk, OnErr};

use prof_io::{NoMemory, Text};
use std::alloc::Global;
use std::marker::Model;

/// The text of a view or of a list of transforms, which contracts see as its bytes.
#[derive(Drop)]
pub struct ViewText {
    text: Text,
}

impl Model for ViewText {
    ghost use Rattle.std.specs.Prelude.{ℕ, List};

    ghost Value = { List ℕ };

    ghost view = { λ t. t.text };
}

impl ViewText {
    /// An empty text, which takes no memory yet.
    pub fn new(alloc: Global) -> Self
        ensures { result ≡ [] }
    {
        ViewText {
            text: Text::new(alloc),
        }
    }

    /// This text.
    pub(crate) fn of(text: Text) -> Self
        ensures { result ≡ text }
    {
        ViewText { text }
    }

    /// Puts a text behind this one.
    pub fn push_str(&mut self, text: &str) -> Result<(), NoMemory>
        ensures ok { OnOk result (self.new ≡ self.old ++ text.now) }
        ensures err { OnErr result (self.new ≡ self.old) }
    {
        self.text.push_str(text)
    }

    /// The text as a slice.
    pub fn as_str(&self) -> &str
        ensures { result.now ≡ self.now }
    {
        self.text.as_str()
    }

    /// An equal text, in memory of its own.
    pub fn copy(&self, alloc: Global) -> Result<Self, NoMemory>
        ensures { IfOk result (λ text. text ≡ self.now) }
    {
        Ok(ViewText {
            text: self.text.copy(alloc)?,
        })
    }
}
