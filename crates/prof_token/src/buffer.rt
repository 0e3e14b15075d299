// The text of an event.
ghost use Rattle.std.specs.Prelude.{◌≡◌, [], IfErr, OnOk, encode_utf8};
ghost use Rattle.std.specs.Str.{IsUtf8};
ghost use Rattle.prof_token.specs.Kept.{Gains};

use crate::JsonFault;
use std::alloc::Global;
use std::marker::Model;

/// The text of a name, a string or a number. While it isn't kept, nothing is added.
#[derive(Drop)]
pub struct Buffer {
    text: String,
    keeping: bool,
}

impl Model for Buffer {
    ghost use Rattle.std.specs.Prelude.{string_bytes};
    ghost use Rattle.prof_token.specs.Kept.{Kept};

    ghost Value = { Kept };

    ghost view = { λ b. record { bytes = string_bytes b.text; keeping = b.keeping } };
}

impl Buffer {
    pub fn new(alloc: Global) -> Self
        ensures { result.bytes ≡ [] }
    {
        Buffer {
            text: String::new(alloc),
            keeping: true,
        }
    }

    /// Begins another text, which is kept or not.
    pub fn begin(&mut self, keeping: bool)
        ensures { self.new ≡ record { bytes = []; keeping = keeping } }
    {
        self.text.clear();
        self.keeping = keeping;
    }

    /// Adds a piece of UTF-8.
    #[tactic(auto, unfolding(crate::specs::Kept::with))]
    pub fn push(&mut self, piece: &[u8]) -> Result<(), JsonFault>
        requires { IsUtf8 piece.now }
        ensures ok { OnOk result (Gains self.old piece.now self.new) }
        ensures err { IfErr result (λ fault. fault ≡ JsonFault.NoMemory) }
    {
        if !self.keeping {
            return Ok(());
        }
        let piece = unsafe { str::from_utf8_unchecked(piece) };
        match self.text.push_str(piece) {
            Ok(()) => Ok(()),
            Err(_) => Err(JsonFault::NoMemory),
        }
    }

    /// Adds a character.
    #[tactic(auto, unfolding(crate::specs::Kept::with))]
    pub fn push_char(&mut self, c: char) -> Result<(), JsonFault>
        ensures ok { OnOk result (Gains self.old (encode_utf8 c) self.new) }
        ensures err { IfErr result (λ fault. fault ≡ JsonFault.NoMemory) }
    {
        if !self.keeping {
            return Ok(());
        }
        match self.text.push(c) {
            Ok(()) => Ok(()),
            Err(_) => Err(JsonFault::NoMemory),
        }
    }

    pub fn as_str(&self) -> &str
        ensures { result.now ≡ self.now.bytes }
    {
        self.text.as_str()
    }

    pub fn as_bytes(&self) -> &[u8]
        ensures { result.now ≡ self.now.bytes }
    {
        self.text.as_bytes()
    }
}
