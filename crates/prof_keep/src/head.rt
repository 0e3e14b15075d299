//! The heads of the texts.
ghost use Rattle.prof_keep.specs.Heads.{head_word};

use prof_address::Form;
use prof_spell::Word;

/// The first line of a text, by its form, and the word of the second.
#[derive(Clone, Copy, Debug, PartialEq, Eq)]
pub struct Head(pub Form);

/// The heads.
pub const HEADS: [Head; 2] = [Head(Form::First), Head(Form::Second)];

impl Word for Head {
    ghost word = { head_word };

    fn word(&self) -> &'static str {
        match self.0 {
            Form::First => "profdesk-session 1\ndigest ",
            Form::Second => "profdesk-session 2\ndigest ",
        }
    }
}
