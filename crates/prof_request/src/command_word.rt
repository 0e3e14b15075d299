//! The words of commands.
ghost use Rattle.prof_request.specs.Words.{word_text};

use prof_spell::Word;

/// The word of a command. Where more than a text may stand behind it, its space belongs to it.
#[derive(Clone, Copy, Debug, PartialEq, Eq)]
pub enum CommandWord {
    Open,
    Load,
    Close,
    Push,
    PopTo,
    Range,
    PopRangesTo,
    Implementation,
    Search,
    Undo,
    Redo,
    Goto,
    Tree,
    Inverted,
    Markers,
    Address,
    Save,
}

/// The words.
pub const COMMAND_WORDS: [CommandWord; 17] = [
    CommandWord::Open,
    CommandWord::Load,
    CommandWord::Close,
    CommandWord::Push,
    CommandWord::PopTo,
    CommandWord::Range,
    CommandWord::PopRangesTo,
    CommandWord::Implementation,
    CommandWord::Search,
    CommandWord::Undo,
    CommandWord::Redo,
    CommandWord::Goto,
    CommandWord::Tree,
    CommandWord::Inverted,
    CommandWord::Markers,
    CommandWord::Address,
    CommandWord::Save,
];

impl Word for CommandWord {
    ghost word = { word_text };

    fn word(&self) -> &'static str {
        match self {
            CommandWord::Open => "open ",
            CommandWord::Load => "load ",
            CommandWord::Close => "close",
            CommandWord::Push => "push ",
            CommandWord::PopTo => "popto ",
            CommandWord::Range => "range ",
            CommandWord::PopRangesTo => "poprangesto ",
            CommandWord::Implementation => "implementation ",
            CommandWord::Search => "search ",
            CommandWord::Undo => "undo ",
            CommandWord::Redo => "redo ",
            CommandWord::Goto => "goto ",
            CommandWord::Tree => "tree",
            CommandWord::Inverted => "inverted",
            CommandWord::Markers => "markers",
            CommandWord::Address => "address",
            CommandWord::Save => "save",
        }
    }
}
