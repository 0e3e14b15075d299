//! The commands.
ghost use Rattle.std.specs.Prelude.{◌≡◌};
ghost use Rattle.prof_words.specs.Commands.{command_of, least_words, most_words, name_of};

/// A command.
#[derive(Clone, Copy, Debug, PartialEq, Eq)]
pub enum Command {
    Tree,
    Markers,
    Script,
    Serve,
    Check,
    Convert,
    Gen,
    Demo,
    Flame,
    Chart,
    Alloc,
    Merge,
}

impl Command {
    /// The command of that name.
    pub fn named(name: &str) -> Option<Command>
        ensures { result ≡ command_of name.now }
    {
        match name {
            "tree" => Some(Command::Tree),
            "markers" => Some(Command::Markers),
            "script" => Some(Command::Script),
            "serve" => Some(Command::Serve),
            "check" => Some(Command::Check),
            "convert" => Some(Command::Convert),
            "gen" => Some(Command::Gen),
            "demo" => Some(Command::Demo),
            "flame" => Some(Command::Flame),
            "chart" => Some(Command::Chart),
            "alloc" => Some(Command::Alloc),
            "merge" => Some(Command::Merge),
            _ => None,
        }
    }

    pub fn name<'a>(self) -> &'a str
        ensures { result.now ≡ name_of self }
    {
        match self {
            Command::Tree => "tree",
            Command::Markers => "markers",
            Command::Script => "script",
            Command::Serve => "serve",
            Command::Check => "check",
            Command::Convert => "convert",
            Command::Gen => "gen",
            Command::Demo => "demo",
            Command::Flame => "flame",
            Command::Chart => "chart",
            Command::Alloc => "alloc",
            Command::Merge => "merge",
        }
    }

    /// How many words stand behind its name at least.
    pub fn least_words(self) -> usize
        ensures { result ≡ least_words self }
    {
        match self {
            Command::Tree | Command::Check | Command::Convert | Command::Gen | Command::Demo => 1,
            Command::Script | Command::Flame | Command::Chart | Command::Markers => 2,
            Command::Alloc | Command::Merge => 3,
            Command::Serve => 4,
        }
    }

    /// How many words stand behind its name at most.
    pub fn most_words(self) -> usize
        ensures { result ≡ most_words self }
    {
        match self {
            Command::Tree | Command::Check | Command::Convert | Command::Gen | Command::Demo => 1,
            Command::Script | Command::Flame | Command::Chart => 2,
            Command::Alloc | Command::Merge | Command::Markers => 3,
            Command::Serve => 19,
        }
    }
}
