// Targets of messages as sessions and commands.
ghost use Rattle.std.specs.Prelude.{◌≡◌, ◌≢◌, ◌++◌, ◌∷◌, ℕ, List, codes, is_some, IfSome, IfNone, IsTrue, not, ◌&&◌, ◌==◌};
ghost use Rattle.std.specs.List.{list_all};
ghost use Rattle.matchit.specs.Seek.{first};
ghost use Rattle.prof_wire.specs.OnlyRoute.{only_route};
ghost use Rattle.prof_wire.specs.Routing.{GoesTo, IsTarget, commands, reading_commands, is_among, is_session};

use crate::messages::Verb;
use matchit::Router;
use prof_io::NoMemory;
use std::alloc::Global;

/// Where a message goes.
#[derive(Clone, Copy, Debug)]
pub enum Route<'t> {
    /// To a command of a session.
    Line {
        /// The session's name.
        session: &'t str,
        /// The command's word.
        command: &'t str,
    },
    /// Nowhere: the target is none of this program.
    NoRoute,
    /// Nowhere: the verb doesn't serve the command.
    NoMethod {
        /// `GET` serves it, besides `POST`.
        get: bool,
    },
}

// The session and the command around the slash behind `/sessions/`.
fn parts_of(target: &str) -> Option<(&str, &str)>
    ensures some { IfSome result (λ parts.
        target.now ≡ codes "/sessions/" ++ parts.0.now ++ 47 ∷ parts.1.now) }
    ensures first { IfSome result (λ parts. IsTrue (list_all (λ b. not (b == 47)) parts.0.now)) }
    ensures none { IfNone result ((session command : List ℕ) →
        target.now ≢ codes "/sessions/" ++ session ++ 47 ∷ command) }
{
    let rest = target.strip_prefix("/sessions/")?;
    rest.split_once('/')
}

// Whether some bytes are no slash and no question mark, all of them.
fn lacks_delimiters(bytes: &[u8]) -> bool
    ensures { result ≡ list_all (λ b. not (b == 47) && not (b == 63)) bytes.now }
{
    bytes.iter().all(|byte| *byte != b'/' && *byte != b'?')
}

// Whether a session may have that name in a target.
fn is_session(name: &str) -> bool
    ensures { result ≡ is_session name.now }
{
    !name.is_empty() && lacks_delimiters(name.as_bytes())
}

// Whether the word is that of a command which changes nothing.
fn is_reading(word: &str) -> bool
    ensures { result ≡ is_among reading_commands word.now }
{
    matches!(word, "tree" | "inverted" | "address")
}

// Whether the word is a command's.
fn is_command(word: &str) -> bool
    ensures { result ≡ is_among commands word.now }
{
    matches!(
        word,
        "open"
            | "load"
            | "close"
            | "push"
            | "popto"
            | "range"
            | "poprangesto"
            | "implementation"
            | "search"
            | "undo"
            | "redo"
            | "goto"
            | "tree"
            | "inverted"
            | "markers"
            | "address"
            | "save"
    )
}

/// The router of the one route `/sessions/{session}/{command}`.
#[derive(Drop)]
pub struct Routes {
    router: Router<u8>,
    ghost one: { router ≡ only_route },
}

impl Routes {
    /// The router, which takes its memory now.
    pub fn new(alloc: Global) -> Result<Routes, NoMemory> {
        let mut router: Router<u8> = Router::new(alloc);
        match router.insert("/sessions/{session}/{command}", 0) {
            Ok(()) => Ok(Routes { router }),
            Err(_) => Err(NoMemory),
        }
    }

    // Whether the route fits a target.
    fn fits(&self, target: &str) -> bool
        ensures { result ≡ is_some (first only_route target.now) }
    {
        self.router.at(target).is_ok()
    }

    // The session and the command that a target names.
    fn names_of<'t>(&self, target: &'t [u8]) -> Option<(&'t str, &'t str)>
        ensures some { IfSome result (λ names. IsTarget target.now names.0.now names.1.now) }
        ensures none { IfNone result ((session command : List ℕ) →
            ¬ (IsTarget target.now session command)) }
    {
        let text = match str::from_utf8(target) {
            Ok(text) => text,
            Err(_) => return None,
        };
        if !self.fits(text) {
            return None;
        }
        let (session, command) = parts_of(text)?;
        if is_session(session) && is_command(command) {
            Some((session, command))
        } else {
            None
        }
    }

    /// Where a message of that verb and that target goes.
    pub fn route<'t>(&self, verb: Verb, target: &'t [u8]) -> Route<'t>
        ensures { GoesTo verb target.now result }
    {
        let Some((session, command)) = self.names_of(target) else {
            return Route::NoRoute;
        };
        let get = is_reading(command);
        match verb {
            Verb::Post => Route::Line { session, command },
            Verb::Get if get => Route::Line { session, command },
            Verb::Get | Verb::Other => Route::NoMethod { get },
        }
    }
}
