// The orders that are carried out.
ghost use Rattle.prof_desk.specs.Words.{carried_out, order_of};
ghost use Rattle.prof_words.specs.Reading.{Reads, texts_of};

use prof_io::Text;
use prof_words::{NamedFiles, WordRefusal};
use std::alloc::Global;

/// What the words ask for, of what there is.
#[derive(Drop)]
pub enum Order {
    /// The call tree of the profile's first thread.
    Tree {
        profile: Text,
    },
    /// The markers of a thread that a search finds.
    Markers {
        profile: Text,
        thread: u32,
        search: Text,
    },
    /// The replies to the lines of a script.
    Script {
        profile: Text,
        script: Text,
    },
    /// The responses to the messages of so many connections, over profiles under names. The keeper is begun under a name.
    Serve {
        port: u16,
        connections: u32,
        sessions: Text,
        profiles: NamedFiles,
    },
    /// What a profile holds, in numbers.
    Check {
        profile: Text,
    },
    /// A profile as a text in the one form that is written.
    Convert {
        profile: Text,
    },
    /// A profile that is made by a number.
    Gen {
        number: u32,
    },
    /// The first lines of the replies to the demo's lines, on the profile that a number makes.
    Demo {
        number: u32,
    },
}

/// Reads the words. Those of a command that isn't carried out yet ask for nothing.
pub fn read_words(alloc: Global, words: &[String]) -> Result<Order, WordRefusal>
    ensures { Reads (order_of (texts_of words.now)) result }
{
    match prof_words::read_words(alloc, words) {
        Ok(order) => carried_out(order),
        Err(refusal) => Err(refusal),
    }
}

/// The order, where it is carried out.
fn carried_out(order: prof_words::Order) -> Result<Order, WordRefusal>
    ensures { Reads (carried_out order) result }
{
    match order {
        prof_words::Order::Tree { profile } => Ok(Order::Tree { profile }),
        prof_words::Order::Markers {
            profile,
            thread,
            search,
        } => Ok(Order::Markers {
            profile,
            thread,
            search,
        }),
        prof_words::Order::Script { profile, script } => Ok(Order::Script { profile, script }),
        prof_words::Order::Serve {
            port,
            connections,
            sessions,
            profiles,
        } => Ok(Order::Serve {
            port,
            connections,
            sessions,
            profiles,
        }),
        prof_words::Order::Check { profile } => Ok(Order::Check { profile }),
        prof_words::Order::Convert { profile } => Ok(Order::Convert { profile }),
        prof_words::Order::Gen { number } => Ok(Order::Gen { number }),
        prof_words::Order::Demo { number } => Ok(Order::Demo { number }),
        _ => Err(WordRefusal::Usage),
    }
}
