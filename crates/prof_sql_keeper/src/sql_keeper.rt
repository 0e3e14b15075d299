// The keeper.
ghost use Rattle.std.specs.Prelude.{◌≡◌, ◌≢◌, ◌≤◌, None, Err, OnOk, OnErr, IfOk, IfSome, option_map, string_bytes};
ghost use Rattle.prof_io.specs.Causes.{Rose};
ghost use Rattle.prof_io.specs.Shelf.{file_at};
ghost use Rattle.prof_io.specs.Keep.{Puts};
ghost use Rattle.prof_sql_keeper.specs.Refusals.{refusal_of};

use crate::base::Base;
use prof_io::{Counted, KeepRefusal, Keeper, NoMemory, Text};
use sqlite::{Error, ErrorCode};
use std::alloc::Global;

/// Texts in one table of a database. What it keeps is not told.
///
/// Under the empty name the database is in memory, and else in a file of that name, which is made where it
/// isn't there. While it is open, the newest texts may lie in the log beside the file. Where the keeper goes
/// over to another name or is dropped, they are copied into the file, which then holds all.
#[derive(Drop)]
pub struct SqlKeeper {
    runtime: HostRuntime,
    base: Base,
    got: Option<Text>,
    faults: u64,
    called_at: u64,
    returned_at: u64,
}

impl SqlKeeper {
    /// A keeper that has begun no name: until then it refuses to put and to get.
    pub fn new(runtime: HostRuntime) -> Self
        ensures faults { ⟦<SqlKeeper as Counted>⟧.faults result ≡ 0 }
        ensures called { ⟦<SqlKeeper as Keeper>⟧.called_at result ≡ 0 }
        ensures returned { ⟦<SqlKeeper as Keeper>⟧.returned_at result ≡ 0 }
        ensures got { ⟦<SqlKeeper as Keeper>⟧.got result ≡ None }
    {
        SqlKeeper {
            runtime,
            base: Base::Unbegun,
            got: None,
            faults: 0,
            called_at: 0,
            returned_at: 0,
        }
    }
}

// A fault is counted, unless it is the want of memory.
fn counted(faults: &mut u64, error: Error) -> KeepRefusal
    ensures named { result ≡ refusal_of error }
    ensures later { faults.old ≤ faults.new }
    ensures failed { result ≡ KeepRefusal.Failed → Rose faults.old faults.new }
    ensures kept { result ≢ KeepRefusal.Failed → faults.new ≡ faults.old }
{
    if error == Error::SqliteFailure(ErrorCode::OutOfMemory) {
        return KeepRefusal::NoMemory;
    }
    *faults = faults.saturating_add(1);
    KeepRefusal::Failed
}

// A text that was found, twice: what is answered, and what is kept of the answer.
fn twice(alloc: Global, found: Option<String>) -> Result<(Option<Text>, Option<Text>), NoMemory>
    ensures answer { IfOk result (λ texts. texts.0 ≡ option_map string_bytes found) }
    ensures kept { IfOk result (λ texts. texts.1 ≡ texts.0) }
{
    let Some(found) = found else {
        return Ok((None, None));
    };
    let mut text = Text::new(alloc);
    text.push_str(found.as_str())?;
    let kept = text.copy(alloc)?;
    Ok((Some(text), Some(kept)))
}

impl Counted for SqlKeeper {
    ghost faults = { λ s. s.faults };
}

impl Keeper for SqlKeeper {
    ghost use Rattle.prof_sql_keeper.specs.Keepers.{BeginsName, PutsByStatement, GetsByQuery};

    ghost texts = { λ _. None };

    ghost begun = { λ _ _. None };

    ghost called_at = { λ s. s.called_at };

    ghost returned_at = { λ s. s.returned_at };

    ghost got = { λ s. s.got };

    ghost nothing_nameless = { λ _. tt };

    fn begin(&mut self, alloc: Global, name: &str) -> Result<(), KeepRefusal>
        ensures ok { OnOk result (⟦<SqlKeeper as Keeper>⟧.texts self.new ≡ ⟦<SqlKeeper as Keeper>⟧.begun self.old name.now) }
        ensures err { OnErr result (⟦<SqlKeeper as Keeper>⟧.texts self.new ≡ ⟦<SqlKeeper as Keeper>⟧.texts self.old) }
        ensures called { ⟦<SqlKeeper as Keeper>⟧.called_at self.new ≡ ⟦<SqlKeeper as Counted>⟧.faults self.old }
        ensures returned { ⟦<SqlKeeper as Keeper>⟧.returned_at self.new ≡ ⟦<SqlKeeper as Counted>⟧.faults self.new }
        ensures got { ⟦<SqlKeeper as Keeper>⟧.got self.new ≡ ⟦<SqlKeeper as Keeper>⟧.got self.old }
        ensures sure { ⟦<SqlKeeper as Counted>⟧.sure self.old → (result ≢ Err KeepRefusal.Failed) × ⟦<SqlKeeper as Counted>⟧.sure self.new }
        ensures later { ⟦<SqlKeeper as Counted>⟧.faults self.old ≤ ⟦<SqlKeeper as Counted>⟧.faults self.new }
        ensures failed { result ≡ Err KeepRefusal.Failed → Rose (⟦<SqlKeeper as Counted>⟧.faults self.old) (⟦<SqlKeeper as Counted>⟧.faults self.new) }
        ensures kept { result ≢ Err KeepRefusal.Failed → ⟦<SqlKeeper as Counted>⟧.faults self.new ≡ ⟦<SqlKeeper as Counted>⟧.faults self.old }

        // The database of that name is open, with its table.
        ensures base { BeginsName self.old self.new name.now result }
    {
        self.called_at = self.faults;
        self.returned_at = self.faults;
        if self.base.is_file(name) {
            return Ok(());
        }
        match Base::begin(&self.runtime, alloc, name) {
            Ok(base) => {
                self.base = base;
                Ok(())
            }
            Err(error) => {
                let refusal = counted(&mut self.faults, error);
                self.returned_at = self.faults;
                Err(refusal)
            }
        }
    }

    fn put(&mut self, _alloc: Global, key: &str, text: &str) -> Result<(), KeepRefusal>
        ensures ok { OnOk result (Puts (⟦<SqlKeeper as Keeper>⟧.texts self.old) (⟦<SqlKeeper as Keeper>⟧.texts self.new) key.now text.now) }
        ensures err { OnErr result (⟦<SqlKeeper as Keeper>⟧.texts self.new ≡ ⟦<SqlKeeper as Keeper>⟧.texts self.old) }
        ensures called { ⟦<SqlKeeper as Keeper>⟧.called_at self.new ≡ ⟦<SqlKeeper as Keeper>⟧.called_at self.old }
        ensures returned { ⟦<SqlKeeper as Keeper>⟧.returned_at self.new ≡ ⟦<SqlKeeper as Keeper>⟧.returned_at self.old }
        ensures got { ⟦<SqlKeeper as Keeper>⟧.got self.new ≡ ⟦<SqlKeeper as Keeper>⟧.got self.old }
        ensures sure { ⟦<SqlKeeper as Counted>⟧.sure self.old → (result ≢ Err KeepRefusal.Failed) × ⟦<SqlKeeper as Counted>⟧.sure self.new }
        ensures later { ⟦<SqlKeeper as Counted>⟧.faults self.old ≤ ⟦<SqlKeeper as Counted>⟧.faults self.new }
        ensures failed { result ≡ Err KeepRefusal.Failed → Rose (⟦<SqlKeeper as Counted>⟧.faults self.old) (⟦<SqlKeeper as Counted>⟧.faults self.new) }
        ensures kept { result ≢ Err KeepRefusal.Failed → ⟦<SqlKeeper as Counted>⟧.faults self.new ≡ ⟦<SqlKeeper as Counted>⟧.faults self.old }

        // It is Ok only where the statement ran and is committed.
        ensures base { PutsByStatement self.old self.new key.now text.now result }
    {
        match self.base.set(key, text) {
            Ok(()) => Ok(()),
            Err(error) => Err(counted(&mut self.faults, error)),
        }
    }

    fn get(&mut self, alloc: Global, key: &str) -> Result<Option<Text>, KeepRefusal>
        ensures ok { IfOk result (λ text. IfSome (⟦<SqlKeeper as Keeper>⟧.texts self.old) (λ kept. text ≡ file_at kept key.now)) }
        ensures got { IfOk result (λ text. ⟦<SqlKeeper as Keeper>⟧.got self.new ≡ text) }
        ensures err { OnErr result (⟦<SqlKeeper as Keeper>⟧.got self.new ≡ ⟦<SqlKeeper as Keeper>⟧.got self.old) }
        ensures texts { ⟦<SqlKeeper as Keeper>⟧.texts self.new ≡ ⟦<SqlKeeper as Keeper>⟧.texts self.old }
        ensures called { ⟦<SqlKeeper as Keeper>⟧.called_at self.new ≡ ⟦<SqlKeeper as Keeper>⟧.called_at self.old }
        ensures returned { ⟦<SqlKeeper as Keeper>⟧.returned_at self.new ≡ ⟦<SqlKeeper as Keeper>⟧.returned_at self.old }
        ensures sure { ⟦<SqlKeeper as Counted>⟧.sure self.old → (result ≢ Err KeepRefusal.Failed) × ⟦<SqlKeeper as Counted>⟧.sure self.new }
        ensures later { ⟦<SqlKeeper as Counted>⟧.faults self.old ≤ ⟦<SqlKeeper as Counted>⟧.faults self.new }
        ensures failed { result ≡ Err KeepRefusal.Failed → Rose (⟦<SqlKeeper as Counted>⟧.faults self.old) (⟦<SqlKeeper as Counted>⟧.faults self.new) }
        ensures kept { result ≢ Err KeepRefusal.Failed → ⟦<SqlKeeper as Counted>⟧.faults self.new ≡ ⟦<SqlKeeper as Counted>⟧.faults self.old }

        // The query for that key finds the answer.
        ensures base { GetsByQuery self.old self.new key.now result }
    {
        let found = match self.base.find(key) {
            Ok(found) => found,
            Err(error) => return Err(counted(&mut self.faults, error)),
        };
        let (text, kept) = twice(alloc, found)?;
        self.got = kept;
        Ok(text)
    }
}
