// The database that a keeper has begun.
ghost use Rattle.std.specs.Prelude.{◌≡◌, ◌≢◌, ◌↔◌, [], IsTrue, Err, IfOk, MatchResult, option_map, string_bytes};
ghost use Rattle.prof_sql_keeper.specs.Bases.{OnBase, IsBegun, IsFile};
ghost use Rattle.prof_sql_keeper.specs.Table.{SetsText, FindsText, FailsToFind};

use crate::table::{make_table, set_text, text_of};
use sqlite::{Connection, Error, ErrorCode, File, FileStore, MemStore};
use std::alloc::Global;

/// A database, if one is begun.
pub(crate) enum Base {
    Unbegun,
    Memory(Connection<MemStore>),
    Stored {
        name: String,
        conn: Connection<FileStore<File>>,
    },
}

// At its end the file alone holds what was committed. Where the close fails, that lies in the log beside it, and the
// next open finds it there.
impl Drop for Base {
    fn drop(self) {
        match self {
            Base::Unbegun => {}
            Base::Memory(_conn) => {}
            Base::Stored { name: _name, conn } => {
                let _ = conn.close();
            }
        }
    }
}

impl Base {
    /// Opens what has a name, and makes the table.
    pub fn begin(runtime: &HostRuntime, alloc: Global, name: &str) -> Result<Self, Error>
        ensures { IfOk result (IsBegun name.now) }
    {
        if name.is_empty() {
            Base::in_memory(alloc)
        } else {
            Base::in_file(runtime, alloc, name)
        }
    }

    fn in_memory(alloc: Global) -> Result<Self, Error>
        ensures { IfOk result (IsBegun []) }
    {
        let mut conn = Connection::open_in_memory(alloc)?;
        make_table(&mut conn)?;
        Ok(Base::Memory(conn))
    }

    fn in_file(runtime: &HostRuntime, alloc: Global, name: &str) -> Result<Self, Error>
        requires { name.now ≢ [] }
        ensures { IfOk result (IsBegun name.now) }
    {
        let mut conn = Connection::open(runtime, name)?;
        make_table(&mut conn)?;
        let name = String::from_str(alloc, name)?;
        Ok(Base::Stored { name, conn })
    }

    /// The file of that name is open.
    pub fn is_file(&self, name: &str) -> bool
        ensures { IsTrue result ↔ IsFile name.now self.now }
    {
        match self {
            Base::Stored { name: open, .. } => open.as_str() == name,
            _ => false,
        }
    }

    /// Sets the text of a key.
    pub fn set(&mut self, key: &str, text: &str) -> Result<(), Error>
        ensures { OnBase self.old self.new (result ≡ Err (Error.SqliteFailure ErrorCode.Closed)) (λ old new. SetsText old new key.now text.now result) }
    {
        match self {
            Base::Unbegun => Err(Error::SqliteFailure(ErrorCode::Closed)),
            Base::Memory(conn) => set_text(conn, key, text),
            Base::Stored { conn, .. } => set_text(conn, key, text),
        }
    }

    /// The text of a key, if there is one.
    pub fn find(&mut self, key: &str) -> Result<Option<String>, Error>
        ensures { OnBase self.old self.new (result ≡ Err (Error.SqliteFailure ErrorCode.Closed)) (λ old new.
            MatchResult result (λ text. FindsText old new key.now (option_map string_bytes text)) (FailsToFind old new key.now)) }
    {
        match self {
            Base::Unbegun => Err(Error::SqliteFailure(ErrorCode::Closed)),
            Base::Memory(conn) => text_of(conn, key),
            Base::Stored { conn, .. } => text_of(conn, key),
        }
    }
}
