// The table of texts, in any database.
ghost use Rattle.std.specs.Prelude.{[], ◌∷◌, OnOk, MatchResult, option_map, string_bytes};
ghost use Rattle.sqlite.specs.declared.types.Value.TheVariants.{Text};
ghost use Rattle.sqlite.specs.State.{HasCleanDisk, QueriesRow};
ghost use Rattle.sqlite.specs.Held.{state};
ghost use Rattle.prof_sql_keeper.specs.Table.{asking, MakesTable, SetsText, FindsText, FailsToFind};

use sqlite::{Alter, Connection, Error, ErrorCode, Row, params};

/// Makes the table, where it isn't there.
pub(crate) fn make_table<S: Alter>(conn: &mut Connection<S>) -> Result<(), Error>
    ensures made { HasCleanDisk (state S.Store conn.new) → OnOk result (MakesTable (state S.Store conn.old) (state S.Store conn.new)) }
    ensures clean { HasCleanDisk (state S.Store conn.new) → HasCleanDisk (state S.Store conn.old) }
{
    conn.execute(
        "CREATE TABLE IF NOT EXISTS kept (name TEXT PRIMARY KEY NOT NULL, text TEXT NOT NULL)",
        &[],
    )?;
    Ok(())
}

/// Sets the text of a key, and commits it.
pub(crate) fn set_text<S: Alter>(
    conn: &mut Connection<S>,
    key: &str,
    text: &str,
) -> Result<(), Error>
    ensures { HasCleanDisk (state S.Store conn.new) → SetsText (state S.Store conn.old) (state S.Store conn.new) key.now text.now result }
{
    conn.execute(
        "INSERT INTO kept (name, text) VALUES (?1, ?2) ON CONFLICT (name) DO UPDATE SET text = excluded.text",
        params![key, text],
    )?;
    if conn.is_autocommit() {
        Ok(())
    } else {
        Err(Error::SqliteFailure(ErrorCode::TransactionState))
    }
}

// The first row that has a key.
fn first_row<S: Alter>(conn: &mut Connection<S>, key: &str) -> Result<Row, Error>
    ensures { HasCleanDisk (state S.Store conn.new) → QueriesRow asking (Text key.now ∷ []) (state S.Store conn.old) (state S.Store conn.new) result }
{
    conn.query_row("SELECT text FROM kept WHERE name = ?1", params![key])
}

/// The text of a key, if there is one.
pub(crate) fn text_of<S: Alter>(
    conn: &mut Connection<S>,
    key: &str,
) -> Result<Option<String>, Error>
    ensures { HasCleanDisk (state S.Store conn.new) → MatchResult result
        (λ text. FindsText (state S.Store conn.old) (state S.Store conn.new) key.now (option_map string_bytes text))
        (FailsToFind (state S.Store conn.old) (state S.Store conn.new) key.now) }
{
    let row = match first_row(conn, key) {
        Ok(row) => row,
        Err(Error::QueryReturnedNoRows) => return Ok(None),
        Err(error) => return Err(error),
    };
    let text: String = match row.get(0) {
        Ok(text) => text,
        Err(error) => return Err(error),
    };
    Ok(Some(text))
}
