//! What is done to the table of pairs.
ghost use Rattle.std.specs.Prelude.{◌≡◌, ◌↔◌};
ghost use Rattle.lake_base.specs.declared.outside.Trouble.TheVariants.{NoMemory as trouble_no_memory};
ghost use Rattle.sqlite.specs.declared.error.ErrorCode.TheVariants.{OutOfMemory};
ghost use Rattle.sqlite.specs.declared.error.Error.TheVariants.{SqliteFailure};

use keeper::{Pair, Put};
use lake_base::{Sequence, Trouble};
use sqlite::{Alter, Connection, Error, ErrorCode, Row, Transaction, params};
use std::alloc::Global;

// Why a call of the database failed: for want of memory, or by a failure.
pub(crate) fn trouble_of(error: Error) -> Trouble
    ensures { (result ≡ trouble_no_memory) ↔ (error ≡ SqliteFailure OutOfMemory) }
{
    match error {
        Error::SqliteFailure(ErrorCode::OutOfMemory) => Trouble::NoMemory,
        _ => Trouble::Failed,
    }
}

// Makes the table, where it isn't there.
pub(crate) fn make_table<S: Alter>(conn: &mut Connection<S>) -> Result<usize, Error> {
    conn.execute(
        "CREATE TABLE IF NOT EXISTS pairs (key BLOB PRIMARY KEY NOT NULL, value BLOB NOT NULL)",
        &[],
    )
}

// All pairs, as the database orders their keys.
pub(crate) fn all_pairs<S: Alter>(
    alloc: Global,
    conn: &mut Connection<S>,
) -> Result<Vec<Pair>, Error> {
    let mut pairs = Vec::new(alloc);
    let mut rows = conn.query("SELECT key, value FROM pairs ORDER BY key", &[])?;
    'rows: for _ in 0..u64::MAX {
        let Some(row) = rows.next()? else {
            return Ok(pairs);
        };
        pairs.push(pair_of(row)?)?;
    }
    Err(Error::SqliteFailure(ErrorCode::TooBig))
}

// The pair of a row.
fn pair_of(row: &Row) -> Result<Pair, Error> {
    let key = row.get(0)?;
    let value = row.get(1)?;
    Ok(Pair {
        key: Sequence::of(key),
        value: Sequence::of(value),
    })
}

// Makes the puts in one transaction. Where one of them fails, all are rolled back.
pub(crate) fn make_puts<S: Alter>(conn: &mut Connection<S>, puts: &[Put]) -> Result<(), Error> {
    if !conn.is_autocommit() {
        return Err(Error::SqliteFailure(ErrorCode::TransactionState));
    }
    let mut all = conn.transaction();
    for put in puts {
        make_put(&mut all, put)?;
    }
    all.commit()
}

// Makes one put.
fn make_put<S: Alter>(all: &mut Transaction<'_, S>, put: &Put) -> Result<usize, Error> {
    let key = put.key.as_slice();
    match &put.value {
        Some(value) => all.execute(
            "INSERT INTO pairs (key, value) VALUES (?1, ?2)
            ON CONFLICT (key) DO UPDATE SET value = excluded.value",
            params![key, value.as_slice()],
        ),
        None => all.execute("DELETE FROM pairs WHERE key = ?1", params![key]),
    }
}
