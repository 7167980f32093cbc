//! A lake over a keeper that fails at a chosen call, closed and opened again.
ghost use Rattle.std.specs.Prelude.{◌≡◌, [], IfOk};

use keeper::{Keeper, KeeperFail, MemoryKeeper};
use lake_core::Lake;
use lake_format::USUAL_CUT;
use lake_model::{EntryKind, HistoryEntry, Operation};
use lake_opening::open_lake;
use shared_lake::{LakeSeat, Shared};
use std::alloc::Global;
use std::sync::Wait;
use std::test::Fail;

/// A lake, two seats at it, and a third by which it is closed.
#[derive(Drop)]
pub(crate) struct Opened {
    pub(crate) lake: Shared<MemoryKeeper>,
    pub(crate) zero: LakeSeat,
    pub(crate) one: LakeSeat,
    pub(crate) last: LakeSeat,
}

// The lake over a keeper, in which nothing has happened.
fn lake_over(alloc: Global, keeper: MemoryKeeper) -> Result<Lake<MemoryKeeper>, Fail>
    ensures { IfOk result (λ lake. lake.history ≡ []) }
{
    match open_lake(alloc, keeper, USUAL_CUT) {
        Ok(lake) => Ok(lake),
        Err(_) => Err("it isn't opened")?,
    }
}

/// The lake over a keeper, with three seats.
pub(crate) fn open_over(alloc: Global, keeper: MemoryKeeper) -> Result<Opened, Fail>
    ensures { IfOk result (λ r. (r.zero.turn ≡ r.lake) × (r.one.turn ≡ r.lake) × (r.last.turn ≡ r.lake)) }
{
    let lake = lake_over(alloc, keeper)?;
    let (lake, mut seats) = Shared::new(alloc, lake, 3).ok().ok_or("memory")?;
    let last = seats.remove(2);
    let one = seats.remove(1);
    let zero = seats.remove(0);
    Ok(Opened {
        lake,
        zero,
        one,
        last,
    })
}

/// A keeper without pairs, whose call of this number fails, counted from 1, and makes its puts where they land; 0: none
/// fails.
pub(crate) fn failing_keeper(alloc: Global, call: u64, lands: bool) -> Result<MemoryKeeper, Fail> {
    let mut fails = Vec::new(alloc);
    if call > 0 {
        fails.push(KeeperFail::Put { call, lands })?;
    }
    Ok(MemoryKeeper::new(alloc, Vec::new(alloc), fails))
}

// The word of an operation.
fn word_of(operation: &Operation) -> &'static str {
    match operation {
        Operation::BranchCreate { .. } => "Branch",
        Operation::TicketTake { .. } => "Take",
        Operation::TicketDrop { .. } => "Give",
        Operation::Stage { .. } => "Stage",
        Operation::Seal { .. } => "Seal",
        Operation::Commit { .. } => "Commit",
        Operation::Merge { .. } => "Merge",
        _ => "Other",
    }
}

// The words of entries, behind each a blank; a faulted one is marked.
fn history_words(alloc: Global, history: &[HistoryEntry]) -> Result<String, Fail> {
    let mut words = String::new(alloc);
    for entry in history {
        match &entry.kind {
            EntryKind::Accepted(operation) => words.push_str(word_of(operation))?,
            EntryKind::Faulted(operation) => {
                words.push('!')?;
                words.push_str(word_of(operation))?;
            }
        }
        words.push(' ')?;
    }
    Ok(words)
}

/// Closes a lake by a seat at it: its entries in words, and a keeper of its pairs that doesn't fail.
pub(crate) fn close<W: Wait>(
    rt: &W,
    alloc: Global,
    lake: Shared<MemoryKeeper>,
    seat: LakeSeat,
) -> Result<(String, MemoryKeeper), Fail>
    requires { seat.turn ≡ lake }
{
    let mut seats = Vec::new(alloc);
    seats.push(seat)?;
    let lake = lake.close(rt, seats);
    let words = history_words(alloc, lake.history())?;
    let mut keeper = lake.into_keeper();
    let pairs = keeper.load().ok().ok_or("they aren't loaded")?;
    Ok((words, MemoryKeeper::new(alloc, pairs, Vec::new(alloc))))
}
