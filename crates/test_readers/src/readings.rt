//! Tables of what becomes of an object, and of what a reading answers then.
ghost use Rattle.std.specs.Prelude.{◌≡◌, IfOk};

use crate::hand::{Deed, Hand};
use crate::names::Names;
use crate::store::LosingBlocks;
use block_store::{BlockFail, Blocks, MemoryBlocks, SureBlocks};
use fresh_lakes::fresh_lake;
use keeper::SureKeeper;
use read_flow::ReadAnswer;
use shared_lake::{LakeSeat, NoPause, Shared};
use std::alloc::Global;
use std::sync::Wait;
use std::test::Fail;
use write_flow::FlowFault;

// A fresh lake in memory, and three seats at it.
#[derive(Drop)]
struct Opened {
    lake: Shared<SureKeeper>,
    zero: LakeSeat,
    one: LakeSeat,
    two: LakeSeat,
}

fn open(alloc: Global) -> Result<Opened, Fail>
    ensures { IfOk result (λ r. (r.zero.turn ≡ r.lake) × (r.one.turn ≡ r.lake) × (r.two.turn ≡ r.lake)) }
{
    let (lake, mut seats) = fresh_lake(alloc, 3).ok().ok_or("memory")?;
    let two = seats.remove(2);
    let one = seats.remove(1);
    let zero = seats.remove(0);
    Ok(Opened {
        lake,
        zero,
        one,
        two,
    })
}

// A seat at a lake, with what it does at so many pauses.
fn hand_of<'a, W>(
    rt: &'a W,
    alloc: Global,
    lake: &'a Shared<SureKeeper>,
    seat: LakeSeat,
    names: &'a Names,
    deed: Deed,
    left: u64,
) -> Hand<'a, W>
    requires { seat.turn ≡ lake.now }
{
    Hand {
        rt,
        alloc,
        lake,
        seat,
        names,
        deed,
        left,
    }
}

// Bytes as a text, at a position.
fn text_at(alloc: Global, bytes: &[u8], at: u64) -> Result<String, Fail> {
    let text = std::str::from_utf8(bytes).ok().ok_or("no text")?;
    Ok(format!(in alloc; "{text} at {at}")?)
}

// What was answered: the bytes or the fault, and the position.
fn words(alloc: Global, answer: ReadAnswer) -> Result<String, Fail> {
    let at = answer.position;
    match answer.outcome {
        Ok((_, body)) => text_at(alloc, body.as_slice(), at),
        Err(FlowFault::Damaged { .. }) => text_at(alloc, b"Damaged", at),
        Err(fault) => Ok(format!(in alloc; "{fault:?} at {at}")?),
    }
}

// Puts the bytes of the first object under 0, and those of ten others behind it.
fn fill(blocks: &mut SureBlocks) -> Result<(), Fail> {
    blocks.put(0, b"hello").ok().ok_or("memory")?;
    for number in 1..11 {
        blocks.put(number, b"world").ok().ok_or("memory")?;
    }
    Ok(())
}

// When another seat acts: at the pauses of the reading, or at the gets of its store.
#[derive(Clone, Copy, Debug, PartialEq, Eq)]
enum When {
    AtPause,
    AtGet,
}

// When another seat acts, what it does, how often, and at how many gets the object gets lost; and what is read then.
type Row = (When, Deed, u64, u64, &'static str);

// What is read of the first object, where another seat acts so often at the pauses and so often at the gets.
fn read_beside<'a, W: Wait>(
    alloc: Global,
    reader: &mut Hand<'a, W>,
    pause: &mut Hand<'a, W>,
    beside: Hand<'a, W>,
    losses: u64,
) -> Result<String, Fail> {
    let mut blocks = SureBlocks::new(alloc);
    fill(&mut blocks)?;
    let mut store = LosingBlocks {
        blocks,
        beside,
        losses,
    };
    reader.put(b"hello");
    words(alloc, reader.read(&mut store, pause))
}

// How often another seat acts at the pauses, and how often at the gets.
fn times_of(row: &Row) -> (u64, u64) {
    match row.0 {
        When::AtPause => (row.2, 0),
        When::AtGet => (0, row.2),
    }
}

// What is read on a fresh lake by a row.
fn read_by<W: Wait>(rt: &W, alloc: Global, names: &Names, row: &Row) -> Result<String, Fail> {
    let Opened {
        lake,
        zero,
        one,
        two,
    } = open(alloc)?;
    let (at_pause, at_get) = times_of(row);
    let mut reader = hand_of(rt, alloc, &lake, zero, names, row.1, 0);
    let mut pause = hand_of(rt, alloc, &lake, one, names, row.1, at_pause);
    let beside = hand_of(rt, alloc, &lake, two, names, row.1, at_get);
    read_beside(alloc, &mut reader, &mut pause, beside, row.3)
}

// The first object is number 0 and has `hello`; those that are put over it have `world`.
static ROWS: [Row; 17] = [
    (When::AtPause, Deed::Delete, 0, 0, "hello at 2"),
    (When::AtPause, Deed::Delete, 0, 1, "Lost(0) at 2"),
    (When::AtPause, Deed::Overwrite, 1, 0, "hello at 2"),
    (When::AtPause, Deed::Overwrite, 1, 1, "world at 4"),
    (When::AtGet, Deed::Overwrite, 1, 1, "world at 4"),
    (When::AtPause, Deed::Delete, 1, 0, "hello at 2"),
    (When::AtPause, Deed::Delete, 1, 1, "NoPath at 3"),
    (When::AtGet, Deed::Delete, 1, 1, "NoPath at 3"),
    (When::AtPause, Deed::Reset, 1, 1, "NoPath at 3"),
    (When::AtGet, Deed::Reset, 1, 1, "NoPath at 3"),
    (When::AtPause, Deed::Commit, 1, 1, "Lost(0) at 4"),
    (When::AtGet, Deed::Commit, 1, 1, "Lost(0) at 4"),
    (When::AtPause, Deed::Overwrite, 9, 9, "world at 20"),
    (When::AtGet, Deed::Overwrite, 9, 9, "world at 20"),
    (When::AtGet, Deed::Overwrite, 9, 10, "Lost(9) at 20"),
    (
        When::AtPause,
        Deed::Overwrite,
        10,
        10,
        "TooManyTries { first: 2, last: 22 } at 22",
    ),
    (
        When::AtGet,
        Deed::Overwrite,
        10,
        10,
        "TooManyTries { first: 2, last: 22 } at 22",
    ),
];

#[test]
fn an_object_is_lost_where_the_look_behind_the_miss_finds_it(rt: HostRuntime) -> Result<(), Fail> {
    let alloc = rt.alloc();
    let names = Names::of(alloc)?;
    for row in &ROWS {
        let read = read_by(&rt, alloc, &names, row)?;
        assert_eq!(rt;
            read.as_str(),
            row.4,
            "{:?} {:?} {} {}",
            row.0,
            row.1,
            row.2,
            row.3
        );
    }
    Ok(())
}

// The bytes that a store has under 0, if it has some, whether its first get fails, and what is read of it.
type StoreRow = (Option<&'static [u8]>, bool, &'static str);

// A store of a row.
fn store_of(alloc: Global, row: &StoreRow) -> Result<MemoryBlocks, Fail> {
    let mut fails = Vec::new(alloc);
    if row.1 {
        fails.push(BlockFail::Get(1))?;
    }
    let mut blocks = MemoryBlocks::new(alloc, fails);
    if let Some(bytes) = row.0 {
        blocks.put(0, bytes).ok().ok_or("memory")?;
    }
    Ok(blocks)
}

// What is read over the store of a row.
fn read_over<W: Wait>(
    rt: &W,
    alloc: Global,
    names: &Names,
    row: &StoreRow,
) -> Result<String, Fail> {
    let Opened { lake, zero, .. } = open(alloc)?;
    let mut reader = hand_of(rt, alloc, &lake, zero, names, Deed::Delete, 0);
    let mut blocks = store_of(alloc, row)?;
    reader.put(b"hello");
    words(alloc, reader.read(&mut blocks, &mut NoPause))
}

static STORES: [StoreRow; 4] = [
    (Some(b"hello"), false, "hello at 2"),
    (Some(b"hello"), true, "BlockFault at 2"),
    (Some(b"hellO"), false, "Damaged at 2"),
    (None, false, "Lost(0) at 2"),
];

#[test]
fn an_object_is_read_of_a_store_that_may_have_others(rt: HostRuntime) -> Result<(), Fail> {
    let alloc = rt.alloc();
    let names = Names::of(alloc)?;
    for row in &STORES {
        let read = read_over(&rt, alloc, &names, row)?;
        assert_eq!(rt; read.as_str(), row.2);
    }
    Ok(())
}
