//! A table of what fails and what is asked, with what is answered, what stands then, and what the lake answers that is
//! opened again.
ghost use Rattle.std.specs.Prelude.{◌≡◌};

use crate::hand::{Deed, Hand};
use crate::lakes::{Opened, close, failing_keeper, open_over};
use crate::names::Names;
use keeper::MemoryKeeper;
use shared_lake::{LakeSeat, Shared};
use std::alloc::Global;
use std::sync::Wait;
use std::test::Fail;

// A seat at a lake, which does nothing at pauses.
fn hand_of<'a, W>(
    rt: &'a W,
    alloc: Global,
    lake: &'a Shared<MemoryKeeper>,
    seat: LakeSeat,
    names: &'a Names,
) -> Hand<'a, W>
    requires { seat.turn ≡ lake.now }
{
    Hand {
        rt,
        alloc,
        lake,
        seat,
        names,
        deed: Deed::Seal,
        left: 0,
    }
}

// What is asked, and what the other seat is told before: ASK, or ASK | BESIDE.
fn answered<W: Wait>(
    hand: &mut Hand<'_, W>,
    other: &mut Hand<'_, W>,
    asked: &str,
) -> Result<String, Fail> {
    let (ask, beside) = asked.split_once(" | ").unwrap_or((asked, "seal 0"));
    other.is_told(beside)?;
    hand.answer(other, ask)
}

// The lines of what is asked with what is answered now.
fn answered_now<W: Wait>(
    hand: &mut Hand<'_, W>,
    other: &mut Hand<'_, W>,
    lines: &str,
) -> Result<String, Fail> {
    let mut again = String::new(hand.alloc);
    for line in lines.lines() {
        let (asked, _) = line.rsplit_once(" | ").unwrap_or((line, ""));
        let answer = answered(hand, other, asked)?;
        again.push_str(asked)?;
        again.push_str(" | ")?;
        again.push_str(answer.as_str())?;
        again.push('\n')?;
    }
    Ok(again)
}

// The same of two seats at a lake.
fn told<W: Wait>(
    rt: &W,
    alloc: Global,
    names: &Names,
    lake: &Shared<MemoryKeeper>,
    zero: LakeSeat,
    one: LakeSeat,
    lines: &str,
) -> Result<String, Fail>
    requires { (zero.turn ≡ lake.now) × (one.turn ≡ lake.now) }
{
    let mut hand = hand_of(rt, alloc, lake, zero, names);
    let mut other = hand_of(rt, alloc, lake, one, names);
    answered_now(&mut hand, &mut other, lines)
}

// The same of a lake over a keeper, its entries then, and a keeper of its pairs that doesn't fail.
fn told_over<W: Wait>(
    rt: &W,
    alloc: Global,
    names: &Names,
    keeper: MemoryKeeper,
    lines: &str,
) -> Result<(String, String, MemoryKeeper), Fail> {
    let Opened {
        lake,
        zero,
        one,
        last,
    } = open_over(alloc, keeper)?;
    let told = told(rt, alloc, names, &lake, zero, one, lines)?;
    let (entries, keeper) = close(rt, alloc, lake, last)?;
    Ok((told, entries, keeper))
}

// Which call of the keeper fails, and whether it lands; what is asked and answered, the entries then, and what is asked
// and answered of the lake that is opened again.
type Row = (u64, bool, &'static str, &'static str, &'static str);

// What a row comes to.
fn came<W: Wait>(
    rt: &W,
    alloc: Global,
    names: &Names,
    row: &Row,
) -> Result<(String, String, String), Fail> {
    let keeper = failing_keeper(alloc, row.0, row.1)?;
    let (asked, entries, keeper) = told_over(rt, alloc, names, keeper, row.2)?;
    let (again, _, _) = told_over(rt, alloc, names, keeper, row.4)?;
    Ok((asked, entries, again))
}

static ROWS: [Row; 11] = [
    // A put fails at its entry: the lake takes no change, and is read.
    (
        3,
        false,
        "put main | Step(StoreFault) at 2\n\
         put main | Step(Stopped) at 2\n\
         look main | None at 2\n",
        "Take !Stage ",
        "look main | None at 0\n\
         put main | Some(5) at 2\n",
    ),
    (
        3,
        true,
        "put main | Step(StoreFault) at 2\n\
         put main | Step(Stopped) at 2\n\
         look main | None at 2\n",
        "Take !Stage ",
        "look main | Some(5) at 0\n\
         commit main | a head over 1 at 2\n",
    ),
    // At its ticket.
    (
        2,
        false,
        "put main | Step(StoreFault) at 1\n\
         look main | None at 1\n",
        "!Take ",
        "put main | Some(5) at 2\n",
    ),
    // A commit fails at its seal: the seal alone stands faulted.
    (
        4,
        false,
        "put main | Some(5) at 2\n\
         commit main | Step(StoreFault) at 3\n\
         look main | Some(5) at 3\n\
         put main | Step(Stopped) at 3\n",
        "Take Stage !Seal ",
        "look main@ | None at 0\n\
         commit main | a head over 1 at 2\n",
    ),
    // At its head.
    (
        5,
        false,
        "put main | Some(5) at 2\n\
         commit main | Step(StoreFault) at 4\n\
         look main@ | None at 4\n\
         look main | Some(5) at 4\n",
        "Take Stage Seal !Commit ",
        "look main@ | None at 0\n\
         commit main | a head over 1 at 2\n",
    ),
    (
        5,
        true,
        "put main | Some(5) at 2\n\
         commit main | Step(StoreFault) at 4\n\
         look main@ | None at 4\n",
        "Take Stage Seal !Commit ",
        "look main@ | Some(5) at 0\n\
         commit main | NoChanges at 1\n",
    ),
    // A merge fails at its head.
    (
        8,
        true,
        "branch dev | made at 1\n\
         put dev | Some(5) at 3\n\
         commit dev | a head over 1 at 5\n\
         merge dev | Step(StoreFault) at 7\n\
         look main | None at 7\n",
        "Branch Take Stage Seal Commit Seal !Merge ",
        "look main | Some(5) at 0\n\
         merge dev | NoChanges at 1\n",
    ),
    // A merge whose source moves before the swap stands with the source as it was.
    (
        0,
        false,
        "branch dev | made at 1\n\
         put dev | Some(5) at 3\n\
         commit dev | a head over 1 at 5\n\
         merge dev | move 1 | a head over 2 at 11\n\
         look main^2 | Some(5) at 11\n",
        "Branch Take Stage Seal Commit Seal Take Stage Seal Commit Merge ",
        "look main | Some(5) at 0\n\
         merge dev | a head over 2 at 2\n",
    ),
    // A path is changed by a version that another seat's seal made old.
    (
        0,
        false,
        "versions | 1 and 0 at 0\n\
         beside | seal 1 | at 1\n\
         drop 1 | Changed { version: 2, settings: 0 }\n\
         versions | 2 and 0 at 1\n\
         drop 2 | at 2\n",
        "Seal Stage ",
        "versions | 2 and 0 at 0\n",
    ),
    // Ten seals beside a put, and nine.
    (
        0,
        false,
        "put main | seal 10 | TooManyTries { first: 2, last: 11 } at 11\n\
         put main | seal 9 | Some(5) at 23\n",
        "Take Seal Seal Seal Seal Seal Seal Seal Seal Seal Seal Give \
         Take Seal Seal Seal Seal Seal Seal Seal Seal Seal Stage ",
        "look main | Some(5) at 0\n",
    ),
    // What is put between a commit's reading and its swap stays; a second commit there leaves no changes.
    (
        0,
        false,
        "put main | Some(5) at 2\n\
         commit main | put 1 | a head over 1 at 6\n\
         look main@ | Some(5) at 6\n\
         commit main | commit 1 | NoChanges at 9\n",
        "Take Stage Seal Take Stage Commit Seal Seal Commit ",
        "look main@ | Some(5) at 0\n",
    ),
];

#[test]
fn calls_meet_troubles(rt: HostRuntime) -> Result<(), Fail> {
    let alloc = rt.alloc();
    let names = Names::of(alloc)?;
    for row in &ROWS {
        let (asked, entries, again) = came(&rt, alloc, &names, row)?;
        assert_eq!(rt; asked.as_str(), row.2);
        assert_eq!(rt; entries.as_str(), row.3, "{}", row.2);
        assert_eq!(rt; again.as_str(), row.4, "{}", row.2);
    }
    Ok(())
}
