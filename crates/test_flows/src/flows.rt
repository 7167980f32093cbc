//! Tables of what is asked of a seat, while a second seat seals or commits the branch, or moves what is merged into it.
ghost use Rattle.std.specs.Prelude.{◌≡◌, IfOk};

use crate::desk::Desk;
use crate::sealer::{Beside, Sealer};
use block_store::{BlockFail, MemoryBlocks};
use fresh_lakes::fresh_lake;
use keeper::SureKeeper;
use lake_base::{Path, RefName, RepoName};
use shared_lake::{LakeSeat, Shared};
use std::alloc::Global;
use std::sync::Wait;
use std::test::Fail;

// A fresh lake in memory, shared by two seats.
fn open(alloc: Global) -> Result<(Shared<SureKeeper>, LakeSeat, LakeSeat), Fail>
    ensures { IfOk result (λ r. (r.1.turn ≡ r.0) × (r.2.turn ≡ r.0)) }
{
    let (shared, mut seats) = fresh_lake(alloc, 2).ok().ok_or("memory")?;
    let one = seats.remove(1);
    Ok((shared, seats.remove(0), one))
}

// A store of objects whose fourth put fails.
fn blocks(alloc: Global) -> Result<MemoryBlocks, Fail> {
    let mut fails = Vec::new(alloc);
    fails.push(BlockFail::Put {
        call: 4,
        lands: false,
    })?;
    Ok(MemoryBlocks::new(alloc, fails))
}

// The rows with what is answered now.
fn answered_now<W: Wait>(
    alloc: Global,
    sealer: &mut Sealer<'_, W>,
    desk: &mut Desk<'_, W>,
    rows: &str,
) -> Result<String, Fail> {
    let mut again = String::new(alloc);
    for row in rows.lines() {
        let (asked, _) = row.rsplit_once(" | ").unwrap_or((row, ""));
        let answer = answered(sealer, desk, asked)?;
        again.push_str(asked)?;
        again.push_str(" | ")?;
        again.push_str(answer.as_str())?;
        again.push('\n')?;
    }
    Ok(again)
}

// The answer to what is asked, behind what the second seat is told.
fn answered<W: Wait>(
    sealer: &mut Sealer<'_, W>,
    desk: &mut Desk<'_, W>,
    asked: &str,
) -> Result<String, Fail> {
    let (ask, beside) = asked.split_once(" | ").unwrap_or((asked, "seal 0"));
    sealer.is_told(beside)?;
    desk.answer(sealer, ask)
}

// The same of a seat of a lake, beside another one of it.
fn answers_of<W: Wait>(
    rt: &W,
    alloc: Global,
    lake: &Shared<SureKeeper>,
    seat: LakeSeat,
    other: LakeSeat,
    blocks: MemoryBlocks,
    repo: &RepoName,
    branch: &RefName,
    source: &RefName,
    path: &Path,
    rows: &str,
) -> Result<String, Fail>
    requires { (seat.turn ≡ lake.now) × (other.turn ≡ lake.now) }
{
    let mut sealer = Sealer {
        rt,
        alloc,
        lake,
        seat: other,
        repo,
        branch,
        source,
        path,
        beside: Beside::Seal,
        left: 0,
    };
    let mut desk = Desk {
        rt,
        alloc,
        lake,
        seat,
        blocks,
        repo,
        calls: 0,
    };
    answered_now(alloc, &mut sealer, &mut desk, rows)
}

// Rows of what is asked, what the second seat does at how many pauses, and what is answered, on a fresh lake: the same
// rows with what is answered now.
pub(crate) fn answers<W: Wait>(rt: &W, alloc: Global, rows: &str) -> Result<String, Fail> {
    let repo = RepoName::read(alloc, b"quickstart")?;
    let main = RefName::read(alloc, b"main")?;
    let dev = RefName::read(alloc, b"dev")?;
    let path = Path::read(alloc, b"a")?;
    let blocks = blocks(alloc)?;
    let (lake, seat, one) = open(alloc)?;
    answers_of(
        rt, alloc, &lake, seat, one, blocks, &repo, &main, &dev, &path, rows,
    )
}

// Objects put, linked, copied and deleted, and changes dropped.
const OBJECTS: &str = "\
put main | seal 0 | Some(5) at 2 of 2\n\
put main | seal 9 | Some(5) at 13 of 13\n\
put main | seal 10 | TooManyTries { first: 11, last: 20 } at 24 of 25\n\
put main | seal 0 | BlockFault at 26 of 27\n\
put dev | seal 0 | Step(NoRef(Named)) at 27 of 27\n\
link | seal 1 | Some(9) at 29 of 29\n\
copy a | seal 2 | Some(9) at 32 of 32\n\
copy b | seal 0 | NoPath at 32 of 32\n\
copy a | seal 10 | TooManyTries { first: 24, last: 33 } at 42 of 42\n\
delete | seal 9 | None at 52 of 52\n\
delete | seal 10 | TooManyTries { first: 43, last: 52 } at 62 of 62\n\
reset main | seal 0 | None at 63 of 63\n\
copy a | seal 0 | NoPath at 63 of 63\n\
reset dev | seal 0 | Step(NoRef(Named)) at 63 of 63\n\
";

// Commits, merges, reverts and cherry-picks.
const HEADS: &str = "\
commit main | seal 0 | NoChanges at 1 of 1\n\
put main | seal 0 | Some(5) at 3 of 3\n\
commit main | seal 9 | 1 over 1 at 14 of 14\n\
link | seal 0 | Some(9) at 15 of 15\n\
commit main | seal 10 | TooManyTries { first: 15, last: 24 } at 26 of 26\n\
commit main | commit 1 | NoChanges at 29 of 29\n\
branch dev | seal 0 | at 30\n\
merge dev | seal 0 | NoChanges at 31 of 31\n\
put dev | seal 0 | Some(5) at 33 of 33\n\
commit dev | seal 0 | 1 over 1 at 35 of 35\n\
copy a | seal 0 | Some(9) at 36 of 36\n\
merge dev | seal 0 | Dirty at 37 of 37\n\
commit main | seal 0 | 1 over 1 at 39 of 39\n\
merge dev | seal 1 | 1 over 2 at 42 of 42\n\
revert main | seal 0 | NeedsParentNumber at 42 of 42\n\
revert main 0 | seal 0 | NoParent(0) at 42 of 42\n\
revert main 3 | seal 0 | NoParent(3) at 42 of 42\n\
revert main 1 | seal 0 | 71 over 1 at 44 of 44\n\
take dev | seal 0 | 1 over 1 at 46 of 46\n\
take none | seal 0 | Step(NoRef(Expression)) at 46 of 46\n\
delete | seal 0 | None at 47 of 47\n\
commit main | seal 0 | 1 over 1 at 49 of 49\n\
revert main~1 | seal 0 | Conflicts at 50 of 50\n\
limit | seal 0 | at 51\n\
put main | seal 0 | Some(5) at 53 of 53\n\
copy a | seal 0 | Some(5) at 54 of 54\n\
commit main | seal 0 | HookDenied at 55 of 55\n\
";

// Merges of a branch that moves at the pause, beside a seal: what is merged is what the call found at first.
const MOVES: &str = "\
branch dev | seal 0 | at 1\n\
put dev | seal 0 | Some(5) at 3 of 3\n\
commit dev | seal 0 | 1 over 1 at 5 of 5\n\
merge dev | move 1 | 1 over 2 at 11 of 11\n\
copy a | seal 0 | Some(5) at 12 of 12\n\
commit main | seal 0 | 1 over 1 at 14 of 14\n\
merge dev | seal 0 | 1 over 2 at 16 of 16\n\
copy a | seal 0 | NoPath at 16 of 16\n\
";

#[test]
fn objects_are_put_beside_a_seat_that_seals(rt: HostRuntime) -> Result<(), Fail> {
    let again = answers(&rt, rt.alloc(), OBJECTS)?;
    assert_eq!(rt; again.as_str(), OBJECTS);
    Ok(())
}

#[test]
fn heads_are_made_beside_a_seat_that_seals_or_commits(rt: HostRuntime) -> Result<(), Fail> {
    let again = answers(&rt, rt.alloc(), HEADS)?;
    assert_eq!(rt; again.as_str(), HEADS);
    Ok(())
}

#[test]
fn a_merge_takes_the_source_that_it_found_first(rt: HostRuntime) -> Result<(), Fail> {
    let again = answers(&rt, rt.alloc(), MOVES)?;
    assert_eq!(rt; again.as_str(), MOVES);
    Ok(())
}
