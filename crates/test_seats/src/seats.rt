//! A lake that seats share: what one stages another sees.
ghost use Rattle.std.specs.Prelude.{◌≡◌, None, IfOk};
ghost use Rattle.lake_model.specs.Uncommitted.{put_number};

use commit_graph::RefExpr;
use fresh_lakes::fresh_lake;
use keeper::SureKeeper;
use lake_base::{Path, RefName, RepoName, Text};
use lake_model::{SealFor, StepFault};
use lake_values::{Change, Entry, Pairs, Place};
use shared_lake::{LakeSeat, Shared};
use std::alloc::Global;
use std::sync::Wait;
use std::test::Fail;

// A fresh lake in memory, shared by two seats.
fn open(alloc: Global) -> Result<(Shared<SureKeeper>, LakeSeat, LakeSeat), Fail>
    ensures { IfOk result (λ r. (r.1.turn ≡ r.0) × (r.2.turn ≡ r.0)) }
{
    let (shared, mut seats) = fresh_lake(alloc, 2).ok().ok_or("memory")?;
    let one = seats.remove(1);
    Ok((shared, seats.remove(0), one))
}

// The entry of an object outside, of this size, is put; or what stands there goes.
fn change(alloc: Global, size: Option<u64>) -> Result<Change, Fail>
    ensures { IfOk result (λ change. put_number change ≡ None) }
{
    let Some(size) = size else {
        return Ok(Change::Delete);
    };
    let place = Place::External {
        at: Text::read(alloc, b"s3://x", 65536)?,
        checksum: Text::read(alloc, b"", 65536)?,
    };
    let content_type = Text::read(alloc, b"a/b", 65536)?;
    if !Entry::can_hold(&place, &content_type) {
        return Err("no entry can hold the place")?;
    }
    Ok(Change::Put(Entry {
        place,
        size,
        mtime: 7,
        content_type,
        metadata: Pairs::new(alloc),
    }))
}

// Stages at a path of `main`.
fn stage<W: Wait>(
    rt: &W,
    alloc: Global,
    shared: &Shared<SureKeeper>,
    seat: &mut LakeSeat,
    version: u64,
    size: Option<u64>,
) -> Result<Result<u64, StepFault>, Fail>
    requires { seat.old.turn ≡ shared.now }
    ensures { seat.new.turn ≡ seat.old.turn }
{
    let repo = RepoName::read(alloc, b"quickstart")?;
    let branch = RefName::read(alloc, b"main")?;
    let path = Path::read(alloc, b"a")?;
    let change = change(alloc, size)?;
    Ok(shared.stage(rt, seat, 1, &repo, &branch, version, path, change))
}

// How many entries there were when the seat looked at that path, and the size of what stood there.
fn look<W: Wait>(
    rt: &W,
    alloc: Global,
    shared: &Shared<SureKeeper>,
    seat: &mut LakeSeat,
) -> Result<(u64, Option<u64>), Fail>
    requires { seat.old.turn ≡ shared.now }
    ensures { seat.new.turn ≡ seat.old.turn }
{
    let repo = RepoName::read(alloc, b"quickstart")?;
    let e = RefExpr::read(alloc, b"main").ok().ok_or("an expression")?;
    let path = Path::read(alloc, b"a")?;
    let seen = shared
        .look(rt, seat, &repo, &e, &path)
        .ok()
        .ok_or("a reply")?;
    Ok((seen.at, seen.found.map(|entry| entry.size)))
}

#[test]
fn a_seat_sees_what_another_staged(rt: HostRuntime) -> Result<(), Fail> {
    let alloc = rt.alloc();
    let (shared, mut zero, mut one) = open(alloc)?;
    let staged = stage(&rt, alloc, &shared, &mut zero, 1, Some(5))?;
    assert!(rt; staged.ok() == Some(1) && zero.seen() == 1 && one.seen() == 0);
    assert!(rt; look(&rt, alloc, &shared, &mut one)? == (1, Some(5)) && one.seen() == 1);
    let refused = stage(&rt, alloc, &shared, &mut one, 9, None)?;
    assert!(rt; refused.is_err() && one.seen() == 1);
    let staged = stage(&rt, alloc, &shared, &mut one, 1, None)?;
    assert!(rt; staged.ok() == Some(2) && one.seen() == 2 && zero.seen() == 1);
    assert!(rt; look(&rt, alloc, &shared, &mut zero)? == (2, None) && zero.seen() == 2);
    Ok(())
}

// The versions that a seat reads of `main`, or those that it has sealed with.
fn versions<W: Wait>(
    rt: &W,
    alloc: Global,
    shared: &Shared<SureKeeper>,
    seat: &mut LakeSeat,
    seals: bool,
) -> Result<(u64, u64, u64), Fail>
    requires { seat.old.turn ≡ shared.now }
    ensures { seat.new.turn ≡ seat.old.turn }
{
    let repo = RepoName::read(alloc, b"quickstart")?;
    let branch = RefName::read(alloc, b"main")?;
    let given = if seals {
        shared.seal(rt, seat, 1, &repo, &branch, SealFor::Other)
    } else {
        shared.versions(rt, seat, &repo, &branch)
    };
    let given = given.ok().ok_or("versions")?;
    Ok((given.at, given.version, given.settings))
}

// What a refused stage tells of the versions then.
fn changed(staged: Result<u64, StepFault>) -> Option<(u64, u64)> {
    match staged {
        Err(StepFault::Changed { version, settings }) => Some((version, settings)),
        _ => None,
    }
}

#[test]
fn a_stage_is_refused_behind_a_seal_of_another(rt: HostRuntime) -> Result<(), Fail> {
    let alloc = rt.alloc();
    let (shared, mut zero, mut one) = open(alloc)?;
    assert!(rt; versions(&rt, alloc, &shared, &mut zero, false)? == (0, 1, 0));
    assert!(rt; versions(&rt, alloc, &shared, &mut one, true)? == (1, 2, 0));
    let refused = stage(&rt, alloc, &shared, &mut zero, 1, Some(5))?;
    assert!(rt; changed(refused) == Some((2, 0)) && zero.seen() == 1);
    assert!(rt; look(&rt, alloc, &shared, &mut zero)? == (1, None));
    assert!(rt; versions(&rt, alloc, &shared, &mut zero, false)? == (1, 2, 0));
    let staged = stage(&rt, alloc, &shared, &mut zero, 2, Some(5))?;
    assert!(rt; staged.ok() == Some(2) && zero.seen() == 2);
    assert!(rt; look(&rt, alloc, &shared, &mut zero)? == (2, Some(5)));
    Ok(())
}
