//! A turn over a log of numbers: seats are split off, joined and closed, and two threads share it.
ghost use Rattle.std.specs.Prelude.{◌≡◌, ◌+◌, ◌<◌, true, false, [], ◌∷◌, ◌++◌, length, IfOk, IfSome, MatchResult, All};
ghost use Rattle.turn_lock.specs.Seats.{seat_after, longer_of};

use std::alloc::{AllocError, Global};
use std::process::Abort;
use std::sync::Wait;
use std::test::Fail;
use std::thread::{Threads, join};
use turn_lock::{NoMemory, Seat, Standing, Turn};

type LogSeat = Seat<u64, (u32, u64)>;

/// Numbers that seats added, each beside the seat's own.
#[derive(Drop)]
struct Log {
    origin: u64,
    entries: Vec<(u32, u64)>,
}

impl Log {
    fn add(&mut self, seat: u32, number: u64) -> Result<(), AllocError>
        ensures origin { self.new.origin ≡ self.old.origin }
        ensures entries { MatchResult result
            (λ _. self.new.entries.items ≡ self.old.entries.items ++ (seat, number) ∷ [])
            (λ _. self.new.entries.items ≡ self.old.entries.items) }
    {
        self.entries.push((seat, number))?;
        Ok(())
    }
}

impl Standing for Log {
    type Origin = u64;

    type Entry = (u32, u64);

    ghost origin = { λ l. l.origin };

    ghost list = { λ l. l.entries.items };

    ghost seat_of = { λ e. e.0 };

    fn entries(&self) -> u64 {
        self.entries.len() as u64
    }
}

fn add<W: Wait>(rt: &W, turn: &Turn<Log>, seat: &mut LogSeat, number: u64) -> Result<(), AllocError>
    requires { seat.old.turn ≡ turn.now }
    ensures turn { seat.new.turn ≡ seat.old.turn }
    ensures mine { MatchResult result
        (λ _. seat.new.mine ≡ seat.old.mine ++ (seat.old.number, number) ∷ [])
        (λ _. seat.new.mine ≡ seat.old.mine) }
{
    turn.with_change(rt, seat, |log, own| log.add(own, number))
}

// What the seat finds is just what it has seen then.
fn read<W: Wait>(
    rt: &W,
    turn: &Turn<Log>,
    seat: &mut LogSeat,
) -> Result<Vec<(u32, u64)>, AllocError>
    requires { seat.old.turn ≡ turn.now }
    ensures seat { seat.new ≡ seat_after seat.old seat.new.seen seat.old.mine }
    ensures seen { IfOk result (λ v. v.items ≡ seat.new.seen) }
{
    turn.with_read(rt, seat, |log| log.entries.clone())
}

// A seat that is alone finds just what it had seen, and is as it was. No seat is alone after a split.
fn read_alone_and_split<W: Wait>(
    rt: &W,
    turn: &Turn<Log>,
    seat: &mut LogSeat,
) -> Result<(Vec<(u32, u64)>, LogSeat), AllocError>
    requires { (seat.old.turn ≡ turn.now) × (seat.old.alone ≡ true) }
    ensures seen { IfOk result (λ r. r.0.items ≡ seat.old.seen) }
    ensures alone { IfOk result (λ r. (seat.new.alone ≡ false) × (r.1.alone ≡ false)) }
    ensures turn { (seat.new.turn ≡ turn.now) × IfOk result (λ r. r.1.turn ≡ turn.now) }
{
    let found = turn.with_read(rt, seat, |log| log.entries.clone())?;
    let Ok(other) = turn.split(rt, seat) else {
        return Err(AllocError);
    };
    Ok((found, other))
}

struct Found {
    at_split: Vec<(u32, u64)>,
    by_one: Vec<(u32, u64)>,
    by_zero: Vec<(u32, u64)>,
    split: LogSeat,
}

// Seat 0 adds 5, a seat is split off it, seat 1 adds 7 and is joined to the new seat.
fn split_and_join<W: Wait>(
    rt: &W,
    turn: &Turn<Log>,
    zero: &mut LogSeat,
    mut one: LogSeat,
) -> Option<Found>
    requires { (zero.old.turn ≡ turn.now) × (one.turn ≡ turn.now) }
    ensures turn { zero.new.turn ≡ turn.now }
    ensures split { IfSome result (λ r. (r.split.turn ≡ turn.now) × (r.split.mine ≡ [])
        × (r.split.seen ≡ longer_of r.at_split.items r.by_one.items)) }
    ensures zero { IfSome result (λ r.
        (zero.new.mine ≡ zero.old.mine ++ (zero.old.number, 5) ∷ [])
        × (zero.new.seen ≡ r.by_zero.items)) }
{
    add(rt, turn, zero, 5).ok()?;
    let at_split = read(rt, turn, zero).ok()?;
    let mut split = turn.split(rt, zero).ok()?;
    add(rt, turn, &mut one, 7).ok()?;
    let by_one = read(rt, turn, &mut one).ok()?;
    let by_zero = read(rt, turn, zero).ok()?;
    turn.join(rt, &mut split, one);
    Some(Found {
        at_split,
        by_one,
        by_zero,
        split,
    })
}

fn fill<W: Wait>(rt: &W, turn: &Turn<Log>, mut seat: LogSeat, count: u64) -> Option<LogSeat>
    requires { seat.turn ≡ turn.now }
    ensures turn { IfSome result (λ s. s.turn ≡ seat.turn) }
    ensures mine { IfSome result (λ s. length s.mine ≡ length seat.mine + count) }
{
    for number in 0..count {
        add(rt, turn, &mut seat, number).ok()?;
    }
    Some(seat)
}

fn fill_both<R: Threads + Wait + Sync>(
    rt: &R,
    turn: &Turn<Log>,
    zero: LogSeat,
    one: LogSeat,
) -> Option<(LogSeat, LogSeat)>
    requires { (zero.turn ≡ turn.now) × (one.turn ≡ turn.now) }
    ensures { IfSome result (λ r. (r.0.turn ≡ turn.now) × (r.1.turn ≡ turn.now)) }
{
    let (a, b) = join(
        rt,
        move || -> Option<LogSeat>
            requires { zero.turn ≡ turn.now }
            ensures { IfSome result (λ s. s.turn ≡ turn.entry.now) }
        { fill(rt, turn, zero, 1000) },
        move || -> Option<LogSeat>
            requires { one.turn ≡ turn.now }
            ensures { IfSome result (λ s. s.turn ≡ turn.entry.now) }
        { fill(rt, turn, one, 1000) },
    );
    Some((a?, b?))
}

fn open(alloc: Global, seats: u32) -> Result<(Turn<Log>, Vec<LogSeat>), NoMemory>
    requires { 0 < seats }
    ensures own { IfOk result (λ r. All (λ s. s.turn ≡ r.0) r.1.items) }
    ensures count { IfOk result (λ r. length r.1.items ≡ seats) }
    ensures alone { seats ≡ 1 → IfOk result (λ r. All (λ s. s.alone ≡ true) r.1.items) }
{
    let log = Log {
        origin: 7,
        entries: Vec::new(alloc),
    };
    Turn::new(alloc, log, seats)
}

#[test]
fn a_seat_is_split_off_and_another_joined(rt: HostRuntime) -> Result<(), Fail> {
    let (turn, mut seats) = open(rt.alloc(), 2).ok().ok_or("memory")?;
    let one = seats.pop().ok_or("a seat")?;
    let mut zero = seats.pop().ok_or("a seat")?;
    assert!(rt; zero.number() == 0 && one.number() == 1);
    let found = split_and_join(&rt, &turn, &mut zero, one).ok_or("memory")?;
    let Found {
        at_split,
        by_one,
        by_zero,
        split,
    } = found;
    assert!(rt; split.number() == 2 && split.seen() == 2 && zero.seen() == 2);
    assert!(rt; at_split.as_slice() == [(0, 5)].as_slice());
    assert!(rt; by_one.as_slice() == [(0, 5), (1, 7)].as_slice());
    assert!(rt; by_zero.as_slice() == [(0, 5), (1, 7)].as_slice());
    let log = turn.close(&rt, vec![in rt.alloc(); zero, split]?);
    assert!(rt; log.origin == 7 && log.entries.as_slice() == [(0, 5), (1, 7)].as_slice());
    Ok(())
}

#[test]
fn a_seat_that_is_alone_finds_what_it_has_seen(rt: HostRuntime) -> Result<(), Fail> {
    let (turn, mut seats) = open(rt.alloc(), 1).ok().ok_or("memory")?;
    let mut zero = seats.pop().ok_or("a seat")?;
    let (found, one) = read_alone_and_split(&rt, &turn, &mut zero)?;
    assert!(rt; found.is_empty() && one.number() == 1);
    Ok(())
}

// How many entries the seat has, where they are 0, 1, 2 and so on.
fn in_order(log: &Log, seat: u32) -> Option<u64> {
    let mut next = 0;
    for entry in log.entries.as_slice() {
        if entry.0 == seat {
            if entry.1 != next || next == u64::MAX {
                return None;
            }
            next += 1;
        }
    }
    Some(next)
}

#[test]
fn two_threads_add_a_thousand_each(rt: HostRuntime) -> Result<(), Fail> {
    let (turn, mut seats) = open(rt.alloc(), 2).ok().ok_or("memory")?;
    let one = seats.pop().ok_or("a seat")?;
    let zero = seats.pop().ok_or("a seat")?;
    let (zero, one) = fill_both(&rt, &turn, zero, one).ok_or("memory")?;
    let log = turn.close(&rt, vec![in rt.alloc(); zero, one]?);
    assert!(rt; log.entries() == 2000);
    assert!(rt; in_order(&log, 0) == Some(1000) && in_order(&log, 1) == Some(1000));
    Ok(())
}
