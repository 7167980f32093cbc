//! A small lake over any keeper, whose steps go through a turn as those of a lake of many seats will.
ghost use Rattle.std.specs.Prelude.{◌≡◌, ℕ, ◌+◌, ◌<◌, ◌≤◌, List, [], map};
ghost use Rattle.std.specs.Prelude.{Some, IfOk, MatchOption, MatchResult, Contains};
ghost use mathlib.Core.List.{IsPrefix};
ghost use Rattle.turn_lock.specs.Seats.{by_seat, seat_after, with_entry};
ghost use Rattle.test_turns.specs.SmallLake.{SmallState, Gives, Stands, entry_of, faults_in, put_reply, raised};
ghost use Rattle.test_turns.specs.SmallLake.{state_of};

use std::alloc::{AllocError, Global};
use std::marker::Model;
use std::snapshot::Snapshot;
use std::sync::Wait;
use std::test::Fail;
use turn_lock::{NoMemory, Seat, Standing, Turn};

/// What keeps the numbers of a lake. It may fail.
pub trait Keeper: Drop {
    /// How often it has failed.
    ghost faults: { Self → ℕ };

    fn keep(&mut self, number: u64) -> Result<(), Failed>
        ensures { MatchResult result (λ _. faults self.new ≡ faults self.old)
            (λ _. faults self.old < faults self.new) };
}

#[derive(Clone, Copy, Debug, PartialEq, Eq)]
pub struct Failed;

/// Who made an entry: the number of a seat, and which of its calls.
#[derive(Clone, Copy, Debug, PartialEq, Eq)]
pub struct By {
    pub seat: u32,
    pub call: u64,
}

/// What is said of a number. Contracts see its bytes.
#[derive(Drop)]
pub struct Remark {
    bytes: Vec<u8>,
}

impl Model for Remark {
    ghost use Rattle.std.specs.Prelude.{ℕ, List};

    ghost Value = { List ℕ };

    ghost view = { λ r. r.bytes.items };
}

#[derive(Drop)]
pub struct Entry {
    pub by: By,
    /// The number that was put, or that the keeper failed.
    pub number: Option<u64>,
    pub remark: Remark,
}

#[derive(Clone, Copy, Debug, PartialEq, Eq)]
pub enum PutFault {
    /// The lake has another version: this one.
    Changed(u64),
    /// The keeper failed. An entry notes it.
    Failed,
    Full,
    /// The lake has a greater number.
    Low,
    NoMemory,
}

impl From<AllocError> for PutFault {
    ghost use Rattle.std.specs.Prelude.{◌≡◌};
    ghost use Rattle.test_turns.specs.declared.small_lake.PutFault.TheVariants.{NoMemory};

    ghost from_gives = { λ _ e. e ≡ NoMemory };

    fn from(_: AllocError) -> PutFault {
        PutFault::NoMemory
    }
}

/// Stands for the state that a lake was opened with. No value of it is made.
pub struct Opened;

impl Model for Opened {
    ghost use Rattle.test_turns.specs.SmallLake.{SmallState};

    ghost Value = { SmallState };

    ghost view = { λ _. record { number = 0; version = 0 } };
}

/// What a lake is now.
#[derive(Clone, Copy, Debug, PartialEq, Eq)]
pub struct Now {
    pub number: u64,
    pub version: u64,
}

/// A lake of one number. Contracts see the state that it was opened with, its entries and its keeper.
#[derive(Drop)]
pub struct Lake<K: Keeper> {
    opened: Snapshot<Now>,
    present: Now,
    entries: Vec<Entry>,
    keeper: K,
}

impl<K: Keeper> Model for Lake<K> {
    ghost use Rattle.std.specs.Prelude.{◌≡◌, map};
    ghost use Rattle.test_turns.specs.SmallLake.{SmallLakeValue, Stands, state_after};
    ghost use Rattle.test_turns.specs.declared.small_lake.Entry.{Entry};

    ghost Value = { SmallLakeValue K Entry };

    ghost view = { λ l. record {
      opened = record { number = l.opened.value.number; version = l.opened.value.version };
      entries = l.entries.items;
      keeper = l.keeper;
    } };

    ghost invariant = { λ l. (state_after
        (record { number = l.opened.value.number; version = l.opened.value.version })
        (map (λ e. e.number) l.entries.items)
        ≡ record { number = l.present.number; version = l.present.version })
        × Stands (K.faults l.keeper)
        (record { number = l.opened.value.number; version = l.opened.value.version })
        (map (λ e. e.number) l.entries.items) };
}

impl<K: Keeper> Standing for Lake<K> {
    type Origin = Opened;

    type Entry = Entry;

    ghost origin = { λ l. l.opened };

    ghost list = { λ l. l.entries };

    ghost seat_of = { λ e. e.by.seat };

    ghost holds = { λ l. Stands (K.faults l.keeper) l.opened (map (λ e. e.number) l.entries) };

    fn entries(&self) -> u64 {
        self.entries.len() as u64
    }
}

impl<K: Keeper> Lake<K> {
    /// A lake without entries.
    pub fn new(alloc: Global, keeper: K) -> Lake<K>
        ensures { result.entries ≡ [] }
    {
        let present = Now {
            number: 0,
            version: 0,
        };
        Lake {
            opened: Snapshot::of(&present),
            present,
            entries: Vec::new(alloc),
            keeper,
        }
    }

    /// What the lake is now, unless it still has the version that is known.
    pub fn look(&self, known: &Now) -> Option<Now>
        ensures { let state = state_of (λ e. e.number) self.now.opened self.now.entries
            in MatchOption result (state.version ≡ known.now.version)
            (λ now. (now.number ≡ state.number) × (now.version ≡ state.version)) }
    {
        if known.version == self.present.version {
            None
        } else {
            Some(self.present)
        }
    }

    /// Puts a number where the lake has this version and no greater number, and answers the next version. No call
    /// puts two.
    pub fn put(
        &mut self,
        by: By,
        version: u64,
        number: u64,
        remark: Remark,
    ) -> Result<u64, PutFault>
        requires { let own = by_seat (λ e. e.by.seat) by.seat self.old.entries
            in Contains (map (λ e. e.by.call) own) by.call → ⊥ }
        ensures opened { self.new.opened ≡ self.old.opened }
        ensures entries { self.new.entries ≡ with_entry self.old.entries (entry_of by number remark result) }
        ensures reply { let state = state_of (λ e. e.number) self.old.opened self.old.entries
            in Gives result (put_reply state version) }
    {
        if version != self.present.version {
            return Err(PutFault::Changed(self.present.version));
        }
        if number < self.present.number {
            return Err(PutFault::Low);
        }
        self.keep(by, number, remark)
    }

    /// Raises the number by as much as it is above `low`, and answers the next version. No call puts two.
    pub fn raise(&mut self, by: By, low: u64, remark: Remark) -> Result<u64, PutFault>
        requires call { let own = by_seat (λ e. e.by.seat) by.seat self.old.entries
            in Contains (map (λ e. e.by.call) own) by.call → ⊥ }
        requires low { low ≤ (state_of (λ e. e.number) self.old.opened self.old.entries).number }
        ensures opened { self.new.opened ≡ self.old.opened }
        ensures entries { let number = raised (state_of (λ e. e.number) self.old.opened self.old.entries) low
            in self.new.entries ≡ with_entry self.old.entries (entry_of by number remark result) }
    {
        let present = self.present.number;
        let Some(number) = present.checked_add(present - low) else {
            return Err(PutFault::Full);
        };
        self.keep(by, number, remark)
    }

    // The number is the lake's next. Where the keeper fails, that is noted.
    fn keep(&mut self, by: By, number: u64, remark: Remark) -> Result<u64, PutFault>
        requires { (state_of (λ e. e.number) self.old.opened self.old.entries).number ≤ number }
        ensures opened { self.new.opened ≡ self.old.opened }
        ensures entries { self.new.entries ≡ with_entry self.old.entries (entry_of by number remark result) }
        ensures reply { let state = state_of (λ e. e.number) self.old.opened self.old.entries
            in Gives result (put_reply state state.version) }
    {
        let version = self.present.version;
        if version == u64::MAX {
            return Err(PutFault::Full);
        }
        self.entries.reserve(1)?;
        if self.keeper.keep(number).is_err() {
            self.entries.push_reserved(Entry {
                by,
                number: None,
                remark,
            });
            return Err(PutFault::Failed);
        }
        self.entries.push_reserved(Entry {
            by,
            number: Some(number),
            remark,
        });
        self.present = Now {
            number,
            version: version + 1,
        };
        Ok(version + 1)
    }
}

/// A lake that seats share. To a contract it is the name of its turn.
#[derive(Drop)]
pub struct Shared<K: Keeper> {
    turn: Turn<Lake<K>>,
}

impl<K: Keeper> Model for Shared<K> {
    ghost use Rattle.turn_lock.specs.Seats.{TableId, table_id_coded};

    ghost Value = { TableId };

    ghost coded = { table_id_coded };

    ghost view = { λ s. s.turn };
}

/// A seat at such a lake, whatever its keeper is.
pub type LakeSeat = Seat<Opened, Entry>;

impl<K: Keeper> Shared<K> {
    /// The lake with its one seat.
    pub fn new(alloc: Global, lake: Lake<K>) -> Result<(Shared<K>, LakeSeat), NoMemory>
        requires { lake.entries ≡ [] }
        ensures { IfOk result (λ r. (r.1.turn ≡ r.0) × (r.1.mine ≡ [])) }
    {
        let (turn, mut seats) = Turn::new(alloc, lake, 1)?;
        Ok((Shared { turn }, seats.remove(0)))
    }

    /// What the lake is at a history that begins with all that the seat had seen, unless it has the version
    /// that is known.
    pub fn look<W: Wait>(&self, rt: &W, seat: &mut LakeSeat, known: &Now) -> Option<Now>
        requires { seat.old.turn ≡ self.now }
        ensures found { (opened : SmallState) × (history : List Entry)
            × (seat.old.origin ≡ Some opened)
            × IsPrefix seat.old.seen history
            × (seat.new ≡ seat_after seat.old history seat.old.mine)
            × (let state = state_of (λ e. e.number) opened history
            in MatchOption result (state.version ≡ known.now.version)
            (λ now. (now.number ≡ state.number) × (now.version ≡ state.version))) }
        ensures sure { ((k : K) → K.faults k ≡ 0) → faults_in (map (λ e. e.number) seat.new.seen) ≡ 0 }
    {
        self.turn.with_read(rt, seat, |lake| lake.look(known))
    }

    /// Puts a number where the lake has this version, at a history that begins with all that the seat had seen.
    pub fn put<W: Wait>(
        &self,
        rt: &W,
        seat: &mut LakeSeat,
        call: u64,
        version: u64,
        number: u64,
        remark: Remark,
    ) -> Result<u64, PutFault>
        requires own { seat.old.turn ≡ self.now }
        requires new { Contains (map (λ e. e.by.call) seat.old.mine) call → ⊥ }
        ensures { (opened : SmallState) × (history : List Entry)
            × (seat.old.origin ≡ Some opened)
            × IsPrefix seat.old.seen history
            × Gives result (put_reply (state_of (λ e. e.number) opened history) version)
            × (let by : By = record { seat = seat.old.number; call = call } in
            let entry = entry_of by number remark result
            in seat.new ≡ seat_after seat.old (with_entry history entry) (with_entry seat.old.mine entry)) }
    {
        self.turn.with_change(rt, seat, move |lake, own| {
            lake.put(By { seat: own, call }, version, number, remark)
        })
    }

    /// Raises the number by as much as it is above `low`, which this seat has put.
    pub fn raise<W: Wait>(
        &self,
        rt: &W,
        seat: &mut LakeSeat,
        call: u64,
        low: u64,
        remark: Remark,
    ) -> Result<u64, PutFault>
        requires own { seat.old.turn ≡ self.now }
        requires new { Contains (map (λ e. e.by.call) seat.old.mine) call → ⊥ }
        requires put { Contains (map (λ e. e.number) seat.old.mine) (Some low) }
        ensures { (opened : SmallState) × (history : List Entry)
            × (seat.old.origin ≡ Some opened)
            × IsPrefix seat.old.seen history
            × (let by : By = record { seat = seat.old.number; call = call } in
            let number = raised (state_of (λ e. e.number) opened history) low in
            let entry = entry_of by number remark result
            in seat.new ≡ seat_after seat.old (with_entry history entry) (with_entry seat.old.mine entry)) }
    {
        self.turn.with_change(rt, seat, move |lake, own| {
            lake.raise(By { seat: own, call }, low, remark)
        })
    }
}

// Keeps so many numbers, and then fails.
#[derive(Drop)]
struct Faulty {
    good: u64,
    faults: u64,
}

impl Keeper for Faulty {
    ghost faults = { λ k. k.faults };

    fn keep(&mut self, _number: u64) -> Result<(), Failed> {
        if self.good == 0 && self.faults < u64::MAX {
            self.faults += 1;
            return Err(Failed);
        }
        self.good = self.good.saturating_sub(1);
        Ok(())
    }
}

// It never fails.
#[derive(Drop)]
struct Sure;

impl Keeper for Sure {
    ghost faults = { λ _. 0 };

    fn keep(&mut self, _number: u64) -> Result<(), Failed> {
        Ok(())
    }
}

// Over such a keeper no fault stands in what a seat has seen, whatever other seats did.
fn look_surely<W: Wait>(
    rt: &W,
    shared: &Shared<Sure>,
    seat: &mut LakeSeat,
    known: &Now,
) -> Option<Now>
    requires { seat.old.turn ≡ shared.now }
    ensures { faults_in (map (λ e. e.number) seat.new.seen) ≡ 0 }
{
    shared.look(rt, seat, known)
}

fn no_remark(alloc: Global) -> Remark {
    Remark {
        bytes: Vec::new(alloc),
    }
}

// Puts 5 and 8, and raises the number by as much as it is above 5.
fn put_and_raise<K: Keeper, W: Wait>(
    rt: &W,
    alloc: Global,
    shared: &Shared<K>,
    seat: &mut LakeSeat,
) -> Result<u64, PutFault>
    requires { (seat.old.turn ≡ shared.now) × (seat.old.mine ≡ []) }
    ensures { seat.new.turn ≡ seat.old.turn }
{
    shared.put(rt, seat, 1, 0, 5, no_remark(alloc))?;
    shared.put(rt, seat, 2, 1, 8, no_remark(alloc))?;
    shared.raise(rt, seat, 3, 5, no_remark(alloc))
}

#[test]
fn a_put_is_refused_where_the_version_differs_or_the_keeper_fails(
    rt: HostRuntime,
) -> Result<(), Fail> {
    let alloc = rt.alloc();
    for (good, version, answer, left, seen) in [
        (1, 0, Ok(1), Some((5, 1)), 1),
        (1, 7, Err(PutFault::Changed(0)), None, 0),
        (0, 0, Err(PutFault::Failed), None, 1),
    ] {
        let lake = Lake::new(alloc, Faulty { good, faults: 0 });
        let (shared, mut seat) = Shared::new(alloc, lake).ok().ok_or("memory")?;
        let put = shared.put(&rt, &mut seat, 1, version, 5, no_remark(alloc));
        assert!(rt; put == answer && seat.seen() == seen);
        let known = Now {
            number: 0,
            version: 0,
        };
        let found = shared.look(&rt, &mut seat, &known);
        assert!(rt; found.map(|now| (now.number, now.version)) == left);
    }
    Ok(())
}

#[test]
fn a_number_is_raised_and_each_fault_is_noted(rt: HostRuntime) -> Result<(), Fail> {
    let alloc = rt.alloc();
    for (good, answer, left, seen) in [
        (3, Ok(3), Some((11, 3)), 3),
        (2, Err(PutFault::Failed), Some((8, 2)), 3),
        (1, Err(PutFault::Failed), Some((5, 1)), 2),
    ] {
        let lake = Lake::new(alloc, Faulty { good, faults: 0 });
        let (shared, mut seat) = Shared::new(alloc, lake).ok().ok_or("memory")?;
        let raised = put_and_raise(&rt, alloc, &shared, &mut seat);
        assert!(rt; raised == answer && seat.seen() == seen);
        let known = Now {
            number: 0,
            version: 0,
        };
        let found = shared.look(&rt, &mut seat, &known);
        assert!(rt; found.map(|now| (now.number, now.version)) == left);
    }
    Ok(())
}

#[test]
fn a_keeper_that_never_fails_has_no_fault_noted(rt: HostRuntime) -> Result<(), Fail> {
    let alloc = rt.alloc();
    let (shared, mut seat) = Shared::new(alloc, Lake::new(alloc, Sure))
        .ok()
        .ok_or("memory")?;
    let raised = put_and_raise(&rt, alloc, &shared, &mut seat);
    let known = Now {
        number: 0,
        version: 0,
    };
    let found = look_surely(&rt, &shared, &mut seat, &known);
    assert!(rt; raised == Ok(3) && found.map(|now| now.number) == Some(11));
    Ok(())
}
