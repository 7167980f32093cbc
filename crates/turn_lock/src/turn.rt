ghost use Rattle.std.specs.Prelude.{◌≡◌, ℕ, ◌+◌, ◌<◌, ◌≤◌, true, false, List, [], ◌∷◌, ◌++◌, length, Some, All, IfOk};
ghost use Rattle.std.specs.Prelude.{IfErr, MatchResult, slice_get};
ghost use Rattle.std.specs.Fn.{FnOnceTakesAt, FnOnceReturnsAt};
ghost use mathlib.Core.List.{IsPrefix};
ghost use Rattle.turn_lock.specs.Seats.{by_seat, KnowsOwn, Meets, Adds, OnlyAdds, TakesChange, GivesChange, new_seat};
ghost use Rattle.turn_lock.specs.Seats.{seat_after, seat_beside, seat_after_draw, seat_when_full, seat_limit};
ghost use Rattle.turn_lock.specs.Seats.{longer_of};
ghost use Rattle.turn_lock.specs.declared.turn.SplitFault.TheVariants.{NoMemory as split_no_memory};

use crate::rule::{Opening, SplitOff, TurnRule};
use crate::seat::Seat;
use crate::standing::Standing;
use crate::steps::{
    Place, ViewOf, deal, draw, give_back, join, join_all, store_length, take_out, take_turn,
};
use atomic_table::{Badge, Table};
use std::alloc::{AllocError, Global};
use std::marker::{Brand, Model};
use std::mem::replace;
use std::snapshot::Snapshot;
use std::sync::Wait;

/// Out of memory. The error is this crate's own.
#[derive(Clone, Copy, Debug, PartialEq, Eq)]
pub struct NoMemory;

impl From<AllocError> for NoMemory {
    fn from(_: AllocError) -> NoMemory {
        NoMemory
    }
}

/// Why no seat was split off.
#[derive(Clone, Copy, Debug, PartialEq, Eq)]
pub enum SplitFault {
    /// All 4,294,967,295 seat numbers were drawn.
    Full,
    /// Out of memory. A split takes none, so this never comes.
    NoMemory,
}

impl From<NoMemory> for SplitFault {
    ghost from_gives = { λ _ fault. fault ≡ split_no_memory };

    fn from(_: NoMemory) -> SplitFault {
        SplitFault::NoMemory
    }
}

/// A value that threads share, one seat at a time. To a contract it is a name, which its seats show.
#[derive(Drop)]
pub struct Turn<S: Standing> {
    table: Table<Option<S>, ViewOf<S>, Opening<S>, TurnRule<S>, Global>,
}

impl<S: Standing> Model for Turn<S> {
    ghost use Rattle.std.specs.Prelude.{◌≡◌};
    ghost use Rattle.atomic_table.specs.Seated.{TableId, table_id_coded};

    ghost Value = { TableId };

    ghost coded = { table_id_coded };

    ghost view = { λ t. t.table.shared.table_id };

    ghost invariant = { λ t. (t.table.shared.table_id.words ≡ 3) × (t.table.shared.table_id.slots ≡ 1) };
}

impl<S: Standing> Turn<S> {
    /// A turn over `value`, and its seats, numbered from 0. Each has seen the value's list.
    pub fn new(
        alloc: Global,
        value: S,
        seats: u32,
    ) -> Result<(Turn<S>, Vec<Seat<S::Origin, S::Entry>>), NoMemory>
        requires some { 0 < seats }
        requires numbers { All (λ e. S.seat_of e < seats) (S.list value) }
        ensures turn { IfOk result (λ r. All (λ s. s.turn ≡ r.0) r.1.items) }
        ensures count { IfOk result (λ r. length r.1.items ≡ seats) }
        ensures each { IfOk result (λ r.
            let seat = new_seat S.origin S.list S.seat_of r.0 value seats
            in (k : ℕ) → k < seats → slice_get r.1.items k ≡ Some (seat k)) }
        ensures own { IfOk result (λ r. All (KnowsOwn S.seat_of) r.1.items) }
    {
        let all = Vec::with_capacity(alloc, seats as usize)?;
        let about = Opening {
            value: Snapshot::of(&value),
            seats: u64::from(seats),
        };
        let seen = value.entries();
        let words = [0, seen, u64::from(seats)];
        let mut slots = Vec::with_capacity(alloc, 1)?;
        slots.push_reserved(Some(value));
        let Ok((table, first)) = Table::new(alloc, &words, slots, &about) else {
            return Err(NoMemory);
        };
        let all = deal(&table.shared, first, &about, seats, seen, all);
        Ok((Turn { table }, all))
    }

    /// Takes the turn by the first of these seats, joins the others to it, and hands out the value.
    /// Each seat may find that value. It waits.
    pub fn close<W: Wait>(self, rt: &W, mut seats: Vec<Seat<S::Origin, S::Entry>>) -> S
        requires some { 0 < length seats.items }
        requires own { All (λ s. s.turn ≡ self) seats.items }
        ensures meets { All (λ s. Meets S.origin S.list S.seat_of s result) seats.items }
        ensures stands { S.holds result }
    {
        let Turn { table } = self;
        let Seat {
            number: _,
            seen: _,
            badge,
        } = seats.remove(0);
        let mut place: Place<S> = badge.into_seat();
        take_turn(rt, &table.shared, &mut place);
        join_all(&table.shared, &mut place, seats);
        let mut closed = table.close_with(place);
        let value = closed.take(0);
        closed.free();
        let value = value.unwrap();
        // `entries` tells that the value holds.
        value.entries();
        value
    }

    /// Hands `f` the value, as it stands at this turn. It waits.
    pub fn with_read<R, F: FnOnce(&S) -> R, W: Wait>(
        &self,
        rt: &W,
        seat: &mut Seat<S::Origin, S::Entry>,
        f: F,
    ) -> R
        requires own { seat.old.turn ≡ self.now }
        requires callable { (x : S) → Meets S.origin S.list S.seat_of seat.old x → S.holds x
            → FnOnceTakesAt F.FnOnce f x }
        ensures read { (x : S)
            × Meets S.origin S.list S.seat_of seat.old x
            × FnOnceReturnsAt F.FnOnce f x result
            × (seat.new ≡ seat_after seat.old (S.list x) seat.old.mine)
            × S.holds x }
        ensures own { KnowsOwn S.seat_of seat.old × KnowsOwn S.seat_of seat.new }
    {
        let top = &self.table.shared;
        let mut place: Place<S> = replace(&mut seat.badge, Badge::blank()).into_seat();
        take_turn(rt, top, &mut place);
        let value = take_out(top, &mut place);
        let seen = value.entries();
        let answer = f(&value);
        give_back(top, &mut place, value);
        seat.seen = seen;
        seat.badge = place.into_badge();
        answer
    }

    /// Hands `f` the value to change, and the seat's number. It waits.
    pub fn with_change<R, F: FnOnce(&mut S, u32) -> R, W: Wait>(
        &self,
        rt: &W,
        seat: &mut Seat<S::Origin, S::Entry>,
        f: F,
    ) -> R
        requires own { seat.old.turn ≡ self.now }
        requires callable { (x : S) → Meets S.origin S.list S.seat_of seat.old x → S.holds x
            → TakesChange F.FnOnce f x seat.old.number }
        requires only_adds { (x y : S) (r : R) → Meets S.origin S.list S.seat_of seat.old x → S.holds x
            → GivesChange F.FnOnce f x seat.old.number r y → S.holds y
            → OnlyAdds S.origin S.list S.seat_of seat.old.number x y }
        ensures change { (x : S) × (y : S) × (added : List S.Entry)
            × Meets S.origin S.list S.seat_of seat.old x
            × GivesChange F.FnOnce f x seat.old.number result y
            × Adds S.origin S.list S.seat_of seat.old.number x added y
            × (seat.new ≡ seat_after seat.old (S.list y) (seat.old.mine ++ added))
            × S.holds x
            × S.holds y }
        ensures own { KnowsOwn S.seat_of seat.old × KnowsOwn S.seat_of seat.new }
    {
        let top = &self.table.shared;
        let number = seat.number;
        let mut place: Place<S> = replace(&mut seat.badge, Badge::blank()).into_seat();
        take_turn(rt, top, &mut place);
        let mut value = take_out(top, &mut place);
        // That the value holds is told by `entries`, before the change and behind it.
        let _found = value.entries();
        let answer = f(&mut value, number);
        let left = value.entries();
        store_length::<S, Brand>(top, &mut place, &value, left);
        give_back(top, &mut place, value);
        seat.seen = left;
        seat.badge = place.into_badge();
        answer
    }

    /// A seat of a new number. It has seen what this seat has, and made nothing. Full where all numbers
    /// were drawn: then this seat drew none. It waits.
    pub fn split<W: Wait>(
        &self,
        rt: &W,
        seat: &mut Seat<S::Origin, S::Entry>,
    ) -> Result<Seat<S::Origin, S::Entry>, SplitFault>
        requires { seat.old.turn ≡ self.now }
        ensures new { IfOk result (λ s. (s ≡ seat_beside seat.old s.number)
            × (seat.new ≡ seat_after_draw seat.old s.number)
            × (seat.old.numbers ≤ s.number) × (s.number < seat_limit)) }
        ensures none { IfOk result (λ s. by_seat S.seat_of s.number s.seen ≡ []) }
        ensures full { IfErr result (λ e. (e ≡ SplitFault.Full)
            × (seat.new ≡ seat_when_full seat.old) × (seat.old.numbers ≤ seat_limit)) }
        ensures own { KnowsOwn S.seat_of seat.old × KnowsOwn S.seat_of seat.new
            × IfOk result (KnowsOwn S.seat_of) }
    {
        let top = &self.table.shared;
        let mut place: Place<S> = replace(&mut seat.badge, Badge::blank()).into_seat();
        let drawn = draw(rt, top, &mut place);
        let split = match drawn {
            Some(number) => Ok(Seat {
                number,
                seen: seat.seen,
                badge: top.split_seat::<SplitOff<S>>(&mut place).into_badge(),
            }),
            None => Err(SplitFault::Full),
        };
        seat.badge = place.into_badge();
        split
    }

    /// Lets this seat know what another has seen. The other is gone then. It waits for nobody.
    pub fn join<W>(
        &self,
        _rt: &W,
        seat: &mut Seat<S::Origin, S::Entry>,
        other: Seat<S::Origin, S::Entry>,
    )
        requires own { seat.old.turn ≡ self.now }
        requires other { other.turn ≡ self.now }
        ensures longer { let seen = longer_of seat.old.seen other.seen
            in seat.new ≡ seat_after seat.old seen seat.old.mine }
        ensures begins { IsPrefix seat.old.seen seat.new.seen
            × IsPrefix other.seen seat.new.seen }
        ensures own { KnowsOwn S.seat_of seat.old × KnowsOwn S.seat_of other
            × KnowsOwn S.seat_of seat.new }
        ensures beside { (other.origin ≡ seat.old.origin)
            × (seat.old.alone ≡ false) × (other.alone ≡ false) }
    {
        let top = &self.table.shared;
        let mut place: Place<S> = replace(&mut seat.badge, Badge::blank()).into_seat();
        let Seat {
            number: _,
            seen,
            badge,
        } = other;
        join(top, &mut place, badge.into_seat());
        seat.seen = seat.seen.max(seen);
        seat.badge = place.into_badge();
    }
}
