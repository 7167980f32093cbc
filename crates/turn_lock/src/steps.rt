//! The atomic steps of a turn, each as a function over the base's table and one seat of it.
ghost use Rattle.std.specs.Prelude.{◌≡◌, ◌≢◌, ℕ, ◌+◌, ◌<◌, ◌≤◌, true, false, List, [], ◌∷◌, ◌++◌, length, Some, None};
ghost use Rattle.std.specs.Prelude.{MatchOption, All, slice_get, vec_capacity};
ghost use mathlib.Core.List.{IsPrefix};
ghost use Rattle.turn_lock.specs.declared.rule.Stage.TheVariants.{Away, Holds, Out};
ghost use Rattle.turn_lock.specs.Seats.{by_seat, KnowsOwn, Meets, new_seat, seat_limit};
ghost use Rattle.turn_lock.specs.Rule.{IsSeatOf, IsSameSeat, IsAtRest, no_turn, seat_value, view_at, left_view};
ghost use Rattle.turn_lock.specs.Rule.{right_view, joined_view, first_view, IsHolding, IsSameWork, IsJoined};

use crate::rule::{
    CompareSeats, DrawNumber, GiveTurnBack, JoinSeats, NextList, Opening, ReadHistory, SplitOff,
    StoreHistory, TakeTurn, TurnRule, View,
};
use crate::standing::Standing;
use atomic_table::{Seat, Shared};
use std::sync::Wait;
use std::thread::yield_now;

/// The word that is 1 while a seat holds the turn.
const TURN: usize = 0;

/// The word that is the length of the history.
const HISTORY: usize = 1;

/// The word that is how many seat numbers were drawn.
const SEATS: usize = 2;

/// How many seat numbers there are.
const MOST: u64 = u32::MAX as u64;

pub(crate) type ViewOf<S> = View<<S as Standing>::Origin, <S as Standing>::Entry>;

pub(crate) type Top<S> = Shared<Option<S>, ViewOf<S>, Opening<S>, TurnRule<S>>;

/// A seat as its holder has it.
pub(crate) type RestingSeat<S> = crate::seat::Seat<<S as Standing>::Origin, <S as Standing>::Entry>;

/// A seat of the base, which a step moves.
pub(crate) type Place<S> = Seat<Option<S>, ViewOf<S>>;

/// Takes the turn. While another seat has it, it tries again, and lets other threads run between two tries.
pub(crate) fn take_turn<S: Standing, W: Wait>(rt: &W, top: &Top<S>, place: &mut Place<S>)
    requires { IsSeatOf top.now.table_id place.old × IsAtRest place.old.me.0
        × (place.old.me.1 ≡ []) }
    ensures taken { IsSameSeat place.old place.new
        × (place.new.me ≡ (view_at Holds place.old.me.0, [])) }
    ensures own { KnowsOwn S.seat_of (seat_value no_turn place.old.me.0) }
{
    for _ in rt.forever() {
        if top.compare_exchange::<TakeTurn<S>>(place, TURN, 0, 1) == 0 {
            return;
        }
        yield_now();
    }
    unreachable!()
}

/// Reads the history's word, and takes the value out.
pub(crate) fn take_out<S: Standing>(top: &Top<S>, place: &mut Place<S>) -> S
    requires { IsSeatOf top.now.table_id place.old × (place.old.me.0.living ≡ true)
        × (place.old.me.0.stage ≡ Holds) × (place.old.me.1 ≡ []) }
    ensures { IsSameSeat place.old place.new
        × Meets S.origin S.list S.seat_of (seat_value no_turn place.old.me.0) result
        × (place.new.me
        ≡ (record place.old.me.0 { stage = Out; seen = S.list result }, (0, None) ∷ [])) }
{
    top.load::<ReadHistory<S>>(place, HISTORY);
    top.exchange(place, 0, None).unwrap()
}

/// Stores the length of the list that the value now stands for.
pub(crate) fn store_length<S: Standing, J: NextList<S::Entry>>(
    top: &Top<S>,
    place: &mut Place<S>,
    _value: &S,
    entries: u64,
)
    requires own { IsSeatOf top.now.table_id place.old × (place.old.me.0.living ≡ true)
        × (place.old.me.0.stage ≡ Out) }
    requires next { J.next_list ≡ S.list _value.now }
    requires length { length (S.list _value.now) ≡ entries }
    requires grown { (added : List S.Entry)
        × (S.list _value.now ≡ place.old.me.0.seen ++ added)
        × All (λ e. S.seat_of e ≡ place.old.me.0.number) added }
    ensures { IsSameSeat place.old place.new
        × (place.new.me ≡ (
          record place.old.me.0 {
            seen = S.list _value.now;
            mine = by_seat S.seat_of place.old.me.0.number (S.list _value.now);
            before = S.list _value.now;
          },
          place.old.me.1,
        )) }
{
    top.store::<StoreHistory<S, J>>(place, HISTORY, entries);
}

/// Puts the value back, and gives the turn back.
pub(crate) fn give_back<S: Standing>(top: &Top<S>, place: &mut Place<S>, value: S)
    requires own { IsSeatOf top.now.table_id place.old × (place.old.me.0.living ≡ true)
        × (place.old.me.0.stage ≡ Out) × (place.old.me.1 ≡ (0, None) ∷ []) }
    requires value { (place.old.me.0.origin ≡ Some (S.origin value))
        × (S.list value ≡ place.old.me.0.seen) }
    ensures { IsSameSeat place.old place.new
        × (place.new.me ≡ (view_at Away place.old.me.0, [])) }
{
    let _nothing = top.exchange(place, 0, Some(value));
    top.store::<GiveTurnBack>(place, TURN, 0);
}

/// Draws a number for a new seat, or finds that all were drawn.
pub(crate) fn draw<S: Standing, W: Wait>(rt: &W, top: &Top<S>, place: &mut Place<S>) -> Option<u32>
    requires { IsSeatOf top.now.table_id place.old × IsAtRest place.old.me.0
        × (place.old.me.1 ≡ []) }
    ensures same { IsSameSeat place.old place.new }
    ensures drawn { MatchOption result
        ((place.new.me ≡ (record place.old.me.0 { alone = false; numbers = seat_limit }, []))
        × (place.old.me.0.numbers ≤ seat_limit))
        (λ n. (place.new.me ≡ (
          record place.old.me.0 {
            alone = false;
            numbers = n + 1;
            draws = place.old.me.0.draws + 1;
            from = n;
            to = n + 1;
          },
          [],
        ))
        × (by_seat S.seat_of n place.old.me.0.seen ≡ [])
        × (place.old.me.0.numbers ≤ n)
        × (n < seat_limit)) }
    ensures own { KnowsOwn S.seat_of (seat_value no_turn place.old.me.0) }
{
    let mut expected = 1;
    for _ in rt.forever() {
        let found = top.compare_exchange::<DrawNumber<S>>(place, SEATS, expected, expected + 1);
        if found == expected {
            return Some(found as u32);
        }
        if found >= MOST {
            return None;
        }
        expected = found;
    }
    unreachable!()
}

/// Joins a seat to another. Then it reads the history's word, by which the seat learns that one of the two
/// lists begins with the other.
pub(crate) fn join<S: Standing>(top: &Top<S>, place: &mut Place<S>, other: Place<S>)
    requires own { IsSeatOf top.now.table_id place.old × (place.old.me.0.living ≡ true)
        × (place.old.me.0.stage ≢ Out) }
    requires other { IsSeatOf top.now.table_id other × IsAtRest other.me.0 × (other.me.1 ≡ []) }
    ensures same { IsSameSeat place.old place.new
        × (place.new.me ≡ (joined_view place.old.me.0 other.me.0, place.old.me.1)) }
    ensures begins { IsPrefix place.old.me.0.seen place.new.me.0.seen
        × IsPrefix other.me.0.seen place.new.me.0.seen }
    ensures own { KnowsOwn S.seat_of (seat_value no_turn place.old.me.0)
        × KnowsOwn S.seat_of (seat_value no_turn other.me.0)
        × KnowsOwn S.seat_of (seat_value no_turn place.new.me.0) }
    ensures beside { (other.me.0.origin ≡ place.old.me.0.origin)
        × (place.old.me.0.alone ≡ false) × (other.me.0.alone ≡ false) }
{
    top.join_seat::<JoinSeats>(place, other);
    top.load::<CompareSeats<S>>(place, HISTORY);
}

/// Joins every one of these seats to the one that holds the turn.
pub(crate) fn join_all<S: Standing>(
    top: &Top<S>,
    place: &mut Place<S>,
    mut seats: Vec<RestingSeat<S>>,
)
    requires own { IsSeatOf top.now.table_id place.old × IsHolding place.old.me }
    requires seats { All (λ s. s.turn ≡ top.now.table_id) seats.items }
    ensures same { IsSameSeat place.old place.new × IsHolding place.new.me
        × IsSameWork place.old.me.0 place.new.me.0 }
    ensures begins { IsPrefix place.old.me.0.seen place.new.me.0.seen }
    ensures joined { All (IsJoined place.new.me.0.kin) seats.items }
    ensures alone { place.old.me.0.alone ≡ true → place.new.me.0 ≡ place.old.me.0 }
{
    while let Some(other) = seats.pop() {
        let RestingSeat::<S> {
            number: _,
            seen: _,
            badge,
        } = other;
        join(top, place, badge.into_seat());
    }
}

/// The seats of a new turn, in the order of their numbers, from the seat that keeps these back.
pub(crate) fn deal<S: Standing>(
    top: &Top<S>,
    first: Place<S>,
    about: &Opening<S>,
    seats: u32,
    entries: u64,
    mut all: Vec<RestingSeat<S>>,
) -> Vec<RestingSeat<S>>
    requires seats { (0 < seats) × (about.now.seats ≡ seats) }
    requires room { (all.items ≡ []) × (seats ≤ vec_capacity all) }
    requires first { IsSeatOf top.now.table_id first
        × (first.me ≡ (first_view S.origin S.list S.seat_of about.now.value.value seats, [])) }
    requires entries { length (S.list about.now.value.value) ≡ entries }
    ensures count { length result.items ≡ seats }
    ensures each { let seat = new_seat S.origin S.list S.seat_of top.now.table_id about.now.value.value seats
        in (k : ℕ) → k < seats → slice_get result.items k ≡ Some (seat k) }
{
    let mut place = first;
    for number in 0..seats - 1 {
        let next = top.split_seat::<SplitOff<S>>(&mut place);
        all.push_reserved(RestingSeat::<S> {
            number,
            seen: entries,
            badge: place.into_badge(),
        });
        place = next;
    }
    all.push_reserved(RestingSeat::<S> {
        number: seats - 1,
        seen: entries,
        badge: place.into_badge(),
    });
    all
}
