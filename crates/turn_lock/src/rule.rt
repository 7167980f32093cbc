//! What the seats know, the rule that ties it to the words of a turn, and what each step tells.
use crate::standing::Standing;
use atomic_table::{Join, Play, Shared, Split, TableRule};
use std::collections::LinkedList;
use std::marker::{Brand, PhantomData};
use std::snapshot::Snapshot;

/// How far a seat is with its turn.
pub enum Stage {
    /// It doesn't hold the turn.
    Away,
    /// It holds the turn, and the value lies in its place.
    Holds,
    /// It holds the turn, and has the value.
    Out,
}

/// What a seat knows. No value of it is made.
pub struct View<O, E> {
    /// False once the seat was joined to another.
    pub living: bool,
    pub number: u64,
    pub origin: Option<O>,
    pub seen: LinkedList<E>,
    pub mine: LinkedList<E>,
    pub alone: bool,
    /// How many seat numbers it has seen drawn.
    pub numbers: u64,
    /// How many it has drawn itself.
    pub draws: u64,
    pub stage: Stage,
    /// The numbers from here on, below `to`, are kept back for seats that are to be split off.
    pub from: u64,
    pub to: u64,
    /// What it had seen when a seat was last joined to it.
    pub before: LinkedList<E>,
    /// The seats that were joined to it.
    pub kin: LinkedList<Kin<O, E>>,
    /// That one of two joined seats was alone, which never comes.
    pub clash: bool,
}

/// A seat that was joined to another, as it was then. No value of it is made.
pub struct Kin<O, E> {
    pub number: u64,
    pub origin: Option<O>,
    pub seen: LinkedList<E>,
    pub mine: LinkedList<E>,
}

/// What a turn is told when it is made.
#[derive(Drop)]
pub struct Opening<S> {
    pub value: Snapshot<S>,
    pub seats: u64,
}

/// The rule of a turn.
pub struct TurnRule<S> {
    of: PhantomData<S>,
}

impl<S: Standing> TableRule<Option<S>, View<S::Origin, S::Entry>, Opening<S>> for TurnRule<S> {
    ghost use Rattle.turn_lock.specs.Rule.{HoldsOfTurn, first_view};

    ghost holds = { λ _. HoldsOfTurn S.origin S.list S.seat_of };

    ghost first = { λ k. first_view S.origin S.list S.seat_of k.value.value k.seats };
}

/// A seat takes the turn.
pub struct TakeTurn<S> {
    of: PhantomData<S>,
}

impl<S: Standing> Play<Option<S>, View<S::Origin, S::Entry>> for TakeTurn<S> {
    ghost use Rattle.turn_lock.specs.Rule.{TakesTurn};

    ghost then = { TakesTurn S.seat_of };
}

/// The holder reads the history's word, and the value is lent to it.
pub struct ReadHistory<S> {
    of: PhantomData<S>,
}

impl<S: Standing> Play<Option<S>, View<S::Origin, S::Entry>> for ReadHistory<S> {
    ghost use Rattle.turn_lock.specs.Rule.{ReadsHistory};

    ghost then = { ReadsHistory S.origin S.list S.seat_of };
}

/// The list that the holder's value stands for. Each call picks it.
pub trait NextList<E> {
    ghost use Rattle.std.specs.Prelude.{List};

    ghost next_list: { List E };
}

impl<E> NextList<E> for Brand {
    ghost use Rattle.std.specs.Prelude.{[]};

    ghost next_list = { [] };
}

/// The holder stores the new length of the history.
pub struct StoreHistory<S, J> {
    of: PhantomData<(S, J)>,
}

impl<S: Standing, J: NextList<S::Entry>> Play<Option<S>, View<S::Origin, S::Entry>>
    for StoreHistory<S, J> {
    ghost use Rattle.turn_lock.specs.Rule.{StoresHistory};

    ghost then = { StoresHistory J.next_list S.seat_of };
}

/// The holder gives the turn back, and the value with it.
pub struct GiveTurnBack;

impl<S, O, E> Play<Option<S>, View<O, E>> for GiveTurnBack {
    ghost use Rattle.turn_lock.specs.Rule.{GivesTurnBack};

    ghost then = { GivesTurnBack };
}

/// A seat draws a number for another.
pub struct DrawNumber<S> {
    of: PhantomData<S>,
}

impl<S: Standing> Play<Option<S>, View<S::Origin, S::Entry>> for DrawNumber<S> {
    ghost use Rattle.turn_lock.specs.Rule.{DrawsNumber};

    ghost then = { DrawsNumber S.seat_of };
}

/// A seat learns that what it and a joined seat had seen begins one list.
pub struct CompareSeats<S> {
    of: PhantomData<S>,
}

impl<S: Standing> Play<Option<S>, View<S::Origin, S::Entry>> for CompareSeats<S> {
    ghost use Rattle.turn_lock.specs.Rule.{ComparesSeats};

    ghost then = { ComparesSeats S.seat_of };
}

/// A seat is split off.
pub struct SplitOff<S> {
    of: PhantomData<S>,
}

impl<S: Standing> Split<View<S::Origin, S::Entry>> for SplitOff<S> {
    ghost use Rattle.turn_lock.specs.Rule.{left_view, right_view};

    ghost left = { left_view };

    ghost right = { right_view S.seat_of };
}

/// A seat is joined to another.
pub struct JoinSeats;

impl<O, E> Join<View<O, E>> for JoinSeats {
    ghost use Rattle.turn_lock.specs.Rule.{joined_view, spent_view};

    ghost both = { joined_view };

    ghost spent = { spent_view };
}
