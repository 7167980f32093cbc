ghost use Rattle.std.specs.Prelude.{◌≡◌, length};

use crate::rule::View;
use atomic_table::Badge;
use std::marker::Model;

/// A place at a turn. Its holder knows which entries it has seen, and which it made.
///
/// Contracts see it as a `SeatValue`: its turn, its number, its origin, `seen` and `mine`, whether it
/// is alone, how many numbers it has seen drawn, and how many it drew itself. When it runs, it is its
/// number, and how many entries it has seen.
#[derive(Drop)]
pub struct Seat<O, E> {
    pub(crate) number: u32,
    /// How many entries it has seen.
    pub(crate) seen: u64,
    pub(crate) badge: Badge<View<O, E>>,
}

impl<O, E> Model for Seat<O, E> {
    ghost use Rattle.turn_lock.specs.Seats.{SeatValue};

    ghost Value = { SeatValue O E };

    ghost use Rattle.turn_lock.specs.Rule.{value_of_views, Rests};

    ghost view = { λ s. value_of_views s.badge.table_id s.badge.views };

    ghost invariant = { λ s. Rests s.number s.seen s.badge.views };
}

impl<O, E> Seat<O, E> {
    /// The seat's number, which `with_change` hands to its closure.
    pub fn number(&self) -> u32
        ensures { result ≡ self.now.number }
    {
        self.number
    }

    /// How many entries the seat has seen.
    pub fn seen(&self) -> u64
        ensures { result ≡ length self.now.seen }
    {
        self.seen
    }
}
