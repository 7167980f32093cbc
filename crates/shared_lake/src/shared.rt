//! A lake behind a turn.
ghost use Rattle.std.specs.Prelude.{◌≡◌, ◌<◌, ℕ, Some, length, All, IfOk, slice_get};
ghost use Rattle.core_puts.specs.KeeperViews.{KeeperView};
ghost use Rattle.lake_core.specs.Lakes.{Holds};
ghost use Rattle.turn_lock.specs.Seats.{new_seat};
ghost use Rattle.shared_lake.specs.SeatSteps.{Finds, SeesOwn, origin_of};

use keeper::Keeper;
use lake_core::{Lake, LakeOrigin};
use lake_model::HistoryEntry;
use std::alloc::Global;
use std::marker::Model;
use std::sync::Wait;
use turn_lock::{NoMemory, Seat, Turn};

/// A lake that seats share. To a contract it is the name of its turn, which its seats show.
#[derive(Drop)]
pub struct Shared<K: Keeper> {
    pub(crate) turn: Turn<Lake<K>>,
}

impl<K: Keeper> Model for Shared<K> {
    ghost use Rattle.turn_lock.specs.Seats.{TableId, table_id_coded};

    ghost Value = { TableId };

    ghost coded = { table_id_coded };

    ghost view = { λ s. s.turn };
}

/// A seat at a lake, whatever its keeper is.
pub type LakeSeat = Seat<LakeOrigin, HistoryEntry>;

impl<K: Keeper> Shared<K> {
    /// A shared lake, and so many seats at it, numbered from 0. Each has seen the lake's history, in which no entry is
    /// of a number at or above theirs. Out of memory.
    pub fn new(
        alloc: Global,
        lake: Lake<K>,
        seats: u32,
    ) -> Result<(Shared<K>, Vec<LakeSeat>), NoMemory>
        requires some { 0 < seats }
        requires numbers { All (λ e. e.by.seat < seats) lake.history }
        ensures turn { IfOk result (λ r. All (λ s. s.turn ≡ r.0) r.1.items) }
        ensures count { IfOk result (λ r. length r.1.items ≡ seats) }
        ensures each { IfOk result (λ r.
            let view : KeeperView K =
            record { kept = K.kept; faults = K.faults; calls = K.calls; successes = K.successes } in
            let seat = new_seat (origin_of view) (λ l. l.history) (λ e. e.by.seat) r.0 lake seats
            in (k : ℕ) → k < seats → slice_get r.1.items k ≡ Some (seat k)) }
        ensures own { IfOk result (λ r. All SeesOwn r.1.items) }
    {
        let (turn, seats) = Turn::new(alloc, lake, seats)?;
        Ok((Shared { turn }, seats))
    }

    /// Joins the seats, of which there is one at least, and hands out the lake: one that each of them may find. It
    /// waits.
    pub fn close<W: Wait>(self, rt: &W, seats: Vec<LakeSeat>) -> Lake<K>
        requires some { 0 < length seats.items }
        requires own { All (λ s. s.turn ≡ self) seats.items }
        ensures found { All (λ s. Finds
            (record { kept = K.kept; faults = K.faults; calls = K.calls; successes = K.successes })
            s result) seats.items }
        ensures stands { Holds
            (record { kept = K.kept; faults = K.faults; calls = K.calls; successes = K.successes }) result }
    {
        self.turn.close(rt, seats)
    }
}
