//! Which values may go from thread to thread. Each function is proved only where its bound holds.
use crate::seat::Seat;
use crate::standing::Standing;
use crate::turn::Turn;

fn may_move<T: Send>() {}

fn may_be_shared<T: Sync>() {}

/// Threads may share a turn, and hand it over, where they may hand over its value.
pub fn turns_cross<S: Standing + Send>() {
    may_move::<Turn<S>>();
    may_be_shared::<Turn<S>>();
}

/// A seat may go to another thread, whatever its turn has.
pub fn seats_cross<O, E>() {
    may_move::<Seat<O, E>>();
}
