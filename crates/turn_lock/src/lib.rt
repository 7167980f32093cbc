//! A lock whose value stands for one history, and seats that know what they saw of it.
//!
//! - `standing`: the trait of a value that stands for an origin and a list of entries.
//! - `turn`: the lock, `Turn`. Its calls are made with a seat.
//! - `seat`: what the holder of a `Seat` carries, and what contracts see of it.
//! - `laws`: what holds of every step, as functions that do nothing.
//! - `steps`: the calls on the crate `atomic_table`.
//! - `rule`: the eight kinds of atomic step, the rule that each keeps, and what it tells. It runs no code.
//! - `threads`: turns and seats may go from thread to thread.
//!
//! The promise to the layer above: all seats of a turn have one origin. Of each value that is handed over
//! holds what its type says of every value. What a seat has seen begins the list of every value that it is
//! handed. Of the seat's number, that list and its beginning have just the entries that the seat made. A
//! change adds entries of the seat's own number alone. The value that `close` hands out is such a value for
//! each seat that it is given. Nothing is promised of progress or of fairness: a call that waits keeps its
//! promise if it returns.
#![tactic(auto)]

mod laws;
mod rule;
mod seat;
mod standing;
mod steps;
mod threads;
mod turn;

pub use laws::law_of_steps;
pub use seat::Seat;
pub use standing::Standing;
pub use threads::{seats_cross, turns_cross};
pub use turn::{NoMemory, SplitFault, Turn};
