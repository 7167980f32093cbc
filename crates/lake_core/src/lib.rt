//! The lake: one step at a time, on a value that stands for its history.
//!
//! - `lake`: the lake, and its keeper; `opening`: a lake that is founded, by `filling` a keeper without pairs, or else
//!   `open_fault`, and one that is opened again. `standing`: a lake stands behind a turn. `threads`: a lake may go from
//!   thread to thread.
//! - `repositories`, `tickets`, `paths`, `branches`, `heads`, `tags`, `notes`: the changes; `ready`: what one has ready
//!   before it is kept.
//! - `readings`: the readings; `preparing`: what a new head of a branch is made from.
//! - Laws, the contracts of functions that do nothing, of all that follows an opening. `changes`: what a change makes
//!   of the state and of the versions; `faults`: a fault of the store stands in a history only where the keeper's count
//!   of faults rose since the opening or stands at its last value, and a lake is stopped exactly where one does;
//!   `pairs`: the pairs of the keeper stand for the lake put to rest; `numbers`: the numbers of objects ascend, so each
//!   is given out once; `keeping_all`: no step removes anything, so nothing is expired or gone.
//!
//! Each change but `swap` has four blocks: it tests what may refuse it, in the one order; takes its memory; keeps its
//! puts and its entry by one call of the keeper; and changes the lake in memory, which can't be refused any more. A
//! swap has a commit put in before the keeper is called, and taken out where that refuses. Of `stage`, `copy` and
//! `create_repo` the first two blocks are one call, of two; a copy, a new repository and a swap take memory in their
//! test too.
//!
//! The promise to the layer above: each step answers what the one-thread lake answers at the state that the history
//! leads to; an accepted change adds exactly its entry and makes its puts; a refusal leaves the lake as it was; and
//! after a fault of the store every change is refused.
#![tactic(auto)]

pub mod branches;
pub mod changes;
pub mod faults;
mod filling;
pub mod heads;
pub mod keeping_all;
pub mod lake;
pub mod notes;
pub mod numbers;
mod open_fault;
pub mod opening;
pub mod pairs;
pub mod paths;
pub mod preparing;
pub mod readings;
mod ready;
pub mod repositories;
mod standing;
pub mod tags;
pub mod threads;
pub mod tickets;

pub use changes::law_of_changes;
pub use core_puts::laws_of_founding;
pub use core_readings::Prepared;
pub use core_state::{BranchState, LakeState, RepositoryState};
pub use faults::{law_of_stops, law_of_store_faults, law_of_sure_lakes};
pub use keeping_all::law_of_keeping_all;
pub use lake::Lake;
pub use numbers::{law_of_new_numbers, law_of_numbers};
pub use open_fault::OpenFault;
pub use pairs::law_of_kept_pairs;
pub use standing::LakeOrigin;
