//! A lake in memory stands for its history: it is what the legal entries make of the state that it was opened as.
//!
//! - `opening`: a sound lake in which nothing has happened stands for no entries; what of that pairs tell.
//! - `present`: what holds of a lake that stands for its history; `plain_names`: its names are like no id.
//! - `repositories`: new repositories; `writes`: tickets, and what is written to a branch; `names`: branches and tags
//!   that come and go, and settings; `heads`: commits, merges and picks.
//!
//! The promise to the layer above: where no cause of a step holds, and the caller of a new head keeps the rest, the
//! lake of which the step's operation was made stands for the history with its entry, and the stopped lake for the
//! history with its fault. Each law is the contract of a function that does nothing.
#![tactic(auto)]

pub mod heads;
pub mod names;
pub mod opening;
pub mod plain_names;
pub mod present;
pub mod repositories;
pub mod writes;

pub use heads::law_of_new_heads;
pub use names::{law_of_settings, laws_of_names};
pub use opening::{law_of_opening, law_of_ties, law_of_versions_below};
pub use plain_names::laws_of_plain_names;
pub use present::{law_of_entries, law_of_present};
pub use repositories::law_of_repository;
pub use writes::{laws_of_tickets, laws_of_writes};
