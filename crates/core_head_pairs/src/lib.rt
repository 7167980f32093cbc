//! The pairs of a lake in memory after a new head, after a new repository, and at the start.
//!
//! - `heads`: the pairs after the puts of a new head stand for the lake with it.
//! - `repositories`: the same of a new repository, and of the fresh lake.
//! - `places`: the index goes on to tell the kinds of the files that are kept, by which a new head puts new ones alone.
//!
//! The promise to the layer above: with the laws of `core_pairs`, which it hands on, those of every change of a lake.
#![tactic(auto)]

pub mod heads;
pub mod places;
pub mod repositories;

pub use core_pairs::{
    laws_of_kept_names, laws_of_kept_tickets, laws_of_kept_writes, laws_of_tokens_apart,
};
pub use core_standing::law_of_present;
pub use heads::law_of_kept_heads;
pub use places::laws_of_places;
pub use repositories::{law_of_fresh_pairs, law_of_kept_repositories};
