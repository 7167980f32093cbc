//! Changes of a lake in memory.
//!
//! - `branch`, `repository`: what is done to a branch and to a repository that stay, and the room made for it.
//! - `places`: places under names.
//! - `lake`: what each operation makes of a lake, but for new repositories; `founding`: what those make of it.
//! - `laws`: of the state that a lake stands for a change makes what the operation does; versions stay those counted
//!   over the history, counts stay small, and fresh tokens are unused.
//!
//! The promise to the layer above: a change for which room was made needs no memory and can't be refused.
#![tactic(auto)]

pub mod branch;
pub mod founding;
pub mod lake;
mod laws;
pub mod places;
pub mod repository;

pub use laws::{laws_of_counts, laws_of_few, laws_of_indexes, laws_of_states, laws_of_tokens};
