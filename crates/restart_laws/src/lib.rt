//! What becomes of a lake over a restart.
//!
//! - `restarts`: a lake that is opened over the pairs that another left is the replay of what was answered there, so
//!   its commit ids keep their key maps.
#![tactic(auto)]

pub mod restarts;

pub use restarts::{law_of_ids_over_restarts, law_of_left_pairs, law_of_restarts};
