//! The pairs of a lake in memory.
//!
//! - `changes`: the pairs after the puts of a change stand for what the change makes of the lake.
//! - `tokens`: two branches go on to name no token both.
#![tactic(auto)]

pub mod changes;
pub mod tokens;

pub use changes::{laws_of_kept_names, laws_of_kept_tickets, laws_of_kept_writes};
pub use tokens::laws_of_tokens_apart;
