//! Where the pairs of the metadata are kept.
//!
//! - `keeper`: the trait `Keeper`, which loads all pairs and puts some, whole or not at all; its failures are counted.
//! - `put`: one put.
//! - `sure`: `SureKeeper`, in memory, which never fails but for memory; `pairs`: its pairs, in an ordered map.
//! - `memory`: `MemoryKeeper`, in memory, which fails where it is told to.
//! - `threads`: keepers may go from thread to thread.
//!
//! The promise to the layer above: the pairs are those that the puts make, one after the other; a call that fails
//! made all of its puts or none; and each failure has a count that rose.
#![tactic(auto)]

pub mod keeper;
pub mod memory;
mod pairs;
pub mod put;
pub mod sure;
pub mod threads;

pub use keeper::Keeper;
pub use memory::{KeeperFail, MemoryKeeper};
pub use pair_format::Pair;
pub use put::{Put, law_of_puts};
pub use sure::{SureKeeper, are_ascending};
