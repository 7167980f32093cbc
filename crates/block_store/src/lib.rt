//! Where objects' bytes are kept, each under a number.
//!
//! - `blocks`: the trait `Blocks`, a store whose failures and misses are counted.
//! - `sure`: `SureBlocks`, in memory, which never fails but for memory.
//! - `memory`: `MemoryBlocks`, in memory, which fails where it is told to.
//! - `threads`: stores may go from thread to thread.
//!
//! The promise to the layer above: what was put is got, unchanged, until it is removed or put anew;
//! no call touches another number; and each answer that isn't the one hoped for has a count that rose.
#![tactic(auto)]

pub mod blocks;
pub mod memory;
pub mod sure;
pub mod threads;

pub use blocks::Blocks;
pub use memory::{BlockFail, MemoryBlocks};
pub use sure::SureBlocks;
