//! A lake is opened over a keeper.
//!
//! - `fault`: why it isn't.
//! - `opening`: its pairs are loaded, and read; a keeper without pairs gets those of a fresh lake.
//!
//! The promise to the layer above: the lake is the one for which the pairs stand, the fresh one where there are none;
//! else the keeper is handed back, and the fault has its cause.
#![tactic(auto)]

pub mod fault;
mod opening;

pub use fault::OpenFault;
pub use opening::open_lake;
