//! Commits of a lake in memory that become the head of a branch.
//!
//! - `swapping`: a new head is tested, made ready, kept and made.
//! - `testing`: what refuses it; `commits`: its commit, with its bytes under its id; `provenance`: what its tree was
//!   made from; `standing`: a commit of its id that stands already.
//! - `ready`: all memory that it takes; `naming`: the names of its commit and of its tree's files, with room for them.
//! - `keeping`: its commit is put in, the puts are made by one call of the keeper, and where that fails it is taken
//!   out; `adding`: a commit is put in its repository, and taken out.
//! - `heading`: a commit that stands becomes the head.
//!
//! The promise to the layer above: an accepted head is made, with its one entry; a refusal leaves the lake as it was;
//! and after a fault of the store its fault stands.
#![tactic(auto)]

pub mod adding;
pub mod commits;
pub mod heading;
pub mod keeping;
pub mod naming;
pub mod provenance;
pub mod ready;
pub mod standing;
pub mod swapping;
pub mod testing;

pub use swapping::swap;
pub use testing::Guard;
