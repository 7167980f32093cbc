//! The ties of the pairs of a lake: what has to hold among them, so that they are those of one.
//!
//! - `by_key`: whether a pair has a key.
//! - `named`: that pairs have the keys of what one names.
//! - `given`: what was given out.
//! - `names`, `commits`, `files`, `changes`: the tests of what one pair spells, by its kind.
//! - `breaking`: the first pair that isn't of a form or is to blame for a tie that it breaks.
//!
//! The promise to the layer above: the pair that is named as broken is the first one; where none is, every tie holds of
//! each pair.
#![tactic(auto)]

mod breaking;
mod by_key;
mod changes;
mod commits;
mod files;
mod given;
mod named;
mod names;

pub use breaking::first_broken;
