//! Tests of what the lake stands on: what no clause says of a turn and of a store of objects.
//!
//! - `turns`: a turn over a log, which two threads can share. `small_lake`: a turn over a small lake, the form to copy
//!   for a value under a turn; it is proved without its tests too, since its definitions cite its types.
//! - `objects`: a block store, and one that fails where it is told to.
#![tactic(auto)]

#[cfg(test)]
mod objects;
mod small_lake;
#[cfg(test)]
mod turns;
