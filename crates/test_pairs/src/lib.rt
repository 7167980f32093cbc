//! Tests of pairs that are those of a lake, or of none: what no clause says.
//!
//! - `rows`, `other_rows`: the pairs of a small lake, and lakes that are broken in one place, each tie once.
//! - `lakes`: what opening them comes to.
#![tactic(auto)]

#[cfg(test)]
mod lakes;
#[cfg(test)]
mod other_rows;
#[cfg(test)]
mod rows;
