//! Tests of the files: what no clause says of ranges, trees, commits, pairs and keepers.
//!
//! - `ranges`, `trees`, `provenance`: the rows of a range, the files of a tree, and ranges that are known to be old.
//! - `commits`, `graphs`: commits and expressions, and commits that join a graph.
//! - `pairs`, `keepers`: what stands in a pair, and what keeps pairs.
//! - `texts`: what a want of memory and a clash of names are told as.
//!
//! Each call that takes memory is made once and gives its answer; ids, names and spellings are those of another
//! program.
#![tactic(auto)]

#[cfg(test)]
mod commits;
#[cfg(test)]
mod graphs;
#[cfg(test)]
mod keepers;
#[cfg(test)]
mod pairs;
#[cfg(test)]
mod provenance;
#[cfg(test)]
mod ranges;
#[cfg(test)]
mod texts;
#[cfg(test)]
mod trees;
