//! Tests of calls of several steps over a keeper that fails, and beside a seat that moves what they stand on: what no
//! clause says.
//!
//! - `names`: the names that the tests use.
//! - `hand`: a seat with what its calls need, and what it does at a pause; `asks`: what is asked of it.
//! - `lakes`: a lake over a keeper that fails at a chosen call, closed and opened again.
//! - `troubles`: a table of what fails and what is asked, with what is answered, what stands then, and what the lake
//!   answers that is opened again.
#![tactic(auto)]

#[cfg(test)]
mod asks;
#[cfg(test)]
mod hand;
#[cfg(test)]
mod lakes;
#[cfg(test)]
mod names;
#[cfg(test)]
mod troubles;
