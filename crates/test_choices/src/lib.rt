//! Tests of the choices: what no clause says of a branch's changes, merges, settings and hooks.
//!
//! - `records`: the changes of a branch under their tokens. `pages`: pages over them.
//! - `merges`: merges of three trees.
//! - `settings`, `hooks`: settings that are read from JSON, and patterns.
//!
//! Each call that takes memory is made once and gives its answer.
#![tactic(auto)]

#[cfg(test)]
mod hooks;
#[cfg(test)]
mod merges;
#[cfg(test)]
mod pages;
#[cfg(test)]
mod records;
#[cfg(test)]
mod settings;
