//! A lake in memory is filled with what pairs spell.
//!
//! - `bases`: repositories, and numbers that are gone.
//! - `branches`: branches, and which of them names a token.
//! - `others`: tags, settings and changes under tokens; commits are gathered.
//! - `filling`: all of them, and the commits last.
//!
//! The promise to the layer above: the lake is a function of what the pairs spell, up to the order of its commits.
#![tactic(auto)]

mod bases;
mod branches;
mod filling;
mod others;

pub use filling::fill;
