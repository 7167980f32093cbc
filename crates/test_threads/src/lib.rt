//! Tests of a server whose workers put objects and make commits on one branch, a thread each: what no clause says.
//!
//! - `threads`: what each worker is asked, and what the lake has behind all of them.
#![tactic(auto)]

#[cfg(test)]
mod threads;
