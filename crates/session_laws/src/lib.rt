//! Laws of sessions: what two sessions of the same requests have in common.
//!
//! - `cuts`: two sessions over the same bytes, in whatever pieces these come, write the same, where nothing failed.
//! - `bytes`: where the store holds all that it should, the bytes that are asked for are had.
//! - `known`: what is known of what a seat had seen is known behind a session.
//!
//! The promise to the layer above: what one seat's session writes is one function of its requests, the clock and the
//! lake. Each law is the contract of a function that does nothing, and is cited by its name.
#![tactic(auto)]

pub mod bytes;
pub mod cuts;
pub mod known;
