//! What it is that a call was served in a history that many seats make, and that the calls of a session are placed in
//! it.
//!
//! - `law`: what an instance implements, `Placing`: the rules of its calls.
//! - `laws`: what follows for every call that was served.
//! - `examples`: a toy lake, by whose rules the definitions are tried.
//! - `toy`: the same as an instance, of which a law is had by a call.
//!
//! The promise to the layer above: each law is the contract of a function that does nothing, and holds of any rules.
#![tactic(auto)]

pub mod examples;
pub mod law;
pub mod laws;
pub mod toy;
