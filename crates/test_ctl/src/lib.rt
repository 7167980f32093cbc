//! Tests of lakectl's words: what no clause says. Each is a table.
//!
//! - `told`: a line as the request that it sends, or its fault, on one line.
//! - `requests`: each verb once, to the byte, and its words in other orders. `refusals`: each fault once, and which of
//!   two comes first. `replies`: what is shown of the bytes of each command's reply, and of what is no reply to it.
#![tactic(auto)]

#[cfg(test)]
mod refusals;
#[cfg(test)]
mod replies;
#[cfg(test)]
mod requests;
#[cfg(test)]
mod told;
