//! Tests of the wire: what no clause says of messages, and of the forms of calls and replies.
//!
//! - `messages`: requests and their refusals, from bytes, however they are cut; `read_back`: replies too, and those
//!   that were written.
//! - `replies`: each refusal as it is sent; `forms`: what was done, each form once.
#![tactic(auto)]

#[cfg(test)]
mod forms;
#[cfg(test)]
mod messages;
#[cfg(test)]
mod read_back;
#[cfg(test)]
mod replies;
