//! A session: requests are read from a source, each is answered as a call of one seat, and its reply is written to a
//! sink.
//!
//! - `report`: what a session reports.
//! - `requests`: a request is answered; `replies`: a reply is sent; `faults`: a message that isn't read.
//! - `turns`: one request after another; `session`: all of them.
//!
//! The promise to the layer above: whatever other seats do, a session writes, request by request, the printed replies
//! of the one-thread lake at their points of one legal history.
#![tactic(auto)]

mod faults;
mod replies;
mod report;
mod requests;
mod session;
mod turns;

pub use report::{End, Placed, SessionReport};
pub use session::serve_session;
