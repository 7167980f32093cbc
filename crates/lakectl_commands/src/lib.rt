//! What a command of `lakectl` sends, and what is shown of what comes back.
//!
//! - `sending`: its words, and the file that they name, become the bytes of a request.
//! - `replies`: the reply in the bytes that come back; `showing`: what is shown of it, and the file that is saved.
//! - `texts`: what is shown where nothing is sent. `files`: the trait of what reads and writes files.
//! - `source`: bytes as a source.
//!
//! The promise to the layer above: what is sent is a function of the words and the files, and what is shown is one of
//! the command and the bytes that come back.
#![tactic(auto)]

pub mod files;
pub mod replies;
pub mod sending;
pub mod showing;
pub mod source;
pub mod texts;

pub use files::Files;
pub use replies::reply_in;
pub use sending::{Sending, prepare};
pub use showing::show_reply;
pub use source::SliceSource;
pub use texts::{bad_line_shown, nothing_shown};
