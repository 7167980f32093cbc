//! `lakectl`: a line of words becomes a request, and a reply becomes what is shown.
//!
//! - `call`: the request of a line of words, with what the program needs to serve it. `fields`: the fields of its head.
//! - `filled`: the host and a file's bytes are put in. `text`: the bytes that are sent.
//! - `line_words` and `UsageFault` of `lakectl_verbs`, `Layout` and `Shown` of `lakectl_shown` are named again here.
//!
//! The promise to the layer above: the request is a function of the words, or the first fault of the words is told; its
//! bytes read back as the request; and what is shown is a function of the command, the status and the body.
#![tactic(auto)]

pub mod call;
mod fields;
pub mod filled;
pub mod text;

pub use call::{WireCall, request_of, shown};
pub use filled::{with_body, with_host};
pub use lakectl_shown::{Layout, Shown};
pub use lakectl_verbs::{LineWords, UsageFault, line_words};
pub use text::request_text;
