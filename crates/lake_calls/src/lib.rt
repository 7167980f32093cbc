//! What clients ask of a lake, what they are told, and the rules by which their calls are placed in a history.
//!
//! - `call`, with `names`, `objects` and `heads`: a call as a client makes it; `expression`: an expression with its
//!   text. `reply`: what a client is told.
//! - `rules`: the lake's calls as an instance of the rules of placement; `laws`: what holds of them, and of what calls
//!   of one seat add. Each law is the contract of a function that does nothing.
//!
//! The promise to the layer above: a batch, a session and a flow cite the same calls, courses, causes and replies. They
//! know of no version and of no step that is tried again.
#![tactic(auto)]

pub mod call;
pub mod expression;
pub mod heads;
pub mod laws;
pub mod names;
pub mod objects;
pub mod reply;
pub mod rules;

pub use call::{Call, SettingCall};
pub use expression::{EXPRESSION_LIMIT, Expression};
pub use heads::{CommitCall, HeadCall, LogCall, MergeCall, PickCall};
pub use names::{NameCall, NamesCall, NamingCall, NewNameCall, NewRepositoryCall, ResetCall};
pub use objects::{CopyCall, DeleteCall, LinkCall, ListCall, ObjectCall, ReadCall, UploadCall};
pub use reply::{
    CallReply, Done, FormRefusal, KnownCommit, MissingParent, NamedCommit, ObjectStatistics,
    Refusal,
};
