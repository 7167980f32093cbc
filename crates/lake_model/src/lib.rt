//! What the one-thread lake is: its state, its history, and what it replies.
//!
//! - `fault`, `reply`: what a step answers, and what refuses a new head.
//! - `history`: the entries of a history: each accepted change, and the fault of the store that ended it.
//! - `laws`: that the limit of a history is the number of the definitions. What holds of every state and every history
//!   stands in `lake_laws`.
#![tactic(auto)]

pub mod fault;
pub mod history;
pub mod laws;
pub mod reply;

pub use fault::{HeadRefusal, Reference, StepFault};
pub use history::{By, CopySource, EntryKind, HistoryEntry, Operation, RepositoryCommit, SealFor};
pub use reply::{Point, RepoInfo, Seen, Sides, SwapKind, Versions};
