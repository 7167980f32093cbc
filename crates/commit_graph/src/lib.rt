//! Commits as bytes, and graphs of commits by their ids.
//!
//! - `encoding`: the spelling of a commit.
//! - `decoding`: the commit of a spelling, or the first fault from the left.
//! - `expression`: a name, and moves back from a commit.
//! - `graph`: commits by their ids, where moves lead, and the walk of first parents.
//! - `ancestors`: the ancestors of a commit, one after the other.
//! - `log`: the log of a commit, page by page, and the merge base of two.
//! - `fault`: why bytes aren't a commit, and why a commit can't join a graph.
//! - `threads`: graphs may go from thread to thread.
//!
//! The promise to the layer above: a commit has one spelling, which is read as the commit that it spells; and each
//! commit of a graph has its parents there, the generation that is due, and the SHA-256 of its spelling as its id.
#![tactic(auto)]

mod ancestors;
mod decoding;
mod encoding;
mod expression;
mod fault;
pub mod graph;
pub mod log;
pub mod threads;

pub use decoding::{commit_read, read_commit};
pub use encoding::{commit_bytes, laws_of_commits};
pub use expression::{ExprFault, Move, RefExpr};
pub use fault::{CommitFault, GraphFault};
pub use graph::Graph;
pub use lake_values::commit::{CommitId, CommitRecord};
pub use log::{LogPage, laws_of_logs};
