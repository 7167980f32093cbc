//! A lake in memory that is filled with what was read.
//!
//! - `parts`: what joins a repository.
//! - `lakes`: a lake without anything in it, and repositories that join it.
//! - `branches`: branches that join it, and which branch names a token.
//! - `names`: the names of a commit and of the files of its tree.
//! - `commits`: commits that join it with their trees and their names, parents first.
//!
//! The promise to the layer above: each step is a function of what the lake says.
#![tactic(auto)]

pub mod branches;
pub mod commits;
pub mod lakes;
mod names;
pub mod parts;

pub use branches::{Holders, put_branch, put_holder};
pub use commits::{ReadCommit, put_commits};
pub use lakes::{bare_lake, put_repository};
pub use parts::{Part, put_part};
