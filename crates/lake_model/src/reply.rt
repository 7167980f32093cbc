//! What a step of the lake answers.

use lake_base::{RefName, RepoName, Sequence, Text};
use lake_values::{CommitId, Entry, Strategy};

/// What an expression leads to.
#[derive(Debug, Drop)]
pub struct Point {
    /// How many entries the history had.
    pub at: u64,
    pub commit: CommitId,
    /// Whether it is a branch, without `@` and without moves.
    pub plain_branch: bool,
    /// The commit's parents and message.
    pub parents: Sequence<CommitId>,
    pub message: Text,
}

/// What was found at a path.
#[derive(Debug, Drop)]
pub struct Seen {
    /// How many entries the history had.
    pub at: u64,
    /// The entry at the path, where there is one.
    pub found: Option<Entry>,
    /// Whether the object may have been removed for good.
    pub gone: bool,
}

/// The versions that a write is guarded by.
#[derive(Clone, Copy, Debug, PartialEq, Eq)]
pub struct Versions {
    /// How many entries the history had, or has after a seal.
    pub at: u64,
    /// The branch's version.
    pub version: u64,
    /// The version of the repository's settings.
    pub settings: u64,
}

/// What is told of a repository.
#[derive(Debug, Drop)]
pub struct RepoInfo {
    pub name: RepoName,
    pub default_branch: RefName,
    /// Seconds since 1970.
    pub created: u64,
}

/// What a branch is prepared for, beside a commit of its sealed changes.
#[derive(Clone, Copy, Debug, PartialEq, Eq)]
pub enum Sides {
    /// A merge of the commit.
    Merge { source: CommitId },
    /// What the commit has over the base is taken.
    Pick { base: CommitId, source: CommitId },
}

/// How a new head of a branch is made.
#[derive(Clone, Copy, Debug, PartialEq, Eq)]
pub enum SwapKind {
    /// By a commit of the sealed changes.
    Commit,
    /// By a merge of the commit.
    Merge {
        source: CommitId,
        strategy: Strategy,
    },
    /// By what the commit has over the base.
    Pick {
        base: CommitId,
        source: CommitId,
        strategy: Strategy,
    },
}
