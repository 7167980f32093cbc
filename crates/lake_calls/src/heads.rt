//! What clients ask of commits: new heads of a branch, logs, and single commits.

ghost use Rattle.std.specs.Prelude.{◌≡◌, ◌↔◌, ◌≤◌, [], IsTrue, Some, length};
ghost use Rattle.std.specs.Option.{unwrap_or};
ghost use Rattle.lake_values.specs.Commit.{IsRemark};
ghost use Rattle.lake_calls.specs.Calls.{merge_message};

use crate::expression::Expression;
use lake_base::{RefName, RepoName, Text};
use lake_values::{CommitId, Pairs, Strategy};
use std::marker::Model;

/// The sealed changes of a branch are to be committed. The committer has 1 to 128 bytes, the message at most 65,536.
#[derive(Debug, Drop)]
pub struct CommitCall {
    pub repo: RepoName,
    pub branch: RefName,
    pub committer: Text,
    pub message: Text,
    pub metadata: Pairs,
}

impl Model for CommitCall {
    ghost use Rattle.lake_values.specs.Commit.{IsRemark};
    ghost use Rattle.lake_calls.specs.Calls.{CommitCall as Commit};

    ghost Value = { Commit };

    ghost view = { λ c. record {
      repo = c.repo;
      branch = c.branch;
      committer = c.committer;
      message = c.message;
      metadata = c.metadata;
    } };

    ghost invariant = { λ c. IsRemark c.committer c.message };
}

/// Whether a committer has 1 to 128 bytes. It takes no memory.
fn is_committer(committer: &Text) -> bool
    ensures { IsTrue result ↔ IsRemark committer.now [] }
{
    let length = committer.as_slice().len();
    1 <= length && length <= 128
}

impl CommitCall {
    /// Whether a call may have this committer and this message. It takes no memory.
    pub fn fits(committer: &Text, message: &Text) -> bool
        ensures { IsTrue result ↔ IsRemark committer.now message.now }
    {
        is_committer(committer) && message.as_slice().len() <= 65_536
    }
}

/// The commit of an expression is to be merged into a branch. Without a message it has one of its own, which tells both
/// names. The committer has 1 to 128 bytes, the message that the entry gets at most 65,536.
#[derive(Debug, Drop)]
pub struct MergeCall {
    pub repo: RepoName,
    pub source: Expression,
    pub branch: RefName,
    pub committer: Text,
    pub message: Option<Text>,
    pub metadata: Pairs,
    pub strategy: Strategy,
}

impl Model for MergeCall {
    ghost use Rattle.lake_values.specs.Commit.{IsRemark};
    ghost use Rattle.std.specs.Option.{unwrap_or};
    ghost use Rattle.lake_calls.specs.Calls.{MergeCall as Merge, merge_message};

    ghost Value = { Merge };

    ghost view = { λ c. record {
      repo = c.repo;
      source = c.source;
      branch = c.branch;
      committer = c.committer;
      message = c.message;
      metadata = c.metadata;
      strategy = c.strategy;
    } };

    ghost invariant = { λ c. IsRemark c.committer (unwrap_or c.message (merge_message c.source.text c.branch)) };
}

/// Whether the message of a merge without one has at most 65,536 bytes. It takes no memory.
fn is_short_merge(source: &Expression, branch: &RefName) -> bool
    ensures { IsTrue result ↔ (length (merge_message source.now.text branch.now) ≤ 65536) }
{
    let source = source.text().as_slice().len();
    source <= 65_520 && branch.as_slice().len() <= 65_520 - source
}

impl MergeCall {
    /// Whether a call may have this committer and this message: without one the call's own has to be short enough,
    /// which tells the source and the branch. It takes no memory.
    pub fn fits(
        committer: &Text,
        message: &Option<Text>,
        source: &Expression,
        branch: &RefName,
    ) -> bool
        ensures { IsTrue result
            ↔ IsRemark committer.now (unwrap_or message.now (merge_message source.now.text branch.now)) }
    {
        let short = match message {
            Some(message) => message.as_slice().len() <= 65_536,
            None => is_short_merge(source, branch),
        };
        is_committer(committer) && short
    }
}

/// What the commit of an expression has over one of its parents is to be taken into a branch, or to be undone there.
/// The parent's number counts from 1, so it isn't 0; a commit of several parents needs one. The committer has 1 to 128
/// bytes.
#[derive(Debug, Drop)]
pub struct PickCall {
    pub repo: RepoName,
    pub branch: RefName,
    pub committer: Text,
    pub at: Expression,
    pub parent: Option<u32>,
}

impl Model for PickCall {
    ghost use Rattle.std.specs.Prelude.{◌≡◌, [], Some};
    ghost use Rattle.lake_values.specs.Commit.{IsRemark};
    ghost use Rattle.lake_calls.specs.Calls.{PickCall as Pick};

    ghost Value = { Pick };

    ghost view = { λ c. record {
      repo = c.repo;
      branch = c.branch;
      committer = c.committer;
      at = c.at;
      parent = c.parent;
    } };

    ghost invariant = { λ c. IsRemark c.committer [] × (c.parent ≡ Some 0 → ⊥) };
}

impl PickCall {
    /// Whether a call may have this committer and this number of a parent. It takes no memory.
    pub fn fits(committer: &Text, parent: Option<u32>) -> bool
        ensures { IsTrue result ↔ (IsRemark committer.now [] × (parent ≡ Some 0 → ⊥)) }
    {
        is_committer(committer) && parent != Some(0)
    }
}

/// The ancestors of the commit of an expression are asked for: at most so many, those dated at or after a moment, and
/// those that come after a commit.
#[derive(Debug, Drop)]
pub struct LogCall {
    pub repo: RepoName,
    pub at: Expression,
    pub after: Option<CommitId>,
    pub amount: usize,
    /// Seconds since 1970.
    pub since: Option<u64>,
}

/// A call of commits.
#[derive(Debug)]
pub enum HeadCall {
    Commit(CommitCall),
    Merge(MergeCall),
    Revert(PickCall),
    CherryPick(PickCall),
    Log(LogCall),
    GetCommit { repo: RepoName, id: CommitId },
}

/// A call is let go part by part, written out: what is above proves it once, and not anew for each variant.
impl Drop for HeadCall {
    fn drop(self) {
        match self {
            HeadCall::Commit(_) => {}
            HeadCall::Merge(_) => {}
            HeadCall::Revert(_) => {}
            HeadCall::CherryPick(_) => {}
            HeadCall::Log(_) => {}
            HeadCall::GetCommit { repo: _, id: _ } => {}
        }
    }
}
