//! Why a step of the lake was refused, and why a new head is.
ghost use Rattle.std.specs.Prelude.{◌≡◌};
ghost use Rattle.lake_model.specs.declared.fault.StepFault.TheVariants.{NoMemory as step_no_memory};

use lake_base::{Digest, NoMemory, Path, Sequence};
use lake_values::CommitId;
use std::alloc::{AllocError, AllocFailed};
use thiserror::Error;

/// Which of a call's references leads nowhere.
#[derive(Clone, Copy, Debug, PartialEq, Eq)]
pub enum Reference {
    /// The branch or the tag that the call names.
    Named,
    /// The name, or the commit id, that its expression begins with.
    Expression,
    /// The commit after which a log is to begin.
    After,
}

/// Why a step of the lake was refused. Where several causes stand together, the one that stands first here is answered;
/// NoMemory may come at any place before StoreFault.
#[derive(Debug, Drop)]
pub enum StepFault {
    /// The store failed before, and the lake takes no change.
    Stopped,
    /// The history has as many entries as it may have, and the step would add one.
    HistoryFull,
    /// There is no such repository.
    NoRepo,
    /// There is no such branch, tag or commit: the one that this tells.
    NoRef(Reference),
    /// The move of this number in the expression, counted from 0, finds no parent.
    NoParent(u32),
    /// The setting isn't set.
    NoNote,
    /// The name is taken.
    Exists,
    /// The branch is its repository's default branch.
    DefaultBranch,
    /// The pattern of this number, counted from 0, is the first that protects the branch.
    Protected(usize),
    /// What was read has changed since; these are the versions now of the branch and of the settings. Where a
    /// setting was to be set, `version` is 0; where commits were to expire, `version` is that of the references and
    /// `settings` is 0.
    Changed {
        version: u64,
        settings: u64,
    },
    /// Nothing stands at the path.
    NoPath,
    /// The commit is expired.
    Expired(CommitId),
    /// Two contents have one name: these bytes are kept, and the others are new.
    NameClash {
        name: Digest,
        kept: Sequence<u8>,
        new: Sequence<u8>,
    },
    /// The store failed in this step. The lake takes no change any more.
    StoreFault,
    /// No memory was left.
    NoMemory,
}

/// Why a new head of a branch that is there is refused at its reading. Where several causes stand together, the one
/// that stands first here is answered.
#[derive(Debug, Drop, Error)]
pub enum HeadRefusal {
    /// Of a merge or a pick: sealed changes aren't committed. The least path that they change.
    #[error("uncommitted changes at {}", .0.as_str())]
    Dirty(Path),
    /// The commit would change nothing: the sealed changes leave the head's map as it is, or the source's map is the
    /// base's. The branch's head.
    #[error("no changes")]
    NoChanges(CommitId),
    /// There is no strategy, and paths conflict: the least 100 of them, in ascending order, and how many there are.
    #[error("{total} paths conflict")]
    Conflicts { paths: Sequence<Path>, total: u64 },
    /// The hook of this number denies it, counted from 0.
    #[error("hook {0} denies it")]
    HookDenied(usize),
}

impl From<NoMemory> for StepFault {
    ghost from_gives = { λ _ e. e ≡ step_no_memory };

    fn from(_: NoMemory) -> Self {
        StepFault::NoMemory
    }
}

impl From<AllocError> for StepFault {
    ghost from_gives = { λ _ e. e ≡ step_no_memory };

    fn from(_: AllocError) -> Self {
        StepFault::NoMemory
    }
}

impl<T: Drop> From<AllocFailed<T>> for StepFault {
    ghost from_gives = { λ _ e. e ≡ step_no_memory };

    fn from(_: AllocFailed<T>) -> Self {
        StepFault::NoMemory
    }
}
