//! The entries of a history: each accepted change of the lake, as it was made, and the fault of the store that ended
//! it.

use lake_base::{Path, RefName, RepoName, Sequence};
use lake_values::{About, Change, CommitId, Entry, Note, NoteName, ResetWhat, Strategy};

/// The most entries of one history. A change that finds so many is refused as HistoryFull.
pub const HISTORY_LIMIT: u64 = 4_194_304;

/// Who made an entry: a seat, in the call of this number.
#[derive(Clone, Copy, Debug, PartialEq, Eq)]
pub struct By {
    pub seat: u32,
    pub call: u64,
}

/// What an entry is copied from.
#[derive(Debug, Drop)]
pub enum CopySource {
    /// What is read on the branch by its plain name.
    Branch(RefName),
    /// The map of the commit.
    Commit(CommitId),
}

/// What a seal is for.
#[derive(Clone, Copy, Debug, PartialEq, Eq)]
pub enum SealFor {
    /// A commit of the sealed changes, which a protected branch refuses.
    Commit,
    /// A merge, a revert or a cherry-pick.
    Other,
}

/// A commit of a repository.
#[derive(Debug, Drop)]
pub struct RepositoryCommit {
    pub repo: RepoName,
    pub commit: CommitId,
}

/// What is done to the lake, with every expression resolved. A revert is a Pick.
#[derive(Debug)]
pub enum Operation {
    /// A repository is made, with its default branch at a first commit of this date.
    RepoCreate {
        repo: RepoName,
        branch: RefName,
        date: u64,
    },
    /// A branch is made at a commit.
    BranchCreate {
        repo: RepoName,
        branch: RefName,
        commit: CommitId,
    },
    /// A branch goes, with its changes.
    BranchDelete {
        repo: RepoName,
        branch: RefName,
    },
    /// A tag names a commit.
    TagCreate {
        repo: RepoName,
        tag: RefName,
        commit: CommitId,
    },
    /// A tag goes.
    TagDelete {
        repo: RepoName,
        tag: RefName,
    },
    /// An object's number is given out for an upload to a branch. It is on a ticket of the seat from then on.
    TicketTake {
        repo: RepoName,
        branch: RefName,
        number: u64,
    },
    /// The ticket of the number goes: the upload was given up.
    TicketDrop {
        number: u64,
    },
    /// The change joins the staged changes of the branch. Where it puts an object of the lake's own, the ticket of its
    /// number goes.
    Stage {
        repo: RepoName,
        branch: RefName,
        path: Path,
        change: Change,
    },
    /// The entry that the source has at its path is staged at another.
    Copy {
        repo: RepoName,
        branch: RefName,
        path: Path,
        from: CopySource,
        from_path: Path,
        entry: Entry,
    },
    /// Changes of the branch are dropped, sealed and staged.
    Reset {
        repo: RepoName,
        branch: RefName,
        what: ResetWhat,
    },
    /// The staged changes of the branch join the sealed ones, over these.
    Seal {
        repo: RepoName,
        branch: RefName,
        why: SealFor,
    },
    /// The sealed changes of the branch are committed.
    Commit {
        repo: RepoName,
        branch: RefName,
        about: About,
    },
    /// A commit is merged into the branch.
    Merge {
        repo: RepoName,
        branch: RefName,
        source: CommitId,
        strategy: Strategy,
        about: About,
    },
    /// What a commit has over a base is taken into the branch.
    Pick {
        repo: RepoName,
        branch: RefName,
        base: CommitId,
        source: CommitId,
        strategy: Strategy,
        about: About,
    },
    /// A setting of the repository is set, or deleted where no new one is given.
    NoteSet {
        repo: RepoName,
        name: NoteName,
        note: Option<Note>,
    },
    /// The commits that the rules of retention don't keep at this moment expire for good.
    Expire {
        now: u64,
        commits: Sequence<RepositoryCommit>,
    },
    /// The numbers are gone for good: their objects may be removed.
    Condemn {
        numbers: Sequence<u64>,
    },
}

/// An operation is let go part by part, written out: what is above proves it once, and not anew for each variant.
impl Drop for Operation {
    fn drop(self) {
        match self {
            Operation::RepoCreate {
                repo: _,
                branch: _,
                date: _,
            } => {}
            Operation::BranchCreate {
                repo: _,
                branch: _,
                commit: _,
            } => {}
            Operation::BranchDelete { repo: _, branch: _ } => {}
            Operation::TagCreate {
                repo: _,
                tag: _,
                commit: _,
            } => {}
            Operation::TagDelete { repo: _, tag: _ } => {}
            Operation::TicketTake {
                repo: _,
                branch: _,
                number: _,
            } => {}
            Operation::TicketDrop { number: _ } => {}
            Operation::Stage {
                repo: _,
                branch: _,
                path: _,
                change: _,
            } => {}
            Operation::Copy {
                repo: _,
                branch: _,
                path: _,
                from: _,
                from_path: _,
                entry: _,
            } => {}
            Operation::Reset {
                repo: _,
                branch: _,
                what: _,
            } => {}
            Operation::Seal {
                repo: _,
                branch: _,
                why: _,
            } => {}
            Operation::Commit {
                repo: _,
                branch: _,
                about: _,
            } => {}
            Operation::Merge {
                repo: _,
                branch: _,
                source: _,
                strategy: _,
                about: _,
            } => {}
            Operation::Pick {
                repo: _,
                branch: _,
                base: _,
                source: _,
                strategy: _,
                about: _,
            } => {}
            Operation::NoteSet {
                repo: _,
                name: _,
                note: _,
            } => {}
            Operation::Expire { now: _, commits: _ } => {}
            Operation::Condemn { numbers: _ } => {}
        }
    }
}

/// What an entry says.
#[derive(Debug, Drop)]
pub enum EntryKind {
    /// The operation was accepted.
    Accepted(Operation),
    /// The store failed as the operation, which was possible, was to be kept. The lake is stopped from then on.
    Faulted(Operation),
}

/// One entry of a history.
#[derive(Debug, Drop)]
pub struct HistoryEntry {
    pub by: By,
    pub kind: EntryKind,
}
