//! What clients are told.

use lake_base::{Path, RefName, RepoName, Sequence, Text};
use lake_model::RepoInfo;
use lake_pages::Page;
use lake_values::{CommitId, CommitRecord, Entry, HookRules, Protection};

/// A branch or a tag, and the commit that it leads to.
#[derive(Debug, Drop)]
pub struct NamedCommit {
    pub name: RefName,
    pub commit: CommitId,
}

/// A commit, and its id.
#[derive(Debug, Drop)]
pub struct KnownCommit {
    pub id: CommitId,
    pub record: CommitRecord,
}

/// What is known of the object at a path.
#[derive(Debug, Drop)]
pub struct ObjectStatistics {
    pub path: Path,
    pub entry: Entry,
}

/// A call was done: a variant for each that a client may make, with what it is told.
#[derive(Debug)]
pub enum Done {
    Repositories {
        repositories: Sequence<RepoInfo>,
        has_more: bool,
    },
    RepositoryCreated(RepoInfo),
    Branches {
        branches: Sequence<NamedCommit>,
        has_more: bool,
    },
    BranchCreated(CommitId),
    Branch(NamedCommit),
    BranchDeleted,
    BranchReset,
    Tags {
        tags: Sequence<NamedCommit>,
        has_more: bool,
    },
    TagCreated(NamedCommit),
    Tag(NamedCommit),
    TagDeleted,
    Uploaded(ObjectStatistics),
    Linked(ObjectStatistics),
    ObjectDeleted,
    Copied(ObjectStatistics),
    Object {
        content_type: Text,
        body: Sequence<u8>,
    },
    Statistics(ObjectStatistics),
    Listing(Page),
    Committed(KnownCommit),
    Merged(CommitId),
    Reverted(KnownCommit),
    CherryPicked(KnownCommit),
    Log {
        commits: Sequence<KnownCommit>,
        has_more: bool,
    },
    Commit(KnownCommit),
    Protection(Protection),
    ProtectionSet,
    Hooks(HookRules),
    HooksSet,
}

/// It is let go part by part, written out: what is above proves it once, and not anew for each variant.
impl Drop for Done {
    fn drop(self) {
        match self {
            Done::Repositories {
                repositories: _,
                has_more: _,
            } => {}
            Done::RepositoryCreated(_) => {}
            Done::Branches {
                branches: _,
                has_more: _,
            } => {}
            Done::BranchCreated(_) => {}
            Done::Branch(_) => {}
            Done::BranchDeleted => {}
            Done::BranchReset => {}
            Done::Tags {
                tags: _,
                has_more: _,
            } => {}
            Done::TagCreated(_) => {}
            Done::Tag(_) => {}
            Done::TagDeleted => {}
            Done::Uploaded(_) => {}
            Done::Linked(_) => {}
            Done::ObjectDeleted => {}
            Done::Copied(_) => {}
            Done::Object {
                content_type: _,
                body: _,
            } => {}
            Done::Statistics(_) => {}
            Done::Listing(_) => {}
            Done::Committed(_) => {}
            Done::Merged(_) => {}
            Done::Reverted(_) => {}
            Done::CherryPicked(_) => {}
            Done::Log {
                commits: _,
                has_more: _,
            } => {}
            Done::Commit(_) => {}
            Done::Protection(_) => {}
            Done::ProtectionSet => {}
            Done::Hooks(_) => {}
            Done::HooksSet => {}
        }
    }
}

/// The parent that isn't there.
#[derive(Debug, Drop)]
pub enum MissingParent {
    /// A move of this expression finds none.
    OfExpression(Text),
    /// The commit has none of this number.
    OfNumber(u32),
}

/// A call was refused, with what its text names: a variant a cause.
#[derive(Debug)]
pub enum Refusal {
    /// There is no such repository.
    NoRepo(RepoName),
    /// There is no such branch, tag or commit: the name, the expression or the commit id, as given.
    NoRef(Text),
    NoParent(MissingParent),
    /// Nothing stands at the path.
    NoPath(Path),
    /// The setting isn't set.
    NoNote,
    /// The name is taken.
    Exists(Text),
    /// The branch is its repository's default branch.
    DefaultBranch,
    /// The pattern of this number is the first that protects the branch.
    Protected(usize),
    /// The commit would change nothing.
    NoChanges,
    /// Changes aren't committed: the least path of theirs.
    Dirty(Path),
    /// So many paths conflict.
    Conflicts(u64),
    /// The hook of this number denies it.
    HookDenied(usize),
    /// The commit has several parents, and no number was given.
    NeedsParentNumber,
    Expired(CommitId),
    /// The object at the path is gone for good.
    Gone(Path),
    /// The object at the path stands outside.
    NotHeld(Path),
    TooManyTries,
    /// The bytes of the object at the path aren't held.
    Lost(Path),
    /// They are others than those that were put.
    Damaged(Path),
    /// Two contents have this name.
    NameClash(CommitId),
    /// The store of objects failed.
    BlockFault,
    /// The store of pairs failed in this call.
    StoreFault,
    /// It failed before.
    Stopped,
    /// The history has no room.
    HistoryFull,
}

/// It is let go part by part, written out: what is above proves it once, and not anew for each variant.
impl Drop for Refusal {
    fn drop(self) {
        match self {
            Refusal::NoRepo(_) => {}
            Refusal::NoRef(_) => {}
            Refusal::NoParent(_) => {}
            Refusal::NoPath(_) => {}
            Refusal::NoNote => {}
            Refusal::Exists(_) => {}
            Refusal::DefaultBranch => {}
            Refusal::Protected(_) => {}
            Refusal::NoChanges => {}
            Refusal::Dirty(_) => {}
            Refusal::Conflicts(_) => {}
            Refusal::HookDenied(_) => {}
            Refusal::NeedsParentNumber => {}
            Refusal::Expired(_) => {}
            Refusal::Gone(_) => {}
            Refusal::NotHeld(_) => {}
            Refusal::TooManyTries => {}
            Refusal::Lost(_) => {}
            Refusal::Damaged(_) => {}
            Refusal::NameClash(_) => {}
            Refusal::BlockFault => {}
            Refusal::StoreFault => {}
            Refusal::Stopped => {}
            Refusal::HistoryFull => {}
        }
    }
}

/// A request is of no form that is read: a variant a cause, with what its text names.
#[derive(Debug)]
pub enum FormRefusal {
    /// No path is like this.
    NoRoute,
    /// The path is there, and takes other methods.
    MethodNotAllowed,
    /// The query's key or the body's field of this name is missing.
    Missing(Text),
    /// The value of this name is bad.
    BadValue(Text),
    /// The body is of no form that is read.
    BadBody,
    /// The field of this name is bad in the rule of this number, counted from 0.
    BadRule { rule: usize, field: Text },
    /// The rules are no list, or too many, or one is no object.
    BadRules,
}

/// It is let go part by part, written out: what is above proves it once, and not anew for each variant.
impl Drop for FormRefusal {
    fn drop(self) {
        match self {
            FormRefusal::NoRoute => {}
            FormRefusal::MethodNotAllowed => {}
            FormRefusal::Missing(_) => {}
            FormRefusal::BadValue(_) => {}
            FormRefusal::BadBody => {}
            FormRefusal::BadRule { rule: _, field: _ } => {}
            FormRefusal::BadRules => {}
        }
    }
}

/// What a client is told.
#[derive(Debug, Drop)]
pub enum CallReply {
    Done(Done),
    Refused(Refusal),
    /// The request was of no form that is read.
    Malformed(FormRefusal),
    /// No memory was left.
    NoMemory,
}
