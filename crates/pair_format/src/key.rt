//! What stands in the key of a pair.
use lake_base::digest::Digest;
use lake_base::names::{Path, RefName, RepoName};
use lake_values::commit::CommitId;
use lake_values::settings::NoteName;

/// What stands in the key of a pair, which names the thing that is stored. Its names are borrowed.
#[derive(Clone, Copy)]
pub enum StoredKey<'a> {
    /// A repository.
    Repository {
        repo: &'a RepoName,
    },
    /// A branch of a repository.
    Branch {
        repo: &'a RepoName,
        branch: &'a RefName,
    },
    /// A tag of a repository.
    Tag {
        repo: &'a RepoName,
        tag: &'a RefName,
    },
    /// A commit of a repository.
    Commit {
        repo: &'a RepoName,
        id: CommitId,
    },
    /// A metarange.
    MetaRange {
        name: Digest,
    },
    /// A range.
    Range {
        name: Digest,
    },
    /// A change at a path under a staging token.
    Staged {
        token: u64,
        path: &'a Path,
    },
    /// A setting of a repository.
    Note {
        repo: &'a RepoName,
        name: NoteName,
    },
    /// The number of an object that is gone.
    Gone {
        number: u64,
    },
    /// The counts of numbers, versions and tokens.
    Counts,
}

/// A key with names of its own. Contracts see a `StoredKey` as this.
#[derive(Debug, Drop)]
pub enum OwnedKey {
    /// A repository.
    Repository { repo: RepoName },
    /// A branch of a repository.
    Branch { repo: RepoName, branch: RefName },
    /// A tag of a repository.
    Tag { repo: RepoName, tag: RefName },
    /// A commit of a repository.
    Commit { repo: RepoName, id: CommitId },
    /// A metarange.
    MetaRange { name: Digest },
    /// A range.
    Range { name: Digest },
    /// A change at a path under a staging token.
    Staged { token: u64, path: Path },
    /// A setting of a repository.
    Note { repo: RepoName, name: NoteName },
    /// The number of an object that is gone.
    Gone { number: u64 },
    /// The counts of numbers, versions and tokens.
    Counts,
}
