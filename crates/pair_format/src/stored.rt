//! What stands in a pair.
ghost use Rattle.std.specs.Prelude.{◌≡◌, ◌↔◌, ◌<◌, ◌^◌, length, IsTrue};
ghost use Rattle.pair_format.specs.Keys.{key_value};
ghost use Rattle.pair_format.specs.PairSpelling.{key_of, IsStored};

use crate::key::StoredKey;
use lake_base::digest::Digest;
use lake_base::names::{Path, RefName, RepoName};
use lake_base::sequence::Sequence;
use lake_values::commit::{CommitId, CommitRecord};
use lake_values::entry::Change;
use lake_values::settings::NoteName;

/// What stands in a pair. The names of branches and tags aren't like an id, and a branch has fewer than 2^32 sealed
/// tokens: `is_spelled` tells.
#[derive(Debug, Drop)]
pub enum Stored {
    /// A repository: when it was created, in seconds since 1970, its default branch, and the version of its settings.
    Repository {
        repo: RepoName,
        created: u64,
        default_branch: RefName,
        settings: u64,
    },
    /// A branch: its version, its head, its staging token, and its sealed tokens, newest first.
    Branch {
        repo: RepoName,
        branch: RefName,
        version: u64,
        head: CommitId,
        staging: u64,
        sealed: Sequence<u64>,
    },
    /// A tag, and the commit that it names.
    Tag {
        repo: RepoName,
        tag: RefName,
        commit: CommitId,
    },
    /// A commit, and whether it is expired.
    Commit {
        repo: RepoName,
        id: CommitId,
        expired: bool,
        commit: CommitRecord,
    },
    /// A metarange file.
    MetaRange {
        name: Digest,
        bytes: Sequence<u8>,
    },
    /// A range file.
    Range {
        name: Digest,
        bytes: Sequence<u8>,
    },
    /// A change at a path under a staging token.
    Staged {
        token: u64,
        path: Path,
        change: Change,
    },
    /// The text of a setting.
    Note {
        repo: RepoName,
        name: NoteName,
        text: Sequence<u8>,
    },
    /// The number of an object that is gone.
    Gone {
        number: u64,
    },
    /// The next number of an object, the next version and the next token.
    Counts {
        number: u64,
        version: u64,
        token: u64,
    },
}

impl Stored {
    /// Whether it can be spelled: the names of its branch, its tag and its default branch aren't like an id, and its
    /// sealed tokens are fewer than 2^32. It takes no memory.
    pub fn is_spelled(&self) -> bool
        ensures { IsTrue result ↔ IsStored self.now }
    {
        match self {
            Stored::Repository { default_branch, .. } => !default_branch.like_id(),
            Stored::Branch { branch, sealed, .. } => !branch.like_id() && is_few(sealed.as_slice()),
            Stored::Tag { tag, .. } => !tag.like_id(),
            _ => true,
        }
    }

    /// What stands in its key. It takes no memory.
    pub fn key(&self) -> StoredKey<'_>
        ensures { key_value result ≡ key_of self.now }
    {
        match self {
            Stored::Repository { repo, .. } => StoredKey::Repository { repo },
            Stored::Branch { repo, branch, .. } => StoredKey::Branch { repo, branch },
            Stored::Tag { repo, tag, .. } => StoredKey::Tag { repo, tag },
            Stored::Commit { repo, id, .. } => StoredKey::Commit { repo, id: *id },
            Stored::MetaRange { name, .. } => StoredKey::MetaRange { name: *name },
            Stored::Range { name, .. } => StoredKey::Range { name: *name },
            Stored::Staged { token, path, .. } => StoredKey::Staged {
                token: *token,
                path,
            },
            Stored::Note { repo, name, .. } => StoredKey::Note { repo, name: *name },
            Stored::Gone { number } => StoredKey::Gone { number: *number },
            Stored::Counts { .. } => StoredKey::Counts,
        }
    }
}

// Whether the tokens are fewer than 2^32.
fn is_few(tokens: &[u64]) -> bool
    ensures { IsTrue result ↔ (length tokens.now < 2 ^ 32) }
{
    tokens.len() < 4294967296
}
