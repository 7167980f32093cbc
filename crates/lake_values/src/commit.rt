//! Commits, what is said of one, and the plain choices of merges and resets.
ghost use Rattle.std.specs.Prelude.{◌≡◌};
ghost use Rattle.lake_values.specs.Reset.{drops_path};

use crate::pairs::Pairs;
use lake_base::copying::TryCopy;
use lake_base::digest::Digest;
use lake_base::names::Path;
use lake_base::outside::NoMemory;
use lake_base::sequence::Sequence;
use lake_base::text::Text;
use std::alloc::Global;
use std::marker::Model;

/// A commit is known by the SHA-256 of its bytes.
pub type CommitId = Digest;

/// A commit: of generation 1 and more, with at most two parents, a committer of 1 to 128 bytes and a message
/// of at most 65,536. Contracts see its fields.
#[derive(Debug, Drop)]
pub struct CommitRecord {
    /// The metarange of its map.
    pub meta_range: Digest,
    pub generation: u64,
    /// Seconds since 1970.
    pub date: u64,
    pub parents: Sequence<Digest>,
    pub committer: Text,
    pub message: Text,
    pub metadata: Pairs,
}

impl Model for CommitRecord {
    ghost use Rattle.lake_values.specs.Commit.{CommitRecordValue, IsCommit};

    ghost Value = { CommitRecordValue };

    ghost view = { λ c. record {
      meta_range = c.meta_range;
      generation = c.generation;
      date = c.date;
      parents = c.parents;
      committer = c.committer;
      message = c.message;
      metadata = c.metadata;
    } };

    ghost invariant = { λ c. IsCommit c.generation c.parents c.committer c.message };
}

/// What is said of a commit that is to be made, within the limits of one. Contracts see its fields.
#[derive(Debug, Drop)]
pub struct About {
    pub committer: Text,
    pub message: Text,
    pub metadata: Pairs,
    /// Seconds since 1970.
    pub date: u64,
}

impl Model for About {
    ghost use Rattle.lake_values.specs.Commit.{AboutValue, IsRemark};

    ghost Value = { AboutValue };

    ghost view = { λ about.
        record { committer = about.committer; message = about.message; metadata = about.metadata; date = about.date } };

    ghost invariant = { λ about. IsRemark about.committer about.message };
}

/// What a merge does at a path that conflicts.
#[derive(Clone, Copy, Debug, PartialEq, Eq)]
pub enum Strategy {
    /// The merge is refused.
    Refuse,
    /// The source's value is taken.
    SourceWins,
    /// The destination's value stays.
    DestWins,
}

/// Which changes of a branch a reset drops, staged and sealed. With the changes of `a`, `b/1` and `ab`, the path
/// `a` drops that of `a`, the prefix `a` those of `a` and `ab`, and the empty prefix all.
#[derive(Debug, Drop)]
pub enum ResetWhat {
    All,
    /// That of one path.
    Object(Path),
    /// Those of the paths that begin with this, which may be empty.
    Prefix(Text),
}

impl ResetWhat {
    /// Whether the reset drops the change of the path. It takes no memory.
    pub fn drops_path(&self, path: &Path) -> bool
        ensures { result ≡ drops_path self.now path.now }
    {
        match self {
            ResetWhat::All => true,
            ResetWhat::Object(one) => path == one,
            ResetWhat::Prefix(prefix) => path.as_slice().starts_with(prefix.as_slice()),
        }
    }
}

impl TryCopy for CommitRecord {
    fn copy(&self, alloc: Global) -> Result<CommitRecord, NoMemory> {
        Ok(CommitRecord {
            meta_range: self.meta_range,
            generation: self.generation,
            date: self.date,
            parents: self.parents.copy(alloc)?,
            committer: self.committer.copy(alloc)?,
            message: self.message.copy(alloc)?,
            metadata: self.metadata.copy(alloc)?,
        })
    }
}

impl TryCopy for About {
    fn copy(&self, alloc: Global) -> Result<About, NoMemory> {
        Ok(About {
            committer: self.committer.copy(alloc)?,
            message: self.message.copy(alloc)?,
            metadata: self.metadata.copy(alloc)?,
            date: self.date,
        })
    }
}

impl TryCopy for ResetWhat {
    fn copy(&self, alloc: Global) -> Result<ResetWhat, NoMemory> {
        match self {
            ResetWhat::All => Ok(ResetWhat::All),
            ResetWhat::Object(path) => Ok(ResetWhat::Object(path.copy(alloc)?)),
            ResetWhat::Prefix(prefix) => Ok(ResetWhat::Prefix(prefix.copy(alloc)?)),
        }
    }
}
