//! A lake in memory.
ghost use Rattle.std.specs.Prelude.{◌≡◌, option_copied, option_map};
ghost use Rattle.std.specs.FinMap.{get};
ghost use Rattle.core_state.specs.Index.{indexed_commit};
ghost use Rattle.core_state.specs.LakeStates.{lake_value};
ghost use Rattle.core_state.specs.RepositoryStates.{repository_value};

use crate::file_place::FilePlace;
use crate::names::NameIndex;
use crate::repository::RepositoryState;
use byte_map::ByteMap;
use lake_base::{Digest, RepoName};
use lake_format::Cut;
use lake_values::{CommitId, CommitRecord};
use std::collections::BTreeMap;

/// A lake: its repositories, what was given out, and how much happened.
///
/// A name under which nothing stands is room for a repository that is about to be made, and a number without a seat is
/// room for its ticket.
#[derive(Drop)]
pub struct LakeState {
    /// By which maps are cut into ranges.
    pub cut: Cut,
    pub repositories: ByteMap<RepoName, Option<RepositoryState>>,
    /// Where its commits and files are kept, by their names.
    pub names: NameIndex,
    /// The seat of each upload that isn't finished.
    pub tickets: BTreeMap<u64, Option<u32>>,
    /// The numbers of objects that may be removed for good.
    pub gone: BTreeMap<u64, ()>,
    /// Whether the store has failed.
    pub stopped: bool,
    /// How many entries the history has.
    pub entries: u64,
    /// How many of them changed what references lead to, a setting, or what is expired.
    pub references: u64,
    /// What is given out next: the number of an object, a version, a token.
    pub next_number: u64,
    pub next_version: u64,
    pub next_token: u64,
}

impl LakeState {
    /// The repository of a name. It takes no memory.
    pub fn repository(&self, repo: &RepoName) -> Option<&RepositoryState>
        ensures { option_map repository_value (option_copied result)
            ≡ get (lake_value self.now).repositories repo.now }
    {
        match self.repositories.get(repo) {
            Some(place) => place.as_ref(),
            None => None,
        }
    }

    /// The repository that the index tells for an id, by a search: of a commit that is kept, one in which it stands. It
    /// takes no memory.
    pub fn home(&self, id: &CommitId) -> Option<&RepoName>
        ensures { option_copied result ≡ get (lake_value self.now).names.homes id.now.0 }
    {
        match self.names.homes.get(id) {
            Some(place) => place.as_ref(),
            None => None,
        }
    }

    /// The commit of an id, in the repository in which it stands, by three searches. It takes no memory.
    pub fn commit(&self, id: &CommitId) -> Option<&CommitRecord>
        ensures { option_copied result ≡ indexed_commit (lake_value self.now) id.now }
    {
        let repo = self.home(id)?;
        let repository = self.repository(repo)?;
        repository.graph.get(id)
    }

    /// Where the file of a name is kept, by a search. It takes no memory.
    pub fn file(&self, name: &Digest) -> Option<&FilePlace>
        ensures { option_map (λ place. place.bytes) (option_copied result)
            ≡ get (lake_value self.now).names.files name.now.0 }
    {
        match self.names.files.get(name) {
            Some(place) => place.as_ref(),
            None => None,
        }
    }
}
