//! What a new repository makes of a lake, and the room that is made for it.
ghost use Rattle.std.specs.Prelude.{◌≡◌, true, ℕ, List, OnOk};
ghost use Rattle.core_state.specs.Counts.{AreFew};
ghost use Rattle.core_state.specs.FirstStates.{first_tree};
ghost use Rattle.core_state.specs.LakeStates.{lake_value};
ghost use Rattle.core_changes.specs.LakeRoom.{HasRepositoryRoom};
ghost use Rattle.core_changes.specs.LakeChanges.{after_repository_create};
ghost use Rattle.core_changes.specs.NewPlaces.{AreNamedPlaces, HasNewPlaces, HaveSamePlaces};
ghost use Rattle.core_changes.specs.NewRepositories.{IsNew};

use crate::places::{make_place, put_in_place};
use core_state::{FilePlace, LakeState, RepositoryState};
use lake_base::{Digest, NoMemory, RepoName};
use lake_values::CommitId;
use std::alloc::Global;

/// A new repository that isn't in a lake yet.
#[derive(Debug, Drop)]
pub struct NewRepository {
    pub repository: RepositoryState,
    /// The id of its first commit.
    pub commit: CommitId,
    /// Its name, as the index keeps it.
    pub home: RepoName,
    /// The name of the one file of its first commit's tree, and where that is kept.
    pub file: Digest,
    pub place: FilePlace,
}

/// Makes room for a new repository, for its first commit and for the file of its tree. It changes nothing else.
#[tactic(auto, unfolding(core_state::specs::LakeStates::lake_value))]
pub fn make_repository_room(
    alloc: Global,
    lake: &mut LakeState,
    repo: &RepoName,
    commit: &CommitId,
    file: &Digest,
) -> Result<(), NoMemory>
    ensures same { lake_value lake.new ≡ lake_value lake.old }
    ensures places { HaveSamePlaces lake.old.names.files lake.new.names.files }
    ensures room { OnOk result (HasRepositoryRoom repo.now commit.now file.now lake.new) }
{
    make_place(alloc, &mut lake.repositories, repo)?;
    make_place(alloc, &mut lake.names.homes, commit)?;
    make_place(alloc, &mut lake.names.files, file)
}

/// A new repository is put in a lake, in which there is room for it: it stands under its name, and the index tells of
/// its first commit and of the file of its tree. It takes no memory.
#[tactic(auto, unfolding(core_state::specs::LakeStates::lake_value))]
pub fn create_repository(lake: &mut LakeState, repo: &RepoName, new: NewRepository)
    requires room { HasRepositoryRoom repo.now new.commit new.file lake.old }
    requires few { AreFew (lake_value lake.old) }
    ensures made { (branch : List ℕ) (date : ℕ) → IsNew repo.now branch date (lake_value lake.old) new
        → lake_value lake.new ≡ after_repository_create repo.now branch date (lake_value lake.old) }
    ensures places { (branch : List ℕ) (date : ℕ) → IsNew repo.now branch date (lake_value lake.old) new
        → new.place.is_metarange ≡ true → AreNamedPlaces lake.old.names.files
        → HasNewPlaces lake.old.names.files lake.new.names.files (first_tree (lake_value lake.old).cut) }
{
    let NewRepository {
        repository,
        commit,
        home,
        file,
        place,
    } = new;
    put_in_place(&mut lake.repositories, repo, repository);
    put_in_place(&mut lake.names.homes, &commit, home);
    put_in_place(&mut lake.names.files, &file, place);
    lake.next_version += 1;
    lake.next_token += 1;
    lake.references += 1;
    lake.entries += 1;
}
