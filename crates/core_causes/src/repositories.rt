//! What asks a repository that is to be made.
ghost use Rattle.std.specs.Prelude.{◌≡◌, ◌∷◌, [], ℕ, List, map};
ghost use Rattle.std.specs.FinMap.{empty};
ghost use Rattle.meta_range.specs.Files.{file_of};
ghost use Rattle.lake_model.specs.Commits.{bytes_of, first_draft};
ghost use Rattle.lake_model.specs.Soundness.{IsSound};
ghost use Rattle.core_state.specs.Index.{HasIndex};
ghost use Rattle.core_state.specs.LakeStates.{lake_value, state_of};
ghost use Rattle.core_causes.specs.Clashing.{AsksToCreate};

use crate::clashes::test_clash;
use crate::common::test_change;
use core_state::LakeState;
use lake_base::RepoName;
use lake_model::StepFault;
use meta_range::File;
use std::alloc::Global;

/// What a new repository asks, of which the bytes of the first commit and the one file of its map are given, under
/// their names: no repository has the name, and neither file shares its name with other bytes that are kept. Stopped,
/// HistoryFull, Exists, NameClash, NoMemory.
///
/// Kept bytes are made only where a name is found.
pub fn test_create_repository(
    alloc: Global,
    lake: &LakeState,
    repo: &RepoName,
    commit: &File,
    file: &File,
) -> Result<(), StepFault>
    requires sound { IsSound (state_of (lake_value lake.now)) }
    requires index { HasIndex (lake_value lake.now) }
    ensures { (branch : List ℕ) (date : ℕ)
        → map file_of (bytes_of (lake_value lake.now).cut empty (first_draft date)) ≡ commit.now ∷ file.now ∷ []
        → AsksToCreate (state_of (lake_value lake.now)) repo.now branch date result }
{
    test_change(lake)?;
    let other = lake.repository(repo);
    if other.is_some() {
        return Err(StepFault::Exists);
    }
    test_clash(alloc, lake, commit)?;
    test_clash(alloc, lake, file)
}
