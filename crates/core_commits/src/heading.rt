//! A commit that stands becomes the head of a branch.
ghost use Rattle.std.specs.Prelude.{◌≡◌};
ghost use Rattle.core_state.specs.Counts.{AreFew};
ghost use Rattle.core_state.specs.LakeStates.{LakeStateValue, lake_value};
ghost use Rattle.core_state.specs.NewCommits.{NewCommit, with_commit};
ghost use Rattle.meta_range.specs.Ranges.{TreeValue};
ghost use Rattle.core_changes.specs.NewPlaces.{AreNamedPlaces, HasNewPlaces};
ghost use Rattle.core_changes.specs.LakeChanges.{after_new_head, in_repository};
ghost use Rattle.core_commits.specs.CommitNames.{AreFilesOf, AreNames, HasNamesRoom};

use crate::naming::{NewNames, put_names};
use core_changes::lake::set_head;
use core_state::LakeState;
use lake_base::{RefName, RepoName};
use lake_values::CommitId;

/// A commit that stands in its repository becomes the head of a branch: the index is told of it and of the files of its
/// tree, and the branch has it as its head. It takes no memory.
#[tactic(auto, unfolding(core_state::specs::LakeStates::lake_value))]
pub fn make_head(
    lake: &mut LakeState,
    repo: &RepoName,
    branch: &RefName,
    id: &CommitId,
    names: NewNames,
)
    requires few { AreFew (lake_value lake.old) }
    requires room { HasNamesRoom id.now names.files.items lake.old.names }
    ensures made { (l : LakeStateValue) (new : NewCommit)
        → lake_value lake.old ≡ in_repository repo.now (with_commit new) l
        → new.id ≡ id.now → AreNames repo.now new.tree.files names
        → lake_value lake.new ≡ after_new_head repo.now branch.now new l }
    ensures places { (tree : TreeValue) → AreFilesOf tree names.files.items → AreNamedPlaces lake.old.names.files
        → HasNewPlaces lake.old.names.files lake.new.names.files tree }
{
    put_names(&mut lake.names, id, names);
    set_head(lake, repo, branch, *id);
}
