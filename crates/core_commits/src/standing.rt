//! A new commit whose id is that of one that stands.
ghost use Rattle.std.specs.Prelude.{◌≡◌, List, ℕ, Some, None};
ghost use Rattle.std.specs.FinMap.{get};
ghost use Rattle.lake_format.specs.Spelling.{IsSpelledCommit};
ghost use Rattle.lake_model.specs.Commits.{Draft};
ghost use Rattle.lake_model.specs.Refusals.{IsClashOrNone};
ghost use Rattle.lake_model.specs.Soundness.{IsSound};
ghost use Rattle.core_state.specs.Index.{HasIndex};
ghost use Rattle.core_state.specs.LakeStates.{LakeStateValue, state_of};
ghost use Rattle.core_state.specs.NewCommits.{commit_of_draft};
ghost use Rattle.core_state.specs.RepositoryStates.{repository_of, repository_value};
ghost use Rattle.core_commits.specs.KeptHeads.{MayHave};
ghost use Rattle.core_commits.specs.HeadOperations.{new_commit};

use crate::commits::NewHead;
use commit_graph::laws_of_commits;
use core_state::RepositoryState;
use meta_range::{law_of_files, law_of_limits, law_of_names};

/// A repository has no commit of a new one's id, or it has this one with this tree: where nothing clashes with the new
/// one. (A law: it changes nothing.)
pub fn law_of_standing(repository: &RepositoryState, new: &NewHead)
    requires { IsSpelledCommit new.now.commit }
    ensures { (l : LakeStateValue) (repo : List ℕ) (draft : Draft) → IsSound (state_of l) → HasIndex l
        → get l.repositories repo ≡ Some (repository_value repository.now)
        → new_commit new.now ≡ commit_of_draft l.cut (repository_value repository.now).commits draft
        → IsClashOrNone (state_of l) (repository_of (repository_value repository.now)) draft None
        → MayHave (new_commit new.now) (repository_value repository.now) }
{
    laws_of_commits();
    law_of_names();
    law_of_limits(&new.tree);
    let Some(_kept) = repository.graph.get(&new.content.name) else {
        return;
    };
    let Some(tree) = repository.trees.get(&new.content.name) else {
        return;
    };
    law_of_limits(tree);
    law_of_files(tree, &new.tree);
}
