//! What a new head of a branch is made from, handed out for work beside the lake.
ghost use Rattle.std.specs.Prelude.{◌≡◌, ◌<◌, ◌↔◌, IfOk, IfSome, IsTrue, option_copied};
ghost use Rattle.lake_format.specs.Cutting.{files};
ghost use Rattle.lake_model.specs.Preparing.{prepare_reply};
ghost use Rattle.lake_model.specs.Refusals.{Gives};
ghost use Rattle.core_readings.specs.Preparations.{HasCutSides, HasSides, prepared_answer};
ghost use Rattle.lake_core.specs.Lakes.{state, versions};

use crate::lake::Lake;
use core_readings::Prepared;
use core_standing::law_of_present;
use keeper::Keeper;
use lake_base::{RefName, RepoName};
use lake_model::{Sides, StepFault};

impl<K: Keeper> Lake<K> {
    /// What a commit, a merge or a pick on a branch is made from: the versions by which it is guarded, the head with
    /// its tree, the sealed changes, the hooks, for a merge or a pick its three trees, and the cut. Trees are shared.
    /// The base of a merge is the merge base of the head and the source. NoRepo; NoRef; Expired exactly where the
    /// source is expired. The sides are commits of the repository, as `are_commits` tells.
    pub fn prepare(
        &self,
        repo: &RepoName,
        branch: &RefName,
        sides: Option<&Sides>,
    ) -> Result<Prepared, StepFault>
        requires { IfSome (option_copied sides) (HasSides (state self.now) repo.now) }
        ensures reply { Gives (prepared_answer result)
            (prepare_reply (state self.now) (versions self.now) repo.now branch.now (option_copied sides.entry)) }

        // The head's tree is the destination of the three, and each is cut by the lake's cut, whose modulus is above 0.
        ensures dest { IfOk result (λ p. IfSome p.trio (λ trio. trio.dest ≡ p.tree.value)) }
        ensures tree { IfOk result (λ p. p.tree.value.files ≡ files p.cut p.tree.value.map) }
        ensures sides { IfOk result (λ p. IfSome p.trio (HasCutSides p.cut)) }
        ensures modulus { IfOk result (λ p. 0 < p.cut.modulus) }
    {
        law_of_present();
        core_readings::prepare(self.alloc, &self.present, repo, branch, sides)
    }

    /// Whether the commits of a merge or a pick are commits of a repository; they are of one that isn't there. It takes
    /// no memory.
    pub fn are_commits(&self, repo: &RepoName, sides: &Sides) -> bool
        ensures { IsTrue result ↔ HasSides (state self.now) repo.now sides.now }
    {
        core_readings::are_commits(&self.present, repo, sides)
    }
}
