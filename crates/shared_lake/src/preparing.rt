//! What a new head of a branch is made from, handed out for work beside the lake.
ghost use Rattle.std.specs.Prelude.{◌≡◌, ◌<◌, IfOk, IfSome, option_copied, None, Some};
ghost use Rattle.core_readings.specs.Preparations.{HasCutSides, HasSides, prepared_answer};
ghost use Rattle.lake_core.specs.Lakes.{LakeValue, state, versions};
ghost use Rattle.lake_format.specs.Cutting.{files};
ghost use Rattle.lake_model.specs.Preparing.{prepare_reply};
ghost use Rattle.lake_model.specs.Refusals.{Gives};
ghost use Rattle.shared_lake.specs.SeatSteps.{Finds, IsRead};

use crate::shared::{LakeSeat, Shared};
use keeper::Keeper;
use lake_base::{RefName, RepoName};
use lake_core::Prepared;
use lake_model::{Sides, StepFault};
use std::sync::Wait;

impl<K: Keeper> Shared<K> {
    /// What a commit, a merge or a pick on a branch is made from. The sides are commits of the repository in each lake
    /// that the seat may find. NoRepo; NoRef; Expired exactly where the source is expired. It waits.
    pub fn prepare<W: Wait>(
        &self,
        rt: &W,
        seat: &mut LakeSeat,
        repo: &RepoName,
        branch: &RefName,
        sides: Option<&Sides>,
    ) -> Result<Prepared, StepFault>
        requires own { seat.old.turn ≡ self.now }
        requires sides { (found : LakeValue K)
            → Finds (record { kept = K.kept; faults = K.faults; calls = K.calls; successes = K.successes })
            seat.old found
            → IfSome (option_copied sides) (HasSides (state found) repo.now) }
        ensures step { IsRead (record { kept = K.kept; faults = K.faults; calls = K.calls; successes = K.successes })
            seat.old seat.new (λ l. Gives (prepared_answer result)
            (prepare_reply (state l) (versions l) repo.now branch.now (option_copied sides.entry))) }
        ensures dest { IfOk result (λ p. IfSome p.trio (λ trio. trio.dest ≡ p.tree.value)) }
        ensures tree { IfOk result (λ p. p.tree.value.files ≡ files p.cut p.tree.value.map) }
        ensures cut { IfOk result (λ p. IfSome p.trio (HasCutSides p.cut)) }
        ensures modulus { IfOk result (λ p. 0 < p.cut.modulus) }
    {
        match sides {
            Some(sides) => self.prepare_sides(rt, seat, repo, branch, sides),
            None => self.prepare_commit(rt, seat, repo, branch),
        }
    }

    // What a merge or a pick is made from.
    fn prepare_sides<W: Wait>(
        &self,
        rt: &W,
        seat: &mut LakeSeat,
        repo: &RepoName,
        branch: &RefName,
        sides: &Sides,
    ) -> Result<Prepared, StepFault>
        requires own { seat.old.turn ≡ self.now }
        requires sides { (found : LakeValue K)
            → Finds (record { kept = K.kept; faults = K.faults; calls = K.calls; successes = K.successes })
            seat.old found
            → HasSides (state found) repo.now sides.now }
        ensures step { IsRead (record { kept = K.kept; faults = K.faults; calls = K.calls; successes = K.successes })
            seat.old seat.new (λ l. Gives (prepared_answer result)
            (prepare_reply (state l) (versions l) repo.now branch.now (Some sides.now))) }
        ensures dest { IfOk result (λ p. IfSome p.trio (λ trio. trio.dest ≡ p.tree.value)) }
        ensures tree { IfOk result (λ p. p.tree.value.files ≡ files p.cut p.tree.value.map) }
        ensures cut { IfOk result (λ p. IfSome p.trio (HasCutSides p.cut)) }
        ensures modulus { IfOk result (λ p. 0 < p.cut.modulus) }
    {
        self.turn
            .with_read(rt, seat, |lake| lake.prepare(repo, branch, Some(sides)))
    }

    // What a commit is made from.
    fn prepare_commit<W: Wait>(
        &self,
        rt: &W,
        seat: &mut LakeSeat,
        repo: &RepoName,
        branch: &RefName,
    ) -> Result<Prepared, StepFault>
        requires own { seat.old.turn ≡ self.now }
        ensures step { IsRead (record { kept = K.kept; faults = K.faults; calls = K.calls; successes = K.successes })
            seat.old seat.new (λ l. Gives (prepared_answer result)
            (prepare_reply (state l) (versions l) repo.now branch.now None)) }
        ensures dest { IfOk result (λ p. IfSome p.trio (λ trio. trio.dest ≡ p.tree.value)) }
        ensures tree { IfOk result (λ p. p.tree.value.files ≡ files p.cut p.tree.value.map) }
        ensures cut { IfOk result (λ p. IfSome p.trio (HasCutSides p.cut)) }
        ensures modulus { IfOk result (λ p. 0 < p.cut.modulus) }
    {
        self.turn
            .with_read(rt, seat, |lake| lake.prepare(repo, branch, None))
    }
}
