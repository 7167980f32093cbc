//! What is done to a branch that stays, and the room that is made for it.
ghost use Rattle.std.specs.Prelude.{◌≡◌, OnOk};
ghost use Rattle.core_state.specs.BranchStates.{branch_value, new_branch};
ghost use Rattle.core_changes.specs.BranchChanges.{HasRoom, HasRoomTo, FitsBranch, branch_after};

use branch_record::{BranchRecord, Tokens};
use core_state::BranchState;
use lake_base::{NoMemory, Path};
use lake_values::{Change, CommitId, ResetWhat};
use std::alloc::Global;

/// What is done to a branch that stays.
#[derive(Debug, Drop)]
pub enum BranchChange {
    /// The change joins the staged ones.
    Stage { path: Path, change: Change },
    /// Changes are dropped, and the branch has this version.
    Reset { what: ResetWhat, version: u64 },
    /// The staged changes are sealed, with this fresh token in their place, and the branch has this version.
    Seal { fresh: u64, version: u64 },
    /// The branch has a new head and this version: nothing is sealed, and the staged changes stay.
    Head { commit: CommitId, version: u64 },
}

/// A branch without changes. It takes no memory.
pub fn branch_at(alloc: Global, version: u64, head: CommitId, staging: u64) -> BranchState
    ensures { branch_value result ≡ new_branch version head staging }
{
    BranchState {
        record: BranchRecord::fresh(alloc, version, head, staging),
        tokens: Tokens::new(alloc),
    }
}

/// Makes room for one change of a branch. It changes nothing else.
pub fn make_room(branch: &mut BranchState) -> Result<(), NoMemory>
    ensures same { branch_value branch.new ≡ branch_value branch.old }
    ensures room { OnOk result (HasRoom branch.new) }
{
    branch.record.ready(&mut branch.tokens)
}

/// Makes a change of a branch, for which there is room; a new head needs none. It needs no memory, and can't be
/// refused.
pub fn change_branch(branch: &mut BranchState, change: BranchChange)
    requires room { HasRoomTo change branch.old }
    requires possible { FitsBranch change (branch_value branch.old) }
    ensures { branch_value branch.new ≡ branch_after change (branch_value branch.old) }
{
    match change {
        BranchChange::Stage { path, change } => {
            let _ = branch.record.stage(&mut branch.tokens, path, change);
        }
        BranchChange::Reset { what, version } => {
            branch.record.reset(&mut branch.tokens, &what);
            branch.record.set_version(version);
        }
        BranchChange::Seal { fresh, version } => {
            let _ = branch.record.seal(&branch.tokens, fresh);
            branch.record.set_version(version);
        }
        BranchChange::Head { commit, version } => {
            branch.record.drop_sealed(&mut branch.tokens);
            branch.record.set_head(commit);
            branch.record.set_version(version);
        }
    }
}
