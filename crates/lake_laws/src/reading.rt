//! A seal and a commit leave what is read on branches as it is.
ghost use Rattle.std.specs.Prelude.{◌≡◌, List, ℕ};
ghost use Rattle.lake_values.specs.Commit.{AboutValue};
ghost use Rattle.lake_model.specs.declared.history.By.{By};
ghost use Rattle.lake_model.specs.declared.history.EntryKind.TheVariants.{Accepted};
ghost use Rattle.lake_model.specs.declared.history.Operation.TheVariants.{Commit, Seal};
ghost use Rattle.lake_model.specs.declared.history.SealFor.{SealFor};
ghost use Rattle.lake_model.specs.State.{State};
ghost use Rattle.lake_model.specs.History.{Allows, after};
ghost use Rattle.lake_model.specs.Now.{now_of};
ghost use Rattle.lake_model.specs.Soundness.{IsSound};

/// After a Seal each branch reads as before, and after a legal Commit too.
pub fn law_of_reading()
    ensures seal { (state : State) (by : By) (repo branch : List ℕ) (why : SealFor) (r b : List ℕ)
        → now_of (after state (record { by = by; kind = Accepted (Seal repo branch why) })) r b ≡ now_of state r b }
    ensures commit { (state : State) (by : By) (repo branch : List ℕ) (about : AboutValue) (r b : List ℕ)
        → IsSound state → Allows state (record { by = by; kind = Accepted (Commit repo branch about) })
        → now_of (after state (record { by = by; kind = Accepted (Commit repo branch about) })) r b ≡ now_of state r b }
{}
