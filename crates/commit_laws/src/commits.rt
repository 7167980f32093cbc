//! Commits that were served, and what their own seal seals and what goes into them.
ghost use Rattle.std.specs.Prelude.{◌≡◌, ◌⊎◌, ◌++◌, List, [], ◌∷◌, ℕ, Some, true};
ghost use Rattle.std.specs.FinMap.{get};
ghost use Rattle.lake_values.specs.declared.entry.Change.{Change};
ghost use Rattle.lake_model.specs.declared.history.HistoryEntry.{HistoryEntry};
ghost use Rattle.lake_model.specs.State.{State, HasBranch};
ghost use Rattle.lake_model.specs.History.{IsLegal, replay};
ghost use Rattle.lake_laws.specs.SealedPaths.{IsTakenOrDropped, NoneIsAccepted, SealsBranch};
ghost use Rattle.lake_laws.specs.SealedPaths.{TakesChange, WritesPath, uncommitted_change};
ghost use Rattle.call_placement.specs.Rules.{Caller};
ghost use Rattle.call_placement.specs.Served.{IsServed};
ghost use Rattle.call_placement.specs.Placed.{own_entries};
ghost use Rattle.lake_calls.specs.CallExceptions.{CallMet};
ghost use Rattle.lake_calls.specs.Calls.{CommitCall};
ghost use Rattle.lake_calls.specs.DoneReplies.{is_reply_done};
ghost use Rattle.lake_calls.specs.LakeRules.{lake_rules};
ghost use Rattle.lake_calls.specs.declared.heads.HeadCall.TheVariants as head;
ghost use Rattle.lake_calls.specs.declared.reply.CallReply.{CallReply};
ghost use Rattle.commit_laws.specs.NewestChanges.{IsNewest, IsNewestTakenOrDropped};
ghost use Rattle.commit_laws.specs.OwnSeals.{HasOwnSeal, HasTwoPoints, AskedHead, commit_head};
ghost use Rattle.commit_laws.specs.OwnSeals.{head_entry, head_request, seal_entry, up_to_last, up_to_seal};

/// A commit that is done has two points, its Seal and its Commit (`points`), and no other entry (`own`). Each change
/// that wasn't committed in what its caller had seen is sealed by its own Seal, unless a new head of another took it
/// in between, or an entry dropped it (`sealed`, where nothing is written at the path in between; else the change
/// that was staged there at last: `sealed_written`). And it goes into its Commit, or into a new head that another
/// made in between, unless an entry dropped it: where nothing is written at the path up to its Commit (`goes_in`);
/// where nothing is before its own Seal, and no other seal comes behind that (`goes_in_sealed`); and else the change
/// of the path that was the newest at the last seal before that head (`goes_in_written`). All this holds of any new
/// head that has two points, in a legal history.
pub fn law_of_served_commits()
    ensures points { (opened : State) (by : Caller) (before after : List HistoryEntry) (c : CommitCall) (moment : ℕ)
        (met : CallMet) (told : CallReply) (position next_edge : ℕ)
        → IsServed lake_rules opened by before after (head_request (head.Commit c) moment) met told position next_edge
        → is_reply_done told ≡ true
        → HasTwoPoints by before after (commit_head c moment) position next_edge }
    ensures own { (by : Caller) (before after : List HistoryEntry) (made : AskedHead) (position next_edge : ℕ)
        → HasTwoPoints by before after made position next_edge
        → own_entries lake_rules by before after ≡ seal_entry by made ∷ head_entry by made ∷ [] }
    ensures sealed { (opened : State) (by : Caller) (before after last : List HistoryEntry) (made : AskedHead)
        (position next_edge : ℕ) (path : List ℕ) (change : Change)
        (points : HasOwnSeal by before after made last position next_edge)
        → IsLegal opened after
        → HasBranch (replay opened before) made.repo made.branch (λ r b. uncommitted_change b path ≡ Some change)
        → NoneIsAccepted (WritesPath made.repo made.branch path) points.between
        → HasBranch (replay opened (before ++ up_to_seal by made points.between)) made.repo made.branch
        (λ r b. get b.sealed path ≡ Some change)
        ⊎ IsTakenOrDropped made.repo made.branch path (TakesChange made.repo made.branch path change)
        (replay opened before) points.between }
    ensures sealed_written { (opened : State) (by : Caller) (before after last : List HistoryEntry) (made : AskedHead)
        (position next_edge : ℕ) (path : List ℕ) (change : Change)
        (points : HasOwnSeal by before after made last position next_edge)
        → IsLegal opened after
        → HasBranch (replay opened before) made.repo made.branch (λ r b. uncommitted_change b path ≡ Some change)
        → ((newest : Change) × IsNewest made.repo made.branch path change points.between newest
        × HasBranch (replay opened (before ++ up_to_seal by made points.between)) made.repo made.branch
        (λ r b. get b.sealed path ≡ Some newest))
        ⊎ IsNewestTakenOrDropped made.repo made.branch path change (replay opened before) points.between }
    ensures goes_in { (opened : State) (by : Caller) (before after : List HistoryEntry) (made : AskedHead)
        (position next_edge : ℕ) (path : List ℕ) (change : Change)
        (points : HasTwoPoints by before after made position next_edge)
        → IsLegal opened after
        → HasBranch (replay opened before) made.repo made.branch (λ r b. uncommitted_change b path ≡ Some change)
        → NoneIsAccepted (WritesPath made.repo made.branch path) points.between
        → NoneIsAccepted (WritesPath made.repo made.branch path) points.meanwhile
        → IsTakenOrDropped made.repo made.branch path (TakesChange made.repo made.branch path change)
        (replay opened before) (up_to_last by made points.between points.meanwhile (head_entry by made ∷ [])) }
    ensures goes_in_sealed { (opened : State) (by : Caller) (before after : List HistoryEntry) (made : AskedHead)
        (position next_edge : ℕ) (path : List ℕ) (change : Change)
        (points : HasTwoPoints by before after made position next_edge)
        → IsLegal opened after
        → HasBranch (replay opened before) made.repo made.branch (λ r b. uncommitted_change b path ≡ Some change)
        → NoneIsAccepted (WritesPath made.repo made.branch path) points.between
        → NoneIsAccepted (SealsBranch made.repo made.branch) points.meanwhile
        → IsTakenOrDropped made.repo made.branch path (TakesChange made.repo made.branch path change)
        (replay opened before) (up_to_last by made points.between points.meanwhile (head_entry by made ∷ [])) }
    ensures goes_in_written { (opened : State) (by : Caller) (before after : List HistoryEntry) (made : AskedHead)
        (position next_edge : ℕ) (path : List ℕ) (change : Change)
        (points : HasTwoPoints by before after made position next_edge)
        → IsLegal opened after
        → HasBranch (replay opened before) made.repo made.branch (λ r b. uncommitted_change b path ≡ Some change)
        → IsNewestTakenOrDropped made.repo made.branch path change (replay opened before)
        (up_to_last by made points.between points.meanwhile (head_entry by made ∷ [])) }
{}
