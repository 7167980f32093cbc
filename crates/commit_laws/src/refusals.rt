//! Commits, merges, reverts and cherry-picks that were refused.
ghost use Rattle.std.specs.Prelude.{◌≡◌, ◌≢◌, ◌⊎◌, ◌++◌, List, [], ◌∷◌, ℕ, Some};
ghost use Rattle.lake_values.specs.declared.entry.Change.{Change};
ghost use Rattle.lake_model.specs.declared.history.HistoryEntry.{HistoryEntry};
ghost use Rattle.lake_model.specs.State.{State, HasBranch};
ghost use Rattle.lake_model.specs.History.{IsLegal, replay};
ghost use Rattle.lake_laws.specs.SealedPaths.{uncommitted_change};
ghost use Rattle.call_placement.specs.Rules.{Caller};
ghost use Rattle.call_placement.specs.Served.{IsServed};
ghost use Rattle.call_placement.specs.Placed.{own_entries};
ghost use Rattle.lake_calls.specs.CallExceptions.{CallMet};
ghost use Rattle.lake_calls.specs.Calls.{CommitCall, MergeCall, PickCall};
ghost use Rattle.lake_calls.specs.LakeRules.{lake_rules};
ghost use Rattle.lake_calls.specs.declared.heads.HeadCall.TheVariants as head;
ghost use Rattle.lake_calls.specs.declared.reply.CallReply.TheVariants as reply;
ghost use Rattle.lake_calls.specs.declared.reply.Refusal.{Refusal};
ghost use Rattle.lake_calls.specs.declared.reply.Refusal.TheVariants as refusal;
ghost use Rattle.commit_laws.specs.NewestChanges.{IsNewest};
ghost use Rattle.commit_laws.specs.OwnSeals.{ComesBehindSeal, HasFailed, HasNotMade, HasNotSealed, HasOwnSeal};
ghost use Rattle.commit_laws.specs.OwnSeals.{AskedHead, IsGoneByOthers, commit_head, head_request};
ghost use Rattle.commit_laws.specs.OwnSeals.{merge_head, pick_head, revert_head, seal_entry};

/// A commit that is refused left its own Seal and nothing else, or nothing (`refused`; `own`, `nothing`): its Seal
/// where there was nothing to commit, a hook denied it, its tries were too many, or its commit was expired or clashed
/// (`behind`). Where the store failed, a note stands in the place of the entry at which it did (`failed`). Its own
/// Seal sealed what its caller had seen (`sealed` of `law_of_served_commits`).
///
/// Of any new head that a call was refused, sealed or not, or at which the store failed: in a legal history a change
/// that wasn't committed in what its caller had seen isn't committed at the end either, it or the one that was staged
/// there at last; unless a new head of another call took the newest at the last seal before it, or an entry of
/// another dropped it (`uncommitted`).
pub fn law_of_refused_commits()
    ensures refused { (opened : State) (by : Caller) (before after : List HistoryEntry) (c : CommitCall) (moment : ℕ)
        (met : CallMet) (cause : Refusal) (position next_edge : ℕ)
        → IsServed lake_rules opened by before after
        (head_request (head.Commit c) moment) met (reply.Refused cause) position next_edge
        → cause ≢ refusal.StoreFault
        → HasNotMade by before after (commit_head c moment) position next_edge }
    ensures behind { (opened : State) (by : Caller) (before after : List HistoryEntry) (c : CommitCall) (moment : ℕ)
        (met : CallMet) (cause : Refusal) (position next_edge : ℕ)
        → IsServed lake_rules opened by before after
        (head_request (head.Commit c) moment) met (reply.Refused cause) position next_edge
        → ComesBehindSeal cause
        → HasOwnSeal by before after (commit_head c moment) [] position next_edge }
    ensures failed { (opened : State) (by : Caller) (before after : List HistoryEntry) (c : CommitCall) (moment : ℕ)
        (met : CallMet) (position next_edge : ℕ)
        → IsServed lake_rules opened by before after
        (head_request (head.Commit c) moment) met (reply.Refused refusal.StoreFault) position next_edge
        → HasFailed by before after (commit_head c moment) position next_edge }
    ensures own { (by : Caller) (before after : List HistoryEntry) (made : AskedHead) (position next_edge : ℕ)
        → HasOwnSeal by before after made [] position next_edge
        → own_entries lake_rules by before after ≡ seal_entry by made ∷ [] }
    ensures nothing { (by : Caller) (before after : List HistoryEntry) (position next_edge : ℕ)
        → HasNotSealed by before after [] position next_edge → own_entries lake_rules by before after ≡ [] }
    ensures uncommitted { (opened : State) (by : Caller) (before after entries : List HistoryEntry) (made : AskedHead)
        (position next_edge : ℕ) (repo branch path : List ℕ) (change : Change)
        → HasNotMade by before after made position next_edge ⊎ HasFailed by before after made position next_edge
        → after ≡ before ++ entries
        → IsLegal opened after
        → HasBranch (replay opened before) repo branch (λ r b. uncommitted_change b path ≡ Some change)
        → ((newest : Change) × IsNewest repo branch path change entries newest
        × HasBranch (replay opened after) repo branch (λ r b. uncommitted_change b path ≡ Some newest))
        ⊎ IsGoneByOthers by repo branch path change (replay opened before) entries }
{}

/// So it is of a merge, a revert and a cherry-pick that are refused: each left its own Seal and nothing else, or
/// nothing (`merge`, `revert`, `cherry_pick`). Each left its Seal where what is sealed changes the head's map, there
/// was nothing to merge or to take, paths conflict, a hook denied it, its tries were too many, or its source or its
/// new commit was expired, or that clashed (`merge_behind`, `revert_behind`, `cherry_pick_behind`): the reading
/// before the Seal, at which the expression is resolved, is refused for none of these, also not for an expired
/// commit. Where the store failed, a note stands in the place of the entry at which it did (`merge_failed`,
/// `revert_failed`, `cherry_pick_failed`). What isn't committed stays so (`uncommitted` of `law_of_refused_commits`,
/// which is of any new head).
pub fn law_of_refused_merges()
    ensures merge { (opened : State) (by : Caller) (before after : List HistoryEntry) (c : MergeCall)
        (moment : ℕ) (met : CallMet) (cause : Refusal) (position next_edge : ℕ)
        (served : IsServed lake_rules opened by before after (head_request (head.Merge c) moment) met
        (reply.Refused cause) position next_edge)
        → cause ≢ refusal.StoreFault
        → HasNotMade by before after (merge_head c moment served.fixed.commit) position next_edge }
    ensures merge_behind { (opened : State) (by : Caller) (before after : List HistoryEntry) (c : MergeCall)
        (moment : ℕ) (met : CallMet) (cause : Refusal) (position next_edge : ℕ)
        (served : IsServed lake_rules opened by before after (head_request (head.Merge c) moment) met
        (reply.Refused cause) position next_edge)
        → ComesBehindSeal cause
        → HasOwnSeal by before after (merge_head c moment served.fixed.commit) [] position next_edge }
    ensures merge_failed { (opened : State) (by : Caller) (before after : List HistoryEntry) (c : MergeCall)
        (moment : ℕ) (met : CallMet) (position next_edge : ℕ)
        (served : IsServed lake_rules opened by before after (head_request (head.Merge c) moment) met
        (reply.Refused refusal.StoreFault) position next_edge)
        → HasFailed by before after (merge_head c moment served.fixed.commit) position next_edge }
    ensures revert { (opened : State) (by : Caller) (before after : List HistoryEntry) (c : PickCall)
        (moment : ℕ) (met : CallMet) (cause : Refusal) (position next_edge : ℕ)
        (served : IsServed lake_rules opened by before after (head_request (head.Revert c) moment) met
        (reply.Refused cause) position next_edge)
        → cause ≢ refusal.StoreFault
        → HasNotMade by before after (revert_head c moment served.fixed.commit served.fixed.parent) position next_edge }
    ensures revert_behind { (opened : State) (by : Caller) (before after : List HistoryEntry) (c : PickCall)
        (moment : ℕ) (met : CallMet) (cause : Refusal) (position next_edge : ℕ)
        (served : IsServed lake_rules opened by before after (head_request (head.Revert c) moment) met
        (reply.Refused cause) position next_edge)
        → ComesBehindSeal cause
        → HasOwnSeal by before after (revert_head c moment served.fixed.commit served.fixed.parent) [] position
        next_edge }
    ensures revert_failed { (opened : State) (by : Caller) (before after : List HistoryEntry) (c : PickCall)
        (moment : ℕ) (met : CallMet) (position next_edge : ℕ)
        (served : IsServed lake_rules opened by before after (head_request (head.Revert c) moment) met
        (reply.Refused refusal.StoreFault) position next_edge)
        → HasFailed by before after (revert_head c moment served.fixed.commit served.fixed.parent) position next_edge }
    ensures cherry_pick { (opened : State) (by : Caller) (before after : List HistoryEntry) (c : PickCall)
        (moment : ℕ) (met : CallMet) (cause : Refusal) (position next_edge : ℕ)
        (served : IsServed lake_rules opened by before after (head_request (head.CherryPick c) moment) met
        (reply.Refused cause) position next_edge)
        → cause ≢ refusal.StoreFault
        → HasNotMade by before after
        (pick_head c moment served.fixed.commit served.fixed.parent served.fixed.message) position next_edge }
    ensures cherry_pick_behind { (opened : State) (by : Caller) (before after : List HistoryEntry) (c : PickCall)
        (moment : ℕ) (met : CallMet) (cause : Refusal) (position next_edge : ℕ)
        (served : IsServed lake_rules opened by before after (head_request (head.CherryPick c) moment) met
        (reply.Refused cause) position next_edge)
        → ComesBehindSeal cause
        → HasOwnSeal by before after
        (pick_head c moment served.fixed.commit served.fixed.parent served.fixed.message) [] position next_edge }
    ensures cherry_pick_failed { (opened : State) (by : Caller) (before after : List HistoryEntry) (c : PickCall)
        (moment : ℕ) (met : CallMet) (position next_edge : ℕ)
        (served : IsServed lake_rules opened by before after (head_request (head.CherryPick c) moment) met
        (reply.Refused refusal.StoreFault) position next_edge)
        → HasFailed by before after
        (pick_head c moment served.fixed.commit served.fixed.parent served.fixed.message) position next_edge }
{}
