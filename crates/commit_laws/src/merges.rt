//! Merges, reverts and cherry-picks that were served.
ghost use Rattle.std.specs.Prelude.{◌≡◌, ◌≢◌, ◌++◌, List, ℕ, Some, true};
ghost use Rattle.std.specs.FinMap.{get};
ghost use Rattle.lake_values.specs.declared.entry.Change.{Change};
ghost use Rattle.lake_model.specs.declared.history.HistoryEntry.{HistoryEntry};
ghost use Rattle.lake_model.specs.declared.reply.SwapKind.TheVariants as kind;
ghost use Rattle.lake_model.specs.State.{State, HasBranch, head_map, sealed_map};
ghost use Rattle.lake_model.specs.History.{IsLegal, replay};
ghost use Rattle.lake_laws.specs.SealedPaths.{FindsChange};
ghost use Rattle.call_placement.specs.Rules.{Caller};
ghost use Rattle.call_placement.specs.Served.{IsServed};
ghost use Rattle.lake_calls.specs.CallExceptions.{CallMet};
ghost use Rattle.lake_calls.specs.Calls.{MergeCall, PickCall};
ghost use Rattle.lake_calls.specs.DoneReplies.{is_reply_done};
ghost use Rattle.lake_calls.specs.LakeRules.{lake_rules};
ghost use Rattle.lake_calls.specs.declared.heads.HeadCall.TheVariants as head;
ghost use Rattle.lake_calls.specs.declared.reply.CallReply.{CallReply};
ghost use Rattle.commit_laws.specs.OwnSeals.{HasTwoPoints, AskedHead, head_entry, head_request};
ghost use Rattle.commit_laws.specs.OwnSeals.{merge_head, pick_head, revert_head, up_to_head};

/// A merge, a revert and a cherry-pick that are done have two points too, their Seal and the new head, made of what
/// their first point fixed (`merge`, `revert`, `cherry_pick`). So their own Seal seals what wasn't committed in what
/// their caller had seen (`sealed` of `law_of_served_commits`, which is of any new head). In a legal history what is
/// sealed just before the new head changes nothing of the old head's map (`clean`): each change that is sealed then
/// is found made (`found`).
pub fn law_of_served_merges()
    ensures merge { (opened : State) (by : Caller) (before after : List HistoryEntry) (c : MergeCall) (moment : ℕ)
        (met : CallMet) (told : CallReply) (position next_edge : ℕ)
        (served : IsServed lake_rules opened by before after (head_request (head.Merge c) moment) met told position
        next_edge)
        → is_reply_done told ≡ true
        → HasTwoPoints by before after (merge_head c moment served.fixed.commit) position next_edge }
    ensures revert { (opened : State) (by : Caller) (before after : List HistoryEntry) (c : PickCall) (moment : ℕ)
        (met : CallMet) (told : CallReply) (position next_edge : ℕ)
        (served : IsServed lake_rules opened by before after (head_request (head.Revert c) moment) met told position
        next_edge)
        → is_reply_done told ≡ true
        → HasTwoPoints by before after (revert_head c moment served.fixed.commit served.fixed.parent) position
        next_edge }
    ensures cherry_pick { (opened : State) (by : Caller) (before after : List HistoryEntry) (c : PickCall)
        (moment : ℕ) (met : CallMet) (told : CallReply) (position next_edge : ℕ)
        (served : IsServed lake_rules opened by before after (head_request (head.CherryPick c) moment) met told position
        next_edge)
        → is_reply_done told ≡ true
        → HasTwoPoints by before after
        (pick_head c moment served.fixed.commit served.fixed.parent served.fixed.message) position next_edge }
    ensures clean { (opened : State) (by : Caller) (before after : List HistoryEntry) (made : AskedHead)
        (position next_edge : ℕ) (points : HasTwoPoints by before after made position next_edge)
        → IsLegal opened after → made.kind ≢ kind.Commit
        → HasBranch (replay opened (before ++ up_to_head by made points.between points.meanwhile)) made.repo
        made.branch (λ r b. sealed_map r b ≡ head_map r b) }
    ensures found { (opened : State) (by : Caller) (before after : List HistoryEntry) (made : AskedHead)
        (position next_edge : ℕ) (path : List ℕ) (change : Change)
        (points : HasTwoPoints by before after made position next_edge)
        → IsLegal opened after → made.kind ≢ kind.Commit
        → HasBranch (replay opened (before ++ up_to_head by made points.between points.meanwhile)) made.repo
        made.branch (λ r b. get b.sealed path ≡ Some change)
        → FindsChange made.repo made.branch path change
        (replay opened (before ++ up_to_head by made points.between points.meanwhile)) (head_entry by made) }
{}
