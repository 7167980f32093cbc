//! Calls in histories that two seats make: how each is served there, by the lake's own rules. The call is the first of
//! the seat 0.
ghost use Rattle.std.specs.Prelude.{◌≡◌, ℕ, List, [], ◌∷◌};
ghost use Rattle.lake_format.specs.declared.cut.Cut.{Cut};
ghost use Rattle.lake_values.specs.Commit.{AboutValue};
ghost use Rattle.lake_model.specs.History.{IsLegal};
ghost use Rattle.lake_model.specs.Soundness.{fresh};
ghost use Rattle.call_placement.specs.Served.{IsServed};
ghost use Rattle.call_placement.specs.Placed.{own_entries, ArePlaced};
ghost use Rattle.lake_calls.specs.CallExceptions.{CallMet, nothing_met};
ghost use Rattle.lake_calls.specs.LakeRules.{lake_rules};
ghost use Rattle.lake_calls.specs.declared.call.Call.{Call};
ghost use Rattle.lake_calls.specs.declared.reply.CallReply.{CallReply};
ghost use Rattle.lake_calls.specs.declared.reply.CallReply.TheVariants as reply;
ghost use Rattle.lake_calls.specs.declared.reply.Refusal.TheVariants as refusal;
ghost use Rattle.law_examples.specs.HistoryWords.{main, IsCommitAdmissible};
ghost use Rattle.law_examples.specs.Merges.{dev, lake_with_dev};
ghost use Rattle.law_examples.specs.UploadSteps.{asked, item_of, upload_call, uploaded};
ghost use Rattle.law_examples.specs.CallHistories.{commit_of_main, delete_of_a, deleted_and_stopped, lake_of_both};
ghost use Rattle.law_examples.specs.CallHistories.{numbers_beside, own_call, protected_by_other, put_by_other};
ghost use Rattle.law_examples.specs.CallHistories.{own_seal, taken_and_dropped, taken_by_other, upload_to_a};

/// Another seat took a number first, so an upload has the number 1, though 0 was the next one as it began.
pub fn upload_beside_a_ticket()
    ensures legal { (cut : Cut) (body : List ℕ) (moment : ℕ) → IsLegal (fresh cut) (numbers_beside body moment) }
    ensures next { (cut : Cut) → (fresh cut).next_number ≡ 0 }
    ensures served { (cut : Cut) (body : List ℕ) (moment : ℕ)
        → IsServed lake_rules (fresh cut) own_call [] (numbers_beside body moment)
        (asked (upload_call (upload_to_a body)) moment) nothing_met (uploaded (upload_to_a body) moment 1) 3 3 }
{}

/// Another seat deleted `dev`, and then the store failed. A delete of an object there may be told at this one point
/// that the branch isn't there, as its reading finds; or that the lake is stopped, as its step finds behind a reading
/// that came before.
pub fn two_refusals_at_a_point()
    ensures legal { (cut : Cut) → IsLegal (lake_with_dev cut) deleted_and_stopped }
    ensures at_reading { (cut : Cut) (moment : ℕ)
        → IsServed lake_rules (lake_with_dev cut) own_call [] deleted_and_stopped
        (asked (delete_of_a dev) moment) nothing_met (reply.Refused (refusal.NoRef dev)) 2 2 }
    ensures at_step { (cut : Cut) (moment : ℕ)
        → IsServed lake_rules (lake_with_dev cut) own_call [] deleted_and_stopped
        (asked (delete_of_a dev) moment) nothing_met (reply.Refused refusal.Stopped) 2 2 }
{}

/// A commit sealed the changes that its seat had seen, and another seat's commit took them: there is nothing left to
/// commit, and its seal stands. The premise is that no file of the other's commit shares its name with other bytes.
pub fn commit_that_another_made()
    ensures legal { (cut : Cut) (about : AboutValue) → IsCommitAdmissible (lake_of_both cut) about
        → IsLegal (fresh cut) (taken_by_other about) }
    ensures own { (about : AboutValue)
        → own_entries lake_rules own_call put_by_other (taken_by_other about) ≡ own_seal ∷ [] }
    ensures served { (cut : Cut) (about mine : AboutValue) (moment : ℕ)
        → IsServed lake_rules (fresh cut) own_call put_by_other (taken_by_other about)
        (asked (commit_of_main mine) moment) nothing_met (reply.Refused refusal.NoChanges) 4 4 }
{}

/// An upload that ran out of memory behind its ticket, and gave its number back.
pub fn upload_without_memory()
    ensures legal { (cut : Cut) (body : List ℕ) → IsLegal (fresh cut) (taken_and_dropped body) }
    ensures served { (cut : Cut) (body : List ℕ) (moment : ℕ)
        → IsServed lake_rules (fresh cut) own_call [] (taken_and_dropped body)
        (asked (upload_call (upload_to_a body)) moment) nothing_met reply.NoMemory 1 2 }
{}

/// The reading of a delete found the branch, and then another seat protected it: the step is refused where it stands
/// now, and the call has no entry.
pub fn refusal_behind_a_reading()
    ensures legal { (cut : Cut) → IsLegal (fresh cut) protected_by_other }
    ensures own { own_entries lake_rules own_call [] protected_by_other ≡ [] }
    ensures served { (cut : Cut) (moment : ℕ)
        → IsServed lake_rules (fresh cut) own_call [] protected_by_other
        (asked (delete_of_a main) moment) nothing_met (reply.Refused (refusal.Protected 0)) 1 1 }
{}

/// Behind an upload whose place is 3 no call of its session is placed at the position 2, whatever it is and is told.
pub fn position_before_the_edge()
    ensures { (cut : Cut) (body : List ℕ) (moment later : ℕ) (call : Call) (met : CallMet) (told : CallReply)
        → ArePlaced lake_rules (fresh cut) 0 1 0 [] (numbers_beside body moment)
        (item_of (asked (upload_call (upload_to_a body)) moment) nothing_met (uploaded (upload_to_a body) moment 1) 3
        ∷ item_of (asked call later) met told 2 ∷ []) → ⊥ }
{}
