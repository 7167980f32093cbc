//! Tickets, and what is written to a branch.
ghost use Rattle.std.specs.Prelude.{◌≡◌, ◌<◌, ◌^◌, [], ℕ, List, None, IfSome, IsSome, length};
ghost use Rattle.lake_base.specs.Names.{path_fault};
ghost use Rattle.lake_values.specs.Entry.{EntryValue};
ghost use Rattle.lake_values.specs.declared.commit.ResetWhat.{ResetWhat};
ghost use Rattle.lake_values.specs.declared.entry.Change.{Change};
ghost use Rattle.lake_values.specs.declared.entry.Change.TheVariants.{Put};
ghost use Rattle.lake_format.specs.Spelling.{IsEntry};
ghost use Rattle.lake_model.specs.declared.history.By.{By};
ghost use Rattle.lake_model.specs.declared.history.CopySource.{CopySource};
ghost use Rattle.lake_model.specs.declared.history.HistoryEntry.{HistoryEntry};
ghost use Rattle.lake_model.specs.declared.history.Operation.TheVariants.{Copy, Reset, Seal, Stage};
ghost use Rattle.lake_model.specs.declared.history.SealFor.{SealFor};
ghost use Rattle.pair_format.specs.PairSpelling.{IsSpelledChange};
ghost use Rattle.core_state.specs.BranchStates.{with_fresh};
ghost use Rattle.core_state.specs.Counts.{AreFew};
ghost use Rattle.core_state.specs.LakeStates.{LakeStateValue};
ghost use Rattle.core_changes.specs.LakeChanges.{after_copy, after_reset, after_seal, after_stage, after_ticket_drop};
ghost use Rattle.core_changes.specs.LakeChanges.{after_ticket_take};
ghost use Rattle.core_head_pairs.specs.PairWords.{branch_at, reset_puts, seal_puts, stage_puts, ticket_puts};
ghost use Rattle.core_head_pairs.specs.PairWords.{MayMake, Stands};
ghost use Rattle.core_keeping.specs.Following.{KeepsFollowing};

use core_head_pairs::{
    laws_of_kept_tickets, laws_of_kept_writes, laws_of_places, laws_of_tokens_apart,
};

/// A ticket that is taken, where the lake's counts are few, and one that goes.
pub fn laws_of_followed_tickets()
    ensures take { (l : LakeStateValue) (seat : ℕ) → AreFew l
        → KeepsFollowing l (ticket_puts l) (after_ticket_take seat) }
    ensures drop { (l : LakeStateValue) (number : ℕ) → KeepsFollowing l [] (after_ticket_drop number) }
{
    laws_of_kept_tickets();
    laws_of_tokens_apart();
    laws_of_places();
}

/// What may be written to a branch, where it was spelled: a change that is staged, an entry that is copied, changes
/// that are dropped, staged ones that are sealed.
pub fn laws_of_followed_writes()
    ensures stage { (opened : LakeStateValue) (history : List HistoryEntry) (l : LakeStateValue) (by : By)
        (repo name path : List ℕ) (change : Change)
        → Stands opened history l
        → MayMake opened history l by (Stage repo name path change) (after_stage repo name path change)
        → (IsSome (branch_at repo name l) → (path_fault path ≡ None) × IsSpelledChange change)
        → KeepsFollowing l (stage_puts repo name path change l) (after_stage repo name path change) }
    ensures copy { (opened : LakeStateValue) (history : List HistoryEntry) (l : LakeStateValue) (by : By)
        (repo name path : List ℕ) (source : CopySource) (from : List ℕ) (entry : EntryValue)
        → Stands opened history l
        → MayMake opened history l by (Copy repo name path source from entry) (after_copy repo name path entry)
        → (IsSome (branch_at repo name l) → (path_fault path ≡ None) × IsEntry entry)
        → KeepsFollowing l (stage_puts repo name path (Put entry) l) (after_copy repo name path entry) }
    ensures reset { (opened : LakeStateValue) (history : List HistoryEntry) (l : LakeStateValue) (by : By)
        (repo name : List ℕ) (what : ResetWhat)
        → Stands opened history l
        → MayMake opened history l by (Reset repo name what) (after_reset repo name what)
        → KeepsFollowing l (reset_puts repo name what l) (after_reset repo name what) }
    ensures seal { (opened : LakeStateValue) (history : List HistoryEntry) (l : LakeStateValue) (by : By)
        (repo name : List ℕ) (why : SealFor)
        → Stands opened history l
        → MayMake opened history l by (Seal repo name why) (after_seal repo name)
        → IfSome (branch_at repo name l) (λ b. length (with_fresh l.next_token b).sealed < 2 ^ 32)
        → KeepsFollowing l (seal_puts repo name l) (after_seal repo name) }
{
    laws_of_kept_writes();
    laws_of_tokens_apart();
    laws_of_places();
}
