//! Uploads, changes, seals and settings.
ghost use Rattle.std.specs.Prelude.{◌≡◌, ◌↔◌, false, ℕ, List, None, Some};
ghost use Rattle.lake_base.specs.declared.digest.Digest.{Digest};
ghost use Rattle.lake_format.specs.declared.cut.Cut.{Cut};
ghost use Rattle.lake_values.specs.Commit.{AboutValue};
ghost use Rattle.lake_values.specs.declared.commit.ResetWhat.TheVariants as what;
ghost use Rattle.lake_values.specs.declared.commit.Strategy.{Strategy};
ghost use Rattle.lake_values.specs.declared.entry.Change.TheVariants.{Put};
ghost use Rattle.lake_values.specs.declared.settings.NoteName.TheVariants as name;
ghost use Rattle.lake_model.specs.declared.history.By.{By};
ghost use Rattle.lake_model.specs.declared.history.CopySource.TheVariants as source;
ghost use Rattle.lake_model.specs.declared.history.HistoryEntry.{HistoryEntry};
ghost use Rattle.lake_model.specs.declared.history.Operation.{Operation};
ghost use Rattle.lake_model.specs.declared.history.Operation.TheVariants.{Copy, NoteSet, Reset, Seal, Stage};
ghost use Rattle.lake_model.specs.declared.history.Operation.TheVariants.{TicketDrop, TicketTake};
ghost use Rattle.lake_model.specs.declared.history.SealFor.TheVariants as seal;
ghost use Rattle.lake_model.specs.State.{Branch, Repository, State};
ghost use Rattle.lake_model.specs.Commits.{IsMerge, IsPick};
ghost use Rattle.lake_model.specs.Uncommitted.{MaySeal};
ghost use Rattle.lake_model.specs.History.{Allows, accepted_entry, after, faulted_entry};
ghost use Rattle.lake_model.specs.Soundness.{fresh};
ghost use Rattle.law_examples.specs.HistoryWords.{quickstart, main, outside, own, entry_of, entry_by, ticket_entry};
ghost use Rattle.law_examples.specs.HistoryWords.{put_entry, delete_entry, seal_entry, commit_entry, a, b};
ghost use Rattle.law_examples.specs.HistoryWords.{IsCommitAdmissible};
ghost use Rattle.law_examples.specs.RefusedLakes.{fault_of, mail, one_day, stopped_lake, lake_of_entries};
ghost use Rattle.law_examples.specs.RefusedLakes.{ticket_lake, retaining_lake, ready_lake, protected_lake};

/// Nothing comes after a fault of the store, though it be possible, and be allowed were the lake not stopped.
pub fn stopped()
    ensures allowed { (cut : Cut) → Allows (record (stopped_lake cut) { stopped = false }) seal_entry }
    ensures others { (cut : Cut) → MaySeal (stopped_lake cut) quickstart main seal.Commit }
    ensures refused { (cut : Cut) → Allows (stopped_lake cut) seal_entry → ⊥ }
{}

/// The store failed as an operation was tried: such an entry is allowed where the operation would have been accepted,
/// and nothing comes after it.
pub fn faulted()
    ensures allowed { (cut : Cut) → Allows (fresh cut) (fault_of (TicketTake quickstart main 0)) }
    ensures refused { (cut : Cut) → Allows (fresh cut) (fault_of (TicketTake quickstart main 1)) → ⊥ }
    ensures tried { (state : State) (by : By) (operation : Operation)
        → Allows state (faulted_entry by operation) ↔ Allows state (accepted_entry by operation) }
    ensures last { (state : State) (by : By) (operation : Operation) (entry : HistoryEntry)
        → Allows (after state (faulted_entry by operation)) entry → ⊥ }
{}

/// A history has at most 4,194,304 entries.
pub fn full_history()
    ensures allowed { (cut : Cut) → Allows (lake_of_entries 4194303 cut) seal_entry }
    ensures refused { (cut : Cut) → Allows (lake_of_entries 4194304 cut) seal_entry → ⊥ }
{}

/// The number isn't the next one: it is above it, or was given out before.
pub fn number_not_next()
    ensures allowed { (cut : Cut) → Allows (fresh cut) (ticket_entry 0) }
    ensures refused { (cut : Cut) → Allows (fresh cut) (ticket_entry 1) → ⊥ }
    ensures allowed_second { (cut : Cut) → Allows (ticket_lake cut) (ticket_entry 1) }
    ensures refused_again { (cut : Cut) → Allows (ticket_lake cut) (ticket_entry 0) → ⊥ }
{}

/// The ticket is another seat's, or there is none.
pub fn ticket_of_another()
    ensures allowed { (cut : Cut) (digest : Digest) → Allows (ticket_lake cut) (put_entry a (own digest 0)) }
    ensures refused { (cut : Cut) (digest : Digest)
        → Allows (ticket_lake cut) (entry_by 2 (Stage quickstart main a (Put (own digest 0)))) → ⊥ }
    ensures without { (cut : Cut) (digest : Digest) → Allows (fresh cut) (put_entry a (own digest 0)) → ⊥ }
    ensures allowed_drop { (cut : Cut) → Allows (ticket_lake cut) (entry_of (TicketDrop 0)) }
    ensures refused_drop { (cut : Cut) → Allows (ticket_lake cut) (entry_by 2 (TicketDrop 0)) → ⊥ }
    ensures drop_without { (cut : Cut) → Allows (ticket_lake cut) (entry_of (TicketDrop 1)) → ⊥ }
{}

/// The source of a copy hasn't the entry: nothing is at the path, or another entry, or there is no such branch.
pub fn entry_not_at_source()
    ensures allowed { (cut : Cut)
        → Allows (ready_lake cut) (entry_of (Copy quickstart main b (source.Branch main) a outside)) }
    ensures nothing_there { (cut : Cut)
        → Allows (ready_lake cut) (entry_of (Copy quickstart main a (source.Branch main) b outside)) → ⊥ }
    ensures another { (cut : Cut) (digest : Digest)
        → Allows (ready_lake cut) (entry_of (Copy quickstart main b (source.Branch main) a (own digest 0))) → ⊥ }
    ensures no_branch { (cut : Cut)
        → Allows (ready_lake cut) (entry_of (Copy quickstart main b (source.Branch mail) a outside)) → ⊥ }
{}

/// What a protected branch refuses, and what is allowed where it isn't protected.
pub fn protected_branch()
    ensures allowed_take { (cut : Cut) → Allows (ready_lake cut) (ticket_entry 0) }
    ensures refused_take { (cut : Cut) → Allows (protected_lake cut) (ticket_entry 0) → ⊥ }
    ensures allowed_put { (cut : Cut) → Allows (ready_lake cut) (put_entry b outside) }
    ensures refused_put { (cut : Cut) → Allows (protected_lake cut) (put_entry b outside) → ⊥ }
    ensures allowed_deletion { (cut : Cut) → Allows (ready_lake cut) (delete_entry a) }
    ensures refused_deletion { (cut : Cut) → Allows (protected_lake cut) (delete_entry a) → ⊥ }
    ensures allowed_copy { (cut : Cut)
        → Allows (ready_lake cut) (entry_of (Copy quickstart main b (source.Branch main) a outside)) }
    ensures refused_copy { (cut : Cut)
        → Allows (protected_lake cut) (entry_of (Copy quickstart main b (source.Branch main) a outside)) → ⊥ }
    ensures allowed_reset { (cut : Cut) → Allows (ready_lake cut) (entry_of (Reset quickstart main what.All)) }
    ensures refused_reset { (cut : Cut) → Allows (protected_lake cut) (entry_of (Reset quickstart main what.All)) → ⊥ }
    ensures allowed_seal { (cut : Cut) → Allows (ready_lake cut) seal_entry }
    ensures refused_seal { (cut : Cut) → Allows (protected_lake cut) seal_entry → ⊥ }
    ensures allowed_commit { (cut : Cut) (about : AboutValue) → IsCommitAdmissible (ready_lake cut) about
        → Allows (ready_lake cut) (commit_entry about) }
    ensures refused_commit { (cut : Cut) (about : AboutValue) → Allows (protected_lake cut) (commit_entry about) → ⊥ }
{}

/// What a protected branch accepts: a seal for something else than a commit, and merges and picks, which are possible
/// whatever branches are protected.
pub fn accepted_where_protected()
    ensures seal { (cut : Cut) → Allows (protected_lake cut) (entry_of (Seal quickstart main seal.Other)) }
    ensures merge { (state : State) (branch : List ℕ) (id : Digest) (strategy : Strategy) (about : AboutValue)
        (r : Repository) (b : Branch) (patterns : List (List ℕ))
        → IsMerge state branch id strategy about r b
        → IsMerge state branch id strategy about
        (record r { notes = record r.notes { protection = Some patterns } }) b }
    ensures pick { (state : State) (branch : List ℕ) (base id : Digest) (strategy : Strategy) (about : AboutValue)
        (r : Repository) (b : Branch) (patterns : List (List ℕ))
        → IsPick state branch base id strategy about r b
        → IsPick state branch base id strategy about
        (record r { notes = record r.notes { protection = Some patterns } }) b }
{}

/// The setting isn't there, or the value is another setting's.
pub fn no_setting()
    ensures allowed_deletion { (cut : Cut)
        → Allows (retaining_lake cut) (entry_of (NoteSet quickstart name.Retention None)) }
    ensures refused_deletion { (cut : Cut)
        → Allows (fresh cut) (entry_of (NoteSet quickstart name.Retention None)) → ⊥ }
    ensures allowed_setting { (cut : Cut)
        → Allows (fresh cut) (entry_of (NoteSet quickstart name.Retention (Some one_day))) }
    ensures refused_setting { (cut : Cut)
        → Allows (fresh cut) (entry_of (NoteSet quickstart name.Hooks (Some one_day))) → ⊥ }
{}
