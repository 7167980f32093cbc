//! A draft waits for the lake, which goes on meanwhile.
ghost use Rattle.std.specs.Prelude.{◌≡◌, ◌++◌, List, ℕ, IfSome, Ok};
ghost use Rattle.lake_values.specs.Commit.{AboutValue};
ghost use Rattle.meta_range.specs.Ranges.{TreeValue};
ghost use Rattle.lake_model.specs.declared.history.HistoryEntry.{HistoryEntry};
ghost use Rattle.lake_model.specs.declared.reply.SwapKind.{SwapKind};
ghost use Rattle.lake_model.specs.HeadRefusals.{reading_refusal};
ghost use Rattle.lake_model.specs.Preparing.{PreparedValue, prepare_reply};
ghost use Rattle.lake_model.specs.Soundness.{IsSound};
ghost use Rattle.lake_model.specs.State.{State};
ghost use Rattle.lake_model.specs.Versions.{AreBelowNext, VersionsGiven};
ghost use Rattle.core_state.specs.LakeStates.{lake_value};
ghost use Rattle.core_standing.specs.Standing.{Stands};
ghost use Rattle.core_readings.specs.Preparations.{HasSides};
ghost use Rattle.lake_core.specs.HeadConditions.{IsReadyFor};
ghost use Rattle.lake_core.specs.Lakes.{LakeValue, state, versions};
ghost use Rattle.head_drafts.specs.declared.heads.HeadDraft.{HeadDraft as Draft};
ghost use Rattle.head_drafts.specs.Drafts.{IsDraft, drafted_map};
ghost use Rattle.head_drafts.specs.HeadDrafts.{RefusesAs, Waits, sides_of, strategy_of};

use keeper::Keeper;

/// What a lake replies when it is asked for what a new head is made of, and then what refuses the draft of what it
/// hands out, is what refuses the new head at its reading. (A law: it does nothing.)
pub fn law_of_readings()
    ensures { (state : State) (given : VersionsGiven) (repo branch : List ℕ) (kind : SwapKind) (about : AboutValue)
        → RefusesAs (prepare_reply state given repo branch (sides_of kind))
        (λ p. drafted_map (strategy_of kind) p branch about.metadata)
        (reading_refusal state repo branch kind about) }
{}

/// What was drafted of what a sound lake handed out, whose versions were below the next one, stays ready for `swap` by
/// the versions that were handed out: whatever legal entries follow meanwhile, its condition holds. Where the branch is
/// gone or one of both versions changed, it asks nothing, and `swap` refuses; else the branch has the head, the sealed
/// changes and the settings of before, and commits have the maps and the merge base of before. (A law: it does
/// nothing.)
pub fn law_of_waiting()
    ensures { (state : State) (given : VersionsGiven) (repo branch : List ℕ) (kind : SwapKind)
        (about : AboutValue) (p : PreparedValue) (tree : TreeValue)
        → IsSound state → AreBelowNext given
        → prepare_reply state given repo branch (sides_of kind) ≡ Ok p
        → IfSome (sides_of kind) (HasSides state repo)
        → IsDraft p.cut (drafted_map (strategy_of kind) p branch about.metadata) (Ok tree)
        → Waits state given repo branch kind about
        (record { version = p.version; settings = p.settings; tree = tree }) }
{}

/// So the condition of `swap` holds of it of a lake that went on. (A law: it does nothing.)
pub fn law_of_later_swaps<K: Keeper>()
    ensures { (before now : LakeValue K) (later : List HistoryEntry) (repo branch : List ℕ) (kind : SwapKind)
        (about : AboutValue) (head : Draft)
        → Waits (state before) (versions before) repo branch kind about head
        → now.opened ≡ before.opened → now.history ≡ before.history ++ later
        → Stands (lake_value now.opened) now.history (lake_value now.present)
        → IsReadyFor (state now) (versions now) repo branch head.version head.settings kind about head.tree }
{}
