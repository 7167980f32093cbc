//! A seal leaves the answers of readings as they are.
ghost use Rattle.std.specs.Prelude.{◌≡◌, Bool, List, Option, ℕ};
ghost use Rattle.lake_base.specs.declared.digest.Digest.{Digest};
ghost use Rattle.lake_values.specs.declared.settings.NoteName.{NoteName};
ghost use Rattle.lake_pages.specs.declared.listing.PageQuery.{PageQuery};
ghost use Rattle.commit_graph.specs.Expressions.{RefExprValue};
ghost use Rattle.lake_model.specs.State.{State};
ghost use Rattle.lake_model.specs.Readings.{resolve_reply, look_reply, page_reply, log_reply, repositories_reply};
ghost use Rattle.lake_model.specs.Readings.{names_reply, find_reply, note_reply};
ghost use Rattle.lake_model.specs.Versions.{VersionsGiven, versions_after};
ghost use Rattle.lake_laws.specs.Sealing.{SealValue, seal_entry, sealed_state};

/// After a Seal the readings of commits, maps, logs, names and settings answer what they answered before, but for the
/// number of entries. (What is prepared for a commit changes, and so do versions.)
pub fn law_of_sealing()
    ensures resolve { (state : State) (seal : SealValue) (repo : List ℕ) (e : RefExprValue)
        → resolve_reply (sealed_state state seal) repo e ≡ resolve_reply state repo e }
    ensures look { (state : State) (seal : SealValue) (repo : List ℕ) (e : RefExprValue) (path : List ℕ)
        → look_reply (sealed_state state seal) repo e path ≡ look_reply state repo e path }
    ensures page { (state : State) (seal : SealValue) (repo : List ℕ) (e : RefExprValue) (query : PageQuery)
        → page_reply (sealed_state state seal) repo e query ≡ page_reply state repo e query }
    ensures log { (state : State) (seal : SealValue) (repo : List ℕ) (e : RefExprValue) (after : Option Digest)
        (since : Option ℕ) (amount : ℕ)
        → log_reply (sealed_state state seal) repo e after since amount ≡ log_reply state repo e after since amount }
    ensures repositories { (state : State) (seal : SealValue) (after : List ℕ) (amount : ℕ)
        → repositories_reply (sealed_state state seal) after amount ≡ repositories_reply state after amount }
    ensures names { (state : State) (seal : SealValue) (repo : List ℕ) (tags : Bool) (after : List ℕ) (amount : ℕ)
        → names_reply (sealed_state state seal) repo tags after amount ≡ names_reply state repo tags after amount }
    ensures find { (state : State) (seal : SealValue) (repo : List ℕ) (tags : Bool) (name : List ℕ)
        → find_reply (sealed_state state seal) repo tags name ≡ find_reply state repo tags name }
    ensures note { (state : State) (given : VersionsGiven) (seal : SealValue) (repo : List ℕ) (name : NoteName)
        → note_reply (sealed_state state seal) (versions_after given (seal_entry seal)) repo name
        ≡ note_reply state given repo name }
{}
