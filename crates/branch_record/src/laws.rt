//! What holds of tokens, records, and their changes.
ghost use Rattle.std.specs.Prelude.{◌≡◌, ◌==◌, ℕ, Bool, List, [], ◌∷◌, ◌++◌, false, Some, None, if◌then◌else◌};
ghost use Rattle.std.specs.Option.{option_or};
ghost use Rattle.std.specs.Str.{bytes_eq};
ghost use Rattle.std.specs.FinMap as map;
ghost use Rattle.lake_values.specs.KeyMap.{ChangesValue, over};
ghost use Rattle.lake_values.specs.Reset.{drops_path, changes_after_reset};
ghost use Rattle.lake_values.specs.declared.commit.ResetWhat.{ResetWhat as AnyReset};
ghost use Rattle.lake_values.specs.declared.entry.Change.{Change as AnyChange};
ghost use Rattle.branch_record.specs.Tokens.{TokenMap, changes_under, with_changes, with_change, with_each};
ghost use Rattle.branch_record.specs.Record.{BranchRecordValue, AreDistinct, named_tokens, is_among, record_after_seal};
ghost use Rattle.branch_record.specs.Looking.{first_change, branch_change};
ghost use Rattle.branch_record.specs.Overlay.{layers_of, staged_changes, sealed_changes, overlay_of};

/// Changes that are put under a token, or made anew under some tokens, are there, and under every other token what was
/// there stays. (A law: it does nothing.)
pub fn laws_of_tokens()
    ensures put { (tokens : TokenMap) (token other : ℕ) (changes : ChangesValue)
        → changes_under (with_changes tokens token changes) other
        ≡ (if other == token then changes else changes_under tokens other) }
    ensures changed { (tokens : TokenMap) (these : List ℕ) (f : ChangesValue → ChangesValue) (token : ℕ)
        → changes_under (with_each these f tokens) token
        ≡ (if is_among these token then f (changes_under tokens token) else changes_under tokens token) }
{}

/// What the first token says that has a change of a path is what the changes of all of them say of it, the newer over
/// the older: nothing exactly where these say nothing. So a look is a look at the staged changes over the sealed ones.
/// The changes of some tokens and older ones are those of the former over those of the latter. (A law: it does
/// nothing.)
pub fn laws_of_layers()
    ensures layers { (tokens : TokenMap) (these : List ℕ) (path : List ℕ)
        → map.get (layers_of tokens these) path ≡ first_change tokens these path }
    ensures look { (r : BranchRecordValue) (tokens : TokenMap) (path : List ℕ)
        → map.get (over (staged_changes r tokens) (sealed_changes r tokens)) path ≡ branch_change r tokens path }
    ensures joined { (tokens : TokenMap) (newer older : List ℕ)
        → layers_of tokens (newer ++ older) ≡ over (layers_of tokens newer) (layers_of tokens older) }
{}

/// A seal with a fresh token changes nothing of what a look tells of any path: the sealed changes are then the staged
/// over the sealed ones, and none are staged. (A law: it does nothing.)
pub fn law_of_sealing()
    ensures look { (r : BranchRecordValue) (tokens : TokenMap) (fresh : ℕ) (path : List ℕ)
        → changes_under tokens fresh ≡ map.empty
        → branch_change (record_after_seal r tokens fresh) tokens path ≡ branch_change r tokens path }
    ensures sealed { (r : BranchRecordValue) (tokens : TokenMap) (fresh : ℕ)
        → sealed_changes (record_after_seal r tokens fresh) tokens
        ≡ over (staged_changes r tokens) (sealed_changes r tokens) }
    ensures staged { (r : BranchRecordValue) (tokens : TokenMap) (fresh : ℕ)
        → changes_under tokens fresh ≡ map.empty
        → staged_changes (record_after_seal r tokens fresh) tokens ≡ map.empty }
{}

/// After a change of a path is staged, a look at the path tells that change, and a look at any other path what it told
/// before. The staged changes then have the change over what they had, and the sealed ones stay. (A law: it does
/// nothing.)
pub fn law_of_staging()
    ensures look { (r : BranchRecordValue) (tokens : TokenMap) (path other : List ℕ) (change : AnyChange)
        → AreDistinct (named_tokens r)
        → branch_change r (with_change tokens r.staging path change) other
        ≡ (if bytes_eq other path then Some change else branch_change r tokens other) }
    ensures staged { (r : BranchRecordValue) (tokens : TokenMap) (path : List ℕ) (change : AnyChange)
        → staged_changes r (with_change tokens r.staging path change)
        ≡ map.insert (staged_changes r tokens) path change }
    ensures sealed { (r : BranchRecordValue) (tokens : TokenMap) (path : List ℕ) (change : AnyChange)
        → AreDistinct (named_tokens r)
        → sealed_changes r (with_change tokens r.staging path change) ≡ sealed_changes r tokens }
{}

/// After the sealed changes are dropped, none are sealed, and the staged ones stay. (A law: it does nothing.)
pub fn law_of_drops()
    ensures sealed { (r : BranchRecordValue) (tokens : TokenMap)
        → sealed_changes (record r { sealed = [] }) (with_each r.sealed (λ _. map.empty) tokens) ≡ map.empty }
    ensures staged { (r : BranchRecordValue) (tokens : TokenMap)
        → AreDistinct (named_tokens r)
        → staged_changes (record r { sealed = [] }) (with_each r.sealed (λ _. map.empty) tokens)
        ≡ staged_changes r tokens }
{}

/// After a reset, the staged and the sealed changes are without those that the reset drops: all of them, that of the
/// one path, or those of the paths under the prefix. A look at such a path finds nothing, and a look at any other path
/// what it found before. (A law: it does nothing.)
pub fn law_of_resets()
    ensures staged { (r : BranchRecordValue) (tokens : TokenMap) (what : AnyReset)
        → staged_changes r (with_each (named_tokens r) (changes_after_reset what) tokens)
        ≡ changes_after_reset what (staged_changes r tokens) }
    ensures sealed { (r : BranchRecordValue) (tokens : TokenMap) (what : AnyReset)
        → sealed_changes r (with_each (named_tokens r) (changes_after_reset what) tokens)
        ≡ changes_after_reset what (sealed_changes r tokens) }
    ensures look { (r : BranchRecordValue) (tokens : TokenMap) (what : AnyReset) (path : List ℕ)
        → branch_change r (with_each (named_tokens r) (changes_after_reset what) tokens) path
        ≡ (if drops_path what path then None else branch_change r tokens path) }
{}
