//! Changes of a branch are staged, sealed and dropped.
ghost use Rattle.std.specs.Prelude.{◌≡◌, ◌≤◌, [], false, IsOk, OnOk, OnErr};
ghost use Rattle.std.specs.FinMap as map;
ghost use Rattle.lake_values.specs.KeyMap.{over};
ghost use Rattle.lake_values.specs.Reset.{changes_after_reset};
ghost use Rattle.branch_record.specs.Tokens.{with_change, with_each};
ghost use Rattle.branch_record.specs.Record.{AreDistinct, named_tokens, is_among, record_after_seal};
ghost use Rattle.branch_record.specs.Overlay.{staged_changes, sealed_changes};

use crate::record::BranchRecord;
use crate::tokens::Tokens;
use lake_base::names::Path;
use lake_base::outside::NoMemory;
use lake_values::commit::ResetWhat;
use lake_values::entry::Change;

impl BranchRecord {
    /// Puts a change over the staged ones. Where the tokens have room for it, it takes no memory.
    pub fn stage(&self, tokens: &mut Tokens, path: Path, change: Change) -> Result<(), NoMemory>
        ensures staged { OnOk result
            (tokens.new.changes ≡ with_change tokens.old.changes self.now.staging path change) }
        ensures unchanged { OnErr result (tokens.new.changes ≡ tokens.old.changes) }
        ensures room { 1 ≤ tokens.old.spare → IsOk result }
    {
        tokens.put(self.staging(), path, change)
    }

    /// Makes room: the next stage, or the next seal of this record, then takes no memory and can't be refused.
    pub fn ready(&mut self, tokens: &mut Tokens) -> Result<(), NoMemory>
        ensures room { OnOk result ((1 ≤ self.new.spare) × (1 ≤ tokens.new.spare)) }
        ensures branch { self.new ≡ record self.old { spare = self.new.spare } }
        ensures changes { tokens.new.changes ≡ tokens.old.changes }
    {
        tokens.make_room()?;
        self.make_room()
    }

    /// Seals the staged changes: they join the sealed ones, over these, and a fresh token is put in place, under which
    /// nothing is staged. Where nothing was staged, the record stays. No change is moved.
    pub fn seal(&mut self, tokens: &Tokens, fresh: u64) -> Result<(), NoMemory>
        requires unnamed { is_among (named_tokens self.old) fresh ≡ false }
        requires unused { map.contains_key tokens.now.changes fresh ≡ false }
        ensures branch { OnOk result
            (self.new ≡ record (record_after_seal self.old tokens.now.changes fresh) { spare = self.new.spare }) }
        ensures sealed { OnOk result (sealed_changes self.new tokens.now.changes
            ≡ over (staged_changes self.old tokens.now.changes) (sealed_changes self.old tokens.now.changes)) }
        ensures staged { OnOk result (staged_changes self.new tokens.now.changes ≡ map.empty) }
        ensures unchanged { OnErr result (self.new ≡ record self.old { spare = self.new.spare }) }
        ensures version { self.new.version ≡ self.old.version }
        ensures head { self.new.head ≡ self.old.head }
        ensures room { 1 ≤ self.old.spare → IsOk result }
    {
        if tokens.has_changes(self.staging()) {
            self.put_fresh(fresh)?;
        }
        Ok(())
    }

    /// Drops the sealed changes. It takes no memory.
    pub fn drop_sealed(&mut self, tokens: &mut Tokens)
        ensures branch { self.new ≡ record self.old { sealed = []; spare = self.new.spare } }
        ensures changes { tokens.new.changes ≡ with_each self.old.sealed (λ _. map.empty) tokens.old.changes }
    {
        reset_all(tokens, self.sealed(), &ResetWhat::All);
        self.clear_sealed();
    }

    /// Drops the changes that the reset names, staged and sealed. It needs no memory, and can't be refused.
    pub fn reset(&self, tokens: &mut Tokens, what: &ResetWhat)
        ensures { tokens.new.changes
            ≡ with_each (named_tokens self.now) (changes_after_reset what.now) tokens.old.changes }
    {
        reset_all(tokens, self.sealed(), what);
        tokens.reset(self.staging(), what);
    }
}

// Drops the changes under each of these tokens that the reset names.
fn reset_all(tokens: &mut Tokens, named: &[u64], what: &ResetWhat)
    requires { AreDistinct named.now }
    ensures { tokens.new.changes ≡ with_each named.now (changes_after_reset what.now) tokens.old.changes }
{
    for token in named {
        tokens.reset(*token, what);
    }
}
