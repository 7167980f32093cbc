//! The record of a branch.
ghost use Rattle.std.specs.Prelude.{◌≡◌, ◌∷◌, ◌≤◌, ◌↔◌, [], false, IsTrue, IsOk, IfOk, OnOk, OnErr};
ghost use Rattle.std.specs.BTreeSet.{IsFromIterResult};
ghost use Rattle.std.specs.Ordering.{nat_cmp};
ghost use Rattle.branch_record.specs.Record.{AreDistinct, named_tokens, is_among};

use lake_base::outside::NoMemory;
use lake_values::commit::CommitId;
use std::alloc::Global;
use std::collections::BTreeSet;
use std::marker::Model;

/// A branch's version and head, the token under which its changes are staged, and its sealed tokens, newest first.
/// The tokens that it names differ. Contracts see these, and for how many sealed tokens more it has room.
///
/// As an example, a branch stages under 7 and has no sealed token. A seal with the fresh token 8 makes it stage under
/// 8, with 7 sealed, and one more with 9 stage under 9, with 8 and 7 sealed. Where nothing was staged under 8, the
/// second seal changes nothing.
#[derive(Debug, Drop)]
pub struct BranchRecord {
    version: u64,
    head: CommitId,
    staging: u64,
    // Newest first.
    sealed: Vec<u64>,
}

impl Model for BranchRecord {
    ghost use Rattle.std.specs.Prelude.{◌-◌, ◌∷◌, vec_len};
    ghost use Rattle.std.specs.Vec.{vec_capacity};
    ghost use Rattle.branch_record.specs.Record.{BranchRecordValue, AreDistinct};

    ghost Value = { BranchRecordValue };

    ghost view = { λ r. record {
      version = r.version;
      head = r.head;
      staging = r.staging;
      sealed = r.sealed.items;
      spare = vec_capacity r.sealed - vec_len r.sealed;
    } };

    ghost invariant = { λ r. AreDistinct (r.staging ∷ r.sealed.items) };
}

impl BranchRecord {
    /// The record of these, whose tokens differ: `are_distinct` tells. It takes no memory.
    pub fn new(version: u64, head: CommitId, staging: u64, sealed: Vec<u64>) -> BranchRecord
        requires { AreDistinct (staging ∷ sealed.items) }
        ensures { result ≡ record {
          version = version;
          head = head;
          staging = staging;
          sealed = sealed.items;
          spare = result.spare;
        } }
    {
        BranchRecord {
            version,
            head,
            staging,
            sealed,
        }
    }

    /// The record of a branch with no changes. It takes no memory.
    pub fn fresh(alloc: Global, version: u64, head: CommitId, staging: u64) -> BranchRecord
        ensures { result
            ≡ record { version = version; head = head; staging = staging; sealed = []; spare = result.spare } }
    {
        BranchRecord {
            version,
            head,
            staging,
            sealed: Vec::new(alloc),
        }
    }

    /// Its version. It takes no memory.
    pub fn version(&self) -> u64
        ensures { result ≡ self.now.version }
    {
        self.version
    }

    /// Its head. It takes no memory.
    pub fn head(&self) -> CommitId
        ensures { result ≡ self.now.head }
    {
        self.head
    }

    /// The token under which its changes are staged. It takes no memory.
    pub fn staging(&self) -> u64
        ensures token { result ≡ self.now.staging }
        ensures distinct { AreDistinct (named_tokens self.now) }
    {
        let _ = &self.sealed;
        self.staging
    }

    /// Its sealed tokens, newest first. It takes no memory.
    pub fn sealed(&self) -> &[u64]
        ensures tokens { result.now ≡ self.now.sealed }
        ensures distinct { AreDistinct (named_tokens self.now) }
    {
        self.sealed.as_slice()
    }

    /// Whether it names a token. It takes no memory.
    pub fn names(&self, token: u64) -> bool
        ensures { result ≡ is_among (named_tokens self.now) token }
    {
        self.staging == token || self.sealed.as_slice().contains(&token)
    }

    /// Gives it another version. It takes no memory.
    pub fn set_version(&mut self, version: u64)
        ensures { self.new ≡ record self.old { version = version } }
    {
        self.version = version;
    }

    /// Gives it another head. It takes no memory.
    pub fn set_head(&mut self, head: CommitId)
        ensures { self.new ≡ record self.old { head = head } }
    {
        self.head = head;
    }

    // Makes room for one sealed token more.
    pub(crate) fn make_room(&mut self) -> Result<(), NoMemory>
        ensures same { self.new ≡ record self.old { spare = self.new.spare } }
        ensures room { OnOk result (1 ≤ self.new.spare) }
    {
        self.sealed.reserve(1)?;
        Ok(())
    }

    // Puts a fresh token in the staging token's place, and that one first of the sealed ones.
    pub(crate) fn put_fresh(&mut self, fresh: u64) -> Result<(), NoMemory>
        requires { is_among (named_tokens self.old) fresh ≡ false }
        ensures put { OnOk result (self.new ≡ record self.old {
          staging = fresh;
          sealed = self.old.staging ∷ self.old.sealed;
          spare = self.new.spare;
        }) }
        ensures unchanged { OnErr result (self.new ≡ record self.old { spare = self.new.spare }) }
        ensures room { 1 ≤ self.old.spare → IsOk result }
    {
        self.sealed.insert(0, self.staging)?;
        self.staging = fresh;
        Ok(())
    }

    // Leaves it no sealed token.
    pub(crate) fn clear_sealed(&mut self)
        ensures { self.new ≡ record self.old { sealed = []; spare = self.new.spare } }
    {
        self.sealed.clear();
    }
}

/// Whether the tokens of a record differ: the staging token, and the sealed ones.
pub fn are_distinct(alloc: Global, staging: u64, sealed: &[u64]) -> Result<bool, NoMemory>
    ensures { IfOk result (λ distinct. IsTrue distinct ↔ AreDistinct (staging ∷ sealed.now)) }
{
    if sealed.contains(&staging) {
        return Ok(false);
    }
    let tokens = set_of(alloc, sealed)?;
    Ok(tokens.len() == sealed.len())
}

// The set of these tokens.
fn set_of(alloc: Global, tokens: &[u64]) -> Result<BTreeSet<u64>, NoMemory>
    ensures { IfOk result (IsFromIterResult nat_cmp tokens.now) }
{
    Ok(tokens.iter().copied().collect(alloc)?)
}
