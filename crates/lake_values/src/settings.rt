//! The settings of a repository: retention, protection and hooks.
ghost use Rattle.std.specs.Prelude.{◌≡◌};
ghost use Rattle.lake_values.specs.NoteNames.{note_name};

use lake_base::copying::TryCopy;
use lake_base::names::RefName;
use lake_base::outside::NoMemory;
use lake_base::sequence::Sequence;
use lake_base::text::Text;
use std::alloc::Global;
use std::marker::Model;

/// For how many days a branch keeps what it has left behind: 1 to 36,500 among `Rules`.
#[derive(Debug, Drop)]
pub struct BranchDays {
    pub branch: RefName,
    pub days: u32,
}

/// Retention: 1 to 36,500 days, and at most 256 branches with days of their own, of which the first rule of
/// a name counts. Contracts see its fields.
#[derive(Debug, Drop)]
pub struct Rules {
    pub default_days: u32,
    pub branches: Sequence<BranchDays>,
}

impl Model for Rules {
    ghost use Rattle.lake_values.specs.Settings.{RulesValue, IsRetention};

    ghost Value = { RulesValue };

    ghost view = { λ rules. record { default_days = rules.default_days; branches = rules.branches } };

    ghost invariant = { λ rules. IsRetention rules.default_days rules.branches };
}

/// The patterns of protected branches, at most 256. A pattern has 1 to 255 bytes of `[A-Za-z0-9_*-]`; `*`
/// stands for any bytes. Contracts see the list.
#[derive(Debug, Drop)]
pub struct Protection {
    pub patterns: Sequence<Text>,
}

impl Model for Protection {
    ghost use Rattle.std.specs.Prelude.{List, ℕ};
    ghost use Rattle.lake_values.specs.Settings.{IsProtection};

    ghost Value = { List (List ℕ) };

    ghost view = { λ protection. protection.patterns };

    ghost invariant = { λ protection. IsProtection protection.patterns };
}

/// What a hook rule denies.
#[derive(Debug, Drop)]
pub enum Deny {
    /// A commit whose metadata lacks this key, of 1 to 128 bytes among `HookRules`.
    RequireMeta(Text),
    /// A changed path that begins with this, of 1 to 1,024 bytes among `HookRules`.
    DenyPrefix(Text),
    /// An entry that is put with a greater size, in bytes.
    MaxSize(u64),
    /// More changed paths than this.
    MaxChanges(u64),
}

/// A rule that is asked for the branches that match its pattern.
#[derive(Debug, Drop)]
pub struct HookRule {
    pub branch: Text,
    pub deny: Deny,
}

/// At most 256 hook rules. Contracts see the list.
#[derive(Debug, Drop)]
pub struct HookRules {
    pub rules: Sequence<HookRule>,
}

impl Model for HookRules {
    ghost use Rattle.std.specs.Prelude.{List};
    ghost use Rattle.lake_values.specs.declared.settings.HookRule.{HookRule as Rule};
    ghost use Rattle.lake_values.specs.contracts.settings.HookRule.{the_row};
    ghost use Rattle.std.specs.Coded.{coded_list};

    ghost Value = { List Rule };

    ghost coded = { coded_list the_row.coded };

    ghost use Rattle.lake_values.specs.Settings.{AreHooks};

    ghost view = { λ hooks. hooks.rules };

    ghost invariant = { λ hooks. AreHooks hooks.rules };
}

/// One of the three settings.
#[derive(Debug, Drop)]
pub enum Note {
    Retention(Rules),
    Protection(Protection),
    Hooks(HookRules),
}

/// Which of the three settings it is.
#[derive(Clone, Copy, Debug, PartialEq, Eq)]
pub enum NoteName {
    Retention,
    Protection,
    Hooks,
}

impl Note {
    /// Which setting it is. It takes no memory.
    pub fn name(&self) -> NoteName
        ensures { result ≡ note_name self.now }
    {
        match self {
            Note::Retention(_) => NoteName::Retention,
            Note::Protection(_) => NoteName::Protection,
            Note::Hooks(_) => NoteName::Hooks,
        }
    }
}

impl TryCopy for BranchDays {
    fn copy(&self, alloc: Global) -> Result<BranchDays, NoMemory> {
        Ok(BranchDays {
            branch: self.branch.copy(alloc)?,
            days: self.days,
        })
    }
}

impl TryCopy for Rules {
    fn copy(&self, alloc: Global) -> Result<Rules, NoMemory> {
        Ok(Rules {
            default_days: self.default_days,
            branches: self.branches.copy(alloc)?,
        })
    }
}

impl TryCopy for Protection {
    fn copy(&self, alloc: Global) -> Result<Protection, NoMemory> {
        Ok(Protection {
            patterns: self.patterns.copy(alloc)?,
        })
    }
}

impl TryCopy for Deny {
    fn copy(&self, alloc: Global) -> Result<Deny, NoMemory> {
        match self {
            Deny::RequireMeta(key) => Ok(Deny::RequireMeta(key.copy(alloc)?)),
            Deny::DenyPrefix(prefix) => Ok(Deny::DenyPrefix(prefix.copy(alloc)?)),
            Deny::MaxSize(bytes) => Ok(Deny::MaxSize(*bytes)),
            Deny::MaxChanges(count) => Ok(Deny::MaxChanges(*count)),
        }
    }
}

impl TryCopy for HookRule {
    fn copy(&self, alloc: Global) -> Result<HookRule, NoMemory> {
        Ok(HookRule {
            branch: self.branch.copy(alloc)?,
            deny: self.deny.copy(alloc)?,
        })
    }
}

impl TryCopy for HookRules {
    fn copy(&self, alloc: Global) -> Result<HookRules, NoMemory> {
        Ok(HookRules {
            rules: self.rules.copy(alloc)?,
        })
    }
}

impl TryCopy for Note {
    fn copy(&self, alloc: Global) -> Result<Note, NoMemory> {
        match self {
            Note::Retention(rules) => Ok(Note::Retention(rules.copy(alloc)?)),
            Note::Protection(protection) => Ok(Note::Protection(protection.copy(alloc)?)),
            Note::Hooks(hooks) => Ok(Note::Hooks(hooks.copy(alloc)?)),
        }
    }
}
