//! One small setting of each kind.
use crate::words::{ref_name, text};
use lake_base::Sequence;
use lake_values::{BranchDays, Deny, HookRule, HookRules, Note, NoteName, Protection, Rules};
use std::alloc::Global;
use std::test::Fail;

/// Retention of 30 days, and of 7 for the branch `dev`.
pub fn rules(alloc: Global) -> Result<Rules, Fail> {
    let branch = ref_name(alloc, "dev")?;
    let mut branches = Vec::new(alloc);
    branches.push(BranchDays { branch, days: 7 })?;
    Ok(Rules {
        default_days: 30,
        branches: Sequence::of(branches),
    })
}

/// Protection of the branches `dev`, and of those that begin with `ma`.
pub fn protection(alloc: Global) -> Result<Protection, Fail> {
    let (first, second) = (text(alloc, "dev")?, text(alloc, "ma*")?);
    let mut patterns = Vec::new(alloc);
    patterns.push(first)?;
    patterns.push(second)?;
    Ok(Protection {
        patterns: Sequence::of(patterns),
    })
}

/// One rule of hooks: no branch takes an entry of more than 9 bytes.
pub fn hooks(alloc: Global) -> Result<HookRules, Fail> {
    let branch = text(alloc, "*")?;
    let deny = Deny::MaxSize(9);
    let mut rules = Vec::new(alloc);
    rules.push(HookRule { branch, deny })?;
    Ok(HookRules {
        rules: Sequence::of(rules),
    })
}

/// The setting of this kind.
pub fn note(alloc: Global, name: NoteName) -> Result<Note, Fail> {
    match name {
        NoteName::Retention => Ok(Note::Retention(rules(alloc)?)),
        NoteName::Protection => Ok(Note::Protection(protection(alloc)?)),
        NoteName::Hooks => Ok(Note::Hooks(hooks(alloc)?)),
    }
}
