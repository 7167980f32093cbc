//! What hooks decide of an event, and which pattern protects a branch.
ghost use Rattle.std.specs.Prelude.{◌≡◌, is_none, nat_eq};
ghost use Rattle.std.specs.FinMap.{entries, find};
ghost use Rattle.std.specs.List.{list_any, starts_with};
ghost use Rattle.lake_values.specs.HookDecisions.{protecting_pattern, puts_more, forbids, denies, denying_rule};
ghost use Rattle.lake_base.specs.Maps.{byte_order};
ghost use Rattle.hook_rules.specs.HookDecision.{decision_of};

use crate::pattern::matches;
use lake_base::names::RefName;
use lake_values::changes::Changes;
use lake_values::entry::Change;
use lake_values::pairs::Pairs;
use lake_values::settings::{Deny, HookRule, HookRules, Protection};

/// What hooks are asked of: a branch, the metadata of the commit that is to become its head, and the changes by
/// which the new map differs from the head's.
#[derive(Clone, Copy)]
pub struct Event<'a> {
    pub branch: &'a RefName,
    pub metadata: &'a Pairs,
    pub changes: &'a Changes,
}

/// What hooks answer.
#[derive(Clone, Copy, Debug, PartialEq, Eq)]
pub enum Decision {
    /// No rule denies.
    Allow,
    /// The rule of this number denies, counted from 0, and none before it does.
    Deny(usize),
}

/// What the rules decide of an event: denied by the first rule that denies, and else allowed. A rule denies
/// where its pattern matches the branch, and the metadata lacks its key, a changed path begins with its prefix,
/// an entry that is put has a greater size, or more paths change. It takes no memory.
pub fn decide(rules: &HookRules, event: &Event<'_>) -> Decision
    ensures { result
        ≡ decision_of (denying_rule rules.now event.now.branch.now event.now.metadata.now event.now.changes.now) }
{
    match denied_by(rules, event) {
        Some(rule) => Decision::Deny(rule),
        None => Decision::Allow,
    }
}

/// The number of the first pattern that matches the branch, counted from 0. It takes no memory.
pub fn protects(protection: &Protection, branch: &RefName) -> Option<usize>
    ensures { result ≡ protecting_pattern protection.now branch.now }
{
    protection
        .patterns
        .as_slice()
        .iter()
        .position(|pattern| matches(pattern.as_slice(), branch.as_slice()))
}

// The number of the first rule that denies.
fn denied_by(rules: &HookRules, event: &Event<'_>) -> Option<usize>
    ensures { result ≡ denying_rule rules.now event.now.branch.now event.now.metadata.now event.now.changes.now }
{
    rules
        .rules
        .as_slice()
        .iter()
        .position(|rule| denies(rule, event))
}

// Whether a rule denies.
fn denies(rule: &HookRule, event: &Event<'_>) -> bool
    ensures { result ≡ denies event.now.branch.now event.now.metadata.now event.now.changes.now rule.now }
{
    matches(rule.branch.as_slice(), event.branch.as_slice()) && forbids(&rule.deny, event)
}

// Whether a rule of any branch would deny.
fn forbids(deny: &Deny, event: &Event<'_>) -> bool
    ensures { result ≡ forbids deny.now event.now.metadata.now event.now.changes.now }
{
    match deny {
        Deny::RequireMeta(key) => lacks(event.metadata, key.as_slice()),
        Deny::DenyPrefix(prefix) => touches(event.changes, prefix.as_slice()),
        Deny::MaxSize(bytes) => puts_any(event.changes, *bytes),
        Deny::MaxChanges(count) => event.changes.len() as u64 > *count,
    }
}

// Whether no pair has this key.
fn lacks(metadata: &Pairs, key: &[u8]) -> bool
    ensures { result ≡ is_none (find byte_order key.now metadata.now) }
{
    metadata
        .as_slice()
        .iter()
        .all(|pair| pair.0.as_slice() != key)
}

// Whether a changed path begins with this.
fn touches(changes: &Changes, prefix: &[u8]) -> bool
    ensures { result ≡ list_any (λ change. starts_with nat_eq change.0 prefix.now) (entries changes.now) }
{
    changes
        .as_slice()
        .iter()
        .any(|change| change.0.as_slice().starts_with(prefix))
}

// Whether an entry of more than so many bytes is put at some path.
fn puts_any(changes: &Changes, bytes: u64) -> bool
    ensures { result ≡ list_any (λ change. puts_more bytes change.1) (entries changes.now) }
{
    changes
        .as_slice()
        .iter()
        .any(|change| puts_more(bytes, &change.1))
}

// Whether an entry of more than so many bytes is put.
fn puts_more(bytes: u64, change: &Change) -> bool
    ensures { result ≡ puts_more bytes change.now }
{
    match change {
        Change::Put(entry) => bytes < entry.size,
        Change::Delete => false,
    }
}
