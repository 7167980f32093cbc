//! The settings that texts spell.
ghost use Rattle.std.specs.Prelude.{◌≡◌, ℕ, List, Some, IfOk, MatchOption, option_map};
ghost use Rattle.std.specs.Result.{result_ok};
ghost use Rattle.serde_json.specs.View.{view};
ghost use Rattle.lake_values.specs.declared.settings.HookRules.{HookRules as AnyRules};
ghost use Rattle.hook_rules.specs.HookForms.{hooks_of, hooks_text, protection_of, protection_text};
ghost use Rattle.pair_trees.specs.SettingTexts.{IsSettingText, IsTextOf, data_of};

use hook_rules::{read_hooks, read_protection, write_hooks, write_protection};
use lake_base::NoMemory;
use lake_values::{HookRules, Note, NoteName, Protection};
use serde_json::Value;
use setting_forms::RuleFault;
use std::alloc::Global;

/// The setting of a name of which this is the text. Retention has no text yet, so none is one of it.
pub fn read_note(alloc: Global, name: NoteName, text: &[u8]) -> Result<Option<Note>, NoMemory>
    ensures { IfOk result (λ note. MatchOption note (¬ IsSettingText name text.now) (IsTextOf name text.now)) }
{
    let Some(value) = json_of(alloc, text)? else {
        return Ok(None);
    };
    match name {
        NoteName::Retention => Ok(None),
        NoteName::Protection => match kept_protection(alloc, &value, text)? {
            Some(patterns) => Ok(Some(Note::Protection(patterns))),
            None => Ok(None),
        },
        NoteName::Hooks => match kept_hooks(alloc, &value, text)? {
            Some(rules) => Ok(Some(Note::Hooks(rules))),
            None => Ok(None),
        },
    }
}

// What a text reads as, as JSON.
fn json_of(alloc: Global, text: &[u8]) -> Result<Option<Value>, NoMemory>
    ensures { IfOk result (λ value. option_map view value ≡ data_of text.now) }
{
    match Value::from_slice(alloc, text) {
        Ok(value) => Ok(Some(value)),
        Err(error) => {
            if error.is_memory() {
                return Err(NoMemory);
            }
            Ok(None)
        }
    }
}

// The protection that a value is, where this is its text.
fn kept_protection(
    alloc: Global,
    value: &Value,
    text: &[u8],
) -> Result<Option<Protection>, NoMemory>
    ensures { IfOk result (λ found. MatchOption found
        ((patterns : List (List ℕ)) → result_ok (protection_of (view value.now)) ≡ Some patterns
        → protection_text patterns ≡ text.now → ⊥)
        (λ patterns. (result_ok (protection_of (view value.now)) ≡ Some patterns)
        × (protection_text patterns ≡ text.now))) }
{
    let Some(patterns) = protection_in(alloc, value)? else {
        return Ok(None);
    };
    let own = write_protection(alloc, &patterns)?;
    if own.as_slice() == text {
        Ok(Some(patterns))
    } else {
        Ok(None)
    }
}

// The protection that a value is.
fn protection_in(alloc: Global, value: &Value) -> Result<Option<Protection>, NoMemory>
    ensures { IfOk result (λ found. found ≡ result_ok (protection_of (view value.now))) }
{
    match read_protection(alloc, value) {
        Ok(patterns) => Ok(Some(patterns)),
        Err(RuleFault::NoMemory) => Err(NoMemory),
        Err(_) => Ok(None),
    }
}

// The hooks that a value is, where this is their text.
fn kept_hooks(alloc: Global, value: &Value, text: &[u8]) -> Result<Option<HookRules>, NoMemory>
    ensures { IfOk result (λ found. MatchOption found
        ((rules : AnyRules) → result_ok (hooks_of (view value.now)) ≡ Some rules → hooks_text rules ≡ text.now → ⊥)
        (λ rules. (result_ok (hooks_of (view value.now)) ≡ Some rules) × (hooks_text rules ≡ text.now))) }
{
    let Some(rules) = hooks_in(alloc, value)? else {
        return Ok(None);
    };
    let own = write_hooks(alloc, &rules)?;
    if own.as_slice() == text {
        Ok(Some(rules))
    } else {
        Ok(None)
    }
}

// The hooks that a value is.
fn hooks_in(alloc: Global, value: &Value) -> Result<Option<HookRules>, NoMemory>
    ensures { IfOk result (λ found. found ≡ result_ok (hooks_of (view value.now))) }
{
    match read_hooks(alloc, value) {
        Ok(rules) => Ok(Some(rules)),
        Err(RuleFault::NoMemory) => Err(NoMemory),
        Err(_) => Ok(None),
    }
}
