//! Protected branches: read from JSON, and as the text that is kept.
ghost use Rattle.std.specs.Prelude.{◌≡◌, ℕ, List, Ok, Some, IfOk, option_map};
ghost use Rattle.serde_json.specs.Read.{read};
ghost use Rattle.serde_json.specs.View.{view};
ghost use Rattle.lake_values.specs.Settings.{IsProtection};
ghost use Rattle.setting_forms.specs.Forms.{IsReadAs};
ghost use Rattle.hook_rules.specs.HookForms.{pattern_of, protection_of, pattern_data, protection_data, protection_text};

use crate::pattern::read_pattern;
use lake_base::outside::NoMemory;
use lake_base::sequence::Sequence;
use lake_base::text::Text;
use lake_values::settings::Protection;
use serde_json::{Map, Value};
use setting_forms::{RuleFault, RuleObject, rule_list};
use std::alloc::Global;

/// Protection, where the value is of the form: a list of at most 256 objects with a `pattern` of 1 to 255 bytes of
/// `[A-Za-z0-9_*-]`. Other fields are passed over. Each fault comes exactly where it is the first.
pub fn read_protection(alloc: Global, value: &Value) -> Result<Protection, RuleFault>
    ensures { IsReadAs (λ patterns. patterns) result (protection_of (view value.now)) }
{
    let list = rule_list(value)?;
    let mut patterns = Vec::with_capacity(alloc, list.len())?;
    for (rule, member) in list.iter().enumerate() {
        patterns.push(pattern_at(alloc, member, rule)?)?;
    }
    Ok(Protection {
        patterns: Sequence::of(patterns),
    })
}

// The rule of this number.
fn pattern_at(alloc: Global, value: &Value, rule: usize) -> Result<Text, RuleFault>
    ensures { IsReadAs (λ text. text) result (pattern_of rule (view value.now)) }
{
    let object = RuleObject::of(value, rule)?;
    read_pattern(alloc, &object, "pattern")
}

/// Protection as it is kept: the compact JSON of the patterns alone, as `[{"pattern":"ma*"}]`. It reads back as
/// the same.
pub fn write_protection(alloc: Global, protection: &Protection) -> Result<Vec<u8>, NoMemory>
    ensures text { IfOk result (λ text. text.items ≡ protection_text protection.now) }
    ensures reads_back { IfOk result (λ text. option_map protection_of (read text.items) ≡ Some (Ok protection.now)) }
{
    let patterns = protection.patterns.as_slice();
    let mut list = Vec::with_capacity(alloc, patterns.len())?;
    for pattern in patterns {
        list.push(pattern_value(alloc, pattern)?)?;
    }
    Ok(Value::Array(list).to_vec(alloc)?)
}

// A pattern as it is kept.
fn pattern_value(alloc: Global, pattern: &Text) -> Result<Value, NoMemory>
    ensures { IfOk result (λ value. view value ≡ pattern_data pattern.now) }
{
    let mut object = Map::new(alloc);
    serde_json::put(
        &mut object,
        alloc,
        "pattern",
        Value::try_from_str(alloc, pattern.as_str())?,
    )?;
    Ok(Value::Object(object))
}

/// What is kept of protection reads back as the same. (A law: it does nothing.)
pub fn law_of_protection()
    ensures data { (patterns : List (List ℕ)) → IsProtection patterns
        → protection_of (protection_data patterns) ≡ Ok patterns }
    ensures text { (patterns : List (List ℕ)) → read (protection_text patterns) ≡ Some (protection_data patterns) }
{}
