//! Hooks: read from JSON, and as the text that is kept.
ghost use Rattle.std.specs.Prelude.{◌≡◌, ℕ, List, Ok, Some, IfOk, option_map, codes};
ghost use Rattle.serde_json.specs.Read.{read};
ghost use Rattle.serde_json.specs.View.{view};
ghost use Rattle.lake_values.specs.Settings.{AreHooks};
ghost use Rattle.lake_values.specs.declared.settings.HookRule.{HookRule as Hook};
ghost use Rattle.std.specs.List.{AllByRecursion};
ghost use Rattle.setting_forms.specs.Forms.{IsReadAs, field_of};
ghost use Rattle.hook_rules.specs.HookForms.{hook_type, denial, field_name, type_of, field_data, hook_of, hooks_of};
ghost use Rattle.hook_rules.specs.HookForms.{hook_data, hooks_data, hooks_text, HasNumber};

use crate::hook_type::HookType;
use crate::pattern::read_pattern;
use lake_base::outside::NoMemory;
use lake_base::sequence::Sequence;
use lake_values::settings::{Deny, HookRule, HookRules};
use serde_json::{Map, Value};
use setting_forms::{RuleFault, RuleObject, rule_list, text_of};
use std::alloc::Global;

/// Hooks, where the value is of the form: a list of at most 256 objects with a `type`, a `branch` (a pattern of 1
/// to 255 bytes of `[A-Za-z0-9_*-]`) and the field of the type. Other fields are passed over. Each fault comes
/// exactly where it is the first, and an unknown type is a fault of the field `type`.
///
/// | type | field |
/// |---|---|
/// | `require_meta` | `key`, of 1 to 128 bytes |
/// | `deny_prefix` | `prefix`, of 1 to 1,024 bytes |
/// | `max_size` | `bytes`, a whole number of 64 bits |
/// | `max_changes` | `count`, a whole number of 64 bits |
pub fn read_hooks(alloc: Global, value: &Value) -> Result<HookRules, RuleFault>
    ensures { IsReadAs (λ rules. rules) result (hooks_of (view value.now)) }
{
    let list = rule_list(value)?;
    let mut rules = Vec::with_capacity(alloc, list.len())?;
    for (rule, member) in list.iter().enumerate() {
        rules.push(hook_at(alloc, member, rule)?)?;
    }
    Ok(HookRules {
        rules: Sequence::of(rules),
    })
}

// The rule of this number.
fn hook_at(alloc: Global, value: &Value, rule: usize) -> Result<HookRule, RuleFault>
    ensures { IsReadAs (λ hook. hook) result (hook_of rule (view value.now)) }
{
    let object = RuleObject::of(value, rule)?;
    let hook = read_type(alloc, &object)?;
    let branch = read_pattern(alloc, &object, "branch")?;
    let deny = read_denial(alloc, &object, hook)?;
    Ok(HookRule { branch, deny })
}

// The field `type`.
fn read_type(alloc: Global, object: &RuleObject<'_>) -> Result<HookType, RuleFault>
    ensures { IsReadAs (λ hook. hook) result
        (field_of hook_type (codes "type") object.now.rule (view object.now.object.now)) }
{
    match object
        .object
        .get("type")
        .and_then(Value::as_str)
        .and_then(HookType::named)
    {
        Some(hook) => Ok(hook),
        None => Err(object.fault(alloc, "type")),
    }
}

// The field of a type, and so what is denied.
fn read_denial(alloc: Global, object: &RuleObject<'_>, hook: HookType) -> Result<Deny, RuleFault>
    ensures { IsReadAs (λ deny. deny) result
        (field_of (denial hook) (field_name hook) object.now.rule (view object.now.object.now)) }
{
    let name = hook.field();
    match hook {
        HookType::RequireMeta => {
            let key = object.text(alloc, name, 1, 128)?;
            Ok(Deny::RequireMeta(text_of(alloc, key)?))
        }
        HookType::DenyPrefix => {
            let prefix = object.text(alloc, name, 1, 1024)?;
            Ok(Deny::DenyPrefix(text_of(alloc, prefix)?))
        }
        HookType::MaxSize => Ok(Deny::MaxSize(object.whole(alloc, name)?)),
        HookType::MaxChanges => Ok(Deny::MaxChanges(object.whole(alloc, name)?)),
    }
}

/// Hooks as they are kept: the compact JSON of the named fields alone, keys in byte order, as
/// `[{"branch":"ma*","key":"owner","type":"require_meta"}]`. It reads back as the same.
pub fn write_hooks(alloc: Global, rules: &HookRules) -> Result<Vec<u8>, NoMemory>
    ensures text { IfOk result (λ text. text.items ≡ hooks_text rules.now) }
    ensures reads_back { IfOk result (λ text. option_map hooks_of (read text.items) ≡ Some (Ok rules.now)) }
{
    let rules = rules.rules.as_slice();
    let mut list = Vec::with_capacity(alloc, rules.len())?;
    for rule in rules {
        list.push(hook_value(alloc, rule)?)?;
    }
    Ok(Value::Array(list).to_vec(alloc)?)
}

// A rule as it is kept.
fn hook_value(alloc: Global, rule: &HookRule) -> Result<Value, NoMemory>
    ensures { IfOk result (λ value. view value ≡ hook_data rule.now) }
{
    let hook = type_of(&rule.deny);
    let mut object = Map::new(alloc);
    serde_json::put(
        &mut object,
        alloc,
        "branch",
        Value::try_from_str(alloc, rule.branch.as_str())?,
    )?;
    serde_json::put(
        &mut object,
        alloc,
        hook.field(),
        field_value(alloc, &rule.deny)?,
    )?;
    serde_json::put(
        &mut object,
        alloc,
        "type",
        Value::try_from_str(alloc, hook.name())?,
    )?;
    Ok(Value::Object(object))
}

// The type of a rule that denies this.
fn type_of(deny: &Deny) -> HookType
    ensures { result ≡ type_of deny.now }
{
    match deny {
        Deny::RequireMeta(_) => HookType::RequireMeta,
        Deny::DenyPrefix(_) => HookType::DenyPrefix,
        Deny::MaxSize(_) => HookType::MaxSize,
        Deny::MaxChanges(_) => HookType::MaxChanges,
    }
}

// What the field of its type has.
fn field_value(alloc: Global, deny: &Deny) -> Result<Value, NoMemory>
    ensures { IfOk result (λ value. view value ≡ field_data deny.now) }
{
    match deny {
        Deny::RequireMeta(key) => Ok(Value::try_from_str(alloc, key.as_str())?),
        Deny::DenyPrefix(prefix) => Ok(Value::try_from_str(alloc, prefix.as_str())?),
        Deny::MaxSize(bytes) => Ok(Value::from(*bytes)),
        Deny::MaxChanges(count) => Ok(Value::from(*count)),
    }
}

/// What is kept of hooks reads back as the same. (A law: it does nothing.)
pub fn law_of_hooks()
    ensures data { (rules : List Hook) → AreHooks rules → hooks_of (hooks_data rules) ≡ Ok rules }
    ensures text { (rules : List Hook) → AllByRecursion (λ rule. HasNumber rule.deny) rules
        → read (hooks_text rules) ≡ Some (hooks_data rules) }
{}
