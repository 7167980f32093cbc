//! Lists of rules.
ghost use Rattle.std.specs.Prelude.{◌≢◌, IfErr};
ghost use Rattle.serde_json.specs.View.{view, items_view};
ghost use Rattle.setting_forms.specs.Forms.{IsReadAs, few_of, list_of};
ghost use Rattle.setting_forms.specs.declared.fault.RuleFault.TheVariants.{NoMemory as rule_no_memory};

use crate::fault::RuleFault;
use lake_base::limits::SETTING_LIMIT;
use serde_json::Value;

/// The members of a list of at most 256. It takes no memory.
pub fn rule_list(value: &Value) -> Result<&[Value], RuleFault>
    ensures members { IsReadAs (λ list. items_view list.now) result (list_of (view value.now)) }
    ensures sure { IfErr result (λ fault. fault ≢ rule_no_memory) }
{
    match value.as_array() {
        Some(list) => few(list.as_slice()),
        None => Err(RuleFault::NotList),
    }
}

// The same members, where they are at most 256.
pub(crate) fn few(list: &[Value]) -> Result<&[Value], RuleFault>
    ensures members { IsReadAs (λ list. items_view list.now) result (few_of (items_view list.now)) }
    ensures sure { IfErr result (λ fault. fault ≢ rule_no_memory) }
{
    if list.len() > SETTING_LIMIT {
        return Err(RuleFault::TooMany(list.len()));
    }
    Ok(list)
}
