//! An object with a rule's number, and the readers of its fields.
ghost use Rattle.std.specs.Prelude.{◌≡◌, ◌≢◌, ◌⊎◌, IfOk, IfErr};
ghost use Rattle.serde_json.specs.View.{view, items_view};
ghost use Rattle.setting_forms.specs.Forms.{IsReadAs, object_of, field_of, text_within, whole_number, number_within};
ghost use Rattle.setting_forms.specs.Forms.{list_field_of};
ghost use Rattle.setting_forms.specs.declared.fault.RuleFault.TheVariants.{NoMemory as rule_no_memory};

use crate::fault::RuleFault;
use crate::list::few;
use lake_base::outside::NoMemory;
use lake_base::text::Text;
use serde_json::Value;
use std::alloc::Global;

/// A rule's number and its object. A setting that is one object has the number 0.
#[derive(Clone, Copy)]
pub struct RuleObject<'a> {
    pub rule: usize,
    pub object: &'a Value,
}

/// A text of these bytes.
pub fn text_of(alloc: Global, text: &str) -> Result<Text, NoMemory>
    ensures { IfOk result (λ t. t ≡ text.now) }
{
    match Text::read(alloc, text.as_bytes(), text.len()) {
        Ok(text) => Ok(text),
        Err(_) => Err(NoMemory),
    }
}

impl<'a> RuleObject<'a> {
    /// The rule of this number, where the value is an object. It takes no memory.
    pub fn of(value: &'a Value, rule: usize) -> Result<RuleObject<'a>, RuleFault>
        ensures object { IsReadAs (λ o. view o.object.now) result (object_of rule (view value.now)) }
        ensures number { IfOk result (λ o. o.rule ≡ rule) }
        ensures sure { IfErr result (λ fault. fault ≢ rule_no_memory) }
    {
        if value.is_object() {
            Ok(RuleObject {
                rule,
                object: value,
            })
        } else {
            Err(RuleFault::NotObject(rule))
        }
    }

    /// The fault of the field of this name, or NoMemory.
    pub fn fault(&self, alloc: Global, name: &str) -> RuleFault
        ensures { (result ≡ RuleFault.NoMemory) ⊎ (result ≡ RuleFault.Field self.now.rule name.now) }
    {
        match text_of(alloc, name) {
            Ok(name) => RuleFault::Field {
                rule: self.rule,
                name,
            },
            Err(NoMemory) => RuleFault::NoMemory,
        }
    }

    /// The field of this name, a text of `least` to `most` bytes.
    pub fn text(
        &self,
        alloc: Global,
        name: &str,
        least: usize,
        most: usize,
    ) -> Result<&'a str, RuleFault>
        ensures { IsReadAs (λ text. text.now) result
            (field_of (text_within least most) name.now self.now.rule (view self.now.object.now)) }
    {
        match self.object.get(name).and_then(Value::as_str) {
            Some(text) if least <= text.len() && text.len() <= most => Ok(text),
            _ => Err(self.fault(alloc, name)),
        }
    }

    /// The field of this name, a whole number of 64 bits: without a sign, a fraction and an exponent.
    pub fn whole(&self, alloc: Global, name: &str) -> Result<u64, RuleFault>
        ensures { IsReadAs (λ n. n) result
            (field_of whole_number name.now self.now.rule (view self.now.object.now)) }
    {
        match self.object.get(name).and_then(Value::as_u64) {
            Some(number) => Ok(number),
            None => Err(self.fault(alloc, name)),
        }
    }

    /// The field of this name, a whole number of `least` to `most`.
    pub fn number(&self, alloc: Global, name: &str, least: u64, most: u64) -> Result<u64, RuleFault>
        ensures { IsReadAs (λ n. n) result
            (field_of (number_within least most) name.now self.now.rule (view self.now.object.now)) }
    {
        match self.object.get(name).and_then(Value::as_u64) {
            Some(number) if least <= number && number <= most => Ok(number),
            _ => Err(self.fault(alloc, name)),
        }
    }

    /// The list of this name, of at most 256 members; empty where there is none.
    pub fn list(&self, alloc: Global, name: &str) -> Result<&'a [Value], RuleFault>
        ensures { IsReadAs (λ list. items_view list.now) result
            (list_field_of name.now self.now.rule (view self.now.object.now)) }
    {
        match self.object.get(name) {
            None => Ok(&[]),
            Some(value) => match value.as_array() {
                Some(list) => few(list.as_slice()),
                None => Err(self.fault(alloc, name)),
            },
        }
    }
}
