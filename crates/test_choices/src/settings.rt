//! Retention, a setting that no crate of the choices reads yet, by the words of `setting_forms`; and what a fault is
//! written as in tables.
use serde_json::Value;
use setting_forms::{RuleFault, RuleObject};
use std::alloc::Global;
use std::test::Fail;

// A fault as tables write it: the rule's number and the field.
pub(crate) fn fault_told(alloc: Global, fault: RuleFault) -> Result<String, Fail> {
    match fault {
        RuleFault::NotList => Ok(String::from_str(alloc, "NotList")?),
        RuleFault::NotObject(rule) => Ok(format!(in alloc; "NotObject {rule}")?),
        RuleFault::Field { rule, name } => Ok(format!(in alloc; "{rule} {}", name.as_str())?),
        RuleFault::TooMany(count) => Ok(format!(in alloc; "TooMany {count}")?),
        RuleFault::NoMemory => Ok(String::from_str(alloc, "NoMemory")?),
    }
}

// Retention as it would be read: the default days, and how many branches have days of their own.
fn retention(alloc: Global, value: &Value) -> Result<(u64, usize), RuleFault> {
    let object = RuleObject::of(value, 0)?;
    let days = object.number(alloc, "default_retention_days", 1, 36500)?;
    let branches = object.list(alloc, "branches")?;
    for (rule, member) in branches.iter().enumerate() {
        let branch = RuleObject::of(member, rule)?;
        let _name = branch.text(alloc, "branch_id", 1, 255)?;
        let _days = branch.number(alloc, "retention_days", 1, 36500)?;
    }
    Ok((days, branches.len()))
}

// Texts of retention, with the default days and the number of branches, or the fault.
static RETENTION: [(&str, &str); 8] = [
    ("{\"default_retention_days\":5}", "5 0"),
    (
        "{\"branches\":[{\"branch_id\":\"main\",\"retention_days\":36500}],\"default_retention_days\":1}",
        "1 1",
    ),
    ("[]", "NotObject 0"),
    ("{}", "0 default_retention_days"),
    (
        "{\"default_retention_days\":36501}",
        "0 default_retention_days",
    ),
    (
        "{\"default_retention_days\":5,\"branches\":null}",
        "0 branches",
    ),
    (
        "{\"default_retention_days\":5,\"branches\":[{\"branch_id\":\"\",\"retention_days\":null}]}",
        "0 branch_id",
    ),
    (
        "{\"default_retention_days\":5,\"branches\":[{\"branch_id\":\"a\",\"retention_days\":9},{\"branch_id\":\"a\",\
        \"retention_days\":-1}]}",
        "1 retention_days",
    ),
];

// What is read of a text.
fn told(alloc: Global, text: &str) -> Result<String, Fail> {
    let value = Value::from_str(alloc, text)?;
    match retention(alloc, &value) {
        Ok((days, count)) => Ok(format!(in alloc; "{days} {count}")?),
        Err(fault) => fault_told(alloc, fault),
    }
}

#[test]
fn retention_is_read_by_these_words(rt: HostRuntime) -> Result<(), Fail> {
    for (text, due) in &RETENTION {
        assert_eq!(rt; told(rt.alloc(), text)?.as_str(), *due);
    }
    Ok(())
}
