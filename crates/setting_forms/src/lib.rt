//! What the settings of a repository are as JSON: lists of rules, each an object with named fields.
//!
//! - `fault`: why a value isn't a setting, with a rule and in it a field that is to blame.
//! - `object`: an object with a rule's number, and the readers of its fields.
//! - `list`: lists of rules.
//!
//! The promise to the layer above: a reader takes any value, and answers exactly what the definitions in `specs/`
//! say of it, unless memory runs out.
#![tactic(auto)]

mod fault;
mod list;
mod object;

pub use fault::RuleFault;
pub use list::rule_list;
pub use object::{RuleObject, text_of};
