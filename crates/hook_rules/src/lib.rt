//! Branch protection and hooks: read from JSON, written back, and decided.
//!
//! - `hooks`, `protection`: the two settings, from a JSON value and as the compact text that is kept.
//! - `hook_type`: the types of hooks, with their names and fields.
//! - `pattern`: the patterns of branches, and which names they match.
//! - `decision`: what hooks decide of an event, and which pattern protects a branch.
//!
//! The promise to the layer above: a value is read exactly where it is of the form, what is written reads back to
//! the same rules, and the first rule that denies, or pattern that matches, is the one that is answered.
#![tactic(auto)]

pub mod decision;
mod hook_type;
pub mod hooks;
pub mod pattern;
pub mod protection;

pub use decision::{Decision, Event, decide, protects};
pub use hooks::{law_of_hooks, read_hooks, write_hooks};
pub use lake_values::threads::hooks_cross;
pub use protection::{law_of_protection, read_protection, write_protection};
