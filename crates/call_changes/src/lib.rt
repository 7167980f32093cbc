//! Calls of one change, answered over a lake that seats share, each by one step of it.
//!
//! - `repositories`, `branches`, `tags`, `settings`: a function a call. That changes of a branch are dropped stands
//!   with the calls of objects.
//!
//! The promise to the layer above: each function serves its call; it adds the call's own entry where it was done, the
//! note of a fault where the store failed, and nothing else.
#![tactic(auto)]

mod branches;
mod repositories;
mod settings;
mod tags;

pub use branches::{create_branch, delete_branch};
pub use call_readings::Answered;
pub use repositories::create_repository;
pub use settings::{set_hooks, set_protection};
pub use tags::{create_tag, delete_tag};
