//! What a lake in memory answers: readings, and what a new head of a branch is made from.
//!
//! - `targets`: the commit of a name and of an expression; `points`: what an expression leads to.
//! - `entries`: the entry at a path of a branch and of a commit; `objects`: it is looked up.
//! - `pages`, `rows`: pages of entries, and the first of a map's rows above some bytes; `logs`: pages of a log.
//! - `naming`: repositories, branches and tags, and the commit of one; `settings`: settings and versions.
//! - `ids`: what is read by the id of a commit stays.
//! - `prepared`: what a new head of a branch is made from, with shared trees and no map copied; `preparing`: it is
//!   gathered; `sides`: the commits of a merge or a pick, which have to be there, and their trees.
//!
//! The promise to the layer above: each answer is what the one-thread lake replies at the state that the value stands
//! for, unless memory runs out.
#![tactic(auto)]

pub mod entries;
pub mod ids;
pub mod logs;
pub mod naming;
pub mod objects;
pub mod pages;
pub mod points;
mod prepared;
mod preparing;
mod rows;
pub mod settings;
mod sides;
pub mod targets;

pub use entries::{entry_at, entry_on, map_entry};
pub use ids::law_of_reading_by_id;
pub use logs::log;
pub use naming::{find, names, repositories};
pub use objects::look;
pub use pages::page;
pub use points::resolve;
pub use prepared::Prepared;
pub use preparing::prepare;
pub use settings::{note, versions};
pub use sides::are_commits;
pub use targets::{commit_named, is_plain_branch, name_target, target};
