//! The values of the lake: entries and changes, key maps, commits and settings. What the crates above share of
//! merges, graphs, retention and rules is defined here, in `specs/`; the crate `plain_reference` has plain, slow
//! functions by these definitions.
//!
//! - `pairs`, `entry`, `changes`, `key_map`: metadata, what stands at a path, what is put and deleted, and maps;
//!   `sorted`: where a path stands in a list of either; `join`: one walk over two such lists.
//! - `cursor`: entries taken one by one in order of path, whatever keeps them.
//! - `commit`, `settings`: commits, and the settings of a repository, within their limits; `retention`: the
//!   moment up to which a branch keeps what it has left behind.
//! - `merge`: whose value a path takes in a merge.
//! - `threads`: which values may go from thread to thread.
//!
//! The promise to the layer above: a map is its look-ups, and a value keeps its limits.
#![tactic(auto)]

pub mod changes;
pub mod commit;
pub mod cursor;
pub mod entry;
mod join;
pub mod key_map;
pub mod merge;
pub mod pairs;
pub mod retention;
pub mod settings;
mod sorted;
pub mod threads;

pub use changes::Changes;
pub use commit::{About, CommitId, CommitRecord, ResetWhat, Strategy};
pub use cursor::{EntriesLeft, EntryCursor, SliceCursor};
pub use entry::{Change, Entry, Place, same_entry};
pub use key_map::KeyMap;
pub use merge::Side;
pub use pairs::{Pairs, PairsFault, are_pairs};
pub use settings::{BranchDays, Deny, HookRule, HookRules, Note, NoteName, Protection, Rules};
pub use sorted::has_ascending_keys;
