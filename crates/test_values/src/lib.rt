//! Values made from short words, and the words of values, for the crates of tests.
//!
//! - `words`: texts, names, paths and digests;
//! - `entries`: metadata, entries, changes and maps, written as `a1 b2`;
//! - `commit`: commits and their ids, written as `M3XY`;
//! - `settings`: one small setting of each kind.
//!
//! What a maker can't make of its words, it refuses: a test that meets that fails.
#![tactic(auto)]

pub mod commit;
pub mod entries;
pub mod settings;
pub mod words;

pub use commit::{about, commits, id, letters, record};
pub use entries::{
    changes, changes_told, entry, entry_of, key_map, map_told, outside_entry, pairs, paths_told,
};
pub use settings::{hooks, note, protection, rules};
pub use words::{digest, path, ref_name, repo_name, text};
