//! Worked histories of the law of the lake: each shows what the definitions of `lake_model` and `lake_calls` say.
//!
//! - `histories`: what happens in a lake, entry by entry; `expiry`: which commits expire at a moment, what is garbage
//!   after that, and which lists of commits are refused.
//! - `calls`: how calls are served in histories that two seats make; `uploads`: that an upload is served by what its
//!   steps tell, whatever other seats do between them, and a session with it.
//! - For each condition a lake in which an entry is refused by it alone, and next to it the entry or the lake where it
//!   is allowed. `names`: repositories, branches, tags and commits; `writing`: uploads, changes and seals; `removing`:
//!   numbers that are condemned; `committing`: commits and picks; `merging`: merges.
//!
//! The promise to a reader: each is proved, as the contract of a function that does nothing. No crate stands on them.
#![tactic(auto)]

pub mod calls;
pub mod committing;
pub mod expiry;
pub mod histories;
pub mod merging;
pub mod names;
pub mod removing;
pub mod uploads;
pub mod writing;
