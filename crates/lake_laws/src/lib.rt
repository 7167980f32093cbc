//! The laws of the lake: what holds of every state and of every history, and that a step refuses just what the
//! condition of its entry excludes. The definitions stand in `lake_model`.
//!
//! - `soundness`: a legal entry keeps a state sound; `garbage`: garbage stays garbage.
//! - `identity`: a commit keeps its record and its map, a tag its commit; `faults`: nothing follows a fault.
//! - `gone`: what is gone stays gone, and isn't read on a branch, nor of a commit that isn't expired.
//! - `reading`: a seal and a commit leave what is read on branches as it is; `sealing`: a seal leaves the answers of
//!   readings.
//! - `sealed_paths`: what isn't committed stays until a new head takes it, or an entry drops it.
//! - `versions`: what has the same version is the same; `version_entries`: where a version differs, an entry between
//!   gave it, and as many as tries found another.
//! - `positions`: a legal history in two parts; `kept`: a ticket stays until an entry of its seat ends it, and a commit
//!   stays, to which the text of its id leads, and whose map is read there.
//! - `numbers`: how a number becomes live, and what is condemned is named neither then nor later; `expiry`: the same
//!   commits can expire where the version of the references is the same.
//! - `tickets`, `writes`, `step_names`, `step_notes`, `swaps`: where no cause of a step holds, its entry may come next;
//!   `refusals`: where an entry may come next, no cause of its step holds.
//! - `repositories`, `removals`: both, of new repositories, and of commits that expire and numbers that are condemned.
//! - `head_refusals`: what the reading of a new head refuses, and that it may be made where neither that nor its step
//!   does.
//! - `causes`: what a step is refused for is no lack of memory, and no fault of the store.
//!
//! The promise to the layer above: each law is the contract of a function that does nothing, and is cited by its name.
#![tactic(auto)]

pub mod causes;
pub mod expiry;
pub mod faults;
pub mod garbage;
pub mod gone;
pub mod head_refusals;
pub mod identity;
pub mod kept;
pub mod numbers;
pub mod positions;
pub mod reading;
pub mod refusals;
pub mod removals;
pub mod repositories;
pub mod sealed_paths;
pub mod sealing;
pub mod soundness;
pub mod step_names;
pub mod step_notes;
pub mod swaps;
pub mod tickets;
pub mod version_entries;
pub mod versions;
pub mod writes;
