//! The pairs of a keeper go on to follow the lake in memory.
//!
//! - `lakes`: those of the fresh lake do; and they do after a fault of the store, and with an index that has the same
//!   places.
//! - `writes`: tickets, and what is written to a branch; `names`: branches and tags that come and go, and settings.
//! - `heads`: new heads of a branch, and new repositories, which put files.
//!
//! The promise to the layer above: of what a step knows, that its operation may be made and what was spelled in its
//! puts, one law a step makes that pairs which follow the lake follow what the step makes of it.
#![tactic(auto)]

pub mod heads;
pub mod lakes;
pub mod names;
pub mod writes;

pub use heads::{laws_of_followed_heads, laws_of_followed_repositories};
pub use lakes::laws_of_followed_lakes;
pub use names::laws_of_followed_names;
pub use writes::{laws_of_followed_tickets, laws_of_followed_writes};
