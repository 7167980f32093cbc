//! How a lake is kept: the puts of each change, the one call by which they are made, and the fresh lake.
//!
//! - `paths`: numbers of uploads, and changes that are staged; `branches`: branches that are reset, sealed, made and
//!   deleted; `heads`: commits that become the head of a branch; `tags`, `notes`, `repositories`: these.
//! - `pushing`: puts that are appended to others; `parts`: what is put of a branch; `files`: commits, and the files of
//!   their trees; `removing`: the changes of a branch that a reset drops.
//! - `keeping`: the puts are made by one call, and then the entry is appended: accepted, or the fault of the store.
//! - `commits`: the bytes of a commit, and the first one of a repository with its tree; `first_repository`: a new
//!   repository; `lakes`: the fresh lake, and the puts by which it is kept.
//! - `first_laws`: they stand for those of the one-thread lake, so a history that begins with the fresh lake begins
//!   with the one of `lake_model`.
//!
//! The promise to the layer above: a keeper is handed just the puts that the definitions give; after Ok the entry
//! stands and the keeper made them; after a fault of the store its fault stands, the lake is stopped, and the keeper
//! made all of them or none; where memory ran out nothing changed.
#![tactic(auto)]

pub mod branches;
pub mod commits;
mod files;
mod first_laws;
pub mod first_repository;
pub mod heads;
mod keeping;
pub mod lakes;
pub mod notes;
mod parts;
pub mod paths;
mod pushing;
mod removing;
pub mod repositories;
pub mod tags;

pub use branches::{create_branch_puts, delete_branch_puts, reset_puts, seal_puts};
pub use commits::{FirstCommit, commit_file, first_commit};
pub use first_laws::laws_of_founding;
pub use first_repository::new_repository;
pub use heads::new_head_puts;
pub use keeping::{keep, place};
pub use lakes::{fresh_lake, fresh_puts};
pub use notes::set_note_puts;
pub use paths::{copy_puts, stage_puts, ticket_puts};
pub use repositories::create_repository_puts;
pub use tags::{create_tag_puts, delete_tag_puts};
