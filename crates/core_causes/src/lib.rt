//! Why a change of a lake in memory is refused: each test answers the first cause that holds, in the one order, or that
//! none does. No test takes memory, but those of a new repository and of a new commit's bytes.
//!
//! - `common`: what many changes ask: that the lake isn't stopped and has room, that a repository and a branch are
//!   there, that a branch is unprotected.
//! - `writing`: what changes of a branch ask.
//! - `naming`: what ask branches and tags that come and go, and settings.
//! - `repositories`: what asks a repository that is to be made.
//! - `copying`: what a copy asks, and the entry that it finds.
//! - `clashes`: what ask the bytes of a new commit and the files of its tree.
//! - `guarding`: by what a new head of a branch is guarded, and that it isn't expired.
#![tactic(auto)]

pub mod clashes;
mod common;
pub mod copying;
pub mod guarding;
pub mod naming;
pub mod repositories;
pub mod writing;

pub use clashes::test_new_commit;
pub use common::test_change;
pub use copying::{Copied, test_copy};
pub use guarding::{test_guard, test_live_head};
pub use naming::{
    test_create_branch, test_create_tag, test_delete_branch, test_delete_tag, test_set_note,
};
pub use repositories::test_create_repository;
pub use writing::{test_seal, test_stage, test_write};
