//! A lake in memory.
//!
//! - `branch`: a branch, its record and the changes under its tokens.
//! - `repository`: a repository, its commits with their trees, its names and settings.
//! - `names`: where commits and files are kept, by their names; `file_place`: where a file is.
//! - `lake`: the lake.
//! - `laws`: the versions that it tells of are those that it has.
//!
//! The definitions say which state of the one-thread lake it stands for; readings and changes of it are crates of
//! their own.
#![tactic(auto)]

pub mod branch;
pub mod file_place;
pub mod lake;
mod laws;
pub mod names;
pub mod repository;

pub use branch::BranchState;
pub use file_place::FilePlace;
pub use lake::LakeState;
pub use laws::law_of_versions;
pub use names::NameIndex;
pub use repository::RepositoryState;
