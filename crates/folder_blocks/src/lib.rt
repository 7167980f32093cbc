//! A store of objects in a folder, one file an object.
//!
//! - `names`: the name of an object's file, and the number that a name stands for: each is the other's inverse.
//! - `files`: what is done to the files of a folder.
//! - `folder`: `FolderBlocks`, which counts its failures and its misses and doesn't tell what it holds.
//! - `threads`: it may go from thread to thread.
//!
//! The promise to the layer above: it is a store of objects. No name that it makes leads out of its folder, and None is
//! answered only with a miss of that number, which is counted.
#![tactic(auto)]

mod files;
pub mod folder;
pub mod names;
pub mod threads;

pub use block_store::Blocks;
pub use folder::FolderBlocks;
pub use names::{law_of_names, name_of, number_of};
