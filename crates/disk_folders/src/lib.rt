//! The folders of the machine.
//!
//! - `pairs`, `objects`: the keeper and the store of a folder, each a type without parameters.
//! - `folders`: `DiskFolders`, which opens a folder's keeper of pairs and its stores of objects, and counts failures.
//! - `threads`: keepers and stores may go from thread to thread.
//!
//! The promise to the layer above: it opens folders. Failed is answered only with a count that rose. No contract can
//! say what a folder holds, and so none is told.
#![tactic(auto)]

pub mod folders;
pub mod objects;
pub mod pairs;
pub mod threads;

pub use folders::DiskFolders;
pub use objects::FolderObjects;
pub use pairs::FolderPairs;
