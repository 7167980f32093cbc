//! The folder of a lake: a keeper of its pairs, and stores of its objects.
//!
//! - `folders`: the trait of what opens folders, and takes back what it gave.
//!
//! The promise to the layer above: where it tells what a folder holds, what it hands out holds that; and each failure
//! is counted.
#![tactic(auto)]

pub mod folders;

pub use folders::Folders;
