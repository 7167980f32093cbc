//! A keeper of pairs in a folder, in one file of SQLite.
//!
//! - `table`: what is done to the table of pairs, and why a call of the database failed.
//! - `folder`: `KvSqlite`, which counts its failures and doesn't tell what it keeps.
//! - `threads`: it may go from thread to thread.
//!
//! The promise to the layer above: it is a keeper of pairs. Failed is answered only with a count that rose, and pairs
//! are answered only where their keys ascend.
#![tactic(auto)]

pub mod folder;
mod table;
pub mod threads;

pub use folder::KvSqlite;
pub use keeper::Keeper;
