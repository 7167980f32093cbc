//! The words of `lakectl`: which command they are, and which values they give.
//!
//! - `verb`, `argument`, `table`: the verbs, and the arguments of each, as one table.
//! - `command`: the simple command of `clap` that a verb's line of the table makes, and what it takes of the words.
//! - `read`: the user, the verb and the values of a line of words. `fault`: why words are no command.
//! - `line`: the words of a line of a batch. `cuts`: texts cut at a mark.
//!
//! The promise to the layer above: the words of a verb are taken exactly where `clap`'s own definitions take them for
//! its line of the table, and the values are those that these definitions give.
#![tactic(auto)]

pub mod argument;
mod command;
pub mod cuts;
pub mod fault;
pub mod line;
pub mod read;
mod table;
pub mod verb;

pub use argument::{Argument, Kind, Shape, UriParts};
pub use cuts::{cut, strip};
pub use fault::{UsageFault, bad_value};
pub use line::{LineWords, line_words};
pub use read::{Given, Value, read_words};
pub use verb::Verb;
