//! A fresh lake in memory, and the seats at it.
//!
//! - `fresh`: the lake, with so many seats, or with one, which is put back as the lake is closed.
//!
//! The promise to the layer above: each seat goes out from the fresh lake, and has seen nothing; a store that holds no
//! object fits that lake; and a seat that was alone to the end has seen no note that the store of pairs failed.
#![tactic(auto)]

mod fresh;

pub use fresh::{close_lone_lake, fresh_lake, lone_lake};
