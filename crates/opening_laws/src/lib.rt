//! What follows for a lake that was read from tied pairs.
//!
//! - `reading`: it stands for no entries, as it was opened.
#![tactic(auto)]

pub mod reading;

pub use reading::{law_of_read_lakes, laws_of_reading};
