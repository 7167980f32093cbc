//! Values under keys that are ordered by their bytes. Contracts see a map as the finite map from the bytes of each key
//! to its value.
//!
//! - `key`: which types are keys.
//! - `rows`: the map.
//! - `laws`: what holds of maps, and of maps with other values.
//!
//! The promise to the layer above: each call is the one of its name on finite maps, and a value that is changed where
//! it stands is in the map under its key.
#![tactic(auto)]

mod key;
mod laws;
mod rows;

pub use key::ByteKey;
pub use laws::{laws_of_map_values, laws_of_maps, laws_of_some_values};
pub use rows::ByteMap;
