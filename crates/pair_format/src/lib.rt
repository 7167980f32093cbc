//! The pairs in which the metadata of the store stands: a thing a pair, a key and its value, each as bytes.
//!
//! - `pair`: a pair of bytes.
//! - `key`: what stands in the key alone; `kind`: its first byte.
//! - `stored`: what stands in a pair.
//! - `encoding`: the spelling of a key and of a pair.
//! - `fields`, `keys`, `values`: what is read of a key and of its value, field by field.
//! - `decoding`: what a pair spells, or the first fault from the left; `fault`: why a pair spells nothing.
//!
//! The promise to the layer above: what is stored has one spelling, which is read as what it spells; and no two
//! things that stand at once have one key.
#![tactic(auto)]

pub mod decoding;
pub mod encoding;
pub mod fault;
mod fields;
pub mod key;
mod keys;
mod kind;
pub mod pair;
pub mod stored;
mod values;

pub use decoding::decode_pair;
pub use encoding::{encode_key, encode_pair, laws_of_pairs};
pub use fault::PairFault;
pub use key::{OwnedKey, StoredKey};
pub use lake_values::settings::NoteName;
pub use pair::Pair;
pub use stored::Stored;
