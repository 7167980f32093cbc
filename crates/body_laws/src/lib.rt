//! Bodies that are held of a lake's objects stay those of its objects.
//!
//! - `kept`: bodies that fit a state fit it after entries, and after other bodies were put.
//! - `flows`: and behind a call whose seat is alone.
//!
//! The promise to the layer above: laws. There is no code here.
#![tactic(auto)]

pub mod flows;
pub mod kept;
