//! Tests of an object that is read while others change its lake and its store: what no clause says.
//!
//! - `names`: the names that the tests use.
//! - `hand`: a seat with what its calls need, and what it does at a pause.
//! - `store`: a store of objects that loses some, and beside which another seat acts at each get.
//! - `readings`: tables of what becomes of the object, and of what a reading answers then.
#![tactic(auto)]

#[cfg(test)]
mod hand;
#[cfg(test)]
mod names;
#[cfg(test)]
mod readings;
#[cfg(test)]
mod store;
