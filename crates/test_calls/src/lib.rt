//! Tests of the forms of calls: what each request asks, from its bytes.
//!
//! - `asked`: a request as bytes, and what it asks, in words.
//! - `routes`: each route once; `refusals`: each refusal of a form, and which of two comes first.
#![tactic(auto)]

#[cfg(test)]
mod asked;
#[cfg(test)]
mod refusals;
#[cfg(test)]
mod routes;
