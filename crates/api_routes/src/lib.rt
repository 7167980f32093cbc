//! The front of a request as a call has it: its path with the method, the segments of the path, and the query.
//!
//! - `fault`: why a request is no call.
//! - `names`: bytes that are to be a name, a path, an expression or a commit's id.
//! - `paths`, `routes`: which route a method and a path have, and the named segments of the path.
//! - `target`: the path and the query of a target.
//! - `query`: the values of a query.
//!
//! The promise to the layer above: each reader takes any bytes, and answers exactly what the definitions in `specs/`
//! say of them, unless memory runs out.
#![tactic(auto)]

pub mod expression;
pub mod fault;
pub mod names;
pub mod paths;
pub mod query;
pub mod routes;
pub mod segments;
pub mod target;

pub use expression::as_expression;
pub use fault::{FormFault, bad_value, missing};
pub use names::{as_digest, as_moment, as_new_ref_name, as_path, as_ref_name, as_repo};
pub use query::{
    amount_in_query, digest_in_query, moment_in_query, path_in_query, text_in_query, text_or_empty,
};
pub use routes::{Found, HeadRoute, NamesRoute, ObjectRoute, Route, SettingRoute, find_route};
pub use segments::{digest_segment, expression_segment, ref_name_segment, repo_segment};
pub use target::split_target;
