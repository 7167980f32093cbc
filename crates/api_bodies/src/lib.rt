//! What the bodies and the heads of requests say, field by field.
//!
//! - `body`: a body as JSON, and the fields of an object; `metadata`: the field that holds metadata.
//! - `head_fields`: the committer and the content type, from the fields of a head.
//!
//! The promise to the layer above: each field is what its definition reads, or has the refusal that it says, unless
//! memory runs out.
#![tactic(auto)]

pub mod body;
pub mod head_fields;
pub mod metadata;
