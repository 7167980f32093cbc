//! Requests become calls: what a request asks, or the first refusal of its form.
//!
//! - `naming`, `heads`, `settings`: the calls of repositories, branches and tags, of commits, and of settings, a
//!   function a kind; those of objects are the crate `api_objects`.
//! - `call`: a request as a call.
//!
//! The promise to the layer above: a request is the call that it asks for, or has the first refusal of its form, as the
//! one definition `asked` says, unless memory runs out. A body that is uploaded is moved.
#![tactic(auto)]

pub mod call;
mod heads;
mod naming;
mod settings;

pub use api_replies::print;
pub use api_routes::FormFault;
pub use call::read_call;
