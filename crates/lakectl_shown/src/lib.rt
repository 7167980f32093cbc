//! What `lakectl` shows of a reply.
//!
//! - `layout`: what is shown of a command's reply, and the status that its route answers. `showing`: it is shown.
//! - `form`, `tables`: what a body must have to be shown, and what is shown of it. `json`: a body as JSON.
//! - `pages`: lists, line by line.
//!
//! The promise to the layer above: what is shown is a function of the layout, the status and the body; and a body that
//! isn't of the form due shows nothing, with the status 8.
#![tactic(auto)]

pub mod form;
mod json;
pub mod layout;
mod pages;
pub mod showing;
mod tables;

pub use form::Form;
pub use layout::Layout;
pub use showing::{Shown, show};
