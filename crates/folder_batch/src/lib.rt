//! Commands of `lakectl` on the lake of a folder.
//!
//! - `desk`: the lines of a batch, or one command, at a desk: on one seat of a lake, with a store of its objects, at
//!   the clock's readings or all at one moment. `lines`: what serves the lines.
//! - `opening`: a desk at the lake of a folder is opened, and closed.
//! - `batch`: the lines of a batch on the lake of a folder. `command`: one command on it.
//!
//! The promise to the layer above: the lake is the one for which the folder's pairs stand; what is shown is what a
//! session of its own gives to each command; and what was taken of the folder is given back.
#![tactic(auto)]

mod batch;
mod command;
mod desk;
mod lines;
mod opening;

pub use batch::serve_folder;
pub use command::serve_folder_command;
pub use lake_batch::serve_batch;
