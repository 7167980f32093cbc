//! A server on the lake of a folder.
//!
//! - `stores`: stores of a folder's objects are taken, and given back.
//! - `server`: the folder is opened, with a store of its objects for each worker; the host's listeners are served; and
//!   all that was taken is given back.
//!
//! The promise to the layer above: the lake is the one for which the folder's pairs stand, and what is served on it is
//! what a server promises.
#![tactic(auto)]

mod server;
mod stores;

pub use lake_host::{Host, ServerEnd, serve_listeners};
pub use server::serve_folder_host;
