//! The program as a library: a batch of lakectl's commands on a fresh lake in memory, a server on one, a command that
//! goes to a server, the generator, and a batch, a server and a command on the lake of a folder.
//!
//! - `run`: the call that the program makes, with the promise of what it does; `status`: the numbers of its statuses.
//! - `server`: a server on a fresh lake. `control`: a command that goes to a server. `local`: what is done on the lake
//!   of a folder. `usage`: what is said of other words. `limits`: how long a batch may be.
//! - `laws`: two runs of one batch come to the same.
//!
//! The promise to the layer above: what `run` does is a function of what its words ask for, said of each; and each
//! status has its cause.
#![tactic(auto)]

pub mod control;
pub mod laws;
pub mod limits;
mod local;
pub mod run;
pub mod server;
pub mod status;
mod usage;
