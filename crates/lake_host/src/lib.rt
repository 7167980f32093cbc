//! The machine as a server sees it, and a server over it.
//!
//! - `host`: the trait of what gives listeners and clocks.
//! - `shares`: how connections are dealt out.
//! - `hiring`: workers are made of seats and listeners, and taken apart again.
//! - `server`: the listeners of a host are served, a worker each.
//!
//! The promise to the layer above: each listener is served by a worker with a seat of its own, and is given back to the
//! host, in order; what each seat has seen is a front of the one history of the lake that is handed out.
#![tactic(auto)]

mod hiring;
mod host;
mod server;
mod shares;

pub use host::Host;
pub use lake_server::{
    Listen, MemoryListener, SessionReport, Worker, serve_connections, serve_workers,
};
pub use server::{ServerEnd, serve_listeners};
