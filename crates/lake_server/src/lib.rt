//! Workers of a server: each accepts connections and serves each of them by a session.
//!
//! - `listen`: the trait of what hands out connections; `memory`: one in memory.
//! - `worker`: a worker serves one connection after the other; `workers`: several do, a thread each.
//! - `threads`: workers and listeners may go from thread to thread.
//!
//! The promise to the layer above: each connection that a worker's listener hands out is served by one session of the
//! worker's seat, behind all that the sessions before it had seen, and is given back with its report, in order.
#![tactic(auto)]

mod listen;
mod memory;
pub mod threads;
mod worker;
mod workers;

pub use lake_session::SessionReport;
pub use listen::Listen;
pub use memory::{MemoryListener, ServedConnection};
pub use worker::{Worker, serve_connections};
pub use workers::serve_workers;
