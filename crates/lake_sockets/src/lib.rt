//! The network as a server's host, and as a client reaches it: TCP sockets and the system's clock, each as thin as can
//! be.
//!
//! - `streams`: `SocketSource` and `SocketSink`, the two directions of one connection, how a connection is set up, and
//!   how it ends.
//! - `door`: `SocketDoor`, which accepts the connections of one worker and takes them back.
//! - `host`: `SocketHost`, which opens doors at an address and gives clocks.
//! - `network`: `SocketNetwork`, which connects to servers.
//!
//! The promise to the layer above: a failed call is counted, and an address has as many doors as were asked for. No
//! contract can say what a socket gives or takes, and so none is told.
#![tactic(auto)]

pub mod door;
pub mod host;
pub mod network;
pub mod streams;

pub use door::SocketDoor;
pub use host::SocketHost;
pub use network::SocketNetwork;
pub use streams::{SocketSink, SocketSource};
