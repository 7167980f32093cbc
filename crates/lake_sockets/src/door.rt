//! The listener of one worker, as thin as can be. It tells contracts nothing of its connections, since no contract can
//! say what a client does.

ghost use Rattle.std.specs.Prelude.{◌≡◌};

use crate::streams::{SocketSink, SocketSource, both_ways, hang_up};
use lake_base::Failed;
use lake_host::{Listen, SessionReport};
use std::io::ErrorKind;
use std::net::TcpListener;

// How many connections in a row may come to nothing before one is handed out.
const MOST_PASSED_OVER: u32 = 1_000;

/// What accepts the connections of one worker. Doors of one address share its queue of clients. A failed `accept` is
/// counted.
#[derive(Drop)]
pub struct SocketDoor {
    listener: TcpListener,
    faults: u64,
}

impl SocketDoor {
    /// The door of a listener.
    pub fn new(listener: TcpListener) -> SocketDoor
        ensures { result.faults ≡ 0 }
    {
        SocketDoor {
            listener,
            faults: 0,
        }
    }
}

// Whether an error of `accept` is of the one client alone.
fn is_of_client(kind: ErrorKind) -> bool {
    matches!(
        kind,
        ErrorKind::ConnectionAborted | ErrorKind::ConnectionReset | ErrorKind::Interrupted
    )
}

// The next connection that can be served. None: the system refused, or too many in a row came to nothing.
fn next_connection(listener: &TcpListener) -> Option<(SocketSource, SocketSink)> {
    for _ in 0..MOST_PASSED_OVER {
        match listener.accept() {
            Ok((stream, _)) => {
                if let Ok(connection) = both_ways(stream) {
                    return Some(connection);
                }
            }
            Err(error) if is_of_client(error.kind()) => {}
            Err(_) => return None,
        }
    }
    None
}

impl Listen for SocketDoor {
    ghost use Rattle.std.specs.Prelude.{None};

    type In = SocketSource;

    type Out = SocketSink;

    ghost accepted = { λ _. None };

    ghost returned = { λ _. None };

    ghost faults = { λ door. door.faults };

    fn accept(&mut self) -> Result<(SocketSource, SocketSink), Failed> {
        match next_connection(&self.listener) {
            Some(connection) => Ok(connection),
            None => {
                self.faults = self.faults.saturating_add(1);
                Err(Failed)
            }
        }
    }

    fn done(&mut self, input: SocketSource, output: SocketSink, _report: SessionReport) {
        hang_up(input, output);
    }
}
