//! The network as a client reaches it, as thin as can be. It tells contracts nothing of its connections, since no
//! contract can say what a server does.

ghost use Rattle.std.specs.Prelude.{◌≡◌};

use crate::streams::{SocketSink, SocketSource, both_ways};
use lake_base::{Text, Trouble};
use lakectl_client::Connect;
use std::io;
use std::io::ErrorKind;
use std::net::{Net, TcpStream};

/// What connects to servers over the network that a runtime reaches. A failed call is counted, unless it found no
/// memory.
#[derive(Drop)]
pub struct SocketNetwork<'a, R: Net<Stream = TcpStream>> {
    rt: &'a R,
    faults: u64,
}

impl<'a, R: Net<Stream = TcpStream>> SocketNetwork<'a, R> {
    /// The network of a runtime.
    pub fn new(rt: &'a R) -> SocketNetwork<'a, R>
        ensures { result.faults ≡ 0 }
    {
        SocketNetwork { rt, faults: 0 }
    }
}

// A connection to an address, `HOST:PORT`.
fn dial<R: Net<Stream = TcpStream>>(rt: &R, at: &str) -> io::Result<(SocketSource, SocketSink)> {
    both_ways(TcpStream::connect(rt, at)?)
}

impl<'a, R: Net<Stream = TcpStream>> Connect for SocketNetwork<'a, R> {
    ghost use Rattle.std.specs.Prelude.{None};

    type In = SocketSource;

    type Out = SocketSink;

    ghost dialed = { λ _. None };

    ghost hung_up = { λ _. None };

    ghost faults = { λ network. network.faults };

    fn connect(&mut self, at: &Text) -> Result<(SocketSource, SocketSink), Trouble> {
        match dial(self.rt, at.as_str()) {
            Ok(connection) => Ok(connection),
            Err(error) if error.kind() == ErrorKind::OutOfMemory => Err(Trouble::NoMemory),
            Err(_) => {
                self.faults = self.faults.saturating_add(1);
                Err(Trouble::Failed)
            }
        }
    }

    fn hang_up(&mut self, _input: SocketSource, _output: SocketSink) {}
}
