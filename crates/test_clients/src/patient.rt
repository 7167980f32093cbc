//! A network that tries again while nobody listens yet.
ghost use Rattle.std.specs.Prelude.{◌≡◌};

use lake_base::{Text, Trouble};
use lake_sockets::{SocketNetwork, SocketSink, SocketSource};
use lakectl_client::Connect;
use std::net::{Net, TcpStream};
use std::thread::sleep;
use std::time::{Clock, Duration};

// How often a connection is tried, two milliseconds apart.
const MOST_TRIES: u32 = 5_000;

/// The network of a runtime. A connection is tried for some ten seconds.
#[derive(Drop)]
pub(crate) struct PatientNetwork<'a, R: Net<Stream = TcpStream> + Clock> {
    rt: &'a R,
    network: SocketNetwork<'a, R>,
    faults: u64,
}

impl<'a, R: Net<Stream = TcpStream> + Clock> PatientNetwork<'a, R> {
    /// The network of a runtime.
    pub(crate) fn new(rt: &'a R) -> PatientNetwork<'a, R> {
        PatientNetwork {
            rt,
            network: SocketNetwork::new(rt),
            faults: 0,
        }
    }
}

impl<'a, R: Net<Stream = TcpStream> + Clock> Connect for PatientNetwork<'a, R> {
    ghost use Rattle.std.specs.Prelude.{None};

    type In = SocketSource;

    type Out = SocketSink;

    ghost dialed = { λ _. None };

    ghost hung_up = { λ _. None };

    ghost faults = { λ patient. patient.faults };

    fn connect(&mut self, at: &Text) -> Result<(SocketSource, SocketSink), Trouble> {
        for _ in 0..MOST_TRIES {
            match self.network.connect(at) {
                Ok(connection) => return Ok(connection),
                Err(Trouble::NoMemory) => return Err(Trouble::NoMemory),
                Err(Trouble::Failed) => sleep(self.rt, Duration::from_millis(2)),
            }
        }
        self.faults = self.faults.saturating_add(1);
        Err(Trouble::Failed)
    }

    fn hang_up(&mut self, input: SocketSource, output: SocketSink) {
        self.network.hang_up(input, output);
    }
}
