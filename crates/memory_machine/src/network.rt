//! A network in memory.
ghost use Rattle.std.specs.Prelude.{◌≡◌, ◌<◌, ◌++◌, ◌∷◌, [], length, map, Some, IfOk, IsErrOf, OnErr, OnOk};
ghost use Rattle.lake_base.specs.declared.outside.Trouble.TheVariants.{Failed as trouble_failed};
ghost use Rattle.block_store.specs.Blocks.{FailsByFault};
ghost use Rattle.lake_base.specs.Troubles.{failures_after};
ghost use Rattle.memory_machine.specs.NetworksInMemory.{connection_streams, streams_between};

use lake_base::{MemorySink, MemorySource, NoMemory, Text, Trouble, TryCopy};
use lakectl_client::Connect;
use std::alloc::Global;
use std::collections::VecDeque;
use std::marker::Model;
use std::snapshot::Snapshot;

/// How many bytes a read of a connection gives at most, and a write takes, where nothing else is said.
const PIECE: usize = 65_536;

/// A connection in memory: what comes back over it, and where what is sent goes.
#[derive(Debug, Drop)]
pub struct MemoryConnection {
    pub input: MemorySource,
    pub output: MemorySink,
}

impl MemoryConnection {
    /// A connection that gives these bytes, in large pieces, and doesn't fail but for memory. It takes no memory.
    pub fn giving(alloc: Global, bytes: Vec<u8>) -> MemoryConnection
        ensures { connection_streams result
            ≡ record { unread = Some bytes.items; read_faults = 0; written = Some []; write_faults = 0 } }
    {
        MemoryConnection {
            input: MemorySource::new(bytes, PIECE, Vec::new(alloc)),
            output: MemorySink::new(alloc, PIECE, Vec::new(alloc)),
        }
    }
}

// To which address a connection was given, and what it was then.
#[derive(Drop)]
struct Dial {
    at: Text,
    connection: Snapshot<MemoryConnection>,
}

/// A network in memory. It gives the connections that it is made of, whatever the address, and fails where none is
/// left. It keeps those that are hung up.
#[derive(Drop)]
pub struct MemoryNetwork {
    alloc: Global,
    waiting: VecDeque<MemoryConnection>,
    dialed: Vec<Dial>,
    hung_up: Vec<MemoryConnection>,
    faults: u64,
}

impl Model for MemoryNetwork {
    ghost use Rattle.std.specs.Prelude.{◌≤◌, ◌+◌, map, vec_len, vec_capacity};
    ghost use Rattle.std.specs.VecDeque.{deque_len};
    ghost use Rattle.memory_machine.specs.NetworksInMemory.{MemoryNetworkValue, connection_streams};

    ghost Value = { MemoryNetworkValue };

    ghost view = { λ network. record {
      dialed = map (λ dial. record { at = dial.at; streams = connection_streams dial.connection.value })
          network.dialed.items;
      waiting = map connection_streams network.waiting.items;
      hung_up = map connection_streams network.hung_up.items;
      faults = network.faults;
    } };

    ghost invariant = { λ network. (vec_len network.hung_up ≤ vec_len network.dialed)
        × (vec_len network.dialed + deque_len network.waiting ≤ vec_capacity network.dialed)
        × (vec_len network.dialed + deque_len network.waiting ≤ vec_capacity network.hung_up) };
}

impl MemoryNetwork {
    /// A network of these connections. It makes room for all that it gives and is given back.
    pub fn new(alloc: Global, connections: Vec<MemoryConnection>) -> Result<MemoryNetwork, NoMemory>
        ensures { IfOk result (λ network. network ≡ record {
          dialed = [];
          waiting = map connection_streams connections.items;
          hung_up = [];
          faults = 0;
        }) }
    {
        let dialed = Vec::with_capacity(alloc, connections.len())?;
        let hung_up = Vec::with_capacity(alloc, connections.len())?;
        Ok(MemoryNetwork {
            alloc,
            waiting: VecDeque::from(connections),
            dialed,
            hung_up,
            faults: 0,
        })
    }

    /// The connections that were hung up, in order. It takes no memory.
    pub fn hung_up(&self) -> &[MemoryConnection]
        ensures { map connection_streams result.now ≡ self.now.hung_up }
    {
        self.hung_up.as_slice()
    }
}

impl Connect for MemoryNetwork {
    type In = MemorySource;

    type Out = MemorySink;

    ghost use Rattle.std.specs.Prelude.{Some};

    ghost dialed = { λ network. Some network.dialed };

    ghost hung_up = { λ network. Some network.hung_up };

    ghost faults = { λ network. network.faults };

    fn connect(&mut self, at: &Text) -> Result<(MemorySource, MemorySink), Trouble>
        ensures dialed { IfOk result (λ c.
            self.new.dialed ≡ self.old.dialed ++ record { at = at.now; streams = streams_between c.0 c.1 } ∷ []) }
        ensures none { OnErr result (self.new.dialed ≡ self.old.dialed) }
        ensures open { OnOk result (length self.new.hung_up < length self.new.dialed) }
        ensures hung_up { self.new.hung_up ≡ self.old.hung_up }
        ensures cause { FailsByFault self.old.faults self.new.faults result }

        // It gives the connection that has waited longest, and fails just where none is left, else for memory alone.
        ensures next { IfOk result (λ c. self.old.waiting ≡ streams_between c.0 c.1 ∷ self.new.waiting) }
        ensures last { IsErrOf result trouble_failed → self.old.waiting ≡ [] }
        ensures kept { OnErr result (self.new.waiting ≡ self.old.waiting) }
        ensures counted { self.new ≡ record self.old {
          dialed = self.new.dialed;
          waiting = self.new.waiting;
          faults = failures_after result self.old.faults;
        } }
    {
        let at = at.copy(self.alloc)?;
        let Some(connection) = self.waiting.pop_front() else {
            self.faults = self.faults.saturating_add(1);
            return Err(Trouble::Failed);
        };
        self.dialed.push_reserved(Dial {
            at,
            connection: Snapshot::of(&connection),
        });
        let MemoryConnection { input, output } = connection;
        Ok((input, output))
    }

    fn hang_up(&mut self, input: MemorySource, output: MemorySink)
        requires open { length self.old.hung_up < length self.old.dialed }
        ensures hung_up { self.new.hung_up ≡ self.old.hung_up ++ streams_between input output ∷ [] }
        ensures dialed { self.new.dialed ≡ self.old.dialed }
        ensures faults { self.new.faults ≡ self.old.faults }

        // Nothing else changes.
        ensures others { self.new ≡ record self.old { hung_up = self.new.hung_up } }
    {
        self.hung_up
            .push_reserved(MemoryConnection { input, output });
    }
}
