//! A listener in memory, for tests.
ghost use Rattle.std.specs.Prelude.{◌≡◌, ◌<◌, ◌++◌, ◌∷◌, [], map, length, Some, IfOk, OnErr};
ghost use Rattle.lake_base.specs.Memory.{faults_after};
ghost use Rattle.lake_base.specs.Outside.{HasCause};
ghost use Rattle.lake_server.specs.MemoryListeners.{returned_in_memory};

use crate::listen::Listen;
use lake_base::{Failed, MemorySink, MemorySource, NoMemory};
use lake_session::SessionReport;
use std::alloc::Global;
use std::collections::VecDeque;
use std::marker::Model;
use std::snapshot::Snapshot;

/// How many bytes a read of a connection in memory gives at most, and a write takes.
const PIECE: usize = 65_536;

/// A connection that a listener in memory was given back, with the report of its session.
#[derive(Debug, Drop)]
pub struct ServedConnection {
    pub input: MemorySource,
    pub output: MemorySink,
    pub report: SessionReport,
}

/// A listener in memory. Its connections are made of bytes; it fails where none is left. It keeps those that it is
/// given back.
#[derive(Drop)]
pub struct MemoryListener {
    alloc: Global,
    inputs: Snapshot<Vec<Vec<u8>>>,
    handed: usize,
    waiting: VecDeque<Vec<u8>>,
    returned: Vec<ServedConnection>,
    faults: u64,
}

impl Model for MemoryListener {
    ghost use Rattle.std.specs.Prelude.{◌≡◌, ◌≤◌, List, ℕ, map, take, drop, length, vec_len, vec_capacity};
    ghost use Rattle.lake_server.specs.MemoryListeners.{MemoryListenerValue, fresh_streams, returned_in_memory};

    ghost Value = { MemoryListenerValue };

    ghost view = { λ l. record {
      accepted = map (λ bytes. fresh_streams bytes.items) (take l.handed l.inputs.value.items);
      waiting = map (λ bytes. bytes.items) l.waiting.items;
      returned = map returned_in_memory l.returned.items;
      faults = l.faults;
    } };

    ghost invariant = { λ l. (l.handed ≤ length l.inputs.value.items)
        × (l.waiting.items ≡ drop l.handed l.inputs.value.items)
        × (vec_len l.returned ≤ l.handed) × (length l.inputs.value.items ≤ vec_capacity l.returned) };
}

impl MemoryListener {
    /// A listener with a connection for each of these, which are the bytes that its source gives. It makes room for
    /// all that it is given back.
    pub fn new(alloc: Global, inputs: Vec<Vec<u8>>) -> Result<MemoryListener, NoMemory>
        ensures { IfOk result (λ listener. listener ≡ record {
          accepted = [];
          waiting = map (λ bytes. bytes.items) inputs.items;
          returned = [];
          faults = 0;
        }) }
    {
        let returned = Vec::with_capacity(alloc, inputs.len())?;
        Ok(MemoryListener {
            alloc,
            inputs: Snapshot::of(&inputs),
            handed: 0,
            waiting: VecDeque::from(inputs),
            returned,
            faults: 0,
        })
    }

    /// The connections that it was given back, in order. It takes no memory.
    pub fn returned(&self) -> &[ServedConnection]
        ensures { map returned_in_memory result.now ≡ self.now.returned }
    {
        self.returned.as_slice()
    }
}

impl Listen for MemoryListener {
    type In = MemorySource;

    type Out = MemorySink;

    ghost use Rattle.std.specs.Prelude.{Some};

    ghost accepted = { λ listener. Some listener.accepted };

    ghost returned = { λ listener. Some listener.returned };

    ghost faults = { λ listener. listener.faults };

    fn accept(&mut self) -> Result<(MemorySource, MemorySink), Failed>
        ensures accepted { IfOk result (λ c. self.new.accepted ≡ self.old.accepted ++ (record {
          unread = Some c.0.left;
          read_faults = c.0.faults;
          written = Some c.1.written;
          write_faults = c.1.faults;
        }) ∷ []) }
        ensures none { OnErr result (self.new.accepted ≡ self.old.accepted) }
        ensures out { IfOk result (λ _. length self.new.returned < length self.new.accepted) }
        ensures returned { self.new.returned ≡ self.old.returned }
        ensures cause { HasCause self.old.faults self.new.faults result }

        // It hands out the connection that has waited longest, afresh, and fails exactly where none is waiting.
        ensures next { IfOk result (λ c. self.old.waiting ≡ c.0.left ∷ self.new.waiting) }
        ensures fresh { IfOk result (λ c. (c.0.faults ≡ 0) × (c.1.written ≡ []) × (c.1.faults ≡ 0)) }
        ensures last { OnErr result (self.old.waiting ≡ []) }
        ensures counted { self.new ≡ record self.old {
          accepted = self.new.accepted;
          waiting = self.new.waiting;
          faults = faults_after result self.old.faults;
        } }
    {
        let Some(bytes) = self.waiting.pop_front() else {
            self.faults = self.faults.saturating_add(1);
            return Err(Failed);
        };
        self.handed += 1;
        let input = MemorySource::new(bytes, PIECE, Vec::new(self.alloc));
        let output = MemorySink::new(self.alloc, PIECE, Vec::new(self.alloc));
        Ok((input, output))
    }

    fn done(&mut self, input: MemorySource, output: MemorySink, report: SessionReport) {
        self.returned.push_reserved(ServedConnection {
            input,
            output,
            report,
        });
    }
}
