//! Objects that wait until a gate opens, and a listener that opens it.
ghost use Rattle.std.specs.Prelude.{◌≡◌};

use block_store::{Blocks, SureBlocks};
use lake_base::{Failed, MemorySink, MemorySource, Trouble};
use lake_host::{Listen, MemoryListener, SessionReport};
use std::alloc::Global;
use std::sync::atomic::{AtomicBool, Ordering};
use std::thread::yield_now;

/// A store of objects in memory. Where it has a gate, it keeps an object only once that is open: it looks so often,
/// and lets other threads go on in between; then it fails, and counts that. It doesn't tell what it holds.
#[derive(Drop)]
pub(crate) struct GatedBlocks<'a> {
    blocks: SureBlocks,
    gate: Option<&'a AtomicBool>,
    looks: u32,
    faults: u64,
}

impl<'a> GatedBlocks<'a> {
    /// No objects.
    pub(crate) fn new(alloc: Global, gate: Option<&'a AtomicBool>, looks: u32) -> GatedBlocks<'a> {
        GatedBlocks {
            blocks: SureBlocks::new(alloc),
            gate,
            looks,
            faults: 0,
        }
    }
}

// Whether a gate opens before it was looked at so often.
fn opens(gate: &AtomicBool, looks: u32) -> bool {
    for _ in 0..looks {
        if gate.load(Ordering::SeqCst) {
            return true;
        }
        yield_now();
    }
    false
}

impl<'a> Blocks for GatedBlocks<'a> {
    ghost use Rattle.std.specs.Prelude.{None};

    ghost held = { λ _. None };

    ghost faults = { λ gated. gated.faults };

    ghost misses = { λ gated. gated.blocks.misses };

    ghost missed = { λ gated. gated.blocks.missed };

    fn put(&mut self, number: u64, bytes: &[u8]) -> Result<(), Trouble> {
        if let Some(gate) = self.gate {
            if !opens(gate, self.looks) {
                self.faults = self.faults.saturating_add(1);
                return Err(Trouble::Failed);
            }
        }
        self.blocks.put(number, bytes)
    }

    fn get(&mut self, number: u64) -> Result<Option<Vec<u8>>, Trouble> {
        self.blocks.get(number)
    }

    fn remove(&mut self, number: u64) -> Result<bool, Trouble> {
        self.blocks.remove(number)
    }

    fn list(&mut self) -> Result<Vec<u64>, Trouble> {
        self.blocks.list()
    }
}

/// A listener in memory. Where it has a gate, it opens that as soon as a connection is given back.
#[derive(Drop)]
pub(crate) struct GateListener<'a> {
    listener: MemoryListener,
    gate: Option<&'a AtomicBool>,
}

impl<'a> GateListener<'a> {
    /// The listener with the gate that it opens.
    pub(crate) fn new(listener: MemoryListener, gate: Option<&'a AtomicBool>) -> GateListener<'a> {
        GateListener { listener, gate }
    }

    /// What was written over the only connection that it was given back.
    pub(crate) fn written(&self) -> Option<&[u8]> {
        match self.listener.returned() {
            [served] => Some(served.output.written()),
            _ => None,
        }
    }
}

impl<'a> Listen for GateListener<'a> {
    type In = MemorySource;

    type Out = MemorySink;

    ghost use Rattle.std.specs.Prelude.{Some};

    ghost accepted = { λ gate. Some gate.listener.accepted };

    ghost returned = { λ gate. Some gate.listener.returned };

    ghost faults = { λ gate. gate.listener.faults };

    fn accept(&mut self) -> Result<(MemorySource, MemorySink), Failed> {
        self.listener.accept()
    }

    fn done(&mut self, input: MemorySource, output: MemorySink, report: SessionReport) {
        self.listener.done(input, output, report);
        if let Some(gate) = self.gate {
            gate.store(true, Ordering::SeqCst);
        }
    }
}
