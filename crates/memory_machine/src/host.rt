//! A host in memory.
ghost use Rattle.std.specs.Prelude.{◌≡◌, ◌<◌, ◌≤◌, ◌+◌, ◌-◌, ◌++◌, ◌∷◌, [], drop, length, map};
ghost use Rattle.std.specs.Prelude.{IfErr, IfOk, IsErrOf, OnErr, OnOk};
ghost use Rattle.lake_base.specs.declared.outside.Trouble.TheVariants.{Failed as trouble_failed};
ghost use Rattle.lake_base.specs.declared.outside.Trouble.TheVariants.{NoMemory as trouble_no_memory};
ghost use Rattle.block_store.specs.Blocks.{FailsByFault};
ghost use Rattle.lake_base.specs.Troubles.{failures_after};
ghost use Rattle.lake_host.specs.Doors.{opened_at};
ghost use Rattle.memory_machine.specs.HostsInMemory.{connections_in, dealt, first_or_none};
ghost use Rattle.memory_machine.specs.HostsInMemory.{fresh_listener, listener_door};

use lake_base::{FixedClock, NoMemory, Text, Trouble, TryCopy};
use lake_host::{Host, MemoryListener};
use std::alloc::Global;
use std::collections::VecDeque;
use std::marker::Model;

// At which address how many listeners were given.
#[derive(Drop)]
struct Opening {
    at: Text,
    doors: usize,
}

/// A host in memory. Its listeners' connections are made of bytes; one for which none are left has no connections. It
/// keeps the listeners that it is given back, and its clocks stand at 0. It may be made to fail at first.
#[derive(Drop)]
pub struct MemoryHost {
    alloc: Global,
    waiting: VecDeque<Vec<Vec<u8>>>,
    refusals: u64,
    openings: Vec<Opening>,
    given: usize,
    returned: Vec<MemoryListener>,
    faults: u64,
}

impl Model for MemoryHost {
    ghost use Rattle.std.specs.Prelude.{◌≡◌, ◌≤◌, flat_map, length, map, vec_len, vec_capacity};
    ghost use Rattle.memory_machine.specs.HostsInMemory.{
      MemoryHostValue,
      connections_in,
      listener_door,
      opened_afresh,
    };

    ghost Value = { MemoryHostValue };

    ghost view = { λ host. record {
      opened = flat_map (λ opening. opened_afresh opening.at opening.doors) host.openings.items;
      returned = map listener_door host.returned.items;
      waiting = connections_in host.waiting.items;
      refusals = host.refusals;
      faults = host.faults;
    } };

    ghost invariant = { λ host.
        (length (flat_map (λ opening. opened_afresh opening.at opening.doors) host.openings.items) ≡ host.given)
        × (vec_len host.returned ≤ host.given) × (host.given ≤ vec_capacity host.returned) };
}

impl MemoryHost {
    /// A host whose listeners have these connections, each made of the bytes that its source gives. It takes no memory.
    pub fn new(alloc: Global, listeners: Vec<Vec<Vec<u8>>>) -> MemoryHost
        ensures { result ≡ record {
          opened = [];
          returned = [];
          waiting = connections_in listeners.items;
          refusals = 0;
          faults = 0;
        } }
    {
        MemoryHost {
            alloc,
            waiting: VecDeque::from(listeners),
            refusals: 0,
            openings: Vec::new(alloc),
            given: 0,
            returned: Vec::new(alloc),
            faults: 0,
        }
    }

    /// The host, of which the next calls of `listen` fail, so many of them. It takes no memory.
    pub fn refusing(self, refusals: u64) -> MemoryHost
        ensures { result ≡ record self { refusals = refusals } }
    {
        let mut host = self;
        host.refusals = refusals;
        host
    }

    /// The listeners that it was given back, in order. It takes no memory.
    pub fn returned(&self) -> &[MemoryListener]
        ensures { map listener_door result.now ≡ self.now.returned }
    {
        self.returned.as_slice()
    }
}

// The connections of the next listener: those that have waited longest, or none.
fn next_connections(alloc: Global, waiting: &mut VecDeque<Vec<Vec<u8>>>) -> Vec<Vec<u8>>
    ensures next { map (λ bytes. bytes.items) result.items ≡ first_or_none (connections_in waiting.old.items) }
    ensures others { waiting.new.items ≡ drop 1 waiting.old.items }
{
    match waiting.pop_front() {
        Some(connections) => connections,
        None => Vec::new(alloc),
    }
}

// So many listeners, with the connections that have waited longest.
fn open(
    alloc: Global,
    waiting: &mut VecDeque<Vec<Vec<u8>>>,
    doors: usize,
) -> Result<Vec<MemoryListener>, NoMemory>
    ensures dealt { IfOk result (λ listeners.
        listeners.items ≡ map fresh_listener (dealt doors (connections_in waiting.old.items))) }
    ensures others { OnOk result (waiting.new.items ≡ drop doors waiting.old.items) }
{
    let mut opened = Vec::with_capacity(alloc, doors)?;
    for _ in 0..doors {
        let connections = next_connections(alloc, waiting);
        opened.push(MemoryListener::new(alloc, connections)?)?;
    }
    Ok(opened)
}

impl Host for MemoryHost {
    type Door = MemoryListener;

    type Time = FixedClock;

    ghost use Rattle.std.specs.Prelude.{Some};

    ghost returned = { λ host. Some host.returned };

    ghost opened = { λ host. Some host.opened };

    ghost faults = { λ host. host.faults };

    fn listen(&mut self, at: &Text, doors: usize) -> Result<Vec<MemoryListener>, Trouble>
        ensures count { IfOk result (λ listeners. length listeners.items ≡ doors) }
        ensures opened { IfOk result
            (λ listeners. self.new.opened ≡ self.old.opened ++ opened_at at.now (map listener_door listeners.items)) }
        ensures none { OnErr result (self.new.opened ≡ self.old.opened) }
        ensures out { OnOk result (length self.new.returned + doors ≤ length self.new.opened) }
        ensures returned { self.new.returned ≡ self.old.returned }
        ensures cause { FailsByFault self.old.faults self.new.faults result }

        // It fails just where it was told to, and else for memory alone. Its listeners have the connections that have
        // waited longest, afresh, and where none are left no connections.
        ensures refused { 0 < self.old.refusals → IsErrOf result trouble_failed }
        ensures sure { self.old.refusals ≡ 0 → IfErr result (λ trouble. trouble ≡ trouble_no_memory) }
        ensures dealt { IfOk result (λ listeners.
            (listeners.items ≡ map fresh_listener (dealt doors self.old.waiting))
            × (self.new.waiting ≡ drop doors self.old.waiting)) }
        ensures counted { self.new ≡ record self.old {
          opened = self.new.opened;
          waiting = self.new.waiting;
          refusals = self.old.refusals - 1;
          faults = failures_after result self.old.faults;
        } }
    {
        if self.refusals > 0 {
            self.refusals -= 1;
            self.faults = self.faults.saturating_add(1);
            return Err(Trouble::Failed);
        }
        let at = at.copy(self.alloc)?;
        let Some(given) = self.given.checked_add(doors) else {
            return Err(Trouble::NoMemory);
        };
        self.openings.reserve(1)?;
        self.returned.reserve(given - self.returned.len())?;
        let listeners = open(self.alloc, &mut self.waiting, doors)?;
        self.openings.push_reserved(Opening { at, doors });
        self.given = given;
        Ok(listeners)
    }

    fn clock(&mut self) -> FixedClock
        ensures opened { self.new.opened ≡ self.old.opened }
        ensures returned { self.new.returned ≡ self.old.returned }
        ensures faults { self.new.faults ≡ self.old.faults }

        // It stands at 0, and nothing changes.
        ensures stands { result ≡ record { at = 0; given = 0 } }
        ensures unchanged { self.new ≡ self.old }
    {
        FixedClock::new(0)
    }

    fn shut(&mut self, door: MemoryListener)
        requires out { length self.old.returned + 1 ≤ length self.old.opened }
        ensures opened { self.new.opened ≡ self.old.opened }
        ensures returned { self.new.returned ≡ self.old.returned ++ listener_door door ∷ [] }
        ensures faults { self.new.faults ≡ self.old.faults }

        // Nothing else changes.
        ensures kept { self.new ≡ record self.old { returned = self.new.returned } }
    {
        self.returned.push_reserved(door);
    }
}
