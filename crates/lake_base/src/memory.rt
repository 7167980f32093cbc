//! A source and a sink in memory, for tests and for runs without files.
ghost use Rattle.std.specs.Prelude.{◌≡◌, ◌<◌, ◌≤◌, ◌++◌, [], false, true, length, min, take, is_err, IfOk, IsErr};
ghost use Rattle.std.specs.Prelude.{OnErr, OnOk, IsTrue};
ghost use Rattle.lake_base.specs.Outside.{HasCause, Reads, Takes};
ghost use Rattle.lake_base.specs.Memory.{next_count, faults_after, is_to_fail};

use crate::outside::{Failed, Sink, Source};
use std::alloc::Global;
use std::marker::Model;

/// A source over bytes in memory. It gives them in pieces, and fails at the reads that it was told.
#[derive(Debug, Drop)]
pub struct MemorySource {
    bytes: Vec<u8>,
    at: usize,
    piece: usize,
    fails: Vec<u64>,
    reads: u64,
    faults: u64,
}

impl Model for MemorySource {
    ghost use Rattle.std.specs.Prelude.{◌≤◌, ◌<◌, drop, vec_len};
    ghost use Rattle.lake_base.specs.Memory.{MemorySourceValue};

    ghost Value = { MemorySourceValue };

    ghost view = { λ source. record {
      left = drop source.at source.bytes.items;
      piece = source.piece;
      fails = source.fails.items;
      reads = source.reads;
      faults = source.faults;
    } };

    ghost invariant = { λ source. (source.at ≤ vec_len source.bytes) × (0 < source.piece) };
}

impl MemorySource {
    /// A source of these bytes, of which a read gives at most `piece`. Read k fails where k is one of
    /// `fails`, counted from 1. It takes no memory.
    pub fn new(bytes: Vec<u8>, piece: usize, fails: Vec<u64>) -> MemorySource
        requires { 0 < piece }
        ensures { result ≡ record {
          left = bytes.items;
          piece = piece;
          fails = fails.items;
          reads = 0;
          faults = 0;
        } }
    {
        MemorySource {
            bytes,
            at: 0,
            piece,
            fails,
            reads: 0,
            faults: 0,
        }
    }
}

impl Source for MemorySource {
    ghost use Rattle.std.specs.Prelude.{Some};

    ghost left = { λ source. Some source.left };

    ghost faults = { λ source. source.faults };

    fn read(&mut self, room: &mut [u8]) -> Result<usize, Failed>
        ensures within { IfOk result (λ n. n ≤ length room.old) }
        ensures reads { IfOk result
            (λ n. Reads self.old.left (Some self.new.left) room.old room.new n) }
        ensures failed { OnErr result (self.new.left ≡ self.old.left) }
        ensures cause { HasCause self.old.faults self.new.faults result }

        // It fails exactly where it was told to, and else gives a piece.
        ensures listed { is_err result ≡ is_to_fail self.old.fails self.old.reads }
        ensures amount { IfOk result
            (λ n. n ≡ min (min (length room.old) self.old.piece) (length self.old.left)) }
        ensures counted { self.new ≡ record self.old {
          left = self.new.left;
          reads = next_count self.old.reads;
          faults = faults_after result self.old.faults;
        } }
    {
        self.reads = self.reads.saturating_add(1);
        if self.fails.contains(&self.reads) {
            self.faults = self.faults.saturating_add(1);
            return Err(Failed);
        }
        let left = &self.bytes[self.at..];
        let count = room.len().min(self.piece).min(left.len());
        room[..count].copy_from_slice(&left[..count]);
        self.at += count;
        Ok(count)
    }
}

/// A sink in memory. It takes pieces, and fails at the writes that it was told, and where no memory is left.
#[derive(Debug, Drop)]
pub struct MemorySink {
    written: Vec<u8>,
    piece: usize,
    fails: Vec<u64>,
    writes: u64,
    faults: u64,
    starved: bool,
}

impl Model for MemorySink {
    ghost use Rattle.std.specs.Prelude.{◌<◌};
    ghost use Rattle.lake_base.specs.Memory.{MemorySinkValue};

    ghost Value = { MemorySinkValue };

    ghost view = { λ sink. record {
      written = sink.written.items;
      piece = sink.piece;
      fails = sink.fails.items;
      writes = sink.writes;
      faults = sink.faults;
      starved = sink.starved;
    } };

    ghost invariant = { λ sink. 0 < sink.piece };
}

impl MemorySink {
    /// A sink that takes at most `piece` bytes a write. Write k fails where k is one of `fails`, counted
    /// from 1. It takes no memory.
    pub fn new(alloc: Global, piece: usize, fails: Vec<u64>) -> MemorySink
        requires { 0 < piece }
        ensures { result ≡ record {
          written = [];
          piece = piece;
          fails = fails.items;
          writes = 0;
          faults = 0;
          starved = false;
        } }
    {
        MemorySink {
            written: Vec::new(alloc),
            piece,
            fails,
            writes: 0,
            faults: 0,
            starved: false,
        }
    }

    /// Whether a write found no memory. It takes no memory.
    pub fn starved(&self) -> bool
        ensures { result ≡ self.now.starved }
    {
        self.starved
    }

    /// What was written. It takes no memory.
    pub fn written(&self) -> &[u8]
        ensures { result.now ≡ self.now.written }
    {
        self.written.as_slice()
    }
}

impl Sink for MemorySink {
    ghost use Rattle.std.specs.Prelude.{Some};

    ghost written = { λ sink. Some sink.written };

    ghost faults = { λ sink. sink.faults };

    fn write(&mut self, bytes: &[u8]) -> Result<usize, Failed>
        ensures takes { IfOk result (Takes (length bytes.now)) }
        ensures written { IfOk result
            (λ n. self.new.written ≡ self.old.written ++ take n bytes.now) }
        ensures failed { OnErr result (self.new.written ≡ self.old.written) }
        ensures cause { HasCause self.old.faults self.new.faults result }

        // It fails where it was told to, and else only for memory; else it takes a piece.
        ensures listed { IsTrue (is_to_fail self.old.fails self.old.writes)
            → IsErr result × (self.new.starved ≡ self.old.starved) }
        ensures unlisted { is_to_fail self.old.fails self.old.writes ≡ false
            → OnErr result (self.new.starved ≡ true) }
        ensures amount { IfOk result (λ n. n ≡ min (length bytes.now) self.old.piece) }
        ensures kept { OnOk result (self.new.starved ≡ self.old.starved) }
        ensures counted { self.new ≡ record self.old {
          written = self.new.written;
          writes = next_count self.old.writes;
          faults = faults_after result self.old.faults;
          starved = self.new.starved;
        } }
    {
        self.writes = self.writes.saturating_add(1);
        if self.fails.contains(&self.writes) {
            self.faults = self.faults.saturating_add(1);
            return Err(Failed);
        }
        let count = bytes.len().min(self.piece);
        if self.written.extend_from_slice(&bytes[..count]).is_err() {
            self.faults = self.faults.saturating_add(1);
            self.starved = true;
            return Err(Failed);
        }
        Ok(count)
    }
}
