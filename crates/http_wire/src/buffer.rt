//! Bytes that were read ahead.
ghost use Rattle.std.specs.Prelude.{◌≡◌, ◌≤◌, ◌<◌, ◌+◌, [], length, drop, take, IfOk, IfSome, IfErr};
ghost use Rattle.std.specs.Prelude.{OnErr, slice_range, vec_len};
ghost use Rattle.lake_base.specs.Outside.{HasCause, Reads};
ghost use Rattle.http_wire.specs.Filling.{Filled, Grown, HasReadCause, IsFillFault};

use crate::fault::WireFault;
use lake_base::{Failed, NoMemory, Source};
use std::alloc::Global;
use std::marker::Model;

// How many bytes are read ahead at most: the longest head.
const ROOM: usize = 16_384;

/// Bytes that were read ahead of what was asked for, at most 16,384. Contracts see these bytes.
#[derive(Debug, Drop)]
pub struct Buffer {
    room: Vec<u8>,
    start: usize,
    end: usize,
}

impl Model for Buffer {
    ghost use Rattle.std.specs.Prelude.{List, ℕ, ◌≤◌, vec_len, slice_range};
    ghost use Rattle.http_wire.specs.declared.buffer.TheConstants.{ROOM};

    ghost Value = { List ℕ };

    ghost view = { λ buffer. slice_range buffer.room.items buffer.start buffer.end };

    ghost invariant = { λ buffer. (buffer.start ≤ buffer.end) × (buffer.end ≤ vec_len buffer.room)
        × (vec_len buffer.room ≤ ROOM) };
}

impl Buffer {
    /// Nothing was read ahead. It takes no memory.
    pub fn new(alloc: Global) -> Buffer
        ensures { result ≡ [] }
    {
        Buffer {
            room: Vec::new(alloc),
            start: 0,
            end: 0,
        }
    }

    /// The bytes.
    pub(crate) fn held(&self) -> &[u8]
        ensures same { result.now ≡ self.now }
        ensures within { length result.now ≤ 16384 }
    {
        &self.room[self.start..self.end]
    }

    /// The first of them are taken out.
    pub(crate) fn skip(&mut self, count: usize)
        requires { count ≤ length self.old }
        ensures { self.new ≡ drop count self.old }
    {
        self.start += count;
    }

    /// Reads more bytes, by one read, and answers how many came: 0 means that the source ended.
    pub(crate) fn fill<S: Source>(&mut self, source: &mut S) -> Result<usize, WireFault>
        requires { length self.old < 16384 }
        ensures reads { IfOk result (λ n. IfSome (S.left source.old) (Filled self.old self.new (S.left source.new) n)) }
        ensures grown { IfOk result (Grown self.old self.new) }
        ensures fault { IfErr result (IsFillFault (S.left source.old) (S.left source.new)) }
        ensures cause { HasReadCause (S.faults source.old) (S.faults source.new) result }
    {
        (self.start, self.end) = make_room(&mut self.room, self.start, self.end)?;
        match read_behind(source, &mut self.room, self.end) {
            Ok(count) => {
                self.end += count;
                Ok(count)
            }
            Err(_) => Err(WireFault::ReadFault),
        }
    }
}

// The bytes from `start` to `end` are moved where there is room behind them.
fn make_room(room: &mut Vec<u8>, start: usize, end: usize) -> Result<(usize, usize), NoMemory>
    requires ordered { start ≤ end }
    requires within { end ≤ vec_len room.old }
    requires limit { vec_len room.old ≤ 16384 }
    requires few { end < start + 16384 }
    ensures same { IfOk result (λ at. slice_range room.new.items at.0 at.1 ≡ slice_range room.old.items start end) }
    ensures room { IfOk result (λ at. (at.0 ≤ at.1) × (at.1 < vec_len room.new) × (vec_len room.new ≤ 16384)
        × (at.1 + start ≡ at.0 + end)) }
    ensures kept { OnErr result (room.new.items ≡ room.old.items) }
{
    room.resize(ROOM, 0)?;
    if start == end {
        return Ok((0, 0));
    }
    if end < ROOM {
        return Ok((start, end));
    }
    room.copy_within(start..end, 0);
    Ok((0, end - start))
}

/// Reads into the room behind its first `end` bytes, by one read.
pub(crate) fn read_behind<S: Source>(
    source: &mut S,
    room: &mut [u8],
    end: usize,
) -> Result<usize, Failed>
    requires { end ≤ length room.old }
    ensures front { take end room.new ≡ take end room.old }
    ensures within { IfOk result (λ n. end + n ≤ length room.old) }
    ensures reads { IfOk result (λ n. IfSome (S.left source.old)
        (λ left. Reads left (S.left source.new) (drop end room.old) (drop end room.new) n)) }
    ensures failed { OnErr result (S.left source.new ≡ S.left source.old) }
    ensures cause { HasCause (S.faults source.old) (S.faults source.new) result }
{
    source.read(&mut room[end..])
}
