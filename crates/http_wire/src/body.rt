//! The body behind a head.
ghost use Rattle.std.specs.Prelude.{◌≡◌, ◌≤◌, ◌<◌, IfOk, IfSome, OnOk, drop, length, take, vec_len};
ghost use Rattle.http_wire.specs.BodyReading.{IsBodyAnswer, IsRestAnswer};
ghost use Rattle.http_wire.specs.Filling.{HasReadCause};

use crate::buffer::{Buffer, read_behind};
use crate::fault::WireFault;
use lake_base::{NoMemory, Source};
use std::alloc::Global;

// How much room is made first for a body of which nothing came, and how much at most behind what came: so much stays in
// the processor's cache until the source fills it.
const FIRST_ROOM: u64 = 16_384;

const MOST_ROOM: u64 = 131_072;

/// Reads a body of this length, behind a head of so many bytes. Its room grows with what came.
pub(crate) fn read_body<S: Source>(
    alloc: Global,
    source: &mut S,
    buffer: &mut Buffer,
    head: usize,
    size: u64,
) -> Result<Vec<u8>, WireFault>
    requires { head ≤ 16384 }
    ensures read { IfSome (S.left source.old)
        (λ left. IsBodyAnswer buffer.old left head size buffer.new (S.left source.new) result) }
    ensures cause { HasReadCause (S.faults source.old) (S.faults source.new) result }
{
    if size <= buffer.held().len() as u64 {
        return match take_held(alloc, buffer, size as usize) {
            Ok(body) => Ok(body),
            Err(_) => Err(WireFault::NoMemory),
        };
    }
    let count = buffer.held().len();
    let mut body = match take_held(alloc, buffer, count) {
        Ok(body) => body,
        Err(_) => return Err(WireFault::NoMemory),
    };
    match read_rest(source, &mut body, head, size) {
        Ok(()) => Ok(body),
        Err(fault) => Err(fault),
    }
}

// Takes so many of the bytes that are held.
fn take_held(alloc: Global, buffer: &mut Buffer, count: usize) -> Result<Vec<u8>, NoMemory>
    requires { count ≤ length buffer.old }
    ensures taken { IfOk result (λ body. body.items ≡ take count buffer.old) }
    ensures left { OnOk result (buffer.new ≡ drop count buffer.old) }
{
    let (front, _) = buffer.held().split_at(count);
    let body = Vec::from_slice(alloc, front)?;
    buffer.skip(count);
    Ok(body)
}

// Reads what of a body of this length is missing, straight into its room.
fn read_rest<S: Source>(
    source: &mut S,
    body: &mut Vec<u8>,
    head: usize,
    size: u64,
) -> Result<(), WireFault>
    requires head { head ≤ 16384 }
    requires part { vec_len body.old ≤ size }
    ensures read { IfSome (S.left source.old)
        (λ left. IsRestAnswer body.old.items left head size body.new.items (S.left source.new) result) }
    ensures cause { HasReadCause (S.faults source.old) (S.faults source.new) result }
{
    let mut came = body.len();
    'reading: while (came as u64) < size {
        match make_room(body, came, size) {
            Ok(()) => {}
            Err(_) => return Err(WireFault::NoMemory),
        }
        match read_behind(source, body, came) {
            Ok(0) => return Err(WireFault::Truncated(head as u64 + came as u64)),
            Ok(count) => came += count,
            Err(_) => return Err(WireFault::ReadFault),
        }
    }
    Ok(())
}

// Behind what came there is room for more: at first for a little, then for as much again, up to a limit.
fn make_room(body: &mut Vec<u8>, came: usize, size: u64) -> Result<(), NoMemory>
    requires came { came ≤ vec_len body.old }
    requires part { vec_len body.old ≤ size }
    requires more { came < size }
    ensures kept { take came body.new.items ≡ take came body.old.items }
    ensures room { OnOk result ((came < vec_len body.new) × (vec_len body.new ≤ size)) }
{
    if came < body.len() {
        return Ok(());
    }
    let more = (came as u64).max(FIRST_ROOM).min(MOST_ROOM);
    let room = size.min((came as u64).saturating_add(more));
    body.resize(room as usize, 0)?;
    Ok(())
}
