//! Bytes in parts are written by few writes.
ghost use Rattle.std.specs.Prelude.{◌≡◌, ◌++◌, [], OnOk, OnErr};
ghost use Rattle.lake_base.specs.Outside.{HasCause};
ghost use Rattle.http_wire.specs.SinkFronts.{Wrote, WroteFront, Shows, joined};

use crate::write::write_all;
use arrayvec::ArrayVec;
use lake_base::{Failed, Sink};

// How many bytes are pending at most.
const ROOM: usize = 1_024;

/// Writes the parts one behind the other: together what is short, and what is long alone. It takes no memory.
pub(crate) fn write_parts<W: Sink>(sink: &mut W, parts: &[&[u8]]) -> Result<(), Failed>
    ensures all { OnOk result (Wrote (W.written sink.old) (W.written sink.new) (joined parts.now)) }
    ensures front { OnErr result (WroteFront (W.written sink.old) (W.written sink.new) (joined parts.now)) }
    ensures cause { HasCause (W.faults sink.old) (W.faults sink.new) result }
{
    let mut pending: ArrayVec<u8, ROOM> = ArrayVec::new();
    for part in parts {
        show(sink, &mut pending, part)?;
    }
    write_all(sink, pending.as_slice())
}

// Shows a text: it stays pending where there is room for it, else it is written behind what was pending.
fn show<W: Sink>(sink: &mut W, pending: &mut ArrayVec<u8, ROOM>, text: &[u8]) -> Result<(), Failed>
    ensures shown { OnOk result
        (Shows (W.written sink.old) (W.written sink.new) pending.old.items text.now pending.new.items) }
    ensures front { OnErr result
        (WroteFront (W.written sink.old) (W.written sink.new) (pending.old.items ++ text.now)) }
    ensures cause { HasCause (W.faults sink.old) (W.faults sink.new) result }
{
    if pending.try_extend_from_slice(text).is_ok() {
        return Ok(());
    }
    write_all(sink, pending.as_slice())?;
    pending.clear();
    write_all(sink, text)
}
