//! Writing all of some bytes.
ghost use Rattle.std.specs.Prelude.{OnOk, OnErr};
ghost use Rattle.lake_base.specs.Outside.{HasCause};
ghost use Rattle.http_wire.specs.SinkFronts.{Wrote, WroteFront};

use lake_base::{Failed, Sink};

/// Writes all of the bytes, in as many writes as the sink wants. After a failure a front of them is written.
pub fn write_all<W: Sink>(sink: &mut W, bytes: &[u8]) -> Result<(), Failed>
    ensures all { OnOk result (Wrote (W.written sink.old) (W.written sink.new) bytes.now) }
    ensures front { OnErr result (WroteFront (W.written sink.old) (W.written sink.new) bytes.now) }
    ensures cause { HasCause (W.faults sink.old) (W.faults sink.new) result }
{
    let mut left = bytes;
    while !left.is_empty() {
        let taken = sink.write(left)?;
        left = &left[taken..];
    }
    Ok(())
}
