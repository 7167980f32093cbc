//! What was shown and isn't written yet.
ghost use Rattle.std.specs.Prelude.{◌≡◌, ◌+◌, ◌≤◌, ◌++◌, ◌⊎◌, [], length, IfOk, OnOk, OnErr};
ghost use Rattle.lake_base.specs.Outside.{HasCause, Rose};
ghost use Rattle.http_wire.specs.SinkFronts.{Wrote, WroteFront, Shows};

use http_wire::write::write_all;
use lake_base::{Failed, NoMemory, Sink};
use std::alloc::Global;
use std::marker::Model;

// How many bytes may be pending.
const OUTPUT_ROOM: usize = 65_536;

/// What was shown and isn't written yet, so that many short texts make few writes. Contracts see these bytes.
#[derive(Debug, Drop)]
pub struct PendingOutput {
    bytes: Vec<u8>,
}

impl Model for PendingOutput {
    ghost use Rattle.std.specs.Prelude.{List, ℕ, ◌≤◌, vec_len, vec_capacity};
    ghost use Rattle.batch_lines.specs.declared.output.TheConstants.{OUTPUT_ROOM};

    ghost Value = { List ℕ };

    ghost view = { λ output. output.bytes.items };

    ghost invariant = { λ output. (vec_len output.bytes ≤ OUTPUT_ROOM) × (OUTPUT_ROOM ≤ vec_capacity output.bytes) };
}

impl PendingOutput {
    /// Nothing is pending, and all the room is there that it ever takes.
    pub fn new(alloc: Global) -> Result<PendingOutput, NoMemory>
        ensures { IfOk result (λ output. output ≡ []) }
    {
        let bytes = Vec::with_capacity(alloc, OUTPUT_ROOM)?;
        Ok(PendingOutput { bytes })
    }

    /// Shows a text: it stays pending where there is room for it, else it is written behind what was pending.
    /// It takes no memory.
    pub fn show<W: Sink>(&mut self, sink: &mut W, text: &[u8]) -> Result<(), Failed>
        ensures shown { OnOk result (Shows (W.written sink.old) (W.written sink.new) self.old text.now self.new) }
        ensures front { OnErr result (WroteFront (W.written sink.old) (W.written sink.new) (self.old ++ text.now)) }
        ensures cause { HasCause (W.faults sink.old) (W.faults sink.new) result }
    {
        if text.len() <= OUTPUT_ROOM - self.bytes.len() {
            self.hold(text);
            return Ok(());
        }
        self.flush(sink)?;
        if text.len() <= OUTPUT_ROOM {
            self.hold(text);
            return Ok(());
        }
        write_all(sink, text)
    }

    /// Shows two texts, one behind the other. It takes no memory.
    pub fn show_both<W: Sink>(
        &mut self,
        sink: &mut W,
        text: &[u8],
        more: &[u8],
    ) -> Result<(), Failed>
        ensures shown { OnOk result
            (Shows (W.written sink.old) (W.written sink.new) self.old (text.now ++ more.now) self.new) }
        ensures front { OnErr result
            (WroteFront (W.written sink.old) (W.written sink.new) (self.old ++ (text.now ++ more.now))) }
        ensures cause { HasCause (W.faults sink.old) (W.faults sink.new) result }
    {
        self.show(sink, text)?;
        self.show(sink, more)
    }

    // A text is pending too.
    fn hold(&mut self, text: &[u8])
        requires { length self.old + length text.now ≤ OUTPUT_ROOM }
        ensures { self.new ≡ self.old ++ text.now }
    {
        match self.bytes.extend_from_slice(text) {
            Ok(()) => {}
            Err(_) => unreachable!(),
        }
    }

    /// Writes what is pending. It takes no memory.
    pub fn flush<W: Sink>(&mut self, sink: &mut W) -> Result<(), Failed>
        ensures all { OnOk result (Wrote (W.written sink.old) (W.written sink.new) self.old) }
        ensures none { OnOk result (self.new ≡ []) }
        ensures front { OnErr result (WroteFront (W.written sink.old) (W.written sink.new) self.old) }
        ensures cause { HasCause (W.faults sink.old) (W.faults sink.new) result }
    {
        write_all(sink, self.bytes.as_slice())?;
        self.bytes.clear();
        Ok(())
    }

    /// Writes what is pending, or a front of it where the sink fails. It takes no memory.
    pub fn give_up<W: Sink>(&mut self, sink: &mut W)
        ensures wrote { Wrote (W.written sink.old) (W.written sink.new) self.old
            ⊎ (WroteFront (W.written sink.old) (W.written sink.new) self.old
            × Rose (W.faults sink.old) (W.faults sink.new)) }
        ensures later { W.faults sink.old ≤ W.faults sink.new }
    {
        match self.flush(sink) {
            Ok(()) => {}
            Err(_) => {}
        }
    }
}
