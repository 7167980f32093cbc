//! The line under way.
ghost use Rattle.std.specs.Prelude.{◌≡◌, ◌++◌, ◌∷◌, [], take, IfOk};
ghost use Rattle.std.specs.Str.Lines.{strip_carriage_return};
ghost use Rattle.batch_lines.specs.Feeding.{line_room};

use lake_base::NoMemory;
use std::alloc::Global;
use std::marker::Model;

// How many bytes of a line are kept: enough to tell that it is too long, with a carriage return at its end.
const LINE_ROOM: usize = 65_538;

/// The line under way. Of a line that is too long a front is kept that is too long itself. Contracts see
/// the bytes that are kept.
#[derive(Debug, Drop)]
pub struct LineBuffer {
    bytes: Vec<u8>,
}

impl Model for LineBuffer {
    ghost use Rattle.std.specs.Prelude.{List, ℕ, ◌≤◌, vec_len, vec_capacity};
    ghost use Rattle.batch_lines.specs.declared.line_buffer.TheConstants.{LINE_ROOM};

    ghost Value = { List ℕ };

    ghost view = { λ line. line.bytes.items };

    ghost invariant = { λ line. (vec_len line.bytes ≤ LINE_ROOM) × (LINE_ROOM ≤ vec_capacity line.bytes) };
}

impl LineBuffer {
    /// An empty line, with all the room that a line takes.
    pub fn new(alloc: Global) -> Result<LineBuffer, NoMemory>
        ensures { IfOk result (λ line. line ≡ []) }
    {
        let bytes = Vec::with_capacity(alloc, LINE_ROOM)?;
        Ok(LineBuffer { bytes })
    }

    /// One byte more. It takes no memory.
    pub fn push(&mut self, byte: u8)
        ensures { self.new ≡ take line_room (self.old ++ byte ∷ []) }
    {
        if self.bytes.len() < LINE_ROOM {
            self.bytes.push_reserved(byte);
        }
    }

    /// The line as it stands at the end of its source. It takes no memory.
    pub fn as_slice(&self) -> &[u8]
        ensures { result.now ≡ self.now }
    {
        self.bytes.as_slice()
    }

    /// The line as it stands before a line feed: without one carriage return at its end. It takes no memory.
    pub fn ended(&self) -> &[u8]
        ensures { result.now ≡ strip_carriage_return self.now }
    {
        let bytes = self.bytes.as_slice();
        match bytes {
            [front @ .., b'\r'] => front,
            _ => bytes,
        }
    }

    /// The next line begins.
    pub fn clear(&mut self)
        ensures { self.new ≡ [] }
    {
        self.bytes.clear();
    }
}
