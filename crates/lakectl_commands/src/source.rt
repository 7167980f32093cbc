//! Bytes as a source.

ghost use Rattle.std.specs.Prelude.{◌≡◌};

use lake_base::{Failed, Source};

/// A source of bytes that are lent. It never fails.
#[derive(Debug, Drop)]
pub struct SliceSource<'a> {
    left: &'a [u8],
}

impl<'a> SliceSource<'a> {
    /// A source of these bytes, of which none was read.
    pub fn new(bytes: &'a [u8]) -> SliceSource<'a>
        ensures { result.left.now ≡ bytes.now }
    {
        SliceSource { left: bytes }
    }
}

impl<'a> Source for SliceSource<'a> {
    ghost use Rattle.std.specs.Prelude.{Some};

    ghost left = { λ source. Some source.left.now };

    ghost faults = { λ _. 0 };

    fn read(&mut self, room: &mut [u8]) -> Result<usize, Failed> {
        let count = room.len().min(self.left.len());
        let (front, rest) = self.left.split_at(count);
        room[..count].copy_from_slice(front);
        self.left = rest;
        Ok(count)
    }
}
