//! One file of a tree: its name, its bytes, and whether it is that of another tree.
ghost use Rattle.std.specs.Prelude.{◌≡◌, ◌+◌, ◌<◌, length, IfOk};
ghost use Rattle.std.specs.Str.{bytes_eq};
ghost use Rattle.lake_format.specs.Spelling.{file_name};
ghost use Rattle.meta_range.specs.Files.{file_at, file_of};

use crate::file::File;
use crate::metarange::metarange_bytes;
use crate::tree::Tree;
use lake_base::digest::Digest;
use lake_base::outside::NoMemory;
use lake_base::sequence::Sequence;
use std::alloc::Global;

impl Tree {
    /// How many ranges it has. It takes no memory.
    pub fn range_count(&self) -> usize
        ensures { length self.now.files ≡ result + 1 }
    {
        self.ranges().len()
    }

    /// The name of its file at a place: the metarange's at 0, and then those of the ranges in order. It takes no
    /// memory.
    pub fn file_name(&self, place: usize) -> Digest
        requires { place < length self.now.files }
        ensures { result ≡ file_name (file_at self.now.files place) }
    {
        if place == 0 {
            return self.name();
        }
        self.ranges()[place - 1].name()
    }

    /// Its file at a place, of those that `files` gives. No other one is written.
    pub fn file(&self, alloc: Global, place: usize) -> Result<File, NoMemory>
        requires { place < length self.now.files }
        ensures { IfOk result (λ file. file ≡ file_of (file_at self.now.files place)) }
    {
        if place == 0 {
            return Ok(File {
                name: self.name(),
                bytes: Sequence::of(metarange_bytes(alloc, self.ranges())?),
            });
        }
        self.ranges()[place - 1].file(alloc)
    }

    /// Whether its file at a place has the bytes of the file of another tree at a place there. Of two ranges the rows
    /// are compared, and nothing is written.
    pub fn has_file_of(
        &self,
        alloc: Global,
        place: usize,
        other: &Tree,
        at: usize,
    ) -> Result<bool, NoMemory>
        requires here { place < length self.now.files }
        requires there { at < length other.now.files }
        ensures { IfOk result (λ same.
            same ≡ bytes_eq (file_at self.now.files place) (file_at other.now.files at)) }
    {
        if place > 0 && at > 0 {
            let range = &self.ranges()[place - 1];
            return Ok(range.has_rows_of(&other.ranges()[at - 1]));
        }
        let file = self.file(alloc, place)?;
        let kept = other.file(alloc, at)?;
        Ok(file.bytes.as_slice() == kept.bytes.as_slice())
    }
}
