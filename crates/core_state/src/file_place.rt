//! Where a file is kept.
ghost use Rattle.std.specs.Prelude.{◌≡◌, ◌<◌, ◌==◌, length, IfOk};
ghost use Rattle.std.specs.Str.{bytes_eq};
ghost use Rattle.meta_range.specs.Files.{file_at};

use lake_base::{NoMemory, Sequence};
use meta_range::Tree;
use std::alloc::Global;
use std::marker::Model;
use std::sync::Arc;

/// Where a file is kept: in a tree, at a place of its files, of which the metarange is the one at 0 and the ranges come
/// then, in order. Contracts see the bytes of the file, and whether it is kept as a metarange or as a range.
#[derive(Debug, Drop)]
pub struct FilePlace {
    tree: Arc<Tree, Global>,
    place: usize,
}

impl Model for FilePlace {
    ghost use Rattle.std.specs.Prelude.{◌<◌, ◌==◌, length};
    ghost use Rattle.meta_range.specs.Files.{file_at};
    ghost use Rattle.core_state.specs.FilePlaces.{FilePlaceValue, file_place_code};

    ghost Value = { FilePlaceValue };

    ghost coded = { file_place_code };

    ghost view = { λ p. record { bytes = file_at p.tree.value.files p.place; is_metarange = p.place == 0 } };

    ghost invariant = { λ p. p.place < length p.tree.value.files };
}

impl FilePlace {
    /// The file at a place of a tree that has so many. It takes no memory.
    pub fn of(tree: Arc<Tree, Global>, place: usize) -> FilePlace
        requires { place < length tree.value.files }
        ensures { result ≡ record { bytes = file_at tree.value.files place; is_metarange = place == 0 } }
    {
        FilePlace { tree, place }
    }

    /// Whether it is kept as a metarange, and not as a range. It takes no memory.
    pub fn is_metarange(&self) -> bool
        ensures { result ≡ self.now.is_metarange }
    {
        self.place == 0
    }

    /// The bytes of the file. No other file of the tree is written.
    pub fn bytes(&self, alloc: Global) -> Result<Sequence<u8>, NoMemory>
        ensures { IfOk result (λ bytes. bytes ≡ self.now.bytes) }
    {
        let file = self.tree.file(alloc, self.place)?;
        Ok(file.bytes)
    }

    /// Whether it has the bytes of the file at a place of a tree. Of two ranges the rows are compared, and nothing is
    /// written.
    pub fn has_file_of(&self, alloc: Global, tree: &Tree, place: usize) -> Result<bool, NoMemory>
        requires { place < length tree.now.files }
        ensures { IfOk result (λ same. same ≡ bytes_eq self.now.bytes (file_at tree.now.files place)) }
    {
        self.tree.has_file_of(alloc, self.place, tree, place)
    }
}
