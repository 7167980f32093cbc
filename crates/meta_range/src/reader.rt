//! Trees that are read one after the other, whose ranges are among the same files.
ghost use Rattle.std.specs.Prelude.{◌≡◌, ◌<◌, IfOk, option_copied};
ghost use Rattle.meta_range.specs.TreeReading.{IsTreeWith, ReadsAs, tree_with};

use crate::fault::TreeFault;
use crate::given_files::{GivenFiles, LentFile};
use crate::reading::read_tree;
use crate::shelf::Shelf;
use crate::tree::Tree;
use lake_base::digest::Digest;
use lake_base::outside::NoMemory;
use range_file::Cut;
use std::alloc::Global;
use std::collections::BTreeMap;
use std::marker::Model;

/// Range files of which trees are read one after the other. A range that several trees have is digested and read once,
/// and shared by them. Contracts see the list of the files.
#[derive(Drop)]
pub struct TreeReader<'a> {
    given: GivenFiles<'a>,
    shelf: Shelf,
}

impl<'a> Model for TreeReader<'a> {
    ghost use Rattle.std.specs.Prelude.{List};
    ghost use Rattle.meta_range.specs.TreeReading.{AreShelved};
    ghost use Rattle.meta_range.specs.declared.file.File.{File as AnyFile};

    ghost Value = { List AnyFile };

    ghost view = { λ reader. reader.given };

    ghost invariant = { λ reader. AreShelved reader.given reader.shelf.entries };
}

impl<'a> TreeReader<'a> {
    /// These range files; of several of one name the first counts. No file's bytes are looked at.
    pub fn of(alloc: Global, files: Vec<LentFile<'a>>) -> Result<TreeReader<'a>, NoMemory>
        ensures { IfOk result (λ reader. reader ≡ files.entry.items) }
    {
        let given = GivenFiles::of(alloc, files)?;
        let shelf = BTreeMap::new(alloc);
        Ok(TreeReader { given, shelf })
    }

    /// The tree of this name, of the bytes of its metarange, where that is given, and of ranges among these files. The
    /// first fault is answered, in the order of `Tree::read`. It costs the bytes of the metarange, those of the ranges
    /// that weren't read before, and a look at each row, for the cut.
    pub fn read(
        &mut self,
        alloc: Global,
        name: &Digest,
        metarange: Option<&[u8]>,
        cut: &Cut,
    ) -> Result<Tree, TreeFault>
        requires { 0 < cut.now.modulus }
        ensures same { self.new ≡ self.old }
        ensures reads { ReadsAs (λ tree. tree) result
            (tree_with name.now (option_copied metarange.entry) self.old cut.now) }
        ensures found { IfOk result
            (λ tree. IsTreeWith name.now (option_copied metarange.entry) self.old cut.now tree) }
    {
        read_tree(alloc, name, metarange, &self.given, &mut self.shelf, cut)
    }
}
