//! The three trees of a merge.
//!
//! Where base, source and destination name a range alike, its rows are the same in all of them, so that a merge may
//! pass over ranges by their names. SHA-256 doesn't give that: it is tested once, when the three are put together.
ghost use Rattle.std.specs.Prelude.{◌≡◌, ◌↔◌, ◌⊎◌, IsTrue};
ghost use Rattle.meta_range.specs.Files.{Clash};
ghost use Rattle.meta_range.specs.RangeNames.{all_matched};
ghost use Rattle.meta_range.specs.Trio.{TrioValue as AnyTrio, Agree, range_files};

use crate::named_ranges::NamedRanges;
use crate::tree::Tree;
use std::alloc::Global;
use std::marker::Model;
use std::sync::Arc;

/// Three trees of a merge, in which ranges of equal names have equal rows. Contracts see the three.
#[derive(Debug, Drop)]
pub struct Trio {
    base: Arc<Tree, Global>,
    source: Arc<Tree, Global>,
    dest: Arc<Tree, Global>,
}

impl Model for Trio {
    ghost use Rattle.meta_range.specs.Trio.{TrioValue, trio_code, Agree};

    ghost Value = { TrioValue };

    ghost coded = { trio_code };

    ghost view = { λ trio. record { base = trio.base.value; source = trio.source.value; dest = trio.dest.value } };

    ghost invariant = { λ trio.
        Agree (record { base = trio.base.value; source = trio.source.value; dest = trio.dest.value }) };
}

impl Trio {
    /// Whether ranges of equal names among the three have equal rows. It takes no memory.
    pub fn agrees(base: &Tree, source: &Tree, dest: &Tree) -> bool
        ensures { IsTrue result
            ↔ Agree (record { base = base.now; source = source.now; dest = dest.now }) }
    {
        match_all(
            base.named_ranges(),
            source.named_ranges(),
            dest.named_ranges(),
        )
    }

    /// The three, of which `agrees` tells whether they can be. It takes no memory.
    pub fn new(base: Arc<Tree, Global>, source: Arc<Tree, Global>, dest: Arc<Tree, Global>) -> Trio
        requires { Agree (record { base = base.value; source = source.value; dest = dest.value }) }
        ensures { result ≡ record { base = base.value; source = source.value; dest = dest.value } }
    {
        Trio { base, source, dest }
    }

    /// The base. It takes no memory.
    pub fn base(&self) -> &Tree
        ensures tree { result.now ≡ self.now.base }
        ensures agree { Agree self.now }
    {
        &self.base
    }

    /// The source. It takes no memory.
    pub fn source(&self) -> &Tree
        ensures tree { result.now ≡ self.now.source }
        ensures agree { Agree self.now }
    {
        &self.source
    }

    /// The destination. It takes no memory.
    pub fn dest(&self) -> &Tree
        ensures tree { result.now ≡ self.now.dest }
        ensures agree { Agree self.now }
    {
        &self.dest
    }
}

/// Three trees agree, or two range files of theirs have one name and other bytes. (A law: it does nothing.)
pub fn law_of_agreement()
    ensures { (trio : AnyTrio) → Agree trio ⊎ Clash (range_files trio) (range_files trio) }
{}

// Whether the ranges of three trees match, each tree's own too.
fn match_all(base: &NamedRanges, source: &NamedRanges, dest: &NamedRanges) -> bool
    ensures { result ≡ all_matched base.now source.now dest.now }
{
    base.match_themselves()
        && source.match_themselves()
        && dest.match_themselves()
        && source.match_all(base)
        && dest.match_all(base)
        && dest.match_all(source)
}
