//! Tables of names, which tell where each stands first in a list.
ghost use Rattle.std.specs.Prelude.{OnOk};
ghost use Rattle.meta_range.specs.RangeNames.{PutsFirst};

use lake_base::digest::Digest;
use lake_base::outside::NoMemory;
use std::collections::BTreeMap;

/// Of each name the place at which it stands first.
pub(crate) type Places = BTreeMap<Digest, usize>;

/// Puts a name at a place. One that the table tells of already stays at its place.
pub(crate) fn put_first(places: &mut Places, name: Digest, at: usize) -> Result<(), NoMemory>
    ensures { OnOk result (PutsFirst places.old.entries places.new.entries name at) }
{
    if places.contains_key(&name) {
        return Ok(());
    }
    places.insert(name, at)?;
    Ok(())
}
