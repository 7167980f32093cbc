//! Files that are given, which are found by their names.
ghost use Rattle.std.specs.Prelude.{◌≡◌, IfOk, option_copied};
ghost use Rattle.meta_range.specs.Files.{bytes_named, given_name};
ghost use Rattle.meta_range.specs.RangeNames.{TellsFirst, first_named};

use crate::places::{Places, put_first};
use lake_base::digest::Digest;
use lake_base::outside::NoMemory;
use std::alloc::Global;
use std::collections::BTreeMap;
use std::marker::Model;

/// A file that is lent, under its name. Contracts see the file.
#[derive(Drop)]
pub struct LentFile<'a> {
    name: Digest,
    bytes: &'a [u8],
}

impl<'a> Model for LentFile<'a> {
    ghost use Rattle.meta_range.specs.declared.file.File.{File as AnyFile};

    ghost Value = { AnyFile };

    ghost view = { λ lent. record { name = lent.name; bytes = lent.bytes.now } };
}

impl<'a> LentFile<'a> {
    /// The file of these bytes, under this name.
    pub fn new(name: Digest, bytes: &'a [u8]) -> LentFile<'a>
        ensures { result ≡ record { name = name; bytes = bytes.now } }
    {
        LentFile { name, bytes }
    }

    /// Its name.
    pub(crate) fn name(&self) -> Digest
        ensures { result ≡ self.now.name }
    {
        self.name
    }

    /// Its bytes.
    pub(crate) fn bytes(&self) -> &'a [u8]
        ensures { result.now ≡ self.now.bytes }
    {
        self.bytes
    }
}

/// Files that are given, which are found by their names. Contracts see their list.
#[derive(Drop)]
pub(crate) struct GivenFiles<'a> {
    files: Vec<LentFile<'a>>,
    // Where each name stands first among them.
    places: Places,
}

impl<'a> Model for GivenFiles<'a> {
    ghost use Rattle.std.specs.Prelude.{List};
    ghost use Rattle.meta_range.specs.declared.file.File.{File as AnyFile};
    ghost use Rattle.meta_range.specs.Files.{given_name};
    ghost use Rattle.meta_range.specs.RangeNames.{TellsFirst};

    ghost Value = { List AnyFile };

    ghost view = { λ given. given.files.items };

    ghost invariant = { λ given. TellsFirst given_name given.places.entries given.files.items };
}

impl<'a> GivenFiles<'a> {
    /// These files. No file's bytes are looked at.
    pub(crate) fn of(alloc: Global, files: Vec<LentFile<'a>>) -> Result<GivenFiles<'a>, NoMemory>
        ensures { IfOk result (λ given. given ≡ files.entry.items) }
    {
        let places = places_of(alloc, files.as_slice())?;
        Ok(GivenFiles { files, places })
    }

    /// The bytes of the first file of this name, by a search.
    #[tactic(auto, unfolding(crate::specs::Files::bytes_named))]
    pub(crate) fn named(&self, name: &Digest) -> Option<&'a [u8]>
        ensures { option_copied result ≡ bytes_named name.now self.now }
    {
        match self.first_named(name) {
            Some(file) => Some(file.bytes()),
            None => None,
        }
    }

    // The first file of this name.
    fn first_named(&self, name: &Digest) -> Option<&LentFile<'a>>
        ensures { option_copied result ≡ first_named given_name name.now self.now }
    {
        match self.places.get(name) {
            Some(at) => self.files.get(*at),
            None => None,
        }
    }
}

// Where each name stands first among files.
fn places_of(alloc: Global, files: &[LentFile]) -> Result<Places, NoMemory>
    ensures { IfOk result (λ places. TellsFirst given_name places.entries files.now) }
{
    let mut places = BTreeMap::new(alloc);
    for (at, file) in files.iter().enumerate() {
        put_first(&mut places, file.name(), at)?;
    }
    Ok(places)
}
