//! The ranges of a tree, which are found by their names too.
ghost use Rattle.std.specs.Prelude.{◌≡◌, IfOk, Some, slice_get, option_copied};
ghost use Rattle.std.specs.Bool.{OnTrue};
ghost use Rattle.meta_range.specs.RangeNames.{TellsFirst, first_named, range_name, is_matched, are_matched};

use crate::places::{Places, put_first};
use crate::shared_range::SharedRange;
use lake_base::digest::Digest;
use lake_base::outside::NoMemory;
use std::alloc::Global;
use std::collections::BTreeMap;
use std::marker::Model;

/// The ranges of a tree in order, which are found by their names too. Contracts see their list.
#[derive(Debug, Drop)]
pub(crate) struct NamedRanges {
    ranges: Vec<SharedRange>,
    // Where each name stands first among them.
    places: Places,
}

impl Model for NamedRanges {
    ghost use Rattle.std.specs.Prelude.{List};
    ghost use Rattle.range_file.specs.Rows.{RowValue};
    ghost use Rattle.meta_range.specs.RangeNames.{TellsFirst, range_name};

    ghost Value = { List (List RowValue) };

    ghost view = { λ named. named.ranges.items };

    ghost invariant = { λ named. TellsFirst range_name named.places.entries named.ranges.items };
}

impl NamedRanges {
    /// These ranges. Each name is taken in once.
    pub(crate) fn of(alloc: Global, ranges: Vec<SharedRange>) -> Result<NamedRanges, NoMemory>
        ensures { IfOk result (λ named. named ≡ ranges.items) }
    {
        let places = places_of(alloc, ranges.as_slice())?;
        Ok(NamedRanges { ranges, places })
    }

    /// The ranges, in order.
    pub(crate) fn as_slice(&self) -> &[SharedRange]
        ensures { result.now ≡ self.now }
    {
        self.ranges.as_slice()
    }

    /// The first range of this name, by a search.
    pub(crate) fn named(&self, name: &Digest) -> Option<&SharedRange>
        ensures { option_copied result ≡ first_named range_name name.now self.now }
    {
        match self.places.get(name) {
            Some(at) => self.ranges.get(*at),
            None => None,
        }
    }

    /// Whether the first range here that has the name of this one, where there is one, has its rows.
    pub(crate) fn match_one(&self, range: &SharedRange) -> bool
        ensures { result ≡ is_matched self.now range.now }
    {
        match self.named(&range.name()) {
            Some(found) => range.has_rows_of(found),
            None => true,
        }
    }

    /// Whether these match each of the others, by a search for each.
    pub(crate) fn match_all(&self, others: &NamedRanges) -> bool
        ensures { result ≡ are_matched self.now others.now }
    {
        for range in others.as_slice() {
            if !self.match_one(range) {
                return false;
            }
        }
        true
    }

    /// Whether they match each other. A range that is the first of its name isn't compared with itself.
    pub(crate) fn match_themselves(&self) -> bool
        ensures { result ≡ are_matched self.now self.now }
    {
        for (at, range) in self.as_slice().iter().enumerate() {
            if !self.match_own(at, range) {
                return false;
            }
        }
        true
    }

    // Whether they match the range at this place.
    fn match_own(&self, at: usize, range: &SharedRange) -> bool
        requires { slice_get self.now at ≡ Some range.now }
        ensures { result ≡ is_matched self.now range.now }
    {
        self.is_first(at, range) || self.match_one(range)
    }

    // Whether the range at this place is the first of its name.
    fn is_first(&self, at: usize, range: &SharedRange) -> bool
        requires { slice_get self.now at ≡ Some range.now }
        ensures { OnTrue result (first_named range_name (range_name range.now) self.now ≡ Some range.now) }
    {
        match self.places.get(&range.name()) {
            Some(first) => *first == at,
            None => false,
        }
    }
}

// Where each name stands first among ranges.
fn places_of(alloc: Global, ranges: &[SharedRange]) -> Result<Places, NoMemory>
    ensures { IfOk result (λ places. TellsFirst range_name places.entries ranges.now) }
{
    let mut places = BTreeMap::new(alloc);
    for (at, range) in ranges.iter().enumerate() {
        put_first(&mut places, range.name(), at)?;
    }
    Ok(places)
}
