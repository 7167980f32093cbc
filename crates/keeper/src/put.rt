//! One put.
ghost use Rattle.std.specs.Prelude.{◌≡◌, ℕ, List, IfOk};
ghost use Rattle.std.specs.Option.{option_map_or};
ghost use Rattle.std.specs.FinMap as map;
ghost use Rattle.keeper.specs.Keepers.{KeptPairs, pairs_after, last_put};
ghost use Rattle.keeper.specs.declared.put.Put.{Put as AnyPut};

use lake_base::copying::TryCopy;
use lake_base::outside::NoMemory;
use lake_base::sequence::Sequence;
use std::alloc::Global;

/// What is to stand under a key: a value, or nothing.
#[derive(Debug, Drop)]
pub struct Put {
    pub key: Sequence<u8>,
    pub value: Option<Sequence<u8>>,
}

impl TryCopy for Put {
    fn copy(&self, alloc: Global) -> Result<Put, NoMemory> {
        let key = copied_bytes(alloc, &self.key)?;
        let value = copied_value(alloc, &self.value)?;
        Ok(Put { key, value })
    }
}

// Equal bytes.
pub(crate) fn copied_bytes(alloc: Global, bytes: &Sequence<u8>) -> Result<Sequence<u8>, NoMemory>
    ensures { IfOk result (λ copy. copy ≡ bytes.now) }
{
    let copy = Vec::from_slice(alloc, bytes.as_slice())?;
    Ok(Sequence::of(copy))
}

// An equal value, where there is one.
fn copied_value(
    alloc: Global,
    value: &Option<Sequence<u8>>,
) -> Result<Option<Sequence<u8>>, NoMemory>
    ensures { IfOk result (λ copy. copy ≡ value.now) }
{
    match value {
        None => Ok(None),
        Some(bytes) => Ok(Some(copied_bytes(alloc, bytes)?)),
    }
}

/// After puts there stands under a key the value of the last put of that key, and what stood there before where there
/// is no such put. (A law: it does nothing.)
pub fn law_of_puts()
    ensures { (puts : List AnyPut) (before : KeptPairs) (key : List ℕ)
        → map.get (pairs_after puts before) key
        ≡ option_map_or (λ put. put.value) (last_put key puts) (map.get before key) }
{}
