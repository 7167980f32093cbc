//! Places under names: a place in which nothing stands is room for what may come.
ghost use Rattle.std.specs.Prelude.{◌≡◌, true, ℕ, List, OnOk, Some};
ghost use Rattle.std.specs.FinMap.{contains_key, insert, remove};
ghost use Rattle.byte_map.specs.Values.{some_values};

use byte_map::{ByteKey, ByteMap};
use lake_base::{NoMemory, TryCopy};
use std::alloc::Global;

/// Makes a place for what is to stand under a name, where there is none. It changes nothing else.
pub fn make_place<K: ByteKey + TryCopy, V: Drop>(
    alloc: Global,
    places: &mut ByteMap<K, Option<V>>,
    name: &K,
) -> Result<(), NoMemory>
    ensures same { some_values (λ place. place) places.new ≡ some_values (λ place. place) places.old }
    ensures place { OnOk result (contains_key places.new (K.bytes name.now) ≡ true) }
    ensures kept { (other : List ℕ) → contains_key places.old other ≡ true → contains_key places.new other ≡ true }
{
    if places.contains_key(name) {
        return Ok(());
    }
    places.insert(name.copy(alloc)?, None)?;
    Ok(())
}

/// Puts a value under a name, which has a place. It takes no memory.
pub fn put_in_place<K: ByteKey, V: Drop>(places: &mut ByteMap<K, Option<V>>, name: &K, value: V)
    requires { contains_key places.old (K.bytes name.now) ≡ true }
    ensures { places.new ≡ insert places.old (K.bytes name.now) (Some value) }
{
    if let Some(place) = places.get_mut(name) {
        *place = Some(value);
    }
}

// Takes away what stands under a name.
pub(crate) fn drop_place<K: ByteKey, V: Drop>(places: &mut ByteMap<K, Option<V>>, name: &K)
    ensures { places.new ≡ remove places.old (K.bytes name.now) }
{
    let _value = places.remove(name);
}
