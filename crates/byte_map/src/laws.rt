//! What holds of maps, and of maps with other values.
ghost use Rattle.std.specs.Prelude.{◌≡◌, ◌||◌, ℕ, false, List, Option, Some, None, option_map, if◌then◌else◌};
ghost use Rattle.std.specs.Option.{option_and_then};
ghost use Rattle.std.specs.Str.{bytes_eq};
ghost use Rattle.std.specs.FinMap as map;
ghost use Rattle.lake_base.specs.Maps.{ByteMap as MapTo};
ghost use Rattle.byte_map.specs.Values.{map_rows, some_rows, map_values, some_values};

/// What is found in a map after a change of it, and which changes come to the same. Maps in which the same is found
/// under each key are one. (A law: it does nothing.)
pub fn laws_of_maps<X>()
    ensures insert { (m : MapTo X) (k : List ℕ) (x : X) (q : List ℕ)
        → map.get (map.insert m k x) q ≡ (if bytes_eq q k then Some x else map.get m q) }
    ensures remove { (m : MapTo X) (k : List ℕ) (q : List ℕ)
        → map.get (map.remove m k) q ≡ (if bytes_eq q k then None else map.get m q) }
    ensures contains_insert { (m : MapTo X) (k : List ℕ) (x : X) (q : List ℕ)
        → map.contains_key (map.insert m k x) q ≡ (bytes_eq q k || map.contains_key m q) }
    ensures contains_remove { (m : MapTo X) (k : List ℕ) (q : List ℕ)
        → map.contains_key (map.remove m k) q ≡ (if bytes_eq q k then false else map.contains_key m q) }
    ensures inserted { (m : MapTo X) (k : List ℕ) (x : X) → map.get (map.insert m k x) k ≡ Some x }
    ensures removed { (m : MapTo X) (k : List ℕ) → map.get (map.remove m k) k ≡ None }
    ensures insert_same { (m : MapTo X) (k : List ℕ) (x : X) → map.get m k ≡ Some x → map.insert m k x ≡ m }
    ensures remove_absent { (m : MapTo X) (k : List ℕ) → map.get m k ≡ None → map.remove m k ≡ m }
    ensures insert_over { (m : MapTo X) (k : List ℕ) (x y : X) → map.insert (map.insert m k x) k y ≡ map.insert m k y }
    ensures remove_inserted { (m : MapTo X) (k : List ℕ) (x : X) → map.remove (map.insert m k x) k ≡ map.remove m k }
    ensures same { (m n : MapTo X) → ((q : List ℕ) → map.get m q ≡ map.get n q) → m ≡ n }
{}

/// The map with the values that a function gives, where it gives one: its entries, what is found in it, and how it
/// goes with a change of the first map. (A law: it does nothing.)
pub fn laws_of_some_values<X, Y>()
    ensures entries { (f : X → Option Y) (m : MapTo X) → map.entries (some_values f m) ≡ some_rows f (map.entries m) }
    ensures get { (f : X → Option Y) (m : MapTo X) (q : List ℕ)
        → map.get (some_values f m) q ≡ option_and_then f (map.get m q) }
    ensures insert { (f : X → Option Y) (m : MapTo X) (k : List ℕ) (x : X) (y : Y)
        → f x ≡ Some y → some_values f (map.insert m k x) ≡ map.insert (some_values f m) k y }
    ensures insert_none { (f : X → Option Y) (m : MapTo X) (k : List ℕ) (x : X)
        → f x ≡ None → some_values f (map.insert m k x) ≡ map.remove (some_values f m) k }
    ensures remove { (f : X → Option Y) (m : MapTo X) (k : List ℕ)
        → some_values f (map.remove m k) ≡ map.remove (some_values f m) k }
    ensures empty { (f : X → Option Y) → some_values f map.empty ≡ map.empty }
{}

/// The map with what a function makes of each value: its entries, what is found in it, and how it goes with a change
/// of the first map. (A law: it does nothing.)
pub fn laws_of_map_values<X, Y>()
    ensures entries { (f : X → Y) (m : MapTo X) → map.entries (map_values f m) ≡ map_rows f (map.entries m) }
    ensures get { (f : X → Y) (m : MapTo X) (q : List ℕ) → map.get (map_values f m) q ≡ option_map f (map.get m q) }
    ensures contains { (f : X → Y) (m : MapTo X) (q : List ℕ)
        → map.contains_key (map_values f m) q ≡ map.contains_key m q }
    ensures len { (f : X → Y) (m : MapTo X) → map.len (map_values f m) ≡ map.len m }
    ensures insert { (f : X → Y) (m : MapTo X) (k : List ℕ) (x : X)
        → map_values f (map.insert m k x) ≡ map.insert (map_values f m) k (f x) }
    ensures remove { (f : X → Y) (m : MapTo X) (k : List ℕ)
        → map_values f (map.remove m k) ≡ map.remove (map_values f m) k }
    ensures empty { (f : X → Y) → map_values f map.empty ≡ map.empty }
{}
