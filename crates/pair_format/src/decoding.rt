//! What a pair spells.
ghost use Rattle.std.specs.Prelude.{◌≡◌, Ok, IfOk};
ghost use Rattle.pair_format.specs.declared.fault.PairFault.TheVariants.{Key, Value};
ghost use Rattle.pair_format.specs.declared.stored.Stored.{Stored as AnyStored};
ghost use Rattle.pair_format.specs.PairSpelling.{pair_spelling, key_of, key_spelling, value_spelling, IsSpelledStored};
ghost use Rattle.pair_format.specs.PairReading.{Answers, fault_at, pair_from};

use crate::fault::PairFault;
use crate::keys::read_key;
use crate::pair::Pair;
use crate::stored::Stored;
use crate::values::read_value;
use lake_format::FieldFault;
use std::alloc::Global;

/// What the pair spells, which may have any bytes. The key is read first, whole, and then the value; each from the
/// left, and the first fault that is met is answered, with its place: where the innermost field begins that is short
/// or bad, or the bytes behind the last field.
pub fn decode_pair(alloc: Global, pair: &Pair) -> Result<Stored, PairFault>
    // What is read is spelled so.
    ensures found { IfOk result (λ s. IsSpelledStored s × (pair.now ≡ pair_spelling s)) }
    // What is spelled so is read, unless memory runs out.
    ensures only { (s : AnyStored) → IsSpelledStored s → pair.now ≡ pair_spelling s
        → Answers result (Ok s) }
    // Which fault it is.
    ensures exact { Answers result (pair_from pair.now.key pair.now.value) }
{
    decode_parts(alloc, pair.key.as_slice(), pair.value.as_slice())
}

// What a key and its value spell.
fn decode_parts(alloc: Global, key: &[u8], value: &[u8]) -> Result<Stored, PairFault>
    ensures found { IfOk result (λ s. IsSpelledStored s
        × (key.now ≡ key_spelling (key_of s)) × (value.now ≡ value_spelling s)) }
    ensures only { (s : AnyStored) → IsSpelledStored s → key.now ≡ key_spelling (key_of s)
        → value.now ≡ value_spelling s → Answers result (Ok s) }
    ensures exact { Answers result (pair_from key.now value.now) }
{
    let stored = read_pair(alloc, key, value)?;
    Ok(stored)
}

// The key, and then the value.
#[tactic(auto, unfolding(crate::specs::PairReading::pair_from))]
fn read_pair(alloc: Global, key: &[u8], value: &[u8]) -> Result<Stored, PairFault>
    ensures { Answers result (pair_from key.now value.now) }
{
    let parts = read_key(alloc, key).map_err(|fault| key_fault(fault, key.len()))?;
    let stored = read_value(alloc, parts, value).map_err(|fault| value_fault(fault, value.len()))?;
    Ok(stored)
}

// A field's fault in a key of so many bytes.
fn key_fault(fault: FieldFault, len: usize) -> PairFault
    ensures { result ≡ fault_at Key len fault }
{
    match fault.place(len) {
        Some(place) => PairFault::Key(place),
        None => PairFault::NoMemory,
    }
}

// A field's fault in a value of so many bytes.
fn value_fault(fault: FieldFault, len: usize) -> PairFault
    ensures { result ≡ fault_at Value len fault }
{
    match fault.place(len) {
        Some(place) => PairFault::Value(place),
        None => PairFault::NoMemory,
    }
}
