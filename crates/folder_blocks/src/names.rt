//! The names of objects' files.
ghost use Rattle.std.specs.Prelude.{◌≡◌, ◌≢◌, ◌<◌, ◌^◌, ◌↔◌, ℕ, length, string_bytes, IsTrue, IfOk, IfSome, IfNone};
ghost use Rattle.std.specs.List.{AllPass};
ghost use Rattle.lake_base.specs.Names.{is_hex};
ghost use Rattle.folder_blocks.specs.ObjectNames.{object_name};

use lake_base::NoMemory;
use std::alloc::Global;

/// The name of an object's file: its number as 16 lower-case hex digits.
pub fn name_of(alloc: Global, number: u64) -> Result<String, NoMemory>
    ensures { IfOk result (λ name. string_bytes name ≡ object_name number) }
{
    Ok(hex::encode(alloc, &number.to_be_bytes())?)
}

/// The number of the object whose file has this name, where it is the name of one. It takes no memory.
pub fn number_of(name: &[u8]) -> Option<u64>
    ensures named { IfSome result (λ number. name.now ≡ object_name number) }
    ensures unnamed { IfNone result ((number : ℕ) → number < 2 ^ 64 → name.now ≢ object_name number) }
{
    let mut bytes = [0; 8];
    if hex::decode_to_slice(name, &mut bytes).is_err() {
        return None;
    }
    let number = u64::from_be_bytes(bytes);
    // Upper-case digits stand for a number too, whose name they aren't.
    if is_name_of(name, number) {
        Some(number)
    } else {
        None
    }
}

// Whether a name is that of a number.
fn is_name_of(name: &[u8], number: u64) -> bool
    ensures { IsTrue result ↔ (name.now ≡ object_name number) }
{
    let mut digits = [0; 16];
    match hex::encode_to_slice(&number.to_be_bytes(), &mut digits) {
        Ok(()) => name == digits.as_slice(),
        Err(_) => unreachable!(),
    }
}

/// A name is 16 lower-case hex digits, so that it leads out of no folder, and no two numbers have the same. (A law: it
/// does nothing.)
pub fn law_of_names()
    ensures long { (number : ℕ) → length (object_name number) ≡ 16 }
    ensures digits { (number : ℕ) → AllPass is_hex (object_name number) }
    ensures apart { (a b : ℕ) → a < 2 ^ 64 → b < 2 ^ 64 → object_name a ≡ object_name b → a ≡ b }
{}
