//! Copies that take memory.
ghost use Rattle.std.specs.Prelude.{◌≡◌, IfOk};

use crate::outside::NoMemory;
use std::alloc::Global;

/// A value that is copied where there is memory enough.
pub trait TryCopy: Drop {
    /// An equal value.
    fn copy(&self, alloc: Global) -> Result<Self, NoMemory>
        ensures equal { IfOk result (λ copy. copy ≡ self.now) };
}

impl<A: TryCopy, B: TryCopy> TryCopy for (A, B) {
    fn copy(&self, alloc: Global) -> Result<(A, B), NoMemory> {
        Ok((self.0.copy(alloc)?, self.1.copy(alloc)?))
    }
}

/// Equal items.
pub fn copied<T: TryCopy>(alloc: Global, items: &[T]) -> Result<Vec<T>, NoMemory>
    ensures { IfOk result (λ copy. copy.items ≡ items.now) }
{
    let mut copy = Vec::with_capacity(alloc, items.len())?;
    for item in items {
        copy.push(item.copy(alloc)?)?;
    }
    Ok(copy)
}
