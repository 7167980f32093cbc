//! A list of values that contracts see as that list.
ghost use Rattle.std.specs.Prelude.{◌≡◌};

use crate::copying::{TryCopy, copied};
use crate::outside::NoMemory;
use std::alloc::Global;
use std::marker::Model;

/// A vector that contracts see as the list of its items.
#[derive(Debug, Drop)]
pub struct Sequence<T> {
    items: Vec<T>,
}

impl<T> Model for Sequence<T> {
    ghost use Rattle.std.specs.Prelude.{List};

    ghost Value = { List T };

    ghost view = { λ sequence. sequence.items.items };
}

impl<T> Sequence<T> {
    /// The list of these items. It takes no memory.
    pub fn of(items: Vec<T>) -> Sequence<T>
        ensures { result ≡ items.items }
    {
        Sequence { items }
    }

    /// The items. It takes no memory.
    pub fn as_slice(&self) -> &[T]
        ensures { result.now ≡ self.now }
    {
        self.items.as_slice()
    }

    /// The vector of the items. It takes no memory.
    pub fn into_vec(self) -> Vec<T>
        ensures { result.items ≡ self }
    {
        self.items
    }
}

impl<T: TryCopy> TryCopy for Sequence<T> {
    fn copy(&self, alloc: Global) -> Result<Sequence<T>, NoMemory> {
        let items = copied(alloc, self.items.as_slice())?;
        Ok(Sequence { items })
    }
}
