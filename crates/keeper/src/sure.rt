//! A keeper in memory.
ghost use Rattle.std.specs.Prelude.{◌≡◌, ◌<◌, ◌↔◌, [], reverse, Some, None, IsTrue, IfOk, IfErr, IfSome, IsErrOf, OnOk};
ghost use Rattle.std.specs.Prelude.{OnErr, is_some, vec_len, vec_capacity, ◌++◌, ◌∷◌};
ghost use Rattle.std.specs.FinMap as map;
ghost use Rattle.lake_base.specs.Maps.{HasAscendingKeys};
ghost use Rattle.lake_base.specs.declared.outside.Trouble.TheVariants.{NoMemory as trouble_no_memory};
ghost use Rattle.keeper.specs.Keepers.{FailsByFault, entries_of, pairs_after, pairs_over};

use crate::keeper::Keeper;
use crate::pairs::OrderedPairs;
use crate::put::Put;
use lake_base::copying::copied;
use lake_base::outside::{NoMemory, Trouble};
use pair_format::Pair;
use std::alloc::Global;
use std::marker::Model;

/// A keeper in memory. It never fails but for memory. Contracts see the pairs that it keeps.
#[derive(Debug, Drop)]
pub struct SureKeeper {
    alloc: Global,
    pairs: OrderedPairs,
    // Pairs that it was made with and puts made since that count and aren't in place yet, since a map has no room that
    // was made before; of each the next one last.
    given: Vec<Pair>,
    waiting: Vec<Put>,
}

impl Model for SureKeeper {
    ghost use Rattle.std.specs.Prelude.{reverse};
    ghost use Rattle.std.specs.Coded.{coded_list, coded_ℕ};
    ghost use Rattle.std.specs.FinMap as map;
    ghost use Rattle.keeper.specs.Keepers.{KeptPairs, entries_of, pairs_after, pairs_over};

    ghost Value = { KeptPairs };

    ghost coded = { map.code (coded_list coded_ℕ) (coded_list coded_ℕ) };

    ghost view = { λ keeper. pairs_after (reverse keeper.waiting.items)
        (pairs_over (entries_of keeper.given.items) keeper.pairs) };
}

impl SureKeeper {
    /// A keeper of these pairs, whose keys strictly ascend: `are_ascending` tells. It takes no memory.
    pub fn holding(alloc: Global, pairs: Vec<Pair>) -> SureKeeper
        requires { HasAscendingKeys (entries_of pairs.items) }
        ensures { map.entries result ≡ entries_of pairs.items }
    {
        SureKeeper {
            alloc,
            pairs: OrderedPairs::new(alloc),
            given: pairs,
            waiting: Vec::new(alloc),
        }
    }
}

/// Whether the keys of the pairs strictly ascend, as bytes. It takes no memory.
pub fn are_ascending(pairs: &[Pair]) -> bool
    ensures { IsTrue result ↔ HasAscendingKeys (entries_of pairs.now) }
{
    for at in 1..pairs.len() {
        if !pairs[at - 1]
            .key
            .as_slice()
            .cmp(pairs[at].key.as_slice())
            .is_lt()
        {
            return false;
        }
    }
    true
}

// Puts all in place that isn't yet: first the pairs, then the puts, as far as memory goes.
fn settle(
    pairs: &mut OrderedPairs,
    given: &mut Vec<Pair>,
    waiting: &mut Vec<Put>,
) -> Result<(), NoMemory>
    ensures same { pairs_after (reverse waiting.new.items) (pairs_over (entries_of given.new.items) pairs.new)
        ≡ pairs_after (reverse waiting.old.items) (pairs_over (entries_of given.old.items) pairs.old) }
    ensures given { OnOk result (given.new.items ≡ []) }
    ensures waiting { OnOk result (waiting.new.items ≡ []) }
{
    settle_pairs(pairs, given)?;
    settle_puts(pairs, waiting)
}

// Puts the pairs in place, the last first.
fn settle_pairs(pairs: &mut OrderedPairs, given: &mut Vec<Pair>) -> Result<(), NoMemory>
    ensures same { pairs_over (entries_of given.new.items) pairs.new
        ≡ pairs_over (entries_of given.old.items) pairs.old }
    ensures settled { OnOk result (given.new.items ≡ []) }
{
    while let Some(pair) = given.pop() {
        match pairs.set(pair.key, pair.value) {
            Ok(()) => {}
            Err((key, value)) => {
                give_back(given, Pair { key, value });
                return Err(NoMemory);
            }
        }
    }
    Ok(())
}

// Puts the puts in place, the last first.
fn settle_puts(pairs: &mut OrderedPairs, waiting: &mut Vec<Put>) -> Result<(), NoMemory>
    ensures same { pairs_after (reverse waiting.new.items) pairs.new
        ≡ pairs_after (reverse waiting.old.items) pairs.old }
    ensures settled { OnOk result (waiting.new.items ≡ []) }
{
    while let Some(put) = waiting.pop() {
        match pairs.make(put) {
            Ok(()) => {}
            Err(put) => {
                give_back(waiting, put);
                return Err(NoMemory);
            }
        }
    }
    Ok(())
}

// Puts one that was taken from the end back there.
fn give_back<T: Drop>(items: &mut Vec<T>, item: T)
    requires { vec_len items.old < vec_capacity items.old }
    ensures { items.new.items ≡ items.old.items ++ item ∷ [] }
{
    match items.push(item) {
        Ok(()) => {}
        Err(_) => unreachable!(),
    }
}

// Equal puts, the last first.
fn reversed(alloc: Global, puts: &[Put]) -> Result<Vec<Put>, NoMemory>
    ensures { IfOk result (λ copy. reverse copy.items ≡ puts.now) }
{
    let mut copy = copied(alloc, puts)?;
    copy.reverse();
    Ok(copy)
}

impl Keeper for SureKeeper {
    ghost kept = { λ keeper. Some keeper };

    ghost faults = { λ _. 0 };

    ghost calls = { λ _. None };

    ghost successes = { λ _. None };

    fn load(&mut self) -> Result<Vec<Pair>, Trouble>
        ensures pairs { IfOk result (λ pairs. entries_of pairs.items ≡ map.entries self.old) }
        ensures ascending { IfOk result (λ pairs. HasAscendingKeys (entries_of pairs.items)) }
        ensures kept { self.new ≡ self.old }
        ensures cause { FailsByFault 0 0 result }

        // It fails for memory alone.
        ensures sure { IfErr result (λ trouble. trouble ≡ trouble_no_memory) }
    {
        settle(&mut self.pairs, &mut self.given, &mut self.waiting)?;
        let pairs = self.pairs.all(self.alloc)?;
        Ok(pairs)
    }

    fn put_all(&mut self, puts: &[Put]) -> Result<(), Trouble>
        ensures kept { OnOk result (self.new ≡ pairs_after puts.now self.old) }
        ensures unchanged { OnErr result (self.new ≡ self.old) }
        ensures cause { FailsByFault 0 0 result }

        // It fails for memory alone.
        ensures sure { IfErr result (λ trouble. trouble ≡ trouble_no_memory) }
    {
        settle(&mut self.pairs, &mut self.given, &mut self.waiting)?;
        self.waiting = reversed(self.alloc, puts)?;
        let _ = settle(&mut self.pairs, &mut self.given, &mut self.waiting);
        Ok(())
    }
}
