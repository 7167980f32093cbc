//! What opens folders.
ghost use Rattle.std.specs.Prelude.{◌≡◌, ◌++◌, ◌∷◌, [], ℕ, List, Option, Some, IfOk, IfSome, IsSome};
ghost use Rattle.block_store.specs.Blocks.{FailsByFault, HeldObjects};
ghost use Rattle.keeper.specs.Keepers.{KeptPairs};
ghost use Rattle.lake_folders.specs.Folders.{KeeperShow, StoreShow};

use block_store::Blocks;
use keeper::Keeper;
use lake_base::{Text, Trouble};

/// What opens folders, in each of which a lake stands: a keeper of a folder's pairs, and stores of its objects. It may
/// tell contracts what the folders hold, and what it was given back. It counts its failures.
pub trait Folders: Drop {
    /// What keeps the pairs of a folder.
    type Pairs: Keeper + Send;

    /// What keeps the objects of a folder.
    type Objects: Blocks + Send;

    /// The pairs of the folder of a name, where it tells them. One that isn't there has none.
    ghost pairs: { Self → List ℕ → Option KeptPairs };

    /// The objects of the folder of a name, where it tells them.
    ghost objects: { Self → List ℕ → Option HeldObjects };

    /// The keepers that it was given back, in order, as they were then, where it tells them.
    ghost keepers_back: { Self → Option (List KeeperShow) };

    /// The stores that it was given back, in order, as they were then, where it tells them.
    ghost stores_back: { Self → Option (List StoreShow) };

    /// How often it has failed.
    ghost faults: { Self → ℕ };

    /// The keeper of a folder's pairs, which has counted no failure. A folder that isn't there is made. A call that is
    /// Failed is counted.
    fn keeper(&mut self, folder: &Text) -> Result<Self::Pairs, Trouble>
        ensures held { IfOk result (λ keeper. IfSome (pairs self.old folder.now)
            (λ held. Self.Pairs.kept keeper ≡ Some held)) }
        ensures calm { IfOk result (λ keeper. Self.Pairs.faults keeper ≡ 0) }
        ensures objects { objects self.new ≡ objects self.old }
        ensures keepers { keepers_back self.new ≡ keepers_back self.old }
        ensures stores { stores_back self.new ≡ stores_back self.old }
        ensures cause { FailsByFault (faults self.old) (faults self.new) result };

    /// A store of a folder's objects, which has counted nothing. A folder that isn't there is made. A call that is
    /// Failed is counted.
    fn blocks(&mut self, folder: &Text) -> Result<Self::Objects, Trouble>
        ensures held { IfOk result (λ blocks. IfSome (objects self.old folder.now)
            (λ held. Self.Objects.held blocks ≡ Some held)) }
        ensures calm { IfOk result (λ blocks. (Self.Objects.faults blocks ≡ 0) × (Self.Objects.misses blocks ≡ 0)) }
        ensures pairs { pairs self.new ≡ pairs self.old }
        ensures keepers { keepers_back self.new ≡ keepers_back self.old }
        ensures stores { stores_back self.new ≡ stores_back self.old }
        ensures cause { FailsByFault (faults self.old) (faults self.new) result };

    /// Takes back a keeper that it gave. It can't fail; where no memory is left it tells no more of what it was given
    /// back.
    fn back(&mut self, keeper: Self::Pairs)
        ensures keepers { IfSome (keepers_back self.new) (λ after. IfSome (keepers_back self.old) (λ before.
            after ≡ before ++ record { kept = Self.Pairs.kept keeper; faults = Self.Pairs.faults keeper } ∷ [])) }
        ensures told { IfSome (keepers_back self.new) (λ _. IsSome (keepers_back self.old)) }
        ensures stores { stores_back self.new ≡ stores_back self.old }
        ensures faults { faults self.new ≡ faults self.old };

    /// Takes back a store that it gave. It can't fail; where no memory is left it tells no more of what it was given
    /// back.
    fn back_blocks(&mut self, blocks: Self::Objects)
        ensures stores { IfSome (stores_back self.new) (λ after. IfSome (stores_back self.old) (λ before.
            after ≡ before ++ record {
              held = Self.Objects.held blocks;
              faults = Self.Objects.faults blocks;
              misses = Self.Objects.misses blocks;
              missed = Self.Objects.missed blocks;
            } ∷ [])) }
        ensures told { IfSome (stores_back self.new) (λ _. IsSome (stores_back self.old)) }
        ensures keepers { keepers_back self.new ≡ keepers_back self.old }
        ensures faults { faults self.new ≡ faults self.old };
}
