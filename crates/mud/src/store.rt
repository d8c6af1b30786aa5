//! The store of a run: a file, or memory alone.
ghost use Rattle.std.specs.Prelude.{◌≡◌};
ghost use Rattle.mud_world.specs.declared.item.Item.{Item};

use mud_base::Listed;
use mud_world::{Item, KeepFault, Keeper, Put};
use std::alloc::Global;

/// The keeper of a run's store. It is one type, so that the program is compiled once for both.
#[derive(Drop)]
pub enum StoreKeeper<M: Keeper, F: Keeper> {
    /// The store is kept in memory alone.
    Memory(M),
    /// The store is a file.
    File(F),
}

impl<M: Keeper, F: Keeper> Keeper for StoreKeeper<M, F> {
    ghost use Rattle.mud.specs.StoreKeepers.{store_tells, store_items, store_opened, store_left, store_faults};

    ghost tells = { store_tells ⟦<M as Keeper>⟧ ⟦<F as Keeper>⟧ };

    ghost items = { store_items ⟦<M as Keeper>⟧ ⟦<F as Keeper>⟧ };

    ghost opened = { store_opened ⟦<M as Keeper>⟧ ⟦<F as Keeper>⟧ };

    ghost left = { store_left ⟦<M as Keeper>⟧ ⟦<F as Keeper>⟧ };

    ghost faults = { store_faults ⟦<M as Keeper>⟧ ⟦<F as Keeper>⟧ };

    fn open(&mut self, alloc: Global) -> Result<Listed<Item>, KeepFault> {
        match self {
            StoreKeeper::Memory(keeper) => keeper.open(alloc),
            StoreKeeper::File(keeper) => keeper.open(alloc),
        }
    }

    fn apply(&mut self, batch: &[Put]) -> Result<(), KeepFault> {
        match self {
            StoreKeeper::Memory(keeper) => keeper.apply(batch),
            StoreKeeper::File(keeper) => keeper.apply(batch),
        }
    }
}
