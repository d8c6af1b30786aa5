//! What a run over a file leaves for the next one.
ghost use Rattle.std.specs.Prelude.{◌≡◌, is_some, IfSome};
ghost use Rattle.mud_world.specs.Kept.{Tells, kept_items};
ghost use Rattle.sqlite.specs.FileStore.{view};
ghost use Rattle.sqlite.specs.Recovery.{Image};
ghost use Rattle.sqlite.specs.WalFiles.{image_at};
ghost use Rattle.sqlite_trees.specs.View.{IsClean};
ghost use Rattle.keep_sqlite.specs.Reopened.{HeldStore};
ghost use Rattle.mud.specs.StoreKeepers.{has_file};
ghost use Rattle.mud.specs.TwoRuns.{first_items, IsFoundBehind, IsNextOver, LeavesNext, RanOver, TellsNext};

use crate::store::StoreKeeper;
use keep_sqlite::{FileKeeper, leave_file};
use mud_world::{Keeper, MemoryKeeper};
use sqlite::{FileStore, Start};
use sqlite_disk::Disk;

/// The store that a run leaves of its file; none of a file that couldn't be opened, and none of a store
/// in memory.
pub fn leave_store<D: Disk + Drop, S: Start>(
    returned: StoreKeeper<MemoryKeeper, FileKeeper<FileStore<D>, S>>,
) -> Option<FileStore<D>>
    ensures some { is_some result ≡ has_file returned }
    ensures left { IfSome result (λ store. IsClean (view store)
        → LeavesNext ⟦<StoreKeeper<MemoryKeeper, FileKeeper<FileStore<D>, S>> as Keeper>⟧ (image_at S.Start) returned store) }
{
    match returned {
        StoreKeeper::File(keeper) => leave_file(keeper),
        StoreKeeper::Memory(_) => None,
    }
}

/// The next run over a file begins with a keeper that tells its items. Where the run before told in the
/// end, they are those that it kept; else those that it began with, or what it kept behind them.
pub fn next_run_begins_with_what_was_kept<D: Disk + Drop, S: Start, E: Disk + Drop, T: Start>(
    returned: &StoreKeeper<MemoryKeeper, FileKeeper<FileStore<D>, S>>,
    store: &FileStore<D>,
    next: &FileKeeper<FileStore<E>, T>,
)
    ensures kept { (held : Image)
        → LeavesNext ⟦<StoreKeeper<MemoryKeeper, FileKeeper<FileStore<D>, S>> as Keeper>⟧ held returned.now store.now
        → HeldStore held → IsNextOver store.now next.now.keeper
        → Tells ⟦<StoreKeeper<MemoryKeeper, FileKeeper<FileStore<D>, S>> as Keeper>⟧ returned.now
        → ∥ TellsNext next.now.keeper (λ list.
        list ≡ kept_items ⟦<StoreKeeper<MemoryKeeper, FileKeeper<FileStore<D>, S>> as Keeper>⟧ returned.now) ∥₁ }
    ensures behind { (held : Image)
        → (run : RanOver ⟦<StoreKeeper<MemoryKeeper, FileKeeper<FileStore<D>, S>> as Keeper>⟧ held returned.now)
        → LeavesNext ⟦<StoreKeeper<MemoryKeeper, FileKeeper<FileStore<D>, S>> as Keeper>⟧ held returned.now store.now
        → HeldStore held → IsNextOver store.now next.now.keeper
        → ∥ TellsNext next.now.keeper (IsFoundBehind
        ⟦<StoreKeeper<MemoryKeeper, FileKeeper<FileStore<D>, S>> as Keeper>⟧ (first_items run) returned.now) ∥₁ }
{}
