//! Laws of what keepers tell, on functions that do nothing, or no more than to make or open one.
ghost use Rattle.std.specs.Prelude.{◌≡◌, ◌≤◌, ◌⊎◌, false, List, [], IsTrue, IfOk, OnOk};
ghost use Rattle.mud_world.specs.declared.item.Item.{Item};
ghost use Rattle.mud_world.specs.Items.{is_batch, put_all};
ghost use Rattle.sqlite_trees.specs.View.{doubt, IsClean};
ghost use Rattle.sqlite.specs.Files.{over_files};
ghost use Rattle.sqlite.specs.FileStore.{view};
ghost use Rattle.sqlite.specs.Held.{state};
ghost use Rattle.sqlite.specs.State.{HasCleanDisk};
ghost use Rattle.sqlite.specs.Steps.{over_memory};
ghost use Rattle.keep_sqlite.specs.Table.{no_schema};
ghost use Rattle.keep_sqlite.specs.Rows.{held_items, items_of, HoldsItems};
ghost use Rattle.keep_sqlite.specs.Reopened.{IsFoundNext, IsHeldNext};
ghost use Rattle.keep_sqlite.specs.Telling.{database, told, IsUp, Leaves, LeavesEither, LeavesNow, LeavesStore, LeavesTold, MayBeLeft, Tells};

use crate::{Refusal, SqliteKeeper};
use mud_base::Listed;
use mud_world::{Item, Put};
use sqlite::{Alter, Connection, FileStore, MemStore};
use sqlite_disk::Disk;
use std::alloc::Global;

/// A keeper over a store in memory tells its items from the first `open` on that answered Ok: such
/// a store is never shut.
pub fn memory_keepers_tell(keeper: &SqliteKeeper<MemStore>)
    ensures { IsTrue keeper.now.has_opened → Tells over_memory keeper.now }
{
    let _ = keeper.has_opened();
}

/// While a keeper tells its items, and no transaction is begun, a crash leaves these and nothing else,
/// and its database: what may be left besides is left by a call that fails, and shuts the connection.
pub fn told_items_are_left<S: Alter + Drop>(keeper: &SqliteKeeper<S>)
    ensures told { keeper.now.connection.in_transaction ≡ false → LeavesTold S.Store keeper.now }
    ensures now { keeper.now.connection.in_transaction ≡ false → LeavesNow S.Store keeper.now }
{
    let _ = keeper.connection.is_autocommit();
    let _ = keeper.connection.schema();
}

/// A keeper whose items aren't read yet tells them where its connection is up: those that its
/// database holds, or none where it has no table.
pub fn unopened_keepers_tell<S: Alter + Drop>(connection: Connection<S>) -> SqliteKeeper<S>
    ensures connection { result.connection ≡ connection }
    ensures items { IsUp S.Store connection → HoldsItems (state S.Store connection).now
        → Tells S.Store result × (told S.Store result ≡ items_of (state S.Store connection).now) }
    ensures none { IsUp S.Store connection → (state S.Store connection).now.schema ≡ no_schema
        → Tells S.Store result × (told S.Store result ≡ []) }
{
    SqliteKeeper::adopt(connection)
}

/// The first reading of a keeper that answers Ok answers the items that its database held, and none
/// where it had no table.
pub fn first_open_finds<S: Alter + Drop>(
    alloc: Global,
    connection: Connection<S>,
) -> Result<(SqliteKeeper<S>, Listed<Item>), Refusal>
    ensures { IfOk result (λ opened. HasCleanDisk (state S.Store opened.0.connection)
        → opened.1 ≡ held_items (state S.Store connection).now) }
{
    let mut keeper = unopened_keepers_tell(connection);
    let items = keeper.read(alloc)?;
    Ok((keeper, items))
}

/// The store of a keeper. Whatever a crash leaves at this moment, the next first opening finds.
pub fn leave<D: Disk + Drop>(keeper: SqliteKeeper<FileStore<D>>) -> FileStore<D>
    ensures clean { doubt (state over_files keeper.connection).is_clean ≤ doubt (view result).is_clean }
    ensures found { IsClean (view result) → (items : List Item) → Leaves over_files keeper items
        → IsFoundNext result (λ list. list ≡ items) }
    ensures either { IsClean (view result) → (one other : List Item) → LeavesEither over_files keeper one other
        → IsFoundNext result (λ list. (list ≡ one) ⊎ (list ≡ other)) }
    ensures next { IsClean (view result) → IsFoundNext result (MayBeLeft over_files keeper) }
    ensures held { IsClean (view result) → LeavesStore over_files keeper → IsHeldNext result }
{
    keeper.connection.into_store()
}

/// The last batch of a run, and what is left of the store. Where the run left the items that it told,
/// the next first opening finds them or those after the batch, and after Ok those after the batch.
pub fn keep_last<D: Disk + Drop>(
    mut keeper: SqliteKeeper<FileStore<D>>,
    batch: &[Put],
) -> (Result<(), Refusal>, FileStore<D>)
    requires opened { IsTrue keeper.has_opened }
    requires batch { IsTrue (is_batch batch.now) }
    ensures either { IsClean (view result.1) → Leaves over_files keeper (items_of (database over_files keeper))
        → IsFoundNext result.1 (λ list. (list ≡ items_of (database over_files keeper))
        ⊎ (list ≡ put_all (items_of (database over_files keeper)) batch.now)) }
    ensures kept { IsClean (view result.1)
        → OnOk result.0 (IsFoundNext result.1 (λ list. list ≡ put_all (told over_files keeper) batch.now)) }
{
    let answer = keeper.keep(batch);
    (answer, leave(keeper))
}
