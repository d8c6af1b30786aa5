//! Two batches: two items come, and then a third one comes and the first one goes.
ghost use Rattle.std.specs.Prelude.{◌≡◌, ◌∷◌, IsTrue, IfOk};
ghost use Rattle.mud_world.specs.Items.{is_batch, sort_key_of};

use crate::files::{connect, new_files};
use keep_sqlite::SqliteKeeper;
use mud_base::{Bytes, Listed, Memory};
use mud_world::{Item, KeepFault, Keeper, Put};
use sqlite::Files;
use sqlite_disk::Disk;
use std::alloc::Global;

/// An item of this kind, whose key and body are these.
fn item(alloc: Global, kind: u8, key: &[u8], body: &[u8]) -> Result<Item, Memory>
    ensures { IfOk result (λ item. sort_key_of item ≡ kind ∷ key.now) }
{
    let key = Bytes::new(alloc, key)?;
    let body = Bytes::new(alloc, body)?;
    Ok(Item { kind, key, body })
}

/// Two items come.
fn two_come(alloc: Global) -> Result<[Put; 2], Memory>
    ensures { IfOk result (λ batch. IsTrue (is_batch batch)) }
{
    let first = item(alloc, 1, b"first", b"1")?;
    let second = item(alloc, 2, b"second", b"2")?;
    Ok([Put::Set(first), Put::Set(second)])
}

/// A third one comes, and the first one goes.
fn one_goes(alloc: Global) -> Result<[Put; 2], Memory>
    ensures { IfOk result (λ batch. IsTrue (is_batch batch)) }
{
    let third = item(alloc, 3, b"third", b"3")?;
    let first = Bytes::new(alloc, b"first")?;
    Ok([Put::Set(third), Put::Gone(1, first)])
}

/// The items of a keeper behind both.
fn items_behind<K: Keeper>(alloc: Global, keeper: &mut K) -> Result<Listed<Item>, KeepFault> {
    keeper.open(alloc)?;
    keeper.apply(&two_come(alloc)?)?;
    keeper.apply(&one_goes(alloc)?)?;
    keeper.open(alloc)
}

/// Whether it is this item.
fn is_item(item: &Item, kind: u8, key: &[u8], body: &[u8]) -> bool {
    item.kind == kind && item.key.octets() == key && item.body.octets() == body
}

/// Whether the second item and the third one are left in files.
fn leave_two<D: Disk + Drop>(alloc: Global, files: Files<D>) -> bool {
    let Ok(connection) = connect(alloc, files) else {
        return false;
    };
    let mut keeper = SqliteKeeper::adopt(connection);
    let items = items_behind(alloc, &mut keeper);
    drop(keeper);
    match items {
        Ok(items) => {
            let items = items.as_slice();
            items.len() == 2
                && is_item(&items[0], 2, b"second", b"2")
                && is_item(&items[1], 3, b"third", b"3")
        }
        Err(_fault) => false,
    }
}

#[test]
fn two_batches_leave_two_items(rt: HostRuntime) {
    assert!(rt; leave_two(rt.alloc(), new_files(rt.alloc(), u64::MAX)));
}
