//! Copies of items, and the puts of a batch among sorted items.
ghost use Rattle.std.specs.Prelude.{◌≡◌, ◌+◌, ◌≤◌, ◌∷◌, IfOk, OnOk, OnErr, vec_len};
ghost use Rattle.base_rows.specs.Sortable.{without_row};
ghost use Rattle.mud_world.specs.Items.{sort_key_of, put_all, put_one, IsOrdered};

use crate::item::{Item, ItemKey, Put};
use base_rows::SortedRows;
use mud_base::{Listed, Memory};
use std::alloc::Global;

/// Copies of items.
pub(crate) fn copied_items(alloc: Global, items: &[Item]) -> Result<Listed<Item>, Memory>
    ensures { IfOk result (λ list. list ≡ items.now) }
{
    let mut list = Listed::new(alloc);
    for item in items {
        list.push(item.copy()?)?;
    }
    Ok(list)
}

/// Copies of puts.
pub(crate) fn copied_puts(alloc: Global, puts: &[Put]) -> Result<Vec<Put>, Memory>
    ensures { IfOk result (λ list. list.items ≡ puts.now) }
{
    let mut list = Vec::new(alloc);
    for original in puts {
        list.push(original.copy()?)?;
    }
    Ok(list)
}

/// Does the puts, in order. Without memory for them the items stay as they were.
pub(crate) fn put_in(items: &mut SortedRows<Item>, puts: Vec<Put>) -> Result<(), Memory>
    ensures ordered { OnOk result (IsOrdered items.new.rows) }
    ensures ok { OnOk result (items.new.rows ≡ put_all items.old.rows puts.items) }
    ensures err { OnErr result (items.new.rows ≡ items.old.rows) }
{
    items.reserve(puts.len())?;
    put_each(items, puts);
    let _ = items.rows();
    Ok(())
}

/// Does the puts, in order, for which there is room.
fn put_each(items: &mut SortedRows<Item>, puts: Vec<Put>)
    requires { vec_len puts ≤ items.old.room }
    ensures { items.new.rows ≡ put_all items.old.rows puts.items }
{
    for put in puts {
        put_once(items, put);
    }
}

/// Does one put, for which there is room.
fn put_once(items: &mut SortedRows<Item>, put: Put)
    requires { 1 ≤ items.old.room }
    ensures rows { items.new.rows ≡ put_one items.old.rows put }
    ensures room { items.old.room ≤ items.new.room + 1 }
{
    match put {
        Put::Set(item) => items.put(item),
        Put::Gone(kind, key) => take_out(items, kind, key.octets()),
    }
}

/// Takes out the item of a sort key, if there is one.
fn take_out(items: &mut SortedRows<Item>, kind: u8, key: &[u8])
    ensures rows { items.new.rows ≡ without_row sort_key_of (kind ∷ key.now) items.old.rows }
    ensures room { items.old.room ≤ items.new.room }
{
    let item_key = ItemKey { kind, key };
    drop(items.remove(&item_key));
}
