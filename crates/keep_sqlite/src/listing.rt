//! The items that the table holds.
ghost use Rattle.std.specs.Prelude.{◌≡◌, ◌≤◌, [], IsTrue, IsNone, IfOk, IfErr, IfSome, OnOk, map};
ghost use Rattle.std.specs.Ordering.{int_cmp};
ghost use Rattle.std.specs.List.{AllByRecursion};
ghost use Rattle.std.specs.List.Sorted.{IsPermutation, IsSorted};
ghost use Rattle.mud_world.specs.Items.{IsOrdered};
ghost use Rattle.sqlite_trees.specs.View.{doubt};
ghost use Rattle.sqlite.specs.Held.{state};
ghost use Rattle.sqlite.specs.State.{FailsToQuery, HasCleanDisk, IsUnchanged};
ghost use Rattle.keep_sqlite.specs.Table.{item_schema};
ghost use Rattle.keep_sqlite.specs.Rows.{items_of, HoldsItems};
ghost use Rattle.keep_sqlite.specs.Telling.{IsUp};
ghost use Rattle.keep_sqlite.specs.Selections.{id_cmp, item_shown, number_shown, shown_cmp, shown_id, shown_row};
ghost use Rattle.keep_sqlite.specs.Selections.{AreUnequal, HaveIds, HaveItems, ShowsId, ShowsItem};
ghost use Rattle.keep_sqlite.specs.Refused.{ids_text, select_text, IsUnread};
ghost use Rattle.keep_sqlite.specs.Batches.{LeavesNothing, Stays};

use crate::refusal::{Refusal, refusal_of};
use base_rows::Sortable;
use mud_base::{Bytes, Listed};
use mud_world::Item;
use sqlite::types::ValueRef;
use sqlite::{Alter, Connection, Error, Row};
use std::alloc::Global;

/// The items of the table, by kind and then key. Rows that come in another order are a failure.
pub(crate) fn list<S: Alter>(
    alloc: Global,
    connection: &mut Connection<S>,
) -> Result<Listed<Item>, Refusal>
    requires { IsUp S.Store connection.old → (state S.Store connection.old).now.schema ≡ item_schema }
    ensures clean { doubt (state S.Store connection.old).is_clean
        ≤ doubt (state S.Store connection.new).is_clean }
    ensures crash { (HasCleanDisk (state S.Store connection.new)
        → (state S.Store connection.old).now.schema ≡ item_schema)
        → LeavesNothing S.Store connection.old connection.new }
    ensures same { HasCleanDisk (state S.Store connection.new)
        → Stays (state S.Store connection.old) (state S.Store connection.new) }
    ensures ok { HasCleanDisk (state S.Store connection.new)
        → IfOk result (λ items. IsUnchanged (state S.Store connection.old) (state S.Store connection.new)
        × HaveItems ((state S.Store connection.old).now.trees 0)
        × (items ≡ items_of (state S.Store connection.old).now)) }
    ensures refused { HasCleanDisk (state S.Store connection.new)
        → IfErr result (IsUnread (FailsToQuery select_text [] (state S.Store connection.old) (state S.Store connection.new))
        (HoldsItems (state S.Store connection.old).now)) }
{
    let rows = match select(connection) {
        Ok(rows) => rows,
        Err(error) => return Err(refusal_of(error)),
    };
    let items = items_in(alloc, rows.as_slice())?;
    if !are_ordered(items.as_slice()) {
        return Err(Refusal::NoStore);
    }
    Ok(items)
}

/// The rows of the table, by kind and then name.
fn select<S: Alter>(connection: &mut Connection<S>) -> Result<Vec<Row>, Error>
    requires { IsUp S.Store connection.old → (state S.Store connection.old).now.schema ≡ item_schema }
    ensures clean { doubt (state S.Store connection.old).is_clean
        ≤ doubt (state S.Store connection.new).is_clean }
    ensures crash { (HasCleanDisk (state S.Store connection.new)
        → (state S.Store connection.old).now.schema ≡ item_schema)
        → LeavesNothing S.Store connection.old connection.new }
    ensures same { HasCleanDisk (state S.Store connection.new)
        → Stays (state S.Store connection.old) (state S.Store connection.new) }
    ensures ok { HasCleanDisk (state S.Store connection.new)
        → IfOk result (λ rows. IsUnchanged (state S.Store connection.old) (state S.Store connection.new)
        × IsPermutation (map shown_row ((state S.Store connection.old).now.trees 0)) rows.items) }
    ensures ordered { HasCleanDisk (state S.Store connection.new)
        → IfOk result (λ rows. IsSorted shown_cmp rows.items) }
    ensures refused { HasCleanDisk (state S.Store connection.new)
        → IfErr result (FailsToQuery select_text [] (state S.Store connection.old) (state S.Store connection.new)) }
{
    let rows = connection.query_all("SELECT kind, name, body FROM item ORDER BY kind, name", &[])?;
    Ok(rows)
}

/// The items that rows show.
fn items_in(alloc: Global, rows: &[Row]) -> Result<Listed<Item>, Refusal>
    ensures items { IfOk result (λ items. items ≡ map item_shown rows.now) }
    ensures shown { OnOk result (AllByRecursion ShowsItem rows.now) }
    ensures refused { IfErr result (IsUnread (λ _. ⊥) (AllByRecursion ShowsItem rows.now)) }
{
    let mut items = Listed::new(alloc);
    'rows: for row in rows {
        let item = item_in(alloc, row)?;
        items.push(item)?;
    }
    Ok(items)
}

/// The item that a row shows. A kind that is no octet is a failure.
fn item_in(alloc: Global, row: &Row) -> Result<Item, Refusal>
    ensures item { IfOk result (λ item. (item ≡ item_shown row.now) × ShowsItem row.now) }
    ensures refused { IfErr result (IsUnread (λ _. ⊥) (ShowsItem row.now)) }
{
    let kind = match row.get_ref(0) {
        Ok(ValueRef::Int(number)) => match u8::try_from(number) {
            Ok(kind) => kind,
            Err(_) => return Err(Refusal::NoStore),
        },
        _ => return Err(Refusal::NoStore),
    };
    let Ok(ValueRef::Blob(key)) = row.get_ref(1) else {
        return Err(Refusal::NoStore);
    };
    let Ok(ValueRef::Blob(body)) = row.get_ref(2) else {
        return Err(Refusal::NoStore);
    };
    let key = Bytes::new(alloc, key)?;
    let body = Bytes::new(alloc, body)?;
    Ok(Item { kind, key, body })
}

/// Whether each item's sort key is before the next one's.
fn are_ordered(items: &[Item]) -> bool
    ensures ordered { IsTrue result → IsOrdered items.now }
    ensures back { IsOrdered items.now → IsTrue result }
{
    items.is_sorted_by(|one, next| one.order(next).is_lt())
}

/// Tests that each row of the table has a rowid of its own: SQL takes a row out by its rowid, and
/// nothing else says of a file that no two rows have one.
pub(crate) fn test_rowids<S: Alter>(
    alloc: Global,
    connection: &mut Connection<S>,
) -> Result<(), Refusal>
    requires { IsUp S.Store connection.old → (state S.Store connection.old).now.schema ≡ item_schema }
    ensures clean { doubt (state S.Store connection.old).is_clean
        ≤ doubt (state S.Store connection.new).is_clean }
    ensures crash { (HasCleanDisk (state S.Store connection.new)
        → (state S.Store connection.old).now.schema ≡ item_schema)
        → LeavesNothing S.Store connection.old connection.new }
    ensures same { HasCleanDisk (state S.Store connection.new)
        → Stays (state S.Store connection.old) (state S.Store connection.new) }
    ensures ok { HasCleanDisk (state S.Store connection.new)
        → OnOk result (IsUnchanged (state S.Store connection.old) (state S.Store connection.new)
        × HaveIds ((state S.Store connection.old).now.trees 0)) }
    ensures refused { HasCleanDisk (state S.Store connection.new)
        → IfErr result (IsUnread (FailsToQuery ids_text [] (state S.Store connection.old) (state S.Store connection.new))
        (HoldsItems (state S.Store connection.old).now)) }
{
    let rows = match select_rowids(connection) {
        Ok(rows) => rows,
        Err(error) => return Err(refusal_of(error)),
    };
    let ids = rowids_in(alloc, rows.as_slice())?;
    if !are_rising(ids.as_slice()) {
        return Err(Refusal::NoStore);
    }
    Ok(())
}

/// The rowids of the table, in order.
fn select_rowids<S: Alter>(connection: &mut Connection<S>) -> Result<Vec<Row>, Error>
    requires { IsUp S.Store connection.old → (state S.Store connection.old).now.schema ≡ item_schema }
    ensures clean { doubt (state S.Store connection.old).is_clean
        ≤ doubt (state S.Store connection.new).is_clean }
    ensures crash { (HasCleanDisk (state S.Store connection.new)
        → (state S.Store connection.old).now.schema ≡ item_schema)
        → LeavesNothing S.Store connection.old connection.new }
    ensures same { HasCleanDisk (state S.Store connection.new)
        → Stays (state S.Store connection.old) (state S.Store connection.new) }
    ensures ok { HasCleanDisk (state S.Store connection.new)
        → IfOk result (λ rows. IsUnchanged (state S.Store connection.old) (state S.Store connection.new)
        × IsPermutation (map shown_id ((state S.Store connection.old).now.trees 0)) rows.items) }
    ensures ordered { HasCleanDisk (state S.Store connection.new)
        → IfOk result (λ rows. IsSorted id_cmp rows.items) }
    ensures refused { HasCleanDisk (state S.Store connection.new)
        → IfErr result (FailsToQuery ids_text [] (state S.Store connection.old) (state S.Store connection.new)) }
{
    let rows = connection.query_all("SELECT rowid FROM item ORDER BY rowid", &[])?;
    Ok(rows)
}

/// The rowids that rows show.
fn rowids_in(alloc: Global, rows: &[Row]) -> Result<Listed<i64>, Refusal>
    ensures ids { IfOk result (λ ids. ids ≡ map number_shown rows.now) }
    ensures shown { OnOk result (AllByRecursion ShowsId rows.now) }
    ensures refused { IfErr result (IsUnread (λ _. ⊥) (AllByRecursion ShowsId rows.now)) }
{
    let mut ids = Listed::new(alloc);
    'rows: for row in rows {
        let Some(id) = rowid_in(row) else {
            return Err(Refusal::NoStore);
        };
        ids.push(id)?;
    }
    Ok(ids)
}

/// The rowid that a row shows.
fn rowid_in(row: &Row) -> Option<i64>
    ensures id { IfSome result (λ id. (id ≡ number_shown row.now) × ShowsId row.now) }
    ensures none { IsNone result → ShowsId row.now → ⊥ }
{
    match row.get_ref(0) {
        Ok(ValueRef::Int(id)) => Some(id),
        _ => None,
    }
}

/// Whether each number is below the next.
fn are_rising(ids: &[i64]) -> bool
    ensures unequal { IsTrue result → AreUnequal ids.now }
    ensures back { IsSorted int_cmp ids.now → AreUnequal ids.now → IsTrue result }
{
    ids.is_sorted_by(|one, next| one < next)
}
