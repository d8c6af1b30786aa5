//! Rows in order that are put in among others all at once.
ghost use Rattle.std.specs.Prelude.{◌≡◌, ◌+◌, ◌-◌, ◌<◌, ◌≤◌, ◌++◌, [], length, slice_get, Some, OnOk, OnErr, vec_len, vec_capacity};
ghost use mathlib.Core.List.{reverse};
ghost use Rattle.base_rows.specs.Sortable.{SortKeysAscend, sort_key_cmp, set_rows};
ghost use Rattle.base_rows.specs.Merging.{IsMoved, IsCut};

use super::Sortable;
use mud_base::Memory;
use std::cmp::Ordering;

/// How the last of these rows stands to the last of more: before it, where there is none.
fn order_of_last<R: Sortable>(rows: &[R], more: &[R]) -> Ordering
    requires { 0 < length more.now }
    ensures order { (row other : R) → slice_get rows.now (length rows.now - 1) ≡ Some row
        → slice_get more.now (length more.now - 1) ≡ Some other
        → sort_key_cmp (R.sort_key row) (R.sort_key other) ≡ result }
    ensures none { rows.now ≡ [] → result ≡ Ordering.Less }
{
    match rows.last() {
        None => Ordering::Less,
        Some(row) => match more.last() {
            None => Ordering::Greater,
            Some(other) => row.order(other),
        },
    }
}

/// Moves the last element to the end of others, which have room for it.
fn move_last<R: Drop>(from: &mut Vec<R>, to: &mut Vec<R>)
    requires some { 0 < vec_len from.old }
    requires room { vec_len to.old < vec_capacity to.old }
    ensures items { IsMoved from.old.items from.new.items to.old.items to.new.items }
    ensures capacity { vec_capacity from.new ≡ vec_capacity from.old }
    ensures room { vec_capacity to.new ≡ vec_capacity to.old }
{
    if let Some(row) = from.pop() {
        to.push_reserved(row);
    }
}

/// Drops the last element.
fn drop_last<R: Drop>(rows: &mut Vec<R>)
    requires { 0 < vec_len rows.old }
    ensures items { IsCut rows.old.items rows.new.items }
    ensures len { vec_len rows.new + 1 ≡ vec_len rows.old }
    ensures capacity { vec_capacity rows.new ≡ vec_capacity rows.old }
{
    drop(rows.pop());
}

/// Moves the last of all rows to the end of those that were moved, where more are left to be put
/// in among the rows. Of two rows at one sort key the first is dropped.
fn move_greatest<R: Sortable + Drop>(rows: &mut Vec<R>, more: &mut Vec<R>, moved: &mut Vec<R>)
    requires some { 0 < vec_len more.old }
    requires ascend { SortKeysAscend R.sort_key rows.old.items }
    requires more { SortKeysAscend R.sort_key more.old.items }
    requires room { vec_len moved.old < vec_capacity moved.old }
    ensures joined { set_rows R.sort_key more.new.items rows.new.items ++ reverse moved.new.items
        ≡ set_rows R.sort_key more.old.items rows.old.items ++ reverse moved.old.items }
    ensures ascend { SortKeysAscend R.sort_key rows.new.items }
    ensures more { SortKeysAscend R.sort_key more.new.items }
    ensures fewer { vec_len rows.new + vec_len more.new + 1 ≡ vec_len rows.old + vec_len more.old }
    ensures len { vec_len rows.new + vec_len more.new + vec_len moved.new ≤ vec_len rows.old + vec_len more.old + vec_len moved.old }
    ensures capacity { vec_capacity rows.new ≡ vec_capacity rows.old }
    ensures moved { vec_capacity moved.new ≡ vec_capacity moved.old }
{
    match order_of_last(rows.as_slice(), more.as_slice()) {
        Ordering::Less => move_last(more, moved),
        Ordering::Greater => move_last(rows, moved),
        Ordering::Equal => drop_last(rows),
    }
}

/// Moves the rows behind the first of more, and these, with the last one first.
fn move_behind<R: Sortable + Drop>(rows: &mut Vec<R>, more: Vec<R>, moved: &mut Vec<R>)
    requires ascend { SortKeysAscend R.sort_key rows.old.items }
    requires more { SortKeysAscend R.sort_key more.items }
    requires none { moved.old.items ≡ [] }
    requires room { vec_len rows.old + vec_len more ≤ vec_capacity moved.old }
    ensures rows { rows.new.items ++ reverse moved.new.items ≡ set_rows R.sort_key more.items rows.old.items }
    ensures len { vec_len rows.new + vec_len moved.new ≤ vec_len rows.old + vec_len more }
    ensures capacity { vec_capacity rows.new ≡ vec_capacity rows.old }
{
    let mut more = more;
    while !more.is_empty() {
        move_greatest(rows, &mut more, moved);
    }
}

/// Moves rows back, the last one first.
fn move_back<R: Drop>(rows: &mut Vec<R>, moved: Vec<R>)
    requires { vec_len rows.old + vec_len moved ≤ vec_capacity rows.old }
    ensures items { rows.new.items ≡ rows.old.items ++ reverse moved.items }
    ensures capacity { vec_capacity rows.new ≡ vec_capacity rows.old }
{
    let mut moved = moved;
    while let Some(row) = moved.pop() {
        rows.push_reserved(row);
    }
}

/// Puts each of these rows in, which stand in order. Those in front of the first of them stay where
/// they are, and each other row is moved twice, however many are put in.
pub(super) fn put_sorted<R: Sortable + Drop>(rows: &mut Vec<R>, more: Vec<R>) -> Result<(), Memory>
    requires ascend { SortKeysAscend R.sort_key rows.old.items }
    requires more { SortKeysAscend R.sort_key more.items }
    ensures ok { OnOk result (rows.new.items ≡ set_rows R.sort_key more.items rows.old.items) }
    ensures err { OnErr result (rows.new.items ≡ rows.old.items) }
    ensures ascend { SortKeysAscend R.sort_key rows.new.items }
    ensures capacity { vec_capacity rows.old ≤ vec_capacity rows.new }
{
    let mut moved = Vec::new(*rows.allocator());
    rows.reserve(more.len())?;
    moved.reserve(rows.capacity())?;
    move_behind(rows, more, &mut moved);
    move_back(rows, moved);
    Ok(())
}
