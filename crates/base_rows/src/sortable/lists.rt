//! Lists in the order of their sort keys, each sort key once.
ghost use Rattle.std.specs.Prelude.{◌≡◌, ◌↔◌, IsTrue, OnOk, OnErr, IfOk};
ghost use Rattle.base_rows.specs.Sortable.{SortKeysAscend, index_in, set_row};
ghost use Rattle.base_rows.specs.Ascending.{sort_keys_ascend};

use super::{Sortable, rows};
use mud_base::Memory;
use std::alloc::Global;
use std::cmp::Ordering;

/// Whether each row's sort key is before those of the rows after it.
pub fn is_ascending<R: Sortable>(list: &[R]) -> bool
    ensures test { result ≡ sort_keys_ascend R.sort_key list.now }
    ensures ascend { IsTrue result ↔ SortKeysAscend R.sort_key list.now }
{
    rows::is_ascending(list)
}

/// The index of the row that has a row's sort key, or else the index at which it belongs, sought
/// from the front.
fn index_among<R: Sortable>(list: &[R], row: &R) -> Result<usize, usize>
    ensures { result ≡ index_in R.sort_key (R.sort_key row.now) list.now }
{
    for (index, other) in list.iter().enumerate() {
        match row.order(other) {
            Ordering::Less => return Err(index),
            Ordering::Equal => return Ok(index),
            Ordering::Greater => {}
        }
    }
    Err(list.len())
}

/// Puts a row into a list, in place of the one that has its sort key. Without memory for it the
/// list stays.
pub fn put_in<R: Sortable + Drop>(list: &mut Vec<R>, row: R) -> Result<(), Memory>
    ensures ok { OnOk result (list.new.items ≡ set_row R.sort_key row list.old.items) }
    ensures err { OnErr result (list.new.items ≡ list.old.items) }
{
    let found = index_among(list.as_slice(), &row);
    list.reserve(1)?;
    rows::put_row(list, found, row);
    Ok(())
}

/// A copy of a list with a row put in, in place of the one that has its sort key.
pub fn with_row<R: Sortable + Copy + Drop>(
    alloc: Global,
    list: &[R],
    row: R,
) -> Result<Vec<R>, Memory>
    ensures { IfOk result (λ made. made.items ≡ set_row R.sort_key row list.now) }
{
    let mut made = Vec::new(alloc);
    made.extend_from_slice(list)?;
    put_in(&mut made, row)?;
    Ok(made)
}
