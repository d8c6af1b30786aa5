//! Runs of rows that stand side by side: the rows behind a run are moved once.
ghost use Rattle.std.specs.Prelude.{◌≡◌, ◌+◌, ◌≤◌, ◌++◌, map, take, drop, vec_len, vec_capacity};

use super::{HoldsRow, Sortable};

/// Adds the rows that are held from index `first` on, in their order. What held them is gone.
fn append_run<R: Sortable, E: HoldsRow<R>>(rows: &mut Vec<R>, held: &mut Vec<E>, first: usize)
    requires first { first ≤ vec_len held.old }
    requires room { vec_len rows.old + vec_len held.old ≤ vec_capacity rows.old + first }
    ensures items { rows.new.items ≡ rows.old.items ++ map E.row_of (drop first held.old.items) }
    ensures len { vec_len rows.new + first ≡ vec_len rows.old + vec_len held.old }
    ensures capacity { vec_capacity rows.new ≡ vec_capacity rows.old }
    ensures held { held.new.items ≡ take first held.old.items }
    ensures held_capacity { vec_capacity held.new ≡ vec_capacity held.old }
{
    let start = rows.len();
    while first < held.len() {
        rows.push_reserved(held.take_last().into_row());
    }
    rows[start..].reverse();
}

/// Puts the rows that are held from index `first` on in at an index. What held them is gone.
pub(super) fn put_run<R: Sortable, E: HoldsRow<R>>(
    rows: &mut Vec<R>,
    index: usize,
    held: &mut Vec<E>,
    first: usize,
)
    requires index { index ≤ vec_len rows.old }
    requires first { first ≤ vec_len held.old }
    requires room { vec_len rows.old + vec_len held.old ≤ vec_capacity rows.old + first }
    ensures items { rows.new.items ≡ take index rows.old.items ++ map E.row_of (drop first held.old.items) ++ drop index rows.old.items }
    ensures len { vec_len rows.new + first ≡ vec_len rows.old + vec_len held.old }
    ensures capacity { vec_capacity rows.new ≡ vec_capacity rows.old }
    ensures held { held.new.items ≡ take first held.old.items }
    ensures held_capacity { vec_capacity held.new ≡ vec_capacity held.old }
{
    let behind = rows.len() - index;
    append_run(rows, held, first);
    rows[index..].rotate_left(behind);
}

/// Takes away as many rows as `count` says from an index on.
pub(super) fn take_run<R: Drop>(rows: &mut Vec<R>, index: usize, count: usize)
    requires { index + count ≤ vec_len rows.old }
    ensures items { rows.new.items ≡ take index rows.old.items ++ drop (index + count) rows.old.items }
    ensures len { vec_len rows.new + count ≡ vec_len rows.old }
    ensures capacity { vec_capacity rows.new ≡ vec_capacity rows.old }
{
    rows[index..].rotate_left(count);
    rows.truncate(rows.len() - count);
}
