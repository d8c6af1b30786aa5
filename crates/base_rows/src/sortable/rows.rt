//! Rows that are kept in the order of their sort keys.
ghost use Rattle.std.specs.Prelude.{◌≡◌, ℕ, ◌+◌, ◌-◌, ◌*◌, ◌^◌, ◌<◌, ◌≤◌, ◌↔◌, min, [], ◌∷◌, ◌++◌, length, map, take, drop, slice_get, Some, Err, is_some, option_copied, IsOk, IsSome, IfSome, OnOk, OnErr, if◌then◌else◌, vec_len, vec_capacity, IsTrue};
ghost use Rattle.std.specs.List.{AllByRecursion};
ghost use Rattle.base_rows.specs.Sortable.{SortKeysAscend, row_at, index_in, rows_under, set_row, set_rows, without_row, comes_last};
ghost use Rattle.base_rows.specs.Changes.{changed};
ghost use Rattle.base_rows.specs.Ledgers.{IsBlankOf};

use super::merge::put_sorted;
use super::runs::{put_run, take_run};
use super::search::{index_of, stretch_under};
use super::{Change, HoldsRow, KeyOf, PrefixOf, Sortable};
use crate::steps::Steps;
use mud_base::Memory;
use std::alloc::Global;
use std::marker::{Brand, Model};
use std::sync::ledger::{Blank, Ledger};

/// Rows in ascending order of their sort keys, each sort key once. Contracts see them as the list
/// of the rows and the room: how many more can be added without memory.
#[derive(Drop)]
pub struct SortedRows<R: Sortable> {
    rows: Vec<R>,
}

impl<R: Sortable> Model for SortedRows<R> {
    ghost use Rattle.std.specs.Prelude.{◌-◌, vec_len, vec_capacity};
    ghost use Rattle.base_rows.specs.Sortable.{SortKeysAscend, RowsAndRoom};

    ghost Value = { RowsAndRoom R };

    ghost view = { λ s. record { rows = s.rows.items; room = vec_capacity s.rows - vec_len s.rows } };

    ghost invariant = { λ s. SortKeysAscend R.sort_key s.rows.items };
}

impl<R: Sortable> SortedRows<R> {
    /// No rows, and no room. It takes no memory.
    pub fn new(alloc: Global) -> SortedRows<R>
        ensures rows { result.rows ≡ [] }
        ensures room { result.room ≡ 0 }
    {
        SortedRows {
            rows: Vec::new(alloc),
        }
    }

    /// No rows, and no room, over the allocator of these. It takes no memory.
    pub fn empty_like(&self) -> SortedRows<R>
        ensures rows { result.rows ≡ [] }
        ensures room { result.room ≡ 0 }
    {
        SortedRows {
            rows: Vec::new(*self.rows.allocator()),
        }
    }

    /// The rows, in ascending order of their sort keys.
    pub fn rows(&self) -> &[R]
        ensures rows { result.now ≡ self.now.rows }
        ensures ascend { SortKeysAscend R.sort_key self.now.rows }
    {
        self.rows.as_slice()
    }

    /// The rows of a list that is in order already: None exactly where it isn't. It takes no
    /// memory, and the room is that of the list.
    pub fn from_sorted(rows: Vec<R>) -> Option<SortedRows<R>>
    where
        R: Drop,
        ensures sorted { IsSome result ↔ SortKeysAscend R.sort_key rows.items }
        ensures rows { IfSome result (λ sorted. sorted.rows ≡ rows.items) }
        ensures room { IfSome result (λ sorted. sorted.room ≡ vec_capacity rows - vec_len rows) }
    {
        if !is_ascending(rows.as_slice()) {
            return None;
        }
        Some(SortedRows { rows })
    }

    /// How many rows there are.
    pub fn len(&self) -> usize
        ensures { result ≡ length self.now.rows }
    {
        self.rows.len()
    }

    /// Whether there are no rows.
    pub fn is_empty(&self) -> bool
        ensures { IsTrue result ↔ (self.now.rows ≡ []) }
    {
        self.rows.is_empty()
    }

    /// The index of the row that the key names, or else the index at which it belongs.
    pub fn find<K: KeyOf<R>>(&self, key: &K) -> Result<usize, usize>
        ensures index { result ≡ index_in R.sort_key (K.sort_key key.now) self.now.rows }
        ensures ascend { SortKeysAscend R.sort_key self.now.rows }
    {
        find_from::<R, K, Brand>(self.rows.as_slice(), key, Blank::new(1))
    }

    /// The same. Each row that is read is one step: at least one where there are rows, and no more
    /// than the number of rows has binary digits.
    pub fn find_counted<K: KeyOf<R>, L: Ledger>(
        &self,
        key: &K,
        steps: &mut Steps<L>,
    ) -> Result<usize, usize>
        ensures index { result ≡ index_in R.sort_key (K.sort_key key.now) self.now.rows }
        ensures least { steps.old + min 1 (length self.now.rows) ≤ steps.new }
        ensures most { 2 ^ (steps.new - steps.old) ≤ 2 * length self.now.rows + 1 }
        ensures digits { (b : ℕ) → length self.now.rows < 2 ^ b → steps.new ≤ steps.old + b }
        ensures ascend { SortKeysAscend R.sort_key self.now.rows }
    {
        index_of(self.rows.as_slice(), key, steps)
    }

    /// The row that the key names.
    pub fn get<K: KeyOf<R>>(&self, key: &K) -> Option<&R>
        ensures { option_copied result ≡ row_at R.sort_key (K.sort_key key.now) self.now.rows }
    {
        match self.find(key) {
            Ok(index) => self.rows().get(index),
            Err(_) => None,
        }
    }

    /// The same. There is at least one step where there are rows, and there are no more than the
    /// number of rows has binary digits.
    pub fn get_counted<K: KeyOf<R>, L: Ledger>(&self, key: &K, steps: &mut Steps<L>) -> Option<&R>
        ensures row { option_copied result ≡ row_at R.sort_key (K.sort_key key.now) self.now.rows }
        ensures least { steps.old + min 1 (length self.now.rows) ≤ steps.new }
        ensures most { (b : ℕ) → length self.now.rows < 2 ^ b → steps.new ≤ steps.old + b }
    {
        match self.find_counted(key, steps) {
            Ok(index) => self.rows().get(index),
            Err(_) => None,
        }
    }

    /// Whether there is a row that the key names.
    pub fn contains<K: KeyOf<R>>(&self, key: &K) -> bool
        ensures { result ≡ is_some (row_at R.sort_key (K.sort_key key.now) self.now.rows) }
    {
        self.get(key).is_some()
    }

    /// The rows whose sort keys begin as the prefix says.
    pub fn rows_under<K: PrefixOf<R>>(&self, prefix: &K) -> &[R]
        ensures { result.now ≡ rows_under R.sort_key (K.prefix prefix.now) self.now.rows }
    {
        rows_from::<R, K, Brand>(self.rows.as_slice(), prefix, Blank::new(1))
    }

    /// The same. Each row that is read is one step: each of those that are lent, and no more
    /// others than the number of rows has binary digits.
    pub fn rows_under_counted<K: PrefixOf<R>, L: Ledger>(
        &self,
        prefix: &K,
        steps: &mut Steps<L>,
    ) -> &[R]
        ensures rows { result.now ≡ rows_under R.sort_key (K.prefix prefix.now) self.now.rows }
        ensures least { steps.old + length result.now ≤ steps.new }
        ensures some { steps.old + min 1 (length self.now.rows) ≤ steps.new }
        ensures most { 2 ^ (steps.new - steps.old - length result.now) ≤ 2 * length self.now.rows + 1 }
        ensures digits { (b : ℕ) → length self.now.rows < 2 ^ b → steps.new ≤ steps.old + length result.now + b }
    {
        stretch_under(self.rows.as_slice(), prefix, steps)
    }

    /// Makes room for as many rows more. The rows stay, also where there is no memory for it.
    pub fn reserve(&mut self, more: usize) -> Result<(), Memory>
        ensures rows { self.new.rows ≡ self.old.rows }
        ensures ok { OnOk result (more ≤ self.new.room) }
        ensures room { self.old.room ≤ self.new.room }
        ensures succeeds { more ≤ self.old.room → IsOk result }
    {
        self.rows.reserve(more)?;
        Ok(())
    }

    /// Puts a row in, in place of the one that has its sort key. It takes no memory.
    pub fn put(&mut self, row: R)
    where
        R: Drop,
        requires { 1 ≤ self.old.room }
        ensures rows { self.new.rows ≡ set_row R.sort_key row self.old.rows }
        ensures room { self.old.room ≤ self.new.room + 1 }
        ensures space { self.new.room + length self.new.rows ≡ self.old.room + length self.old.rows }
    {
        let found = self.find(&row);
        self.put_at(found, row);
    }

    /// The same, where `find` has already given the index for the row's sort key.
    pub fn put_at(&mut self, found: Result<usize, usize>, row: R)
    where
        R: Drop,
        requires found { index_in R.sort_key (R.sort_key row) self.old.rows ≡ found }
        requires room { 1 ≤ self.old.room }
        ensures rows { self.new.rows ≡ set_row R.sort_key row self.old.rows }
        ensures room { self.old.room ≤ self.new.room + 1 }
        ensures space { self.new.room + length self.new.rows ≡ self.old.room + length self.old.rows }
    {
        put_row(&mut self.rows, found, row);
    }

    /// Puts each of these rows in, from the first to the last. It takes no memory.
    fn put_all(&mut self, rows: Vec<R>)
    where
        R: Drop,
        requires { vec_len rows ≤ self.old.room }
        ensures rows { self.new.rows ≡ set_rows R.sort_key rows.items self.old.rows }
        ensures room { self.old.room ≤ self.new.room + vec_len rows }
        ensures space { self.new.room + length self.new.rows ≡ self.old.room + length self.old.rows }
    {
        for row in rows {
            self.put(row);
        }
    }

    /// Puts each of these rows in, from the first to the last. Rows in front of the first of them
    /// stay where they are, and each other row is moved twice, however many are put in. The rows
    /// stay where there is no memory for it.
    pub fn put_sorted(&mut self, rows: SortedRows<R>) -> Result<(), Memory>
    where
        R: Drop,
        ensures ok { OnOk result (self.new.rows ≡ set_rows R.sort_key rows.rows self.old.rows) }
        ensures err { OnErr result (self.new.rows ≡ self.old.rows) }
        ensures space { self.old.room + length self.old.rows ≤ self.new.room + length self.new.rows }
    {
        let SortedRows { rows: more } = rows;
        put_sorted(&mut self.rows, more)
    }

    /// Adds a row after all others, where its sort key is after theirs; else the rows stay, and the
    /// answer is false. It takes no memory.
    pub fn push_last(&mut self, row: R) -> bool
    where
        R: Drop,
        requires { 1 ≤ self.old.room }
        ensures last { result ≡ comes_last R.sort_key row self.old.rows }
        ensures rows { self.new.rows ≡ (if result then self.old.rows ++ row ∷ [] else self.old.rows) }
        ensures room { self.old.room ≤ self.new.room + 1 }
        ensures space { self.new.room + length self.new.rows ≡ self.old.room + length self.old.rows }
    {
        if !follows_all(self.rows.as_slice(), &row) {
            return false;
        }
        self.rows.push_reserved(row);
        true
    }

    /// Takes the row of this index away, and there is room for one more.
    pub fn take_at(&mut self, index: usize) -> R
        requires { index < length self.old.rows }
        ensures row { slice_get self.old.rows index ≡ Some result }
        ensures rows { self.new.rows ≡ without_row R.sort_key (R.sort_key result) self.old.rows }
        ensures room { self.new.room ≡ self.old.room + 1 }
        ensures space { self.new.room + length self.new.rows ≡ self.old.room + length self.old.rows }
    {
        take_row(&mut self.rows, index)
    }

    /// Puts in a run of rows that all belong at this index: those that are held from index `first`
    /// on. What held them is gone. The rows behind move once, and it takes no memory.
    pub fn put_run_at<E: HoldsRow<R> + Sortable>(
        &mut self,
        index: usize,
        held: &mut SortedRows<E>,
        first: usize,
    )
        requires index { index ≤ length self.old.rows }
        requires first { first ≤ length held.old.rows }
        requires ascend { SortKeysAscend R.sort_key (map E.row_of (drop first held.old.rows)) }
        requires found { AllByRecursion (λ row. index_in R.sort_key (R.sort_key row) self.old.rows ≡ Err index) (map E.row_of (drop first held.old.rows)) }
        requires room { length held.old.rows ≤ self.old.room + first }
        ensures rows { self.new.rows ≡ take index self.old.rows ++ map E.row_of (drop first held.old.rows) ++ drop index self.old.rows }
        ensures held { held.new.rows ≡ take first held.old.rows }
        ensures room { self.new.room + length held.old.rows ≡ self.old.room + first }
        ensures space { self.new.room + length self.new.rows ≡ self.old.room + length self.old.rows }
    {
        put_run(&mut self.rows, index, &mut held.rows, first);
    }

    /// Takes away as many rows as `count` says from this index on, and there is room for as many
    /// more. The rows behind move once.
    pub fn take_run_at(&mut self, index: usize, count: usize)
    where
        R: Drop,
        requires { index + count ≤ length self.old.rows }
        ensures rows { self.new.rows ≡ take index self.old.rows ++ drop (index + count) self.old.rows }
        ensures room { self.new.room ≡ self.old.room + count }
        ensures space { self.new.room + length self.new.rows ≡ self.old.room + length self.old.rows }
    {
        take_run(&mut self.rows, index, count);
    }

    /// Takes the row that the key names away, and there is room for one more; None where there is
    /// none.
    pub fn remove<K: KeyOf<R>>(&mut self, key: &K) -> Option<R>
        ensures row { result ≡ row_at R.sort_key (K.sort_key key.now) self.old.rows }
        ensures rows { self.new.rows ≡ without_row R.sort_key (K.sort_key key.now) self.old.rows }
        ensures room { self.new.room ≡ self.old.room + (if is_some result then 1 else 0) }
        ensures space { self.new.room + length self.new.rows ≡ self.old.room + length self.old.rows }
    {
        match self.find(key) {
            Ok(index) => Some(self.take_at(index)),
            Err(_) => None,
        }
    }

    /// Makes the change. The row that goes is gone before anything is put in. It takes no memory.
    pub fn change<K: KeyOf<R>>(&mut self, change: Change<K, R>)
    where
        R: Drop,
        K: Drop,
        requires { length change.sets ≤ self.old.room }
        ensures rows { self.new.rows ≡ changed R.sort_key change self.old.rows }
        ensures room { self.old.room ≤ self.new.room + length change.sets }
        ensures space { self.new.room + length self.new.rows ≡ self.old.room + length self.old.rows }
    {
        let (gone, sets) = change.into_parts();
        if let Some(key) = gone {
            drop(self.remove(&key));
        }
        self.put_all(sets.into_vec());
    }
}

/// Finds a row with steps that are counted on a ledger of its own.
fn find_from<R: Sortable, K: KeyOf<R>, L: Ledger>(
    rows: &[R],
    key: &K,
    blank: Blank,
) -> Result<usize, usize>
    requires blank { IsBlankOf L.name L.parts blank }
    requires ascend { SortKeysAscend R.sort_key rows.now }
    ensures { result ≡ index_in R.sort_key (K.sort_key key.now) rows.now }
{
    let mut steps = Steps::<L>::new(blank);
    index_of(rows, key, &mut steps)
}

/// Finds the rows under a prefix with steps that are counted on a ledger of its own.
fn rows_from<'a, R: Sortable, K: PrefixOf<R>, L: Ledger>(
    rows: &'a [R],
    prefix: &K,
    blank: Blank,
) -> &'a [R]
    requires blank { IsBlankOf L.name L.parts blank }
    requires ascend { SortKeysAscend R.sort_key rows.now }
    ensures { result.now ≡ rows_under R.sort_key (K.prefix prefix.now) rows.now }
{
    let mut steps = Steps::<L>::new(blank);
    stretch_under(rows, prefix, &mut steps)
}

/// Whether each row's sort key is before the next one's.
pub(super) fn is_ascending<R: Sortable>(rows: &[R]) -> bool
    ensures { IsTrue result ↔ SortKeysAscend R.sort_key rows.now }
{
    rows.is_sorted_by(|one, next| one.order(next).is_lt())
}

/// Whether a row's sort key is after those of all these.
fn follows_all<R: Sortable>(rows: &[R], row: &R) -> bool
    requires { SortKeysAscend R.sort_key rows.now }
    ensures { result ≡ comes_last R.sort_key row.now rows.now }
{
    match rows.last() {
        Some(last) => last.order(row).is_lt(),
        None => true,
    }
}

/// Puts a row at the index that was found for its sort key. There is room for it.
pub(super) fn put_row<R: Sortable + Drop>(rows: &mut Vec<R>, found: Result<usize, usize>, row: R)
    requires found { index_in R.sort_key (R.sort_key row) rows.old.items ≡ found }
    requires room { vec_len rows.old < vec_capacity rows.old }
    ensures items { rows.new.items ≡ set_row R.sort_key row rows.old.items }
    ensures len { vec_len rows.new ≤ vec_len rows.old + 1 }
    ensures capacity { vec_capacity rows.new ≡ vec_capacity rows.old }
{
    match found {
        Ok(index) => rows[index] = row,
        Err(index) => {
            let _ = rows.insert(index, row);
        }
    }
}

/// Takes the row at an index away.
fn take_row<R: Sortable>(rows: &mut Vec<R>, index: usize) -> R
    requires ascend { SortKeysAscend R.sort_key rows.old.items }
    requires in_range { index < vec_len rows.old }
    ensures row { slice_get rows.old.items index ≡ Some result }
    ensures items { rows.new.items ≡ without_row R.sort_key (R.sort_key result) rows.old.items }
    ensures len { vec_len rows.new + 1 ≡ vec_len rows.old }
    ensures capacity { vec_capacity rows.new ≡ vec_capacity rows.old }
{
    rows.remove(index)
}
