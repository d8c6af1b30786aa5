//! Counting.
ghost use Rattle.std.specs.Prelude.{◌≡◌, ℕ, ◌+◌, ◌-◌, ◌^◌, ◌<◌, ◌≤◌, List, [], ◌∷◌, ◌++◌, length, take, map, Some, None};
ghost use Rattle.base_rows.specs.Sortable.{row_at};
ghost use Rattle.drop_ledger.specs.Counted.{AreFirstRows, AreKinds, count_of, count_rows, kinds, those_of};

use base_rows::{PrefixOf, Sortable, SortedRows};

/// A row with a count.
pub trait Tallied: Sortable {
    /// The count.
    ghost count: { Self → ℕ };

    /// The row with another count.
    ghost counted: { ℕ → Self → Self };

    /// The count.
    fn count(&self) -> u64
        ensures { result ≡ count self.now };

    /// The row with this count.
    fn with_count(self, number: u64) -> Self
        ensures { result ≡ counted number self };

    /// A row stands where it does, whatever its count.
    ghost stays: { (n : ℕ) (r : Self) → Self.sort_key (counted n r) ≡ Self.sort_key r };

    /// A row has the count that it was given.
    ghost told: { (n : ℕ) (r : Self) → count (counted n r) ≡ n };
}

/// One more than the count of the row at this one's sort key, or 1 where there is none.
fn next_count<R: Tallied>(rows: &SortedRows<R>, row: &R) -> u64
    ensures none { row_at R.sort_key (R.sort_key row.now) rows.now.rows ≡ None → result ≡ 1 }
    ensures some { (old : R) → row_at R.sort_key (R.sort_key row.now) rows.now.rows ≡ Some old → R.count old + 1 < 2 ^ 64 → result ≡ R.count old + 1 }
{
    match rows.get(row) {
        Some(old) => old.count().saturating_add(1),
        None => 1,
    }
}

/// Counts one appearance more of the row's sort key, whatever the row's own count. It takes no
/// memory.
pub fn count_one<R: Tallied + Drop>(rows: &mut SortedRows<R>, row: R)
    requires { 1 ≤ rows.old.room }
    ensures counted { (xs : List R) → rows.old.rows ≡ count_rows R.sort_key R.counted xs → count_of (R.sort_key row) (map R.sort_key xs) + 1 < 2 ^ 64
        → rows.new.rows ≡ count_rows R.sort_key R.counted (xs ++ row ∷ []) }
    ensures room { rows.old.room ≤ rows.new.room + 1 }
{
    let count = next_count(rows, &row);
    rows.put(row.with_count(count));
}

/// Counts one appearance more of the row's sort key among those of its beginning. Of each beginning
/// as many sort keys as `most` that appear first have rows; the appearances of later ones are
/// counted together in the other row, which stands at the beginning. It takes no memory.
pub fn count_first<D: Tallied + Drop, O: Tallied + PrefixOf<D> + Drop>(
    rows: &mut SortedRows<D>,
    others: &mut SortedRows<O>,
    most: usize,
    row: D,
    other: O,
)
    requires room { 1 ≤ rows.old.room }
    requires room_beside { 1 ≤ others.old.room }
    ensures counted { (len : ℕ) (other_of : D → O) (xs : List D)
        → let k = kinds D.sort_key D.counted O.Sortable.sort_key O.counted other_of len most in AreKinds k
        → other ≡ other_of row → O.prefix other ≡ take len (D.sort_key row)
        → AreFirstRows k xs rows.old.rows others.old.rows → length (those_of (take len (D.sort_key row)) (map D.sort_key xs)) + 1 < 2 ^ 64
        → AreFirstRows k (xs ++ row ∷ []) rows.new.rows others.new.rows }
    ensures room { rows.old.room ≤ rows.new.room + 1 }
    ensures room_beside { others.old.room ≤ others.new.room + 1 }
{
    if rows.contains(&row) {
        let count = next_count(rows, &row);
        rows.put(row.with_count(count));
        return;
    }
    if rows.rows_under(&other).len() < most {
        rows.put(row.with_count(1));
        return;
    }
    count_one(others, other);
}
