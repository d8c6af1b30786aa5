//! Laws of rows that count, each on a function that does nothing.
ghost use Rattle.std.specs.Prelude.{◌≡◌, ℕ, ◌+◌, ◌≤◌, List, length, map};
ghost use Rattle.base_rows.specs.Sortable.{rows_under};
ghost use Rattle.drop_ledger.specs.Counted.{AreKinds, kinds, count_rows, first_rows, late_rows, those_of, total, sum_of, count_at};

use crate::counted::Tallied;
use base_rows::Sortable;

/// The counts of all rows together are as many as the rows that were counted.
pub fn counts_add_up<R: Tallied>()
    ensures { (xs : List R) → total R.count (count_rows R.sort_key R.counted xs) ≡ length xs }
{}

/// The counts of a beginning are as many as the sort keys that begin so: those of the sort keys
/// that appear first, and of the others together.
pub fn first_ones_add_up<D: Tallied, O: Tallied>()
    ensures { (other_of : D → O) (len most : ℕ) (xs : List D) (t : List ℕ)
        → let k = kinds D.sort_key D.counted O.sort_key O.counted other_of len most in AreKinds k → length t ≡ len
        → sum_of D.sort_key D.count t (first_rows k xs) + count_at O.sort_key O.count t (late_rows k xs) ≡ length (those_of t (map D.sort_key xs)) }
{}

/// Of a beginning no more sort keys have rows of their own than the most.
pub fn first_ones_are_few<D: Tallied, O: Tallied>()
    ensures { (other_of : D → O) (len most : ℕ) (xs : List D) (t : List ℕ)
        → let k = kinds D.sort_key D.counted O.sort_key O.counted other_of len most in AreKinds k → length t ≡ len
        → length (rows_under D.sort_key t (first_rows k xs)) ≤ most }
{}
