//! Rows in the order of their sort keys, each sort key once.
ghost use Rattle.std.specs.Prelude.{◌≡◌, ℕ, List};
ghost use Rattle.base_rows.specs.Sortable.{sort_key_cmp, prefix_cmp};

mod change;
pub mod lists;
mod merge;
mod rows;
mod runs;
mod search;

pub use change::Change;
pub use rows::SortedRows;
use std::cmp::Ordering;

/// A row: it has a sort key, a list of numbers. Rows are ordered by the first numbers in which
/// their sort keys differ, and else the shorter sort key comes first.
pub trait Sortable {
    /// The row's sort key.
    ghost sort_key: { Self → List ℕ };

    /// How its sort key stands to another's.
    fn order(&self, other: &Self) -> Ordering
        ensures { result ≡ sort_key_cmp (sort_key self.now) (sort_key other.now) };
}

/// A key: it names a sort key among rows of type `R`. A row is a key too, of its own sort key.
pub trait KeyOf<R: Sortable> {
    /// The sort key that it names.
    ghost sort_key: { Self → List ℕ };

    /// How the sort key that it names stands to the row's.
    fn order_to(&self, row: &R) -> Ordering
        ensures { result ≡ sort_key_cmp (sort_key self.now) (R.sort_key row.now) };
}

impl<R: Sortable> KeyOf<R> for R {
    ghost sort_key = { R.sort_key };

    fn order_to(&self, row: &R) -> Ordering {
        self.order(row)
    }
}

/// A prefix: it names those sort keys among rows of type `R` that begin with certain numbers.
pub trait PrefixOf<R: Sortable> {
    /// The numbers.
    ghost prefix: { Self → List ℕ };

    /// How the numbers stand to as many of the row's sort key, or to all of it where it is shorter:
    /// `Equal` where the sort key begins with them, and `Greater` where it ends before them.
    fn order_to_beginning(&self, row: &R) -> Ordering
        ensures { result ≡ prefix_cmp (prefix self.now) (R.sort_key row.now) };
}

/// What a row is taken out of, as a note of what becomes of it.
pub trait HoldsRow<R: Sortable> {
    /// The row.
    ghost row_of: { Self → R };

    /// Takes the row out.
    fn into_row(self) -> R
        ensures { result ≡ row_of self };
}
