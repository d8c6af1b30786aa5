//! Edits, and making them.
ghost use Rattle.std.specs.Prelude.{◌≡◌, ◌+◌, ◌≤◌, length, take, drop, OnOk, OnErr};
ghost use Rattle.base_rows.specs.Sortable.{index_in, set_row};
ghost use Rattle.base_rows.specs.Edits.{edit, edit_sort_key, edit_made, edited, AreFound};

use crate::edit_runs::make_run;
use crate::{HoldsRow, Sortable, SortedRows, Steps};
use mud_base::Memory;
use std::cmp::Ordering;
use std::sync::ledger::Ledger;

/// What becomes of one sort key of sorted rows.
#[derive(Drop)]
pub struct Edit<R> {
    /// The row of the sort key: the one that comes, in place of another or not, or the one that
    /// goes.
    pub row: R,
    /// Whether it comes.
    pub comes: bool,
    /// The index of the row of the sort key, or else the index at which it belongs.
    pub found: Result<usize, usize>,
}

/// An edit has the sort key of its row.
impl<R: Sortable> Sortable for Edit<R> {
    ghost use Rattle.base_rows.specs.Edits.{edit_sort_key};

    ghost sort_key = { edit_sort_key R.sort_key };

    #[tactic(auto, unfolding(crate::specs::Edits::edit_sort_key))]
    fn order(&self, other: &Edit<R>) -> Ordering {
        self.row.order(&other.row)
    }
}

impl<R: Sortable> HoldsRow<R> for Edit<R> {
    ghost row_of = { λ edit. edit.row };

    fn into_row(self) -> R {
        let Edit {
            row,
            comes: _,
            found: _,
        } = self;
        row
    }
}

/// Makes one edit in one step. It takes no memory.
#[tactic(auto, unfolding(crate::specs::Edits::edit_made))]
pub fn make_edit<R: Sortable + Drop, L: Ledger>(
    rows: &mut SortedRows<R>,
    edit: Edit<R>,
    steps: &mut Steps<L>,
)
    requires room { 1 ≤ rows.old.room }
    requires found { edit.found ≡ index_in R.sort_key (R.sort_key edit.row) rows.old.rows }
    ensures rows { rows.new.rows ≡ edit_made R.sort_key edit rows.old.rows }
    ensures room { rows.old.room ≤ rows.new.room + 1 }
    ensures counted { steps.new ≡ steps.old + 1 }
{
    let Edit { row, comes, found } = edit;
    steps.tick();
    if comes {
        rows.put_at(found, row);
    } else if let Ok(index) = found {
        drop(rows.take_at(index));
    }
}

/// Makes each of these edits from index `start` on, from the last to the first, and leaves those
/// before it: what an edit changes stands behind the sort keys of those that are still to be made,
/// so their indices stay. Each is one step, and no memory is taken. Rows that come to stand side by
/// side, and rows that stood side by side and go, move the rows behind them once.
pub fn make_edits_from<R: Sortable + Drop, L: Ledger>(
    rows: &mut SortedRows<R>,
    edits: &mut SortedRows<Edit<R>>,
    start: usize,
    steps: &mut Steps<L>,
)
    requires start { start ≤ length edits.old.rows }
    requires room { length edits.old.rows ≤ rows.old.room + start }
    requires found { AreFound R.sort_key rows.old.rows (drop start edits.old.rows) }
    ensures rows { rows.new.rows ≡ edited R.sort_key (drop start edits.old.rows) rows.old.rows }
    ensures left { edits.new.rows ≡ take start edits.old.rows }
    ensures room { rows.old.room + start ≤ rows.new.room + length edits.old.rows }
    ensures counted { steps.new + start ≡ steps.old + length edits.old.rows }
{
    while start < edits.len() {
        make_run(rows, edits, start, steps);
    }
}

/// Adds the edit of a row that comes or goes to those that are planned, in place of the one of its
/// sort key. Without memory for it the edits stay.
pub fn plan_edit<R: Sortable + Drop>(
    edits: &mut SortedRows<Edit<R>>,
    row: R,
    comes: bool,
    found: Result<usize, usize>,
) -> Result<(), Memory>
    ensures ok { OnOk result (edits.new.rows ≡ set_row (edit_sort_key R.sort_key) (edit row comes found) edits.old.rows) }
    ensures err { OnErr result (edits.new.rows ≡ edits.old.rows) }
{
    edits.reserve(1)?;
    edits.put(Edit { row, comes, found });
    Ok(())
}
