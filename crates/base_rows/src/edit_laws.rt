//! Laws of edits, each on a function that does nothing. They hold for any rows and their sort keys.
ghost use Rattle.std.specs.Prelude.{◌≡◌, ℕ, List, length, ◌+◌, ◌≤◌};
ghost use Rattle.std.specs.Option.{option_map_or};
ghost use Rattle.base_rows.specs.Sortable.{row_at, SortKeysAscend, set_row};
ghost use Rattle.base_rows.specs.declared.edit.Edit.{Edit as EditOf};
ghost use Rattle.base_rows.specs.Edits.{edit_sort_key, edit_made, edited, row_after};

use crate::Sortable;

/// What edits make of rows.
pub fn edited_rows_are_told_by_sort_key<R: Sortable>()
    // The rows stay in order.
    ensures ascend { (edits : List (EditOf R)) (rows : List R) → SortKeysAscend R.sort_key rows
        → SortKeysAscend R.sort_key (edited R.sort_key edits rows) }
    // At the sort key of an edit stands the row that comes, or none; at each other sort key what
    // stood there before.
    ensures row { (p : List ℕ) (edits : List (EditOf R)) (rows : List R) → SortKeysAscend R.sort_key rows
        → row_at R.sort_key p (edited R.sort_key edits rows)
        ≡ option_map_or row_after (row_at (edit_sort_key R.sort_key) p edits) (row_at R.sort_key p rows) }
    // With one edit more, in place of the one of its sort key, that one is made last.
    ensures more { (edit : EditOf R) (edits : List (EditOf R)) (rows : List R)
        → SortKeysAscend R.sort_key rows → SortKeysAscend (edit_sort_key R.sort_key) edits
        → edited R.sort_key (set_row (edit_sort_key R.sort_key) edit edits) rows
        ≡ edit_made R.sort_key edit (edited R.sort_key edits rows) }
{}
