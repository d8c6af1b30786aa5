//! Runs of edits: rows that come to stand side by side, and rows that stood side by side and go.
ghost use Rattle.std.specs.Prelude.{◌≡◌, ◌+◌, ◌-◌, ◌<◌, ◌≤◌, ◌↔◌, length, drop, IsTrue};
ghost use Rattle.base_rows.specs.Edits.{AreFound};
ghost use Rattle.base_rows.specs.Runs.{GoesOn, AreRun, AreMade};

use crate::edit::{Edit, make_edit};
use crate::{Sortable, SortedRows, Steps};
use std::sync::ledger::Ledger;

/// Whether the second edit goes on with the run of the first.
fn goes_on<R: Sortable>(edit: &Edit<R>, next: &Edit<R>) -> bool
    ensures { IsTrue result ↔ GoesOn edit.now next.now }
{
    match (edit.found, next.found) {
        (Err(index), Err(other)) => edit.comes && next.comes && other == index,
        (Ok(index), Ok(other)) => {
            !edit.comes && !next.comes && other.checked_sub(index) == Some(1)
        }
        _ => false,
    }
}

/// The index from which on the last of these edits are one run, not before `start`. The edit before it
/// isn't of that run.
fn run_start<R: Sortable>(edits: &[Edit<R>], start: usize) -> usize
    requires { start < length edits.now }
    ensures start { start ≤ result }
    ensures end { result < length edits.now }
    ensures run { AreRun (drop result edits.now) }
    ensures whole { start < result → ¬ (AreRun (drop (result - 1) edits.now)) }
{
    let mut first = edits.len() - 1;
    while start < first && goes_on(&edits[first - 1], &edits[first]) {
        first -= 1;
    }
    first
}

/// Makes the last of these edits, not before `start`: as many as move the rows behind them once.
pub(crate) fn make_run<R: Sortable + Drop, L: Ledger>(
    rows: &mut SortedRows<R>,
    edits: &mut SortedRows<Edit<R>>,
    start: usize,
    steps: &mut Steps<L>,
)
    requires start { start < length edits.old.rows }
    requires room { length edits.old.rows ≤ rows.old.room + start }
    requires found { AreFound R.sort_key rows.old.rows (drop start edits.old.rows) }
    ensures made { AreMade R.sort_key edits.old.rows edits.new.rows rows.old.rows rows.new.rows }
    ensures found { AreFound R.sort_key rows.new.rows (drop start edits.new.rows) }
    ensures start { start ≤ length edits.new.rows }
    ensures fewer { length edits.new.rows < length edits.old.rows }
    ensures room { rows.old.room + length edits.new.rows ≤ rows.new.room + length edits.old.rows }
    ensures counted { steps.new + length edits.new.rows ≡ steps.old + length edits.old.rows }
{
    let _ascending = rows.rows();
    let all = edits.rows();
    let first = run_start(all, start);
    let count = all.len() - first;
    let edit = &all[first];
    match (edit.comes, edit.found) {
        (true, Err(index)) => {
            steps.add(count as u64);
            rows.put_run_at(index, edits, first);
        }
        (false, Ok(index)) => {
            steps.add(count as u64);
            rows.take_run_at(index, count);
            edits.take_run_at(first, count);
        }
        _ => {
            let last = edits.len() - 1;
            make_edit(rows, edits.take_at(last), steps);
        }
    }
}
