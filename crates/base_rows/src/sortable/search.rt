//! Binary search among rows, each row that is read counted as one step.
ghost use Rattle.std.specs.Prelude.{◌≡◌, ℕ, ◌+◌, ◌-◌, ◌*◌, ◌^◌, ◌<◌, ◌≤◌, min, length, map, IfOk, IfErr, slice_get, slice_index_or, Some};
ghost use Rattle.std.specs.declared.cmp.Ordering.{Ordering};
ghost use Rattle.base_rows.specs.Sortable.{SortKeysAscend, index_in, rows_under};
ghost use Rattle.base_rows.specs.Search.{AnswersFall, AllGreaterBefore, AllLessFrom, AllEqualWithin, IsMeeting, IsGap, sort_key_answer, prefix_answer};

use super::{KeyOf, PrefixOf, Sortable};
use crate::steps::Steps;
use std::cmp::Ordering;
use std::sync::ledger::Ledger;

/// What rows are compared with.
trait Probe<R> {
    /// How it stands to a row.
    ghost against: { Self → R → Ordering };

    /// Compares it with a row.
    fn compare(&self, row: &R) -> Ordering
        ensures { result ≡ against self.now row.now };
}

/// A row that is `Equal`, and the part of the rows outside which none is.
#[derive(Clone, Copy)]
struct Meeting {
    /// The first index of the part.
    start: usize,
    /// The index of the row.
    at: usize,
    /// The index after the part.
    end: usize,
}

/// Reads one row, which is one step.
fn read<'a, R, L: Ledger>(rows: &'a [R], index: usize, steps: &mut Steps<L>) -> &'a R
    requires { index < length rows.now }
    ensures row { slice_get rows.now index ≡ Some result.now }
    ensures counted { steps.new ≡ steps.old + 1 }
{
    steps.tick();
    &rows[index]
}

/// Searches for a row that is `Equal`.
fn meet<R, P: Probe<R>, L: Ledger>(
    rows: &[R],
    probe: &P,
    steps: &mut Steps<L>,
) -> Result<Meeting, usize>
    requires { AnswersFall (map (P.against probe.now) rows.now) }
    ensures ok { IfOk result (λ met. IsMeeting (map (P.against probe.now) rows.now) met.start met.at met.end) }
    ensures err { IfErr result (IsGap (map (P.against probe.now) rows.now)) }
    ensures ok_least { IfOk result (λ met. steps.old < steps.new) }
    ensures ok_most { IfOk result (λ met. 2 ^ (steps.new - steps.old - 1) * (met.end - met.start) ≤ length rows.now) }
    ensures err_least { IfErr result (λ _. steps.old + min 1 (length rows.now) ≤ steps.new) }
    ensures err_most { IfErr result (λ _. 2 ^ (steps.new - steps.old) ≤ 2 * length rows.now + 1) }
{
    let mut low = 0;
    let mut high = rows.len();
    while low < high {
        let middle = low + (high - low) / 2;
        match probe.compare(read(rows, middle, steps)) {
            Ordering::Less => high = middle,
            Ordering::Equal => {
                return Ok(Meeting {
                    start: low,
                    at: middle,
                    end: high,
                });
            }
            Ordering::Greater => low = middle + 1,
        }
    }
    Err(low)
}

/// The first index of the rows that are `Equal`, from one of them on downwards.
fn first_equal<R, P: Probe<R>, L: Ledger>(
    rows: &[R],
    probe: &P,
    start: usize,
    at: usize,
    steps: &mut Steps<L>,
) -> usize
    requires falls { AnswersFall (map (P.against probe.now) rows.now) }
    requires order { start ≤ at }
    requires in_range { at < length rows.now }
    requires before_start { AllGreaterBefore (map (P.against probe.now) rows.now) start }
    requires meets { slice_index_or (map (P.against probe.now) rows.now) at Ordering.Less ≡ Ordering.Equal }
    ensures within { result ≤ at }
    ensures before { AllGreaterBefore (map (P.against probe.now) rows.now) result }
    ensures equal { AllEqualWithin (map (P.against probe.now) rows.now) result at }
    ensures least { steps.old + at ≤ steps.new + result }
    ensures most { steps.new + result ≤ steps.old + at + 1 }
    ensures bound { steps.new + start ≤ steps.old + at }
{
    let mut first = at;
    while start < first {
        let below = first - 1;
        if probe.compare(read(rows, below, steps)).is_ne() {
            return first;
        }
        first = below;
    }
    first
}

/// The index after the rows that are `Equal`, from the one after one of them on upwards.
fn past_equal<R, P: Probe<R>, L: Ledger>(
    rows: &[R],
    probe: &P,
    at: usize,
    end: usize,
    steps: &mut Steps<L>,
) -> usize
    requires falls { AnswersFall (map (P.against probe.now) rows.now) }
    requires order { at < end }
    requires in_range { end ≤ length rows.now }
    requires after_end { AllLessFrom (map (P.against probe.now) rows.now) end }
    requires meets { slice_index_or (map (P.against probe.now) rows.now) at Ordering.Less ≡ Ordering.Equal }
    ensures within { at < result }
    ensures in_rows { result ≤ end }
    ensures after { AllLessFrom (map (P.against probe.now) rows.now) result }
    ensures equal { AllEqualWithin (map (P.against probe.now) rows.now) at result }
    ensures least { steps.old + result ≤ steps.new + at + 1 }
    ensures most { steps.new + at ≤ steps.old + result }
    ensures bound { steps.new + at + 1 ≤ steps.old + end }
{
    let mut past = at + 1;
    while past < end {
        if probe.compare(read(rows, past, steps)).is_ne() {
            return past;
        }
        past += 1;
    }
    past
}

/// Rows are compared by their sort keys with the one that a key names.
#[derive_where(Clone, Copy)]
struct BySortKey<'a, K>(&'a K);

impl<'a, R: Sortable, K: KeyOf<R>> Probe<R> for BySortKey<'a, K> {
    ghost against = { λ probe. sort_key_answer R.sort_key (K.sort_key probe.0.now) };

    fn compare(&self, row: &R) -> Ordering {
        self.0.order_to(row)
    }
}

/// Rows are compared by the beginnings of their sort keys with a beginning.
#[derive_where(Clone, Copy)]
struct ByPrefix<'a, K>(&'a K);

impl<'a, R: Sortable, K: PrefixOf<R>> Probe<R> for ByPrefix<'a, K> {
    ghost against = { λ probe. prefix_answer R.sort_key (K.prefix probe.0.now) };

    fn compare(&self, row: &R) -> Ordering {
        self.0.order_to_beginning(row)
    }
}

/// The index of the row that a key names, or else the index at which it belongs. Each row that is
/// read is one step.
pub(super) fn index_of<R: Sortable, K: KeyOf<R>, L: Ledger>(
    rows: &[R],
    key: &K,
    steps: &mut Steps<L>,
) -> Result<usize, usize>
    requires { SortKeysAscend R.sort_key rows.now }
    ensures index { result ≡ index_in R.sort_key (K.sort_key key.now) rows.now }
    ensures least { steps.old + min 1 (length rows.now) ≤ steps.new }
    ensures most { 2 ^ (steps.new - steps.old) ≤ 2 * length rows.now + 1 }
{
    match meet(rows, &BySortKey(key), steps) {
        Ok(met) => Ok(met.at),
        Err(index) => Err(index),
    }
}

/// The rows whose sort keys begin with a beginning. Each row that is read is one step.
pub(super) fn stretch_under<'a, R: Sortable, K: PrefixOf<R>, L: Ledger>(
    rows: &'a [R],
    prefix: &K,
    steps: &mut Steps<L>,
) -> &'a [R]
    requires { SortKeysAscend R.sort_key rows.now }
    ensures rows { result.now ≡ rows_under R.sort_key (K.prefix prefix.now) rows.now }
    ensures least { steps.old + length result.now ≤ steps.new }
    ensures some { steps.old + min 1 (length rows.now) ≤ steps.new }
    ensures most { 2 ^ (steps.new - steps.old - length result.now) ≤ 2 * length rows.now + 1 }
{
    let probe = ByPrefix(prefix);
    match meet(rows, &probe, steps) {
        Ok(met) => {
            let first = first_equal(rows, &probe, met.start, met.at, steps);
            let past = past_equal(rows, &probe, met.at, met.end, steps);
            &rows[first..past]
        }
        Err(_) => &rows[..0],
    }
}
