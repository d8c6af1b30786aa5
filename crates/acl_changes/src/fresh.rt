//! The edits that the rows of a new policy lead to, and those of the rows that stay.
ghost use Rattle.std.specs.Prelude.{◌≡◌, ℕ, ◌+◌, ◌*◌, ◌^◌, ◌<◌, ◌≤◌, length, OnOk, IfOk, Some, List, [], ◌∷◌, map};
ghost use Rattle.acl_model.specs.FirstMatch.{entries_of};
ghost use Rattle.base_rows.specs.Sortable.{SortKeysAscend};
ghost use Rattle.acl_rows.specs.declared.row.Row.{Row as RowValue};
ghost use Rattle.acl_rows.specs.SortKeys.{row_sort_key};
ghost use Rattle.acl_rows.specs.Rows.{Slots, held_by, entry_at, member_keys};
ghost use Rattle.acl_changes.specs.Touched.{key_expiry};
ghost use Rattle.acl_changes.specs.PolicyTouched.{bound_key, entry_touches, side_policy_touches, new_touches};
ghost use Rattle.acl_changes.specs.Policies.{HasCounts};
ghost use Rattle.acl_changes.specs.Steps.{EntriesFit, HolderFits};
ghost use Rattle.acl_changes.specs.Fresh.{fresh_of, row_with, expiry_kept, AreBoundFirst, one_fresh, more_fresh, joined, membered_count, policy_count, entries_touches, ArePlanned, StandFrom, AreOfPeer, left_edits, AreSorted};

use crate::change::{Change, Holding, add_edit, plan_found, row_until};
use crate::keys::first_key;
use acl_model::{Binding, Entry, Selector};
use acl_rows::{FoundRow, Row, RowKey};
use base_rows::{Edit, SortedRows, Steps};
use mud_base::{Direction, End, Memory};
use std::alloc::Global;
use std::marker::Model;
use std::sync::ledger::Ledger;

/// Edits that are planned, and of the rows that a new policy asks for those at whose sort keys a
/// row stands already.
#[derive(Drop)]
pub(crate) struct FreshRows {
    pub(crate) edits: SortedRows<Edit<Row>>,
    pub(crate) rows: SortedRows<Row>,
}

impl Model for FreshRows {
    ghost use Rattle.acl_changes.specs.Fresh.{Fresh, fresh_of};

    ghost Value = { Fresh };

    ghost view = { λ f. fresh_of f.edits.rows f.rows.rows };
}

impl FreshRows {
    /// No edits and no rows.
    pub(crate) fn new(alloc: Global) -> FreshRows
        ensures { result ≡ fresh_of [] [] }
    {
        FreshRows {
            edits: SortedRows::new(alloc),
            rows: SortedRows::new(alloc),
        }
    }

    /// Puts these edits and rows among those that are planned, each of which is moved at most
    /// twice.
    #[tactic(auto, unfolding(crate::specs::Fresh::joined))]
    fn add(&mut self, more: FreshRows) -> Result<(), Memory>
        ensures ok { OnOk result (self.new ≡ joined more self.old) }
        ensures sorted { AreSorted self.old }
    {
        let FreshRows { edits, rows } = more;
        let _edits = self.edits.rows();
        let _rows = self.rows.rows();
        self.edits.put_sorted(edits)?;
        self.rows.put_sorted(rows)
    }
}

impl<'a> Change<'a> {
    /// Plans the row of a key, which is asked for until this expiry or not at all.
    #[tactic(auto, unfolding(crate::specs::Change::expiry_of_row, acl_rows::specs::ByAddress::until_of_row))]
    fn plan_fresh<L: Ledger>(
        &self,
        key: RowKey,
        until: Option<End>,
        fresh: &mut FreshRows,
        steps: &mut Steps<L>,
    ) -> Result<(), Memory>
        ensures ok { OnOk result ((new : Slots) → until ≡ key_expiry new self.now.bindings key → fresh.new ≡ one_fresh self.now.slots self.now.bindings new key fresh.old) }
        ensures least { steps.old ≤ steps.new }
        ensures most { (k : ℕ) → length self.now.rows < 2 ^ k → steps.new ≤ steps.old + k }
    {
        let rows = self.rows;
        let found = rows.find_counted(&key, steps);
        keep_row(&mut fresh.rows, &key, &found, &until)?;
        plan_found(&mut fresh.edits, key, found, until)
    }

    /// Plans the row of an entry at the address of a binding of its first key.
    fn address_fresh<L: Ledger>(
        &self,
        holding: &Holding<'_>,
        side: Direction,
        n: u16,
        entry: &Entry,
        behind: &[Selector],
        binding: &Binding,
        fresh: &mut FreshRows,
        steps: &mut Steps<L>,
    ) -> Result<(), Memory>
        requires gone { self.now.gone ≡ [] }
        requires come { self.now.come ≡ [] }
        requires stands { entry_at n (entries_of side holding.now.1.policy) ≡ Some entry.now }
        requires first { AreBoundFirst self.now.bindings holding.now.1.url entry.now behind.now (binding.now ∷ []) }
        ensures ok { OnOk result ((new : Slots) → held_by new holding.now.0 ≡ Some holding.now.1 → fresh.new ≡ one_fresh self.now.slots self.now.bindings new (bound_key holding.now.0 side n binding.now) fresh.old) }
        ensures least { steps.old ≤ steps.new }
        ensures most { (b k u : ℕ) → length self.now.bindings < 2 ^ b → length self.now.rows < 2 ^ k
            → length (member_keys holding.now.1.url entry.now) * b + k ≤ u → steps.new ≤ steps.old + u }
    {
        let url = holding.url();
        let until = self.bound_entry_expiry(entry, behind, url, holding.host(), binding, steps);
        let key = RowKey {
            owner: holding.owner(),
            side,
            addr: binding.addr,
            entry: n,
        };
        self.plan_fresh(key, until, fresh, steps)
    }

    /// Plans the rows of an entry at the addresses of these bindings of its first key.
    fn bound_fresh<L: Ledger>(
        &self,
        holding: &Holding<'_>,
        side: Direction,
        n: u16,
        entry: &Entry,
        behind: &[Selector],
        bound: &[Binding],
        fresh: &mut FreshRows,
        steps: &mut Steps<L>,
    ) -> Result<(), Memory>
        requires gone { self.now.gone ≡ [] }
        requires come { self.now.come ≡ [] }
        requires stands { entry_at n (entries_of side holding.now.1.policy) ≡ Some entry.now }
        requires first { AreBoundFirst self.now.bindings holding.now.1.url entry.now behind.now bound.now }
        ensures ok { OnOk result ((new : Slots) → held_by new holding.now.0 ≡ Some holding.now.1
            → fresh.new ≡ more_fresh self.now.slots self.now.bindings new (map (bound_key holding.now.0 side n) bound.now) fresh.old) }
        ensures least { steps.old ≤ steps.new }
        ensures most { (b k u : ℕ) → length self.now.bindings < 2 ^ b → length self.now.rows < 2 ^ k
            → length (member_keys holding.now.1.url entry.now) * b + k ≤ u → steps.new ≤ steps.old + length bound.now * u }
    {
        for binding in bound {
            self.address_fresh(holding, side, n, entry, behind, binding, fresh, steps)?;
        }
        Ok(())
    }

    /// The rows of an entry: at the addresses of the bindings of its first key. Each of these is
    /// read.
    #[tactic(auto, unfolding(crate::specs::PolicyTouched::entry_touches))]
    fn entry_fresh<L: Ledger>(
        &self,
        alloc: Global,
        holding: &Holding<'_>,
        side: Direction,
        n: u16,
        entry: &Entry,
        steps: &mut Steps<L>,
    ) -> Result<FreshRows, Memory>
        requires gone { self.now.gone ≡ [] }
        requires come { self.now.come ≡ [] }
        requires stands { entry_at n (entries_of side holding.now.1.policy) ≡ Some entry.now }
        ensures ok { IfOk result (ArePlanned self.now.slots self.now.bindings holding.now (entry_touches self.now.bindings holding.now.0 holding.now.1 side (n, entry.now))) }
        ensures least { steps.old + length (entry_touches self.now.bindings holding.now.0 holding.now.1 side (n, entry.now)) ≤ steps.new }
        ensures most { (b k u : ℕ) → length self.now.bindings < 2 ^ b → length self.now.rows < 2 ^ k
            → length (member_keys holding.now.1.url entry.now) * b + k ≤ u
            → steps.new ≤ steps.old + membered_count (entry.now ∷ []) * b + length (entry_touches self.now.bindings holding.now.0 holding.now.1 side (n, entry.now)) * (u + 1) }
    {
        let mut fresh = FreshRows::new(alloc);
        match first_key(entry, holding.url(), holding.host()) {
            None => Ok(fresh),
            Some((key, behind)) => {
                let bindings = self.bindings;
                bindings.tell_order();
                let bound = bindings.rows_under_counted(key, steps);
                self.bound_fresh(holding, side, n, entry, behind, bound, &mut fresh, steps)?;
                Ok(fresh)
            }
        }
    }

    /// The rows of these entries of one side, the first of which has the number `first`. Those of
    /// each half are planned by themselves and then put together in one pass over both, so the rows
    /// of an entry don't each move those of all others.
    #[tactic(auto, using(crate::proofs::EntryHalves::front_stands, crate::proofs::EntryHalves::behind_stands, crate::proofs::EntryHalves::only_entry, crate::proofs::EntryHalves::one_stands))]
    fn entries_fresh<L: Ledger>(
        &self,
        alloc: Global,
        holding: &Holding<'_>,
        side: Direction,
        first: u16,
        entries: &[Entry],
        steps: &mut Steps<L>,
    ) -> Result<FreshRows, Memory>
        requires gone { self.now.gone ≡ [] }
        requires come { self.now.come ≡ [] }
        requires stand { StandFrom first entries.now (entries_of side holding.now.1.policy) }
        requires few { first + length entries.now ≤ 65536 }
        ensures ok { IfOk result (ArePlanned self.now.slots self.now.bindings holding.now (entries_touches self.now.bindings holding.now side first entries.now)) }
        ensures read { OnOk result (steps.old + length (entries_touches self.now.bindings holding.now side first entries.now) ≤ steps.new) }
        ensures most { (b k u : ℕ) → length self.now.bindings < 2 ^ b → length self.now.rows < 2 ^ k
            → EntriesFit holding.now.1.url (entries_of side holding.now.1.policy) b k u
            → steps.new ≤ steps.old + membered_count entries.now * b + length (entries_touches self.now.bindings holding.now side first entries.now) * (u + 1) }
    {
        match entries {
            [] => Ok(FreshRows::new(alloc)),
            [entry] => self.entry_fresh(alloc, holding, side, first, entry, steps),
            _ => {
                let half = entries.len() / 2;
                let (front, behind) = entries.split_at(half);
                let middle = first + half as u16;
                let mut fresh = self.entries_fresh(alloc, holding, side, first, front, steps)?;
                let more = self.entries_fresh(alloc, holding, side, middle, behind, steps)?;
                fresh.add(more)?;
                Ok(fresh)
            }
        }
    }

    /// The rows of the entries of one side.
    #[tactic(auto, unfolding(crate::specs::PolicyTouched::side_policy_touches))]
    fn side_fresh<L: Ledger>(
        &self,
        alloc: Global,
        holding: &Holding<'_>,
        side: Direction,
        steps: &mut Steps<L>,
    ) -> Result<FreshRows, Memory>
        requires gone { self.now.gone ≡ [] }
        requires come { self.now.come ≡ [] }
        requires few { length (entries_of side holding.now.1.policy) ≤ 65535 }
        ensures ok { IfOk result (ArePlanned self.now.slots self.now.bindings holding.now (side_policy_touches self.now.bindings holding.now.0 holding.now.1 side)) }
        ensures read { OnOk result (steps.old + length (side_policy_touches self.now.bindings holding.now.0 holding.now.1 side) ≤ steps.new) }
        ensures most { (b k u : ℕ) → length self.now.bindings < 2 ^ b → length self.now.rows < 2 ^ k
            → EntriesFit holding.now.1.url (entries_of side holding.now.1.policy) b k u
            → steps.new ≤ steps.old + membered_count (entries_of side holding.now.1.policy) * b + length (side_policy_touches self.now.bindings holding.now.0 holding.now.1 side) * (u + 1) }
    {
        self.entries_fresh(alloc, holding, side, 1, holding.entries(side), steps)
    }

    /// The rows of a policy.
    pub(crate) fn policy_fresh<L: Ledger>(
        &self,
        alloc: Global,
        holding: &Holding<'_>,
        steps: &mut Steps<L>,
    ) -> Result<FreshRows, Memory>
        requires gone { self.now.gone ≡ [] }
        requires come { self.now.come ≡ [] }
        requires few { HasCounts holding.now.1.policy }
        ensures ok { IfOk result (ArePlanned self.now.slots self.now.bindings holding.now (new_touches self.now.bindings holding.now.0 (Some holding.now.1))) }
        ensures read { OnOk result (steps.old + length (new_touches self.now.bindings holding.now.0 (Some holding.now.1)) ≤ steps.new) }
        ensures most { (b k u : ℕ) → length self.now.bindings < 2 ^ b → length self.now.rows < 2 ^ k → HolderFits holding.now b k u
            → steps.new ≤ steps.old + policy_count (Some holding.now.1) * b + length (new_touches self.now.bindings holding.now.0 (Some holding.now.1)) * (u + 1) }
    {
        let mut fresh = self.side_fresh(alloc, holding, Direction::From, steps)?;
        let more = self.side_fresh(alloc, holding, Direction::To, steps)?;
        fresh.add(more)?;
        Ok(fresh)
    }
}

/// Adds the row of a key with its new expiry, where it has one and a row was found.
#[tactic(auto, unfolding(crate::specs::Fresh::row_with, crate::specs::Fresh::expiry_kept))]
fn keep_row(
    rows: &mut SortedRows<Row>,
    key: &RowKey,
    found: &FoundRow,
    until: &Option<End>,
) -> Result<(), Memory>
    ensures { OnOk result (rows.new.rows ≡ row_with key.now (expiry_kept found.now.until until.now) rows.old.rows) }
{
    match (&found.until, until) {
        (Some(_), Some(expiry)) => {
            rows.reserve(1)?;
            rows.put(row_until(*key, *expiry));
            Ok(())
        }
        _ => Ok(()),
    }
}

/// Plans that those of these rows go whose sort keys aren't among the rows that stay. They are all
/// rows of one owner, side and address.
pub(crate) fn plan_left(own: &[Row], fresh: &mut FreshRows) -> Result<(), Memory>
    requires { SortKeysAscend row_sort_key own.now }
    ensures rows { fresh.new.rows ≡ fresh.old.rows }
    ensures ok { OnOk result ((all : List RowValue) → AreOfPeer own.now all → fresh.new.edits ≡ left_edits all fresh.old.rows own.now fresh.old.edits) }
{
    let mut index = 0;
    for row in own {
        if !fresh.rows.contains(row) {
            add_edit(&mut fresh.edits, row, false, Ok(index))?;
        }
        index += 1;
    }
    Ok(())
}
