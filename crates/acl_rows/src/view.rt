//! What a ruling reads: views that lend entries and rows.
ghost use Rattle.std.specs.Prelude.{◌≡◌, ◌+◌, ◌-◌, ◌≤◌, length, slice_get, Some, option_copied};
ghost use Rattle.acl_rows.specs.ByAddress.{AreGroups};
ghost use Rattle.acl_rows.specs.View as view;

use crate::by_address::AddressRows;
use crate::packed::PackedAddr;
use crate::row::Row;
use acl_model::Entry;
use base_rows::{SortedRows, Steps};
use mud_base::{Addr, Direction};
use std::collections::BTreeMap;
use std::marker::Model;
use std::sync::ledger::Ledger;

/// The entries of one side of a file or of the defaults, and the rows that say which addresses meet
/// their member selectors. Contracts see the rows of all addresses, and how many rows those of one are
/// found among.
#[derive(Drop)]
pub struct RulePart<'a> {
    side: Direction,
    entries: &'a [Entry],
    wide: &'a [u16],
    rows: &'a AddressRows,
}

impl<'a> Model for RulePart<'a> {
    ghost use Rattle.std.specs.Prelude.{◌≤◌, length};
    ghost use Rattle.acl_rows.specs.View.{Part, part};

    ghost Value = { Part };

    ghost view = { λ p. part p.side p.entries.now p.wide.now p.rows.now.rows (length p.rows.now.rows) };

    ghost invariant = { λ p. length p.entries.now ≤ 65535 };
}

impl<'a> RulePart<'a> {
    /// The part of these entries, whose wide ones have these numbers, over the rows of their owner and
    /// side.
    pub fn new(
        side: Direction,
        entries: &'a [Entry],
        wide: &'a [u16],
        rows: &'a AddressRows,
    ) -> RulePart<'a>
        requires { length entries.now ≤ 65535 }
        ensures { result ≡ view.part side entries.now wide.now rows.now.rows (length rows.now.rows) }
    {
        RulePart {
            side,
            entries,
            wide,
            rows,
        }
    }

    /// The same part once more.
    fn again(&self) -> RulePart<'a>
        ensures { result ≡ self.now }
    {
        RulePart {
            side: self.side,
            entries: self.entries,
            wide: self.wide,
            rows: self.rows,
        }
    }

    /// The side of the packets that the entries are for.
    pub fn side(&self) -> Direction
        ensures { result ≡ self.now.side }
    {
        self.side
    }

    /// How many entries there are.
    pub fn count(&self) -> u16
        ensures { result ≡ length self.now.entries }
    {
        self.entries.len() as u16
    }

    /// The entry of a number, from 1 on.
    pub fn entry(&self, n: u16) -> &'a Entry
        requires low { 1 ≤ n }
        requires high { n ≤ length self.now.entries }
        ensures { slice_get self.now.entries (n - 1) ≡ Some result.now }
    {
        let entries = self.entries;
        &entries[usize::from(n) - 1]
    }

    /// The numbers of the entries with no member selector, in order.
    pub fn wide(&self) -> &'a [u16]
        ensures { result.now ≡ self.now.wide }
    {
        self.wide
    }

    /// The rows of an address, in the order of their entries. Each of them is one step.
    pub fn rows_at<L: Ledger>(&self, addr: Addr, steps: &mut Steps<L>) -> &'a [Row]
        ensures rows { result.now ≡ view.rows_at self.now addr }
        ensures counted { steps.new ≡ steps.old + length result.now }
    {
        let rows = self.rows;
        rows.rows_at(addr, steps)
    }

    /// All its rows in groups, those of each address by themselves. Each row is one step.
    pub fn rows<L: Ledger>(&self, steps: &mut Steps<L>) -> &'a BTreeMap<PackedAddr, SortedRows<Row>>
        ensures rows { AreGroups result.now.entries self.now.rows }
        ensures counted { steps.new ≡ steps.old + length self.now.rows }
    {
        let rows = self.rows;
        rows.all_rows(steps)
    }
}

/// What a ruling reads of a URL and a side: the entries of the URL's file, where one is approved,
/// and the default entries.
#[derive(Drop)]
pub struct RuleView<'a> {
    side: Direction,
    file: Option<RulePart<'a>>,
    defaults: RulePart<'a>,
}

impl<'a> Model for RuleView<'a> {
    ghost use Rattle.acl_rows.specs.View.{View, view as view_of_these};

    ghost Value = { View };

    ghost view = { λ v. view_of_these v.side v.file v.defaults };
}

impl<'a> RuleView<'a> {
    /// The view of these.
    pub fn new(side: Direction, file: Option<RulePart<'a>>, defaults: RulePart<'a>) -> RuleView<'a>
        ensures { result ≡ view.view side file.entry defaults.entry }
    {
        RuleView {
            side,
            file,
            defaults,
        }
    }

    /// The side of the packet that the Thing is on.
    pub fn side(&self) -> Direction
        ensures { result ≡ self.now.side }
    {
        self.side
    }

    /// The part of the file; None exactly where no policy is held for the URL.
    pub fn file_part(&self) -> Option<RulePart<'a>>
        ensures { result ≡ self.now.file }
    {
        match &self.file {
            Some(part) => Some(part.again()),
            None => None,
        }
    }

    /// The part of the file, lent: it isn't copied.
    pub fn file(&self) -> Option<&RulePart<'a>>
        ensures { option_copied result ≡ self.now.file }
    {
        match &self.file {
            Some(part) => Some(part),
            None => None,
        }
    }

    /// The part of the default entries, lent.
    pub fn defaults(&self) -> &RulePart<'a>
        ensures { result.now ≡ self.now.defaults }
    {
        &self.defaults
    }

    /// The part of the default entries.
    pub fn default_part(&self) -> RulePart<'a>
        ensures { result ≡ self.now.defaults }
    {
        self.defaults.again()
    }
}
