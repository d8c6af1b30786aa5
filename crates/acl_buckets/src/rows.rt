//! Rows in buckets.
ghost use Rattle.std.specs.Prelude.{◌≡◌, ℕ, ◌+◌, ◌^◌, ◌<◌, ◌≤◌, [], min, length, OnOk};
ghost use Rattle.std.specs.List.{AllByRecursion};
ghost use Rattle.base_rows.specs.Edits.{edited};
ghost use Rattle.acl_rows.specs.SortKeys.{row_sort_key, named_sort_key};
ghost use Rattle.acl_rows.specs.View.{part, rows_of_side};
ghost use Rattle.acl_rows.specs.ByAddress.{rows_of_peer, index_beside, until_of_row, AreGroups};
ghost use Rattle.acl_buckets.specs.RowBuckets.{HasRoom, AreFoundBeside, AreForgotten};

use crate::row_parts::{make_all, make_room, number_of, part_of};
use acl_model::Entry;
use acl_rows::{AddressRows, FoundRow, Owner, PackedAddr, Row, RowKey, RulePart};
use base_rows::{Edit, SortedRows, Steps};
use mud_base::{Direction, Memory};
use std::alloc::Global;
use std::collections::BTreeMap;
use std::marker::Model;
use std::sync::ledger::Ledger;

/// Rows in ascending order of their sort keys, each sort key once. Those of each owner and side
/// stand by themselves, in a bucket that is found without a search, and there those of each address.
/// Contracts see all rows in one list, and for each bucket and address how many more rows can be
/// added without memory.
#[derive(Drop)]
pub struct RowBuckets {
    buckets: Vec<AddressRows>,
    none: AddressRows,
}

impl Model for RowBuckets {
    ghost use Rattle.acl_buckets.specs.RowBuckets.{Buckets};
    ghost use Rattle.acl_buckets.specs.RowParts.{joined, room_in, limits_in, AreBucketed};

    ghost Value = { Buckets };

    ghost view = { λ s. record { rows = joined s.buckets.items; room = room_in s.buckets.items; limits = limits_in s.buckets.items } };

    ghost invariant = { λ s. AreBucketed s.buckets.items s.none.rows };
}

impl RowBuckets {
    /// No rows, and no room. It takes no memory.
    pub fn new(alloc: Global) -> RowBuckets
        ensures rows { result.rows ≡ [] }
        ensures room { result.room ≡ [] }
    {
        RowBuckets {
            buckets: Vec::new(alloc),
            none: AddressRows::new(alloc, Owner::Default, Direction::From),
        }
    }

    /// The bucket of an owner and side.
    fn bucket(&self, owner: Owner, side: Direction) -> &AddressRows
        ensures rows { result.now.rows ≡ rows_of_side owner side self.now.rows }
        ensures few { length result.now.rows ≤ length self.now.rows }
    {
        part_of(self.buckets.as_slice(), &self.none, number_of(owner, side))
    }

    /// What a ruling reads of these entries of an owner's policy, whose wide ones have these
    /// numbers: the part over the rows of the owner and side.
    pub fn part<'a>(
        &'a self,
        owner: Owner,
        side: Direction,
        entries: &'a [Entry],
        wide: &'a [u16],
    ) -> RulePart<'a>
        requires { length entries.now ≤ 65535 }
        ensures { result ≡ part side entries.now wide.now (rows_of_side owner side self.now.rows) (length (rows_of_side owner side self.now.rows)) }
    {
        RulePart::new(side, entries, wide, self.bucket(owner, side))
    }

    /// Looks for a row among those of its owner, side and address. There is at least one step where
    /// there are such rows, and there are no more than their number has binary digits.
    pub fn find_counted<L: Ledger>(&self, key: &RowKey, steps: &mut Steps<L>) -> FoundRow
        ensures index { result.index ≡ index_beside key.now.owner key.now.side key.now.addr (named_sort_key key.now) self.now.rows }
        ensures until { result.until ≡ until_of_row (named_sort_key key.now) self.now.rows }
        ensures least { steps.old + min 1 (length (rows_of_peer key.now.owner key.now.side key.now.addr self.now.rows)) ≤ steps.new }
        ensures most { (b : ℕ) → length self.now.rows < 2 ^ b → steps.new ≤ steps.old + b }
    {
        self.bucket(key.owner, key.side).find_counted(key, steps)
    }

    /// All rows of an owner and side in groups, those of each address by themselves. Each row is
    /// one step.
    pub fn all_rows<L: Ledger>(
        &self,
        owner: Owner,
        side: Direction,
        steps: &mut Steps<L>,
    ) -> &BTreeMap<PackedAddr, SortedRows<Row>>
        ensures groups { AreGroups result.now.entries (rows_of_side owner side self.now.rows) }
        ensures counted { steps.new ≡ steps.old + length (rows_of_side owner side self.now.rows) }
    {
        self.bucket(owner, side).all_rows(steps)
    }

    /// Makes room for a row by each of these edits. The rows stay, also where there is no memory
    /// for it. Where many addresses of a bucket of the edits have no rows any more, they are
    /// forgotten, and then at most one more comes for each edit.
    pub fn make_room(&mut self, alloc: Global, edits: &SortedRows<Edit<Row>>) -> Result<(), Memory>
        ensures rows { self.new.rows ≡ self.old.rows }
        ensures ok { OnOk result (HasRoom edits.now.rows self.new.room) }
        ensures forgotten { OnOk result (AllByRecursion (AreForgotten edits.now.rows self.old self.new) edits.now.rows) }
    {
        make_room(alloc, &mut self.buckets, edits)
    }

    /// Makes each of these edits, each of which has the index of its sort key among the rows of its
    /// owner, side and address. Each is one step, and no memory is taken. It moves rows of the
    /// owners, sides and addresses of the edits alone.
    pub fn make_edits<L: Ledger>(&mut self, edits: SortedRows<Edit<Row>>, steps: &mut Steps<L>)
        requires room { HasRoom edits.rows self.old.room }
        requires found { AreFoundBeside self.old.rows edits.rows }
        ensures limits { self.new.limits ≡ self.old.limits }
        ensures rows { self.new.rows ≡ edited row_sort_key edits.rows self.old.rows }
        ensures counted { steps.new ≡ steps.old + length edits.rows }
    {
        make_all(&mut self.buckets, edits, steps);
    }
}
