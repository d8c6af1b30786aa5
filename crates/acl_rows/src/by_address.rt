//! Rows of one owner and side, those of each address by themselves.
ghost use Rattle.std.specs.Prelude.{◌≡◌, ◌+◌, ◌^◌, ◌<◌, ◌≤◌, ℕ, List, [], filter, min, length, take, drop, false, OnOk};
ghost use Rattle.std.specs.List.{AllByRecursion};
ghost use Rattle.mud_base.specs.Addresses.{same_addr};
ghost use Rattle.mud_base.specs.declared.addr.Addr.{Addr as AddrValue};
ghost use Rattle.base_rows.specs.Sortable.{index_in, SortKeysAscend};
ghost use Rattle.base_rows.specs.Edits.{edited};
ghost use Rattle.acl_rows.specs.SortKeys.{row_sort_key, named_sort_key};
ghost use Rattle.acl_rows.specs.View.{is_at};
ghost use Rattle.acl_rows.specs.ByAddress.{room_at, index_beside, until_of_row, IsRowAt, IsEditAt, IsRoomier, AreAddressesCleared, AreGroups};

use crate::groups::GroupedRows;
use crate::packed::PackedAddr;
use crate::row::{FoundRow, Owner, Row, RowKey};
use base_rows::{Edit, SortedRows, Steps};
use mud_base::{Addr, Direction, Memory};
use std::alloc::Global;
use std::collections::BTreeMap;
use std::marker::Model;
use std::sync::ledger::Ledger;

/// Rows of one owner and side, in ascending order of their sort keys. Those of each address stand
/// by themselves, and a change moves rows of its own address alone. Contracts see all rows in one
/// list, and for each address how many more can be added without memory.
///
/// An address whose last row went, or that was made room for in vain, stays until there are twice
/// as many addresses as were left when those without rows went the last time, and at least 16; then
/// `clear` takes those without rows away.
#[derive(Drop)]
pub struct AddressRows {
    owner: Owner,
    side: Direction,
    groups: GroupedRows,
    limit: usize,
}

impl Model for AddressRows {
    ghost use Rattle.acl_rows.specs.ByAddress.{SideRows, grouped};
    ghost use Rattle.acl_rows.specs.Groups.{room_in, AreGrouped};

    ghost Value = { SideRows };

    ghost view = { λ s. record { owner = s.owner; side = s.side; rows = grouped s.groups; room = room_in s.groups; limit = s.limit } };

    ghost invariant = { λ s. AreGrouped s.owner s.side s.groups };
}

impl AddressRows {
    /// No rows, and no room. It takes no memory.
    pub fn new(alloc: Global, owner: Owner, side: Direction) -> AddressRows
        ensures owner { result.owner ≡ owner }
        ensures side { result.side ≡ side }
        ensures rows { result.rows ≡ [] }
        ensures room { result.room ≡ [] }
        ensures limit { result.limit ≡ 16 }
    {
        AddressRows {
            owner,
            side,
            groups: GroupedRows::new(alloc),
            limit: 16,
        }
    }

    /// Does nothing: its contract says that the rows are in order, and whose they are.
    pub fn tell_order(&self)
        ensures ascend { SortKeysAscend row_sort_key self.now.rows }
        ensures own { AllByRecursion (λ row. IsRowAt self.now.owner self.now.side row.addr row) self.now.rows }
    {
        let _kept = &self.groups;
    }

    /// The rows of an address, in the order of their entries. Each of them is one step.
    pub fn rows_at<L: Ledger>(&self, addr: Addr, steps: &mut Steps<L>) -> &[Row]
        ensures rows { result.now ≡ filter (is_at addr) self.now.rows }
        ensures counted { steps.new ≡ steps.old + length result.now }
    {
        self.groups.rows_at(addr, steps)
    }

    /// Looks for a row among those of its address. There is at least one step where there are such
    /// rows, and there are no more than their number has binary digits.
    pub fn find_counted<L: Ledger>(&self, key: &RowKey, steps: &mut Steps<L>) -> FoundRow
        ensures index { result.index ≡ index_in row_sort_key (named_sort_key key.now) (filter (is_at key.now.addr) self.now.rows) }
        ensures until { result.until ≡ until_of_row (named_sort_key key.now) (filter (is_at key.now.addr) self.now.rows) }
        ensures least { steps.old + min 1 (length (filter (is_at key.now.addr) self.now.rows)) ≤ steps.new }
        ensures most { (b : ℕ) → length self.now.rows < 2 ^ b → steps.new ≤ steps.old + b }
    {
        self.groups.find_counted(key, steps)
    }

    /// All rows in groups, those of each address by themselves. Each row is one step.
    pub fn all_rows<L: Ledger>(
        &self,
        steps: &mut Steps<L>,
    ) -> &BTreeMap<PackedAddr, SortedRows<Row>>
        ensures groups { AreGroups result.now.entries self.now.rows }
        ensures counted { steps.new ≡ steps.old + length self.now.rows }
    {
        self.groups.all_rows(steps)
    }

    /// Where many addresses have no rows any more, they are forgotten, and with them their room.
    pub fn clear(&mut self)
        ensures owner { self.new.owner ≡ self.old.owner }
        ensures side { self.new.side ≡ self.old.side }
        ensures rows { self.new.rows ≡ self.old.rows }
        ensures cleared { AreAddressesCleared self.old self.new }
    {
        self.limit = self.groups.clear(self.limit);
    }

    /// Makes room for as many rows more at an address. The rows stay, also where there is no memory
    /// for it.
    pub fn reserve(&mut self, alloc: Global, addr: Addr, more: usize) -> Result<(), Memory>
        ensures kept { IsRoomier self.old self.new }
        ensures most { length self.new.room ≤ length self.old.room + 1 }
        ensures ok { OnOk result (more ≤ room_at addr self.new.room) }
    {
        self.groups.reserve(alloc, addr, more)
    }

    /// Makes each of these edits from index `start` on, all of which are at this address, from the
    /// last to the first, and leaves those before it. Each is one step, and no memory is taken. It
    /// moves rows of this address alone.
    pub fn make_edits_at<L: Ledger>(
        &mut self,
        addr: Addr,
        edits: &mut SortedRows<Edit<Row>>,
        start: usize,
        steps: &mut Steps<L>,
    )
        requires some { start < length edits.old.rows }
        requires own { AllByRecursion (IsEditAt self.old.owner self.old.side addr) (drop start edits.old.rows) }
        requires room { length edits.old.rows ≤ room_at addr self.old.room + start }
        requires found { AllByRecursion (λ edit. edit.found ≡ index_beside self.old.owner self.old.side addr (row_sort_key edit.row) self.old.rows) (drop start edits.old.rows) }
        ensures owner { self.new.owner ≡ self.old.owner }
        ensures side { self.new.side ≡ self.old.side }
        ensures limit { self.new.limit ≡ self.old.limit }
        ensures rows { self.new.rows ≡ edited row_sort_key (drop start edits.old.rows) self.old.rows }
        ensures left { edits.new.rows ≡ take start edits.old.rows }
        ensures others { (a : AddrValue) → same_addr a addr ≡ false → room_at a self.new.room ≡ room_at a self.old.room }
        ensures counted { steps.new + start ≡ steps.old + length edits.old.rows }
    {
        self.groups.make_edits(addr, edits, start, steps);
    }
}
