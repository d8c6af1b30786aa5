//! Rows in groups, those of each address by themselves. Outside this file rows that are kept are read
//! by its three counted calls alone.
ghost use Rattle.std.specs.Prelude.{◌≡◌, ℕ, ◌+◌, ◌^◌, ◌<◌, ◌≤◌, min, length, take, drop, slice_get, [], Some, option_map, OnOk};
ghost use Rattle.mud_base.specs.declared.packet.Direction.{Direction as DirectionValue};
ghost use Rattle.base_rows.specs.Sortable.{index_in, SortKeysAscend};
ghost use Rattle.base_rows.specs.Edits.{AreFound};
ghost use Rattle.acl_rows.specs.declared.row.Owner.{Owner as OwnerValue};
ghost use Rattle.acl_rows.specs.SortKeys.{row_sort_key, named_sort_key};
ghost use Rattle.acl_rows.specs.ByAddress.{until_of_row, grouped, IsCleared};
ghost use Rattle.acl_rows.specs.Groups.{part_at, group_sort_key, has_rows, AreGrouped, HaveSameRows, AreRoomier, IsEdited};

use crate::packed::PackedAddr;
use crate::row::{FoundRow, Row, RowKey};
use base_rows::{Edit, SortedRows, Steps, make_edits_from};
use mud_base::{Addr, End, Memory};
use std::alloc::Global;
use std::collections::BTreeMap;
use std::marker::Model;
use std::sync::ledger::Ledger;

/// The groups of the addresses, in their order. The keys of the map are packed, so that a look-up reads
/// little memory. Contracts see the list of the groups.
#[derive(Drop)]
pub(crate) struct GroupedRows {
    map: BTreeMap<PackedAddr, SortedRows<Row>>,
}

impl Model for GroupedRows {
    ghost use Rattle.acl_rows.specs.Groups.{Groups};

    ghost Value = { Groups };

    ghost view = { λ g. g.map.entries };
}

impl GroupedRows {
    /// No groups. It takes no memory.
    pub(crate) fn new(alloc: Global) -> GroupedRows
        ensures { result ≡ [] }
    {
        GroupedRows {
            map: BTreeMap::new(alloc),
        }
    }

    /// The rows in the group of an address, in their order. Each of them is one step.
    pub(crate) fn rows_at<L: Ledger>(&self, addr: Addr, steps: &mut Steps<L>) -> &[Row]
        ensures rows { result.now ≡ (part_at addr self.now).rows }
        ensures counted { steps.new ≡ steps.old + length result.now }
    {
        let at = PackedAddr::new(addr);
        match self.map.get(&at) {
            Some(rows) => {
                steps.add(rows.len() as u64);
                rows.rows()
            }
            None => &[],
        }
    }

    /// Looks for a row in the group of its address. There is at least one step where the group has
    /// rows, and there are no more than their number has binary digits.
    pub(crate) fn find_counted<L: Ledger>(&self, key: &RowKey, steps: &mut Steps<L>) -> FoundRow
        ensures index { result.index ≡ index_in row_sort_key (named_sort_key key.now) (part_at key.now.addr self.now).rows }
        ensures until { result.until ≡ until_of_row (named_sort_key key.now) (part_at key.now.addr self.now).rows }
        ensures least { steps.old + min 1 (length (part_at key.now.addr self.now).rows) ≤ steps.new }
        ensures most { (b : ℕ) → length (part_at key.now.addr self.now).rows < 2 ^ b → steps.new ≤ steps.old + b }
    {
        let at = PackedAddr::new(key.addr);
        match self.map.get(&at) {
            Some(rows) => found_in(rows, key, steps),
            None => FoundRow {
                index: Err(0),
                until: None,
            },
        }
    }

    /// All groups. Each row in them is one step.
    pub(crate) fn all_rows<L: Ledger>(
        &self,
        steps: &mut Steps<L>,
    ) -> &BTreeMap<PackedAddr, SortedRows<Row>>
        ensures groups { result.now.entries ≡ self.now }
        ensures counted { steps.new ≡ steps.old + length (grouped self.now) }
    {
        count_groups(&self.map, steps);
        &self.map
    }

    /// Where there are as many groups as this, those that are empty go. The answer is the number of
    /// groups at which to do so next: twice as many as are left.
    pub(crate) fn clear(&mut self, limit: usize) -> usize
        ensures same { (owner : OwnerValue) (side : DirectionValue) → AreGrouped owner side self.old → HaveSameRows owner side self.old self.new }
        ensures cleared { IsCleared has_rows self.old self.new limit result }
    {
        clear_groups(&mut self.map, limit)
    }

    /// Makes room for as many rows more in the group of an address, which is added where there is
    /// none.
    pub(crate) fn reserve(&mut self, alloc: Global, addr: Addr, more: usize) -> Result<(), Memory>
        ensures kept { (owner : OwnerValue) (side : DirectionValue) → AreGrouped owner side self.old → AreRoomier owner side self.old self.new }
        ensures most { length self.new ≤ length self.old + 1 }
        ensures ok { OnOk result (more ≤ (part_at addr self.new).room) }
    {
        reserve_group(alloc, &mut self.map, addr, more)
    }

    /// Makes each of these edits from index `start` on in the group of an address.
    pub(crate) fn make_edits<L: Ledger>(
        &mut self,
        addr: Addr,
        edits: &mut SortedRows<Edit<Row>>,
        start: usize,
        steps: &mut Steps<L>,
    )
        requires ascend { SortKeysAscend group_sort_key self.old }
        requires some { start < length edits.old.rows }
        requires room { length edits.old.rows ≤ (part_at addr self.old).room + start }
        requires found { AreFound row_sort_key (part_at addr self.old).rows (drop start edits.old.rows) }
        ensures group { IsEdited addr (drop start edits.old.rows) self.old self.new }
        ensures left { edits.new.rows ≡ take start edits.old.rows }
        ensures counted { steps.new + start ≡ steps.old + length edits.old.rows }
    {
        edit_group(&mut self.map, addr, edits, start, steps);
    }
}

/// Looks for a row among these, as `SortedRows::find_counted` does.
#[tactic(auto, unfolding(crate::specs::SortKeys::named_sort_key))]
fn found_in<L: Ledger>(rows: &SortedRows<Row>, key: &RowKey, steps: &mut Steps<L>) -> FoundRow
    ensures index { result.index ≡ index_in row_sort_key (named_sort_key key.now) rows.now.rows }
    ensures until { result.until ≡ until_of_row (named_sort_key key.now) rows.now.rows }
    ensures least { steps.old + min 1 (length rows.now.rows) ≤ steps.new }
    ensures most { (b : ℕ) → length rows.now.rows < 2 ^ b → steps.new ≤ steps.old + b }
{
    let kept = rows.rows();
    match rows.find_counted(key, steps) {
        Ok(index) => FoundRow {
            index: Ok(index),
            until: Some(until_at(kept, index)),
        },
        Err(index) => FoundRow {
            index: Err(index),
            until: None,
        },
    }
}

/// The expiry of the row at an index.
fn until_at(rows: &[Row], index: usize) -> End
    requires { index < length rows.now }
    ensures { option_map (λ row. row.until) (slice_get rows.now index) ≡ Some result }
{
    rows[index].until
}

/// Each row of the groups is one step.
fn count_groups<L: Ledger>(groups: &BTreeMap<PackedAddr, SortedRows<Row>>, steps: &mut Steps<L>)
    ensures { steps.new ≡ steps.old + length (grouped groups.now.entries) }
{
    for group in groups.values() {
        steps.add(group.len() as u64);
    }
}

/// Where there are as many groups as this, those that are empty go. The answer is the number of
/// groups at which to do so next: twice as many as are left.
fn clear_groups(groups: &mut BTreeMap<PackedAddr, SortedRows<Row>>, limit: usize) -> usize
    ensures same { (owner : OwnerValue) (side : DirectionValue) → AreGrouped owner side groups.old.entries → HaveSameRows owner side groups.old.entries groups.new.entries }
    ensures cleared { IsCleared has_rows groups.old.entries groups.new.entries limit result }
{
    if groups.len() < limit {
        return limit;
    }
    groups.retain(|_, rows| rows.len() > 0);
    groups.len().saturating_mul(2).max(16)
}

/// Makes room for as many rows more in the group of an address, which is added where there is none.
fn reserve_group(
    alloc: Global,
    groups: &mut BTreeMap<PackedAddr, SortedRows<Row>>,
    addr: Addr,
    more: usize,
) -> Result<(), Memory>
    ensures kept { (owner : OwnerValue) (side : DirectionValue) → AreGrouped owner side groups.old.entries → AreRoomier owner side groups.old.entries groups.new.entries }
    ensures most { length groups.new.entries ≤ length groups.old.entries + 1 }
    ensures ok { OnOk result (more ≤ (part_at addr groups.new.entries).room) }
{
    let at = PackedAddr::new(addr);
    if let Some(rows) = groups.get_mut(&at) {
        return rows.reserve(more);
    }
    let mut rows = SortedRows::new(alloc);
    rows.reserve(more)?;
    groups.insert(at, rows)?;
    Ok(())
}

/// Makes each of these edits from index `start` on in the group of an address.
fn edit_group<L: Ledger>(
    groups: &mut BTreeMap<PackedAddr, SortedRows<Row>>,
    addr: Addr,
    edits: &mut SortedRows<Edit<Row>>,
    start: usize,
    steps: &mut Steps<L>,
)
    requires ascend { SortKeysAscend group_sort_key groups.old.entries }
    requires some { start < length edits.old.rows }
    requires room { length edits.old.rows ≤ (part_at addr groups.old.entries).room + start }
    requires found { AreFound row_sort_key (part_at addr groups.old.entries).rows (drop start edits.old.rows) }
    ensures group { IsEdited addr (drop start edits.old.rows) groups.old.entries groups.new.entries }
    ensures left { edits.new.rows ≡ take start edits.old.rows }
    ensures counted { steps.new + start ≡ steps.old + length edits.old.rows }
{
    let at = PackedAddr::new(addr);
    match groups.get_mut(&at) {
        Some(rows) => make_edits_from(rows, edits, start, steps),
        None => unreachable!(),
    }
}
