//! Buckets, one after the other, each with the rows of one owner and side.
ghost use Rattle.std.specs.Prelude.{◌≡◌, ◌+◌, ◌<◌, ◌≤◌, [], Some, length, take, drop, OnOk, vec_len};
ghost use Rattle.std.specs.List.{AllByRecursion};
ghost use Rattle.base_rows.specs.Sortable.{is_under, SortKeysAscend};
ghost use Rattle.base_rows.specs.Edits.{edit_sort_key, edited};
ghost use Rattle.acl_rows.specs.declared.row.Peer.{Peer as PeerValue};
ghost use Rattle.acl_rows.specs.SortKeys.{peer_sort_key, row_sort_key};
ghost use Rattle.acl_rows.specs.ByAddress.{IsEditAt};
ghost use Rattle.acl_buckets.specs.RowBuckets.{bucket_number, edits_of_peer, AreFoundBeside, HasRoom, AreForgotten};
ghost use Rattle.acl_buckets.specs.RowParts.{part_at, joined, room_in, AreSorted, limits_in, seen, AreKept, AreRoomier, HaveSameRoom, TakeAtMost, IsClearedAt, HasRoomFor, HaveBuckets, AreLeft};

use acl_rows::{AddressRows, Owner, Peer, Row};
use base_rows::{Edit, PrefixOf, SortedRows, Steps};
use mud_base::{Direction, Memory};
use std::alloc::Global;
use std::cmp::Ordering;
use std::sync::ledger::Ledger;

/// The number of the bucket of an owner and side. The greatest is 131,073.
#[tactic(auto, unfolding(crate::specs::RowBuckets::bucket_number, acl_rows::specs::SortKeys::owner_class, acl_rows::specs::SortKeys::owner_number, mud_base::specs::Directions::side_number))]
pub(crate) fn number_of(owner: Owner, side: Direction) -> usize
    ensures number { result ≡ bucket_number owner side }
    ensures most { result ≤ 131073 }
{
    let first = match owner {
        Owner::Default => 0,
        Owner::Url(n) => 1 + usize::from(n),
    };
    match side {
        Direction::From => 2 * first,
        Direction::To => 2 * first + 1,
    }
}

/// The owner and side whose bucket has this number.
#[tactic(auto, unfolding(crate::specs::RowBuckets::bucket_number, acl_rows::specs::SortKeys::owner_class, acl_rows::specs::SortKeys::owner_number, mud_base::specs::Directions::side_number))]
fn told_by(number: usize) -> (Owner, Direction)
    requires { number ≤ 131073 }
    ensures { bucket_number result.0 result.1 ≡ number }
{
    let side = if number % 2 == 0 {
        Direction::From
    } else {
        Direction::To
    };
    let owner = match number / 2 {
        0 => Owner::Default,
        first => Owner::Url((first - 1) as u16),
    };
    (owner, side)
}

/// The bucket of a number, or else one with no rows.
pub(crate) fn part_of<'a>(
    buckets: &'a [AddressRows],
    none: &'a AddressRows,
    number: usize,
) -> &'a AddressRows
    requires { none.now.rows ≡ [] }
    ensures { result.now.rows ≡ (part_at buckets.now number).rows }
{
    match buckets.get(number) {
        Some(bucket) => bucket,
        None => none,
    }
}

/// What the edits of rows of one owner, side and address are found by.
#[derive(Clone, Copy)]
struct OfPeer(Peer);

impl PrefixOf<Edit<Row>> for OfPeer {
    ghost use Rattle.acl_rows.specs.SortKeys.{peer_sort_key};

    ghost prefix = { λ of. peer_sort_key of.0.owner of.0.side of.0.addr };

    #[tactic(auto, unfolding(base_rows::specs::Edits::edit_sort_key))]
    fn order_to_beginning(&self, edit: &Edit<Row>) -> Ordering {
        self.0.order_to_beginning(&edit.row)
    }
}

/// Whether the edit is of a row of this owner, side and address.
fn is_of(edit: &Edit<Row>, peer: Peer) -> bool
    ensures { result ≡ is_under (edit_sort_key row_sort_key) (peer_sort_key peer.owner peer.side peer.addr) edit.now }
{
    OfPeer(peer).order_to_beginning(edit).is_eq()
}

/// Adds empty buckets until there is one of this number.
fn add_buckets(alloc: Global, buckets: &mut Vec<AddressRows>, number: usize) -> Result<(), Memory>
    requires number { number ≤ 131073 }
    requires sorted { AreSorted buckets.old.items }
    ensures kept { AreKept buckets.old.items buckets.new.items }
    ensures same { HaveSameRoom buckets.old.items buckets.new.items }
    ensures ok { OnOk result (number < vec_len buckets.new) }
{
    while buckets.len() <= number {
        let (owner, side) = told_by(buckets.len());
        buckets.push(AddressRows::new(alloc, owner, side))?;
    }
    Ok(())
}

/// Adds empty buckets until there is one for each of these edits.
fn add_for(
    alloc: Global,
    buckets: &mut Vec<AddressRows>,
    edits: &SortedRows<Edit<Row>>,
) -> Result<(), Memory>
    requires { AreSorted buckets.old.items }
    ensures kept { AreKept buckets.old.items buckets.new.items }
    ensures same { HaveSameRoom buckets.old.items buckets.new.items }
    ensures ok { OnOk result (HaveBuckets edits.now.rows (vec_len buckets.new)) }
{
    match edits.rows().last() {
        None => Ok(()),
        Some(last) => add_buckets(alloc, buckets, number_of(last.row.owner, last.row.side)),
    }
}

/// Lets addresses with no rows be forgotten in the buckets of these edits. It visits each of these
/// buckets once, since the edits of one bucket stand side by side.
fn clear_for(buckets: &mut Vec<AddressRows>, edits: &SortedRows<Edit<Row>>)
    requires sorted { AreSorted buckets.old.items }
    requires bucketed { HaveBuckets edits.now.rows (vec_len buckets.old) }
    ensures kept { AreKept buckets.old.items buckets.new.items }
    ensures cleared { AllByRecursion (IsClearedAt buckets.old.items buckets.new.items) edits.now.rows }
{
    let mut visited = buckets.len();
    for edit in edits.rows() {
        let number = number_of(edit.row.owner, edit.row.side);
        if number != visited {
            buckets[number].clear();
            visited = number;
        }
    }
}

/// Makes room at an address of a bucket for a row by each of its edits. Where the last owner, side
/// and address are these, there is such room already.
fn reserve_peer(
    alloc: Global,
    buckets: &mut Vec<AddressRows>,
    edits: &SortedRows<Edit<Row>>,
    last: Option<Peer>,
    edit: &Edit<Row>,
) -> Result<(), Memory>
    requires sorted { AreSorted buckets.old.items }
    requires bucketed { bucket_number edit.now.row.owner edit.now.row.side < vec_len buckets.old }
    requires done { (p : PeerValue) → last ≡ Some p → HasRoomFor p.owner p.side p.addr edits.now.rows buckets.old.items }
    ensures kept { AreRoomier buckets.old.items buckets.new.items }
    ensures most { TakeAtMost 1 buckets.old.items buckets.new.items }
    ensures ok { OnOk result (HasRoomFor edit.now.row.owner edit.now.row.side edit.now.row.addr edits.now.rows buckets.new.items) }
{
    if let Some(last) = last {
        if is_of(edit, last) {
            return Ok(());
        }
    }
    let peer = edit.row.key().peer();
    let more = edits.rows_under(&OfPeer(peer)).len();
    buckets[number_of(peer.owner, peer.side)].reserve(alloc, peer.addr, more)
}

/// Makes room for a row by each of these edits, in their buckets. Edits of one owner, side and
/// address stand side by side, so each address is asked for once.
fn reserve_for(
    alloc: Global,
    buckets: &mut Vec<AddressRows>,
    edits: &SortedRows<Edit<Row>>,
) -> Result<(), Memory>
    requires sorted { AreSorted buckets.old.items }
    requires bucketed { HaveBuckets edits.now.rows (vec_len buckets.old) }
    ensures kept { AreRoomier buckets.old.items buckets.new.items }
    ensures most { OnOk result (TakeAtMost (length edits.now.rows) buckets.old.items buckets.new.items) }
    ensures ok { OnOk result (HasRoom edits.now.rows (room_in buckets.new.items)) }
{
    let mut last = None;
    for edit in edits.rows() {
        reserve_peer(alloc, buckets, edits, last, edit)?;
        last = Some(edit.row.key().peer());
    }
    Ok(())
}

/// Makes room for a row by each of these edits, in buckets of their owners and sides.
pub(crate) fn make_room(
    alloc: Global,
    buckets: &mut Vec<AddressRows>,
    edits: &SortedRows<Edit<Row>>,
) -> Result<(), Memory>
    requires { AreSorted buckets.old.items }
    ensures kept { AreKept buckets.old.items buckets.new.items }
    ensures ok { OnOk result (HasRoom edits.now.rows (room_in buckets.new.items)) }
    ensures forgotten { OnOk result (AllByRecursion (AreForgotten edits.now.rows (seen buckets.old.items) (seen buckets.new.items)) edits.now.rows) }
{
    add_for(alloc, buckets, edits)?;
    clear_for(buckets, edits);
    reserve_for(alloc, buckets, edits)
}

/// The owner, side and address of the last of these edits, and the index from which on they are all
/// of these.
fn last_peer(edits: &[Edit<Row>]) -> (Peer, usize)
    requires some { 0 < length edits.now }
    requires ascend { SortKeysAscend (edit_sort_key row_sort_key) edits.now }
    ensures end { result.1 < length edits.now }
    ensures own { AllByRecursion (IsEditAt result.0.owner result.0.side result.0.addr) (drop result.1 edits.now) }
    ensures others { edits_of_peer result.0.owner result.0.side result.0.addr (take result.1 edits.now) ≡ [] }
{
    let mut start = edits.len() - 1;
    let peer = edits[start].row.key().peer();
    while 0 < start {
        if !is_of(&edits[start - 1], peer) {
            return (peer, start);
        }
        start -= 1;
    }
    (peer, start)
}

/// Makes the edits of the last one's owner, side and address, from the last to the first.
fn make_last<L: Ledger>(
    buckets: &mut Vec<AddressRows>,
    edits: &mut SortedRows<Edit<Row>>,
    steps: &mut Steps<L>,
)
    requires some { 0 < length edits.old.rows }
    requires sorted { AreSorted buckets.old.items }
    requires room { HasRoom edits.old.rows (room_in buckets.old.items) }
    requires found { AreFoundBeside (joined buckets.old.items) edits.old.rows }
    ensures made { AreLeft edits.old.rows edits.new.rows buckets.old.items buckets.new.items }
    ensures limits { limits_in buckets.new.items ≡ limits_in buckets.old.items }
    ensures counted { steps.new + length edits.new.rows ≡ steps.old + length edits.old.rows }
    ensures fewer { length edits.new.rows < length edits.old.rows }
{
    let (peer, start) = last_peer(edits.rows());
    let number = number_of(peer.owner, peer.side);
    buckets[number].make_edits_at(peer.addr, edits, start, steps);
}

/// Makes each of these edits, from the last to the first.
pub(crate) fn make_all<L: Ledger>(
    buckets: &mut Vec<AddressRows>,
    edits: SortedRows<Edit<Row>>,
    steps: &mut Steps<L>,
)
    requires sorted { AreSorted buckets.old.items }
    requires room { HasRoom edits.rows (room_in buckets.old.items) }
    requires found { AreFoundBeside (joined buckets.old.items) edits.rows }
    ensures rows { joined buckets.new.items ≡ edited row_sort_key edits.rows (joined buckets.old.items) }
    ensures sorted { AreSorted buckets.new.items }
    ensures limits { limits_in buckets.new.items ≡ limits_in buckets.old.items }
    ensures counted { steps.new ≡ steps.old + length edits.rows }
{
    let mut left = edits;
    while !left.is_empty() {
        make_last(buckets, &mut left, steps);
    }
}
