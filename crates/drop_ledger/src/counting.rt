//! A ruling is counted, and what it denied.
ghost use Rattle.std.specs.Prelude.{◌≡◌, ℕ, ◌+◌, ◌^◌, ◌<◌, ◌≤◌, List, [], ◌∷◌, ◌++◌, IfSome, option_to_list};
ghost use Rattle.drop_ledger.specs.Ledger as spec;
ghost use Rattle.drop_ledger.specs.Ledger.{AreDenied, counts_of, times_ruled};
ghost use Rattle.drop_ledger.specs.declared.seen.Ruled.{Ruled as RuledValue};

use crate::rows::{CountRow, DeniedRow, OtherRow};
use crate::seen::Ruled;
use crate::{count_first, count_one};
use acl_model::{Ruling, Why, peer_of};
use base_rows::SortedRows;
use mud_base::{Direction, Fields, Transport};

/// So many peers, protocols and ports of a Thing and side have rows of their own.
const MOST_PEERS: usize = 256;

/// The row in which a ruling is counted.
#[tactic(auto, unfolding(crate::specs::Ledger::count_row))]
fn count_row(ruled: &Ruled) -> CountRow
    ensures { result ≡ spec.count_row ruled.now }
{
    CountRow {
        mac: ruled.mac,
        side: ruled.side,
        ruling: ruled.ruling,
        count: 0,
    }
}

/// The TCP or UDP port at the other side of a packet.
#[tactic(auto, unfolding(crate::specs::Ledger::port_of))]
fn port_of(side: Direction, transport: &Transport) -> Option<u16>
    ensures { result ≡ spec.port_of side transport.now }
{
    match (*transport, side) {
        (Transport::Tcp { destination, .. }, Direction::From) => Some(destination),
        (Transport::Tcp { source, .. }, Direction::To) => Some(source),
        (Transport::Udp { destination, .. }, Direction::From) => Some(destination),
        (Transport::Udp { source, .. }, Direction::To) => Some(source),
        (Transport::Icmp { .. }, _) => None,
        (Transport::Absent, _) => None,
    }
}

/// The row of a packet with these fields that was denied.
#[tactic(auto, unfolding(crate::specs::Ledger::peer_row))]
fn peer_row(ruled: &Ruled, fields: &Fields) -> DeniedRow
    ensures { result ≡ spec.peer_row ruled.now.mac ruled.now.side fields.now }
{
    DeniedRow {
        mac: ruled.mac,
        side: ruled.side,
        peer: peer_of(ruled.side, fields),
        protocol: fields.protocol,
        port: port_of(ruled.side, &fields.transport),
        count: 0,
    }
}

/// The row of a ruling that dropped the packet since no entry matches; None for every other ruling.
#[tactic(auto, unfolding(crate::specs::Ledger::denied_row))]
fn denied_row(ruled: &Ruled) -> Option<DeniedRow>
    ensures { result ≡ spec.denied_row ruled.now }
{
    match (ruled.ruling, ruled.fields) {
        (Ruling::DropDefault(Why::NoMatch), Some(fields)) => Some(peer_row(ruled, &fields)),
        (Ruling::DropDefault(Why::NoMatch), None) => None,
        (Ruling::DropDefault(Why::NoFile), _) => None,
        (Ruling::Accept(_), _) => None,
        (Ruling::AcceptDefault(_), _) => None,
        (Ruling::Drop(_), _) => None,
        (Ruling::DropHeld, _) => None,
    }
}

/// The row of the others of a Thing and side.
#[tactic(auto)]
fn other_row(row: &DeniedRow) -> OtherRow
    ensures { result ≡ record { mac = row.now.mac; side = row.now.side; count = 0 } }
{
    OtherRow {
        mac: row.mac,
        side: row.side,
        count: 0,
    }
}

/// Counts a ruling. It takes no memory.
fn count_ruling(counts: &mut SortedRows<CountRow>, ruled: &Ruled)
    requires { 1 ≤ counts.old.room }
    ensures counted { (done : List RuledValue) → counts.old.rows ≡ counts_of done → times_ruled ruled.now.mac ruled.now.side done + 1 < 2 ^ 64
        → counts.new.rows ≡ counts_of (done ++ ruled.now ∷ []) }
    ensures room { counts.old.room ≤ counts.new.room + 1 }
{
    count_one(counts, count_row(ruled));
}

/// Counts what a ruling denied, where it did. It takes no memory.
fn count_denied(
    denied: &mut SortedRows<DeniedRow>,
    others: &mut SortedRows<OtherRow>,
    ruled: &Ruled,
)
    requires room { 1 ≤ denied.old.room }
    requires room_beside { 1 ≤ others.old.room }
    ensures counted { (done : List RuledValue) → AreDenied done denied.old.rows others.old.rows → times_ruled ruled.now.mac ruled.now.side done + 1 < 2 ^ 64
        → AreDenied (done ++ ruled.now ∷ []) denied.new.rows others.new.rows }
    ensures room { denied.old.room ≤ denied.new.room + 1 }
    ensures room_beside { others.old.room ≤ others.new.room + 1 }
{
    if let Some(row) = denied_row(ruled) {
        let other = other_row(&row);
        count_first(denied, others, MOST_PEERS, row, other);
    }
}

/// Counts the ruling at an endpoint of a packet, where one was given. It takes no memory.
pub(crate) fn count_endpoint(
    counts: &mut SortedRows<CountRow>,
    denied: &mut SortedRows<DeniedRow>,
    others: &mut SortedRows<OtherRow>,
    end: Option<Ruled>,
)
    requires counts { 1 ≤ counts.old.room }
    requires denied { 1 ≤ denied.old.room }
    requires others { 1 ≤ others.old.room }
    ensures counted { (done : List RuledValue) → counts.old.rows ≡ counts_of done → IfSome end (λ ruled. times_ruled ruled.mac ruled.side done + 1 < 2 ^ 64)
        → counts.new.rows ≡ counts_of (done ++ option_to_list end) }
    ensures noted { (done : List RuledValue) → AreDenied done denied.old.rows others.old.rows → IfSome end (λ ruled. times_ruled ruled.mac ruled.side done + 1 < 2 ^ 64)
        → AreDenied (done ++ option_to_list end) denied.new.rows others.new.rows }
    ensures counts_room { counts.old.room ≤ counts.new.room + 1 }
    ensures denied_room { denied.old.room ≤ denied.new.room + 1 }
    ensures others_room { others.old.room ≤ others.new.room + 1 }
{
    if let Some(ruled) = end {
        count_ruling(counts, &ruled);
        count_denied(denied, others, &ruled);
    }
}
