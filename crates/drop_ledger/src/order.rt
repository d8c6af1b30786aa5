//! How the parts of sort keys stand to one another.
ghost use Rattle.std.specs.Prelude.{◌≡◌};
ghost use Rattle.base_rows.specs.Sortable.{sort_key_cmp};
ghost use Rattle.drop_ledger.specs.SortKeys as spec;

use acl_model::{DefaultRule, Ruling, Why};
use mud_base::{Addr, Direction, Mac, addr_order, side_order};
use std::cmp::Ordering;

/// A Thing, and the side of packets that it is on.
#[derive(Clone, Copy)]
pub struct ThingSide {
    pub mac: Mac,
    pub side: Direction,
}

/// The other endpoint of packets, and how they come there.
#[derive(Clone, Copy)]
pub struct Peer {
    /// The address at the other side.
    pub addr: Addr,
    /// The IP protocol number.
    pub protocol: u8,
    /// The port at the other side, where there are ports.
    pub port: Option<u16>,
}

/// How two hardware addresses stand to one another: the first octet that differs decides.
fn mac_order(own: &Mac, other: &Mac) -> Ordering
    ensures { result ≡ sort_key_cmp (spec.six own.now.0) (spec.six other.now.0) }
{
    let mut n = 0;
    while n < own.0.len() {
        if own.0[n] != other.0[n] {
            return own.0[n].cmp(&other.0[n]);
        }
        n += 1;
    }
    Ordering::Equal
}

/// By the hardware address, and then the side.
#[tactic(auto, using(crate::proofs::SortKeyOrder::sort_key_rules))]
pub(crate) fn thing_order(own: &ThingSide, other: &ThingSide) -> Ordering
    ensures { result ≡ sort_key_cmp (spec.thing_sort_key own.now.mac own.now.side) (spec.thing_sort_key other.now.mac other.now.side) }
{
    mac_order(&own.mac, &other.mac).then(side_order(own.side, other.side))
}

/// The class of a ruling, in the order in which rulings are written.
#[tactic(auto, unfolding(crate::specs::SortKeys::ruling_class))]
fn ruling_class(ruling: Ruling) -> u8
    ensures { result ≡ spec.ruling_class ruling }
{
    match ruling {
        Ruling::Accept(_) => 0,
        Ruling::Drop(_) => 1,
        Ruling::AcceptDefault(DefaultRule::Dns) => 2,
        Ruling::AcceptDefault(DefaultRule::Ntp) => 3,
        Ruling::DropDefault(Why::NoFile) => 4,
        Ruling::DropDefault(Why::NoMatch) => 5,
        Ruling::DropHeld => 6,
    }
}

/// The number of the entry that rules, or 0 where no entry of a file does.
#[tactic(auto, unfolding(crate::specs::SortKeys::entry_number))]
fn entry_number(ruling: Ruling) -> u16
    ensures { result ≡ spec.entry_number ruling }
{
    match ruling {
        Ruling::Accept(entry) => entry,
        Ruling::Drop(entry) => entry,
        Ruling::AcceptDefault(_) => 0,
        Ruling::DropDefault(_) => 0,
        Ruling::DropHeld => 0,
    }
}

/// By the class, and then the number of the entry.
#[tactic(auto, using(crate::proofs::SortKeyOrder::sort_key_rules))]
pub(crate) fn ruling_order(own: Ruling, other: Ruling) -> Ordering
    ensures { result ≡ sort_key_cmp (spec.ruling_sort_key own) (spec.ruling_sort_key other) }
{
    ruling_class(own)
        .cmp(&ruling_class(other))
        .then(entry_number(own).cmp(&entry_number(other)))
}

/// A port's number among ports: a missing one comes first.
#[tactic(auto, unfolding(crate::specs::SortKeys::port_number))]
fn port_number(port: Option<u16>) -> u32
    ensures { result ≡ spec.port_number port }
{
    match port {
        None => 0,
        Some(port) => u32::from(port) + 1,
    }
}

/// By the address, then the protocol, then the port.
#[tactic(auto, using(crate::proofs::SortKeyOrder::sort_key_rules))]
pub(crate) fn peer_order(own: &Peer, other: &Peer) -> Ordering
    ensures { result ≡ sort_key_cmp (spec.peer_sort_key own.now.addr own.now.protocol own.now.port) (spec.peer_sort_key other.now.addr other.now.protocol other.now.port) }
{
    addr_order(own.addr, other.addr)
        .then(own.protocol.cmp(&other.protocol))
        .then(port_number(own.port).cmp(&port_number(other.port)))
}
