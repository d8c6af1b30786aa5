//! Whether an entry matches a packet, but for its member selectors.
ghost use Rattle.std.specs.Prelude.{◌≡◌, Some};
ghost use Rattle.acl_model.specs.Match as spec;

use crate::entry::{Entry, Layer, Selector};
use mud_base::{Addr, Direction, Family, Fields, Prefix, Transport};

/// The address at the other side of the packet, as a Thing on this side sees it.
#[tactic(auto, unfolding(crate::specs::Match::peer_of))]
pub fn peer_of(side: Direction, fields: &Fields) -> Addr
    ensures { result ≡ spec.peer_of side fields.now }
{
    match side {
        Direction::From => fields.dst,
        Direction::To => fields.src,
    }
}

/// The address of a Thing on this side of the packet.
#[tactic(auto, unfolding(crate::specs::Match::own_of))]
fn own_of(side: Direction, fields: &Fields) -> Addr
    ensures { result ≡ spec.own_of side fields.now }
{
    match side {
        Direction::From => fields.src,
        Direction::To => fields.dst,
    }
}

/// Whether an address is of the family.
#[tactic(auto, unfolding(crate::specs::Match::is_in_family))]
pub fn is_in_family(family: Family, addr: Addr) -> bool
    ensures { result ≡ spec.is_in_family family addr }
{
    match (family, addr) {
        (Family::Both, _) => true,
        (Family::V4, Addr::V4(_)) => true,
        (Family::V6, Addr::V6(_)) => true,
        _ => false,
    }
}

/// Whether both addresses of the packet are of the family.
#[tactic(auto, unfolding(crate::specs::Match::family_matches))]
fn family_matches(family: Family, fields: &Fields) -> bool
    ensures { result ≡ spec.family_matches family fields.now }
{
    is_in_family(family, fields.src) && is_in_family(family, fields.dst)
}

/// Whether the prefix, where there is one, holds the address.
#[tactic(auto, unfolding(crate::specs::Match::prefix_passes))]
pub fn prefix_passes(prefix: &Option<Prefix>, addr: Addr) -> bool
    ensures { result ≡ spec.prefix_passes prefix.now addr }
{
    match prefix {
        None => true,
        Some(prefix) => prefix.holds(addr),
    }
}

/// Whether a number is the one that is named, where one is.
#[tactic(auto, unfolding(crate::specs::Match::number_passes))]
fn number_passes(named: Option<u8>, number: u8) -> bool
    ensures { result ≡ spec.number_passes named number }
{
    match named {
        None => true,
        Some(named) => number == named,
    }
}

/// Whether a length, in octets, is the one that is named, where one is.
#[tactic(auto, unfolding(crate::specs::Match::number_passes))]
fn length_passes(named: Option<u16>, length: u16) -> bool
    ensures { result ≡ spec.number_passes named length }
{
    match named {
        None => true,
        Some(named) => length == named,
    }
}

/// Whether each number of the IP header that the entry names is the packet's.
#[tactic(auto, unfolding(crate::specs::Match::header_matches))]
fn header_matches(entry: &Entry, fields: &Fields) -> bool
    ensures { result ≡ spec.header_matches entry.now fields.now }
{
    number_passes(entry.protocol, fields.protocol)
        && number_passes(entry.dscp, fields.dscp)
        && number_passes(entry.ecn, fields.ecn)
        && length_passes(entry.length, fields.length)
        && number_passes(entry.ttl, fields.ttl)
}

/// Whether both are the same side.
#[tactic(auto, unfolding(crate::specs::Match::begun_passes))]
fn same_direction(own: Direction, other: Direction) -> bool
    ensures { result ≡ spec.begun_passes (Some own) (Some other) }
{
    own == other
}

/// Whether the side that began the connection is the one that is named, where one is.
#[tactic(auto, unfolding(crate::specs::Match::begun_passes))]
fn begun_passes(named: Option<Direction>, begun: Option<Direction>) -> bool
    ensures { result ≡ spec.begun_passes named begun }
{
    match (named, begun) {
        (None, _) => true,
        (Some(_), None) => false,
        (Some(named), Some(begun)) => same_direction(named, begun),
    }
}

/// Whether the transport header passes the tests of the layer, where this side began the
/// connection, if one did.
#[tactic(auto, unfolding(crate::specs::Match::layer_matches))]
fn layer_matches(layer: Layer, transport: Transport, begun: Option<Direction>) -> bool
    ensures { result ≡ spec.layer_matches layer transport begun }
{
    match (layer, transport) {
        (Layer::Any, _) => true,
        (
            Layer::Tcp {
                source,
                destination,
                begun: named,
                flags: named_flags,
            },
            Transport::Tcp {
                source: from,
                destination: to,
                flags,
            },
        ) => source.passes(from)
            && destination.passes(to)
            && begun_passes(named, begun)
            && number_passes(named_flags, flags),
        (
            Layer::Udp {
                source,
                destination,
            },
            Transport::Udp {
                source: from,
                destination: to,
            },
        ) => source.passes(from) && destination.passes(to),
        (
            Layer::Icmp { kind, code },
            Transport::Icmp {
                kind: packet_kind,
                code: packet_code,
            },
        ) => number_passes(kind, packet_kind) && number_passes(code, packet_code),
        _ => false,
    }
}

/// Whether the entry matches a packet with a Thing on this side, but for its selectors: by its
/// family, own prefix, the numbers of the IP header, the transport header, and the side that began
/// the connection. It takes no memory.
#[tactic(auto, unfolding(crate::specs::Match::rest_matches))]
pub fn rest_matches(
    entry: &Entry,
    fields: &Fields,
    side: Direction,
    begun: Option<Direction>,
) -> bool
    ensures { result ≡ spec.rest_matches entry.now fields.now side begun }
{
    family_matches(entry.family, fields)
        && prefix_passes(&entry.own, own_of(side, fields))
        && header_matches(entry, fields)
        && layer_matches(entry.layer, fields.transport, begun)
}

/// Whether one of the prefixes holds the address.
#[tactic(auto, unfolding(crate::specs::Match::is_local))]
fn is_local(locals: &[Prefix], addr: Addr) -> bool
    ensures { result ≡ spec.is_local locals.now addr }
{
    locals.iter().any(|prefix| prefix.holds(addr))
}

/// Whether the address meets the selector, where it is a near one. A member selector isn't asked
/// here.
#[tactic(auto, unfolding(crate::specs::Match::near_met))]
fn near_met(selector: &Selector, peer: Addr, locals: &[Prefix]) -> bool
    ensures { result ≡ spec.near_met locals.now peer selector.now }
{
    match selector {
        Selector::LocalNetworks => is_local(locals, peer),
        Selector::Network(prefix) => prefix.holds(peer),
        _ => true,
    }
}

/// Whether the peer's address meets each near selector of the entry, where these are the local
/// networks. It takes no memory.
#[tactic(auto, unfolding(crate::specs::Match::near_matches))]
pub fn near_matches(entry: &Entry, peer: Addr, locals: &[Prefix]) -> bool
    ensures { result ≡ spec.near_matches entry.now peer locals.now }
{
    entry
        .selectors
        .as_slice()
        .iter()
        .all(|selector| near_met(selector, peer, locals))
}
