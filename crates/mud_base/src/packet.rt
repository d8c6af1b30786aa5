//! What the headers of a packet say.
ghost use Rattle.std.specs.Prelude.{◌≡◌};
ghost use Rattle.std.specs.Ordering.{nat_cmp};
ghost use Rattle.mud_base.specs.Directions.{side_number};

use crate::addr::Addr;
use std::cmp::Ordering;

/// Which side of a packet a Thing is on.
#[derive(Clone, Copy, Debug, PartialEq, Eq)]
pub enum Direction {
    /// The Thing sends: its policy is the one from the device (RFC 8520, 2.1).
    From,
    /// The Thing receives: its policy is the one to the device.
    To,
}

/// The order of two sides: what a Thing sends comes before what is sent to it.
#[tactic(auto, unfolding(crate::specs::Directions::side_number))]
pub fn side_order(own: Direction, other: Direction) -> Ordering
    ensures { result ≡ nat_cmp (side_number own) (side_number other) }
{
    match (own, other) {
        (Direction::From, Direction::To) => Ordering::Less,
        (Direction::To, Direction::From) => Ordering::Greater,
        (Direction::From, Direction::From) => Ordering::Equal,
        (Direction::To, Direction::To) => Ordering::Equal,
    }
}

/// The transport header of a packet.
#[derive(Clone, Copy)]
pub enum Transport {
    /// TCP (RFC 9293) with its ports and its octet of flags.
    Tcp {
        source: u16,
        destination: u16,
        flags: u8,
    },
    /// UDP (RFC 768) with its ports.
    Udp {
        source: u16,
        destination: u16,
    },
    /// ICMP (RFC 792, RFC 4443) with its type and code.
    Icmp {
        kind: u8,
        code: u8,
    },
    /// Another protocol, or a fragment that isn't the first.
    Absent,
}

/// The fields of an IP packet that an access list can test.
#[derive(Clone, Copy)]
pub struct Fields {
    pub src: Addr,
    pub dst: Addr,
    /// The IP protocol number, in IPv6 that of the upper layer.
    pub protocol: u8,
    /// The codepoint of differentiated services (RFC 2474, 3), from 0 to 63.
    pub dscp: u8,
    /// The field of explicit congestion notification (RFC 3168, 5), from 0 to 3.
    pub ecn: u8,
    /// In IPv4 the total length in octets, the header's own included (RFC 791, 3.1); in IPv6 the
    /// length of the payload behind the header (RFC 8200, 3).
    pub length: u16,
    /// The time to live of IPv4, the hop limit of IPv6.
    pub ttl: u8,
    pub transport: Transport,
}
