//! The headers of the upper layers: TCP, UDP and ICMP.
ghost use Rattle.std.specs.Prelude.{◌≡◌, ◌≤◌, length};
ghost use Rattle.mud_base.specs.Numbers as numbers;
ghost use Rattle.frame_view.specs.Upper as spec;

use crate::views::Part;
use mud_base::{Transport, big_16};
use std::marker::Model;

/// The protocol number of TCP.
const TCP: u8 = 6;
/// The protocol number of UDP.
const UDP: u8 = 17;

/// Where the port of the source stands in the headers of TCP and UDP (RFC 9293, 3.1; RFC 768).
const SOURCE_PORT_OFFSET: usize = 0;
/// Where the port of the destination stands in these headers.
const DESTINATION_PORT_OFFSET: usize = 2;
/// Where the data offset stands in the header of TCP, in the upper half of its octet.
const DATA_FIELD_OFFSET: usize = 12;
/// Where the octet of flags stands in the header of TCP.
const FLAGS_OFFSET: usize = 13;
/// How many octets the header of TCP has at least.
const TCP_LEN: usize = 20;
/// How many octets the header of UDP has.
const UDP_LEN: usize = 8;
/// Where the type stands in an ICMP message (RFC 792; RFC 4443, 2.1).
const ICMP_TYPE_OFFSET: usize = 0;
/// Where the code stands in an ICMP message.
const ICMP_CODE_OFFSET: usize = 1;
/// How many octets of an ICMP message stand in front of its body.
const ICMP_LEN: usize = 4;

/// The upper layer of an IP packet.
#[derive(Drop)]
pub struct UpperLayer<'a> {
    /// Its protocol number.
    pub protocol: u8,
    /// What its header says.
    pub transport: Transport,
    /// What it holds behind the header.
    pub payload: &'a [u8],
}

impl<'a> Model for UpperLayer<'a> {
    ghost use Rattle.frame_view.specs.Upper.{Upper};

    ghost Value = { Upper };

    ghost view = { λ u. record { protocol = u.protocol; transport = u.transport; payload = u.payload.now } };
}

/// The ports of source and destination, with which the headers of TCP and UDP begin.
fn ports(octets: &[u8]) -> (u16, u16)
    requires { 4 ≤ length octets.now }
    ensures { result ≡ (numbers.big_16 spec.offsets.source_port octets.now, numbers.big_16 spec.offsets.destination_port octets.now) }
{
    (
        big_16(octets, SOURCE_PORT_OFFSET),
        big_16(octets, DESTINATION_PORT_OFFSET),
    )
}

/// A TCP header (RFC 9293, 3.1) without its options.
#[tactic(auto, unfolding(crate::specs::Upper::tcp))]
#[inline(always)]
fn tcp(octets: &[u8]) -> Result<Transport, Part>
    ensures { result ≡ spec.tcp octets.now }
{
    if octets.len() < TCP_LEN || octets[DATA_FIELD_OFFSET] / 16 < 5 {
        return Err(Part::Transport);
    }
    let (source, destination) = ports(octets);
    Ok(Transport::Tcp {
        source,
        destination,
        flags: octets[FLAGS_OFFSET],
    })
}

/// A UDP header (RFC 768).
#[tactic(auto, unfolding(crate::specs::Upper::udp))]
#[inline(always)]
fn udp(octets: &[u8]) -> Result<Transport, Part>
    ensures { result ≡ spec.udp octets.now }
{
    if octets.len() < UDP_LEN {
        return Err(Part::Transport);
    }
    let (source, destination) = ports(octets);
    Ok(Transport::Udp {
        source,
        destination,
    })
}

/// What a datagram of UDP holds behind its header. Of another transport nothing is said.
#[tactic(auto, unfolding(crate::specs::Upper::payload_of))]
#[inline(always)]
pub(crate) fn payload_of(transport: Transport, octets: &[u8]) -> &[u8]
    ensures { result.now ≡ spec.payload_of transport octets.now }
{
    match transport {
        Transport::Udp { .. } => {
            let (_, payload) = octets.split_at(octets.len().min(UDP_LEN));
            payload
        }
        _ => &[],
    }
}

/// The type and code of an ICMP message (RFC 792; RFC 4443, 2.1).
#[tactic(auto, unfolding(crate::specs::Upper::icmp))]
fn icmp(octets: &[u8]) -> Result<Transport, Part>
    ensures { result ≡ spec.icmp octets.now }
{
    if octets.len() < ICMP_LEN {
        return Err(Part::Transport);
    }
    Ok(Transport::Icmp {
        kind: octets[ICMP_TYPE_OFFSET],
        code: octets[ICMP_CODE_OFFSET],
    })
}

/// The header of the upper layer by its protocol number, where ICMP has the number `icmp_number`.
#[tactic(auto, unfolding(crate::specs::Upper::transport_of))]
#[inline(always)]
pub(crate) fn transport_of(icmp_number: u8, protocol: u8, octets: &[u8]) -> Result<Transport, Part>
    ensures { result ≡ spec.transport_of icmp_number protocol octets.now }
{
    if protocol == TCP {
        return tcp(octets);
    }
    if protocol == UDP {
        return udp(octets);
    }
    if protocol == icmp_number {
        return icmp(octets);
    }
    Ok(Transport::Absent)
}
