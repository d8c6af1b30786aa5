//! IPv4 packets (RFC 791).
ghost use Rattle.std.specs.Prelude.{◌≡◌, ◌≤◌, length, IsTrue, OnOk};
ghost use Rattle.frame_view.specs.Ipv4 as spec;

use crate::traffic::{codepoint, congestion};
use crate::upper::{payload_of, transport_of};
use crate::views::{Contents, Part};
use mud_base::{Addr, Fields, Transport, big_16, big_32};

// The offsets of the fields of the header (RFC 791, 3.1).

/// Where the version stands, in the upper half of its octet, and the header's length, in the lower
/// half.
const VERSION_AND_LENGTH_OFFSET: usize = 0;
/// Where the type of service stands.
const TYPE_OF_SERVICE_OFFSET: usize = 1;
/// Where the total length stands.
const TOTAL_LENGTH_OFFSET: usize = 2;
/// Where the flags stand, in the upper three bits of two octets, and the fragment offset, in the
/// lower thirteen.
const FRAGMENT_FIELD_OFFSET: usize = 6;
/// Where the time to live stands.
const TIME_TO_LIVE_OFFSET: usize = 8;
/// Where the protocol stands.
const PROTOCOL_OFFSET: usize = 9;
/// Where the source address stands.
const SOURCE_OFFSET: usize = 12;
/// Where the destination address stands.
const DESTINATION_OFFSET: usize = 16;
/// How many octets the header has at least.
const LEAST_HEADER: usize = 20;

/// The protocol number of ICMP in IPv4.
const ICMP: u8 = 1;

/// How many octets the header has.
#[tactic(auto, unfolding(crate::specs::Ipv4::header_len))]
fn header_len(packet: &[u8]) -> usize
    requires { 20 ≤ length packet.now }
    ensures { result ≡ spec.header_len packet.now }
{
    (packet[VERSION_AND_LENGTH_OFFSET] % 16) as usize * 4
}

/// The octets that count: up to the end that the total length names, or the frame's end.
#[tactic(auto, unfolding(crate::specs::Ipv4::counted))]
fn counted(packet: &[u8]) -> &[u8]
    requires { 20 ≤ length packet.now }
    ensures { result.now ≡ spec.counted packet.now }
{
    let total = big_16(packet, TOTAL_LENGTH_OFFSET) as usize;
    let (counted, _) = packet.split_at(total.min(packet.len()));
    counted
}

/// Whether the header is whole.
#[tactic(auto, using(crate::proofs::Ipv4Headers::header_cut), unfolding(crate::specs::Ipv4::has_header))]
fn has_header(packet: &[u8]) -> bool
    ensures value { result ≡ spec.has_header packet.now }
    ensures long { IsTrue result → 20 ≤ length packet.now }
{
    if packet.len() < LEAST_HEADER {
        return false;
    }
    let header = header_len(packet);
    packet[VERSION_AND_LENGTH_OFFSET] / 16 == 4
        && header >= LEAST_HEADER
        && header <= counted(packet).len()
}

/// Whether this is a fragment other than the first.
#[tactic(auto, unfolding(crate::specs::Ipv4::is_later_fragment))]
fn is_later_fragment(packet: &[u8]) -> bool
    requires { 20 ≤ length packet.now }
    ensures { result ≡ spec.is_later_fragment packet.now }
{
    big_16(packet, FRAGMENT_FIELD_OFFSET) % 8192 != 0
}

/// What counts behind the header.
#[tactic(auto, using(crate::proofs::Ipv4Headers::header_within, crate::proofs::Ipv4Headers::packet_long))]
#[inline(always)]
fn upper_octets(packet: &[u8]) -> &[u8]
    requires { IsTrue (spec.has_header packet.now) }
    ensures { result.now ≡ spec.upper_octets packet.now }
{
    let (_, upper) = counted(packet).split_at(header_len(packet));
    upper
}

/// What the header of the upper layer says.
#[tactic(auto, using(crate::proofs::Ipv4Headers::packet_long), unfolding(crate::specs::Ipv4::transport_in))]
#[inline(always)]
fn transport_in(packet: &[u8]) -> Result<Transport, Part>
    requires { IsTrue (spec.has_header packet.now) }
    ensures { result ≡ spec.transport_in packet.now }
{
    if is_later_fragment(packet) {
        return Ok(Transport::Absent);
    }
    transport_of(ICMP, packet[PROTOCOL_OFFSET], upper_octets(packet))
}

/// What the headers say.
#[tactic(auto, unfolding(crate::specs::Ipv4::fields_of))]
#[inline(always)]
fn fields_of(packet: &[u8]) -> Result<Fields, Part>
    ensures value { result ≡ spec.fields_of packet.now }
    ensures whole { OnOk result (IsTrue (spec.has_header packet.now)) }
{
    if !has_header(packet) {
        return Err(Part::Ip);
    }
    let transport = transport_in(packet)?;
    Ok(Fields {
        src: Addr::V4(big_32(packet, SOURCE_OFFSET)),
        dst: Addr::V4(big_32(packet, DESTINATION_OFFSET)),
        protocol: packet[PROTOCOL_OFFSET],
        dscp: codepoint(packet[TYPE_OF_SERVICE_OFFSET]),
        ecn: congestion(packet[TYPE_OF_SERVICE_OFFSET]),
        length: big_16(packet, TOTAL_LENGTH_OFFSET),
        ttl: packet[TIME_TO_LIVE_OFFSET],
        transport,
    })
}

/// Whether a packet with these fields is DHCP on the link itself (RFC 2131, 4.1).
#[tactic(auto, unfolding(crate::specs::Ipv4::is_upkeep))]
#[inline(always)]
fn is_upkeep(fields: &Fields) -> bool
    ensures { result ≡ spec.is_upkeep fields.now }
{
    match fields.transport {
        Transport::Udp {
            source: 67,
            destination: 68,
        } => true,
        Transport::Udp {
            source: 68,
            destination: 67,
        } => fields.src == Addr::V4(0) || fields.dst == Addr::V4(u32::MAX),
        _ => false,
    }
}

/// The contents of a packet, or None where it keeps the link up.
#[tactic(auto, unfolding(crate::specs::Ipv4::packet_of))]
#[inline(always)]
pub(crate) fn packet_of(packet: &[u8]) -> Result<Option<Contents<'_>>, Part>
    ensures { result ≡ spec.packet_of packet.now }
{
    let fields = fields_of(packet)?;
    if is_upkeep(&fields) {
        return Ok(None);
    }
    Ok(Some(Contents {
        fields,
        payload: payload_of(fields.transport, upper_octets(packet)),
    }))
}
