//! IPv6 packets (RFC 8200).
ghost use Rattle.std.specs.Prelude.{◌≡◌, ◌≤◌, length, IsTrue, OnOk, false};
ghost use Rattle.frame_view.specs.Ipv6 as spec;

use crate::traffic::{codepoint, congestion};
use crate::upper::{UpperLayer, payload_of, transport_of};
use crate::views::{Contents, Part};
use mud_base::{Addr, Fields, Transport, big_16, big_128};

// The offsets of the fields of the header (RFC 8200, 3). It begins with four bits of version, eight
// of traffic class and twenty of flow label.

/// Where the version stands, in the upper half of its octet, and the upper half of the traffic
/// class, in the lower half.
const VERSION_OFFSET: usize = 0;
/// Where the lower half of the traffic class stands, in the upper half of its octet.
const TRAFFIC_CLASS_OFFSET: usize = 1;
/// Where the payload length stands.
const PAYLOAD_LENGTH_OFFSET: usize = 4;
/// Where the number of the next header stands.
const NEXT_HEADER_OFFSET: usize = 6;
/// Where the hop limit stands.
const HOP_LIMIT_OFFSET: usize = 7;
/// Where the source address stands.
const SOURCE_OFFSET: usize = 8;
/// Where the destination address stands.
const DESTINATION_OFFSET: usize = 24;
/// How many octets the header has.
const HEADER: usize = 40;

// The offsets of the fields of an extension header (RFC 8200, 4.3 to 4.6).

/// Where the number of the next header stands.
const EXTENSION_NEXT_OFFSET: usize = 0;
/// Where the length stands, in units of eight octets without the first (not in a fragment header).
const EXTENSION_LENGTH_OFFSET: usize = 1;
/// Where the offset stands in a fragment header, in the upper thirteen bits of two octets.
const FRAGMENT_FIELD_OFFSET: usize = 2;
/// How many octets an extension header has at least, and a fragment header always.
const LEAST_EXTENSION: usize = 8;

/// The number of ICMP in IPv6.
const ICMP: u8 = 58;
/// The number of the fragment header.
const FRAGMENT: u8 = 44;
/// The most extension headers that are walked.
const MOST_EXTENSIONS: u8 = 8;

/// Whether the header is whole.
#[tactic(auto, unfolding(crate::specs::Ipv6::has_header))]
fn has_header(packet: &[u8]) -> bool
    ensures value { result ≡ spec.has_header packet.now }
    ensures long { IsTrue result → 40 ≤ length packet.now }
{
    packet.len() >= HEADER && packet[VERSION_OFFSET] / 16 == 6
}

/// The octets that count behind the header: as many as the payload length names, or up to the
/// frame's end.
#[tactic(auto, unfolding(crate::specs::Ipv6::payload))]
fn payload(packet: &[u8]) -> &[u8]
    requires { 40 ≤ length packet.now }
    ensures { result.now ≡ spec.payload packet.now }
{
    let (_, behind) = packet.split_at(HEADER);
    let named = big_16(packet, PAYLOAD_LENGTH_OFFSET) as usize;
    let (counted, _) = behind.split_at(named.min(behind.len()));
    counted
}

/// Whether a header with this number is an extension header.
#[tactic(auto, unfolding(crate::specs::Ipv6::is_extension))]
fn is_extension(number: u8) -> bool
    ensures { result ≡ spec.is_extension number }
{
    number == 0 || number == 43 || number == FRAGMENT || number == 60
}

/// How many octets an extension header has.
#[tactic(auto, unfolding(crate::specs::Ipv6::extension_len))]
fn extension_len(number: u8, octets: &[u8]) -> usize
    requires { 2 ≤ length octets.now }
    ensures { result ≡ spec.extension_len number octets.now }
{
    if number == FRAGMENT {
        return LEAST_EXTENSION;
    }
    (octets[EXTENSION_LENGTH_OFFSET] as usize + 1) * 8
}

/// Whether an extension header ends behind what counts.
#[tactic(auto, using(crate::proofs::Ipv6Headers::extension_long), unfolding(crate::specs::Ipv6::is_cut))]
fn is_cut(number: u8, octets: &[u8]) -> bool
    ensures value { result ≡ spec.is_cut number octets.now }
    ensures long { result ≡ false → 8 ≤ length octets.now }
{
    if octets.len() < LEAST_EXTENSION {
        return true;
    }
    octets.len() < extension_len(number, octets)
}

/// Whether this is the header of a fragment other than the first.
#[tactic(auto, unfolding(crate::specs::Ipv6::is_later_fragment))]
fn is_later_fragment(number: u8, octets: &[u8]) -> bool
    requires { 8 ≤ length octets.now }
    ensures { result ≡ spec.is_later_fragment number octets.now }
{
    number == FRAGMENT && big_16(octets, FRAGMENT_FIELD_OFFSET) / 8 != 0
}

/// The upper layer, where its number is this.
#[tactic(auto, unfolding(crate::specs::Ipv6::upper_layer))]
fn upper_layer(number: u8, octets: &[u8]) -> Result<UpperLayer<'_>, Part>
    ensures { result ≡ spec.upper_layer number octets.now }
{
    let transport = transport_of(ICMP, number, octets)?;
    Ok(UpperLayer {
        protocol: number,
        transport,
        payload: payload_of(transport, octets),
    })
}

/// The upper layer behind the extension headers, where a header with this number stands first.
#[tactic(auto, using(crate::proofs::Ipv6Headers::behind_end, crate::proofs::Ipv6Headers::behind_ninth, crate::proofs::Ipv6Headers::behind_cut, crate::proofs::Ipv6Headers::behind_later, crate::proofs::Ipv6Headers::behind_more, crate::proofs::Ipv6Headers::extension_within))]
fn upper_behind(first: u8, octets: &[u8]) -> Result<UpperLayer<'_>, Part>
    ensures { result ≡ spec.upper_behind 8 first octets.now }
{
    let mut number = first;
    let mut rest = octets;
    let mut left = MOST_EXTENSIONS;
    'extensions: while is_extension(number) {
        if left == 0 {
            return Err(Part::Extension);
        }
        if is_cut(number, rest) {
            return Err(Part::Extension);
        }
        let next = rest[EXTENSION_NEXT_OFFSET];
        if is_later_fragment(number, rest) {
            return Ok(UpperLayer {
                protocol: next,
                transport: Transport::Absent,
                payload: &[],
            });
        }
        let (_, more) = rest.split_at(extension_len(number, rest));
        number = next;
        rest = more;
        left -= 1;
    }
    upper_layer(number, rest)
}

/// The upper layer of a packet.
#[tactic(auto, unfolding(crate::specs::Ipv6::upper_in))]
fn upper_in(packet: &[u8]) -> Result<UpperLayer<'_>, Part>
    requires { 40 ≤ length packet.now }
    ensures { result ≡ spec.upper_in packet.now }
{
    upper_behind(packet[NEXT_HEADER_OFFSET], payload(packet))
}

/// The traffic class, which stands between the version and the flow label.
#[tactic(auto, unfolding(crate::specs::Ipv6::traffic_class))]
fn traffic_class(packet: &[u8]) -> u8
    requires { 2 ≤ length packet.now }
    ensures { result ≡ spec.traffic_class packet.now }
{
    packet[VERSION_OFFSET] % 16 * 16 + packet[TRAFFIC_CLASS_OFFSET] / 16
}

/// What the headers say, and what follows them.
#[tactic(auto, unfolding(crate::specs::Ipv6::contents_of))]
fn contents_of(packet: &[u8]) -> Result<Contents<'_>, Part>
    ensures value { result ≡ spec.contents_of packet.now }
    ensures long { OnOk result (40 ≤ length packet.now) }
{
    if !has_header(packet) {
        return Err(Part::Ip);
    }
    let upper = upper_in(packet)?;
    let traffic = traffic_class(packet);
    let fields = Fields {
        src: Addr::V6(big_128(packet, SOURCE_OFFSET)),
        dst: Addr::V6(big_128(packet, DESTINATION_OFFSET)),
        protocol: upper.protocol,
        dscp: codepoint(traffic),
        ecn: congestion(traffic),
        length: big_16(packet, PAYLOAD_LENGTH_OFFSET),
        ttl: packet[HOP_LIMIT_OFFSET],
        transport: upper.transport,
    };
    Ok(Contents {
        fields,
        payload: upper.payload,
    })
}

/// Whether a packet is a message of neighbour discovery (RFC 4861).
#[tactic(auto, unfolding(crate::specs::Ipv6::is_upkeep))]
fn is_upkeep(hop_limit: u8, transport: Transport) -> bool
    ensures { result ≡ spec.is_upkeep hop_limit transport }
{
    match transport {
        Transport::Icmp {
            kind: 133..=137,
            ..
        } => hop_limit == 255,
        _ => false,
    }
}

/// The contents of a packet, or None where it keeps the link up.
#[tactic(auto, unfolding(crate::specs::Ipv6::packet_of))]
pub(crate) fn packet_of(packet: &[u8]) -> Result<Option<Contents<'_>>, Part>
    ensures { result ≡ spec.packet_of packet.now }
{
    let contents = contents_of(packet)?;
    if is_upkeep(packet[HOP_LIMIT_OFFSET], contents.fields.transport) {
        return Ok(None);
    }
    Ok(Some(contents))
}
