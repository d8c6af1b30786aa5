//! The packets of a drill, as Ethernet frames with IPv4.
ghost use Rattle.std.specs.Prelude.{◌≡◌, ◌++◌, ◌<◌, ◌≤◌, OnOk, ◌+◌, ◌%◌};
ghost use Rattle.mud_base.specs.Texts.{octets_v4};
ghost use Rattle.run_drills.specs.Packets as spec;
ghost use Rattle.run_drills.specs.Network.{thing_count};

use crate::commands::DNS_ADDRESS;
use crate::network::{host_address, lease_of, mac_of, thing_count};
use mud_base::{Bytes, Memory, Moment};

/// The hardware address of the far side, which is no Thing's.
const FAR_MAC: &[u8] = b"\x02\x00\x00\x00\x00\xfe";

/// The type of IPv4, and its header up to the addresses, for TCP with 40 octets in all.
const TCP_HEAD: &[u8] = b"\x08\x00\x45\x00\x00\x28\x00\x01\x00\x00\x40\x06\x00\x00";

/// The same for UDP with 28 octets in all.
const UDP_HEAD: &[u8] = b"\x08\x00\x45\x00\x00\x1c\x00\x02\x00\x00\x40\x11\x00\x00";

/// TCP behind the ports, up to the flags.
const BEFORE_FLAGS: &[u8] = b"\x00\x00\x00\x01\x00\x00\x00\x00\x50";

/// TCP behind the flags.
const BEHIND_FLAGS: &[u8] = b"\xff\xff\x00\x00\x00\x00";

/// UDP behind the ports: eight octets in all.
const UDP_TAIL: &[u8] = b"\x00\x08\x00\x00";

/// The TCP flag that begins a connection.
const SYN: u8 = 0x02;

/// The TCP flags of the first answer.
const SYN_ACK: u8 = 0x12;

const HTTPS: u16 = 443;

const HTTP: u16 = 80;

const DNS: u16 = 53;

/// The port from which a Thing calls.
const CALLING: u16 = 50_000;

/// The port from which a Thing asks a DNS server.
const ASKING: u16 = 40_000;

/// The moment of the commands, in seconds.
const BEFORE_PACKETS: u64 = 1000;

/// Adds an IPv4 address.
#[tactic(auto, unfolding(mud_base::specs::Texts::octets_v4))]
fn append_address(frame: &mut Bytes, address: u32) -> Result<(), Memory>
    ensures { OnOk result (frame.new ≡ frame.old ++ octets_v4 address) }
{
    frame.append(&address.to_be_bytes())
}

/// Adds a port.
#[tactic(auto, unfolding(crate::specs::Packets::port_octets))]
fn append_port(frame: &mut Bytes, port: u16) -> Result<(), Memory>
    ensures { OnOk result (frame.new ≡ frame.old ++ spec.port_octets port) }
{
    frame.append(&[(port / 256) as u8, (port % 256) as u8])
}

/// Adds the addresses and ports of both endpoints, the sender's first.
fn append_ends(frame: &mut Bytes, source: (u32, u16), destination: (u32, u16)) -> Result<(), Memory>
    ensures { OnOk result (frame.new ≡ frame.old ++ octets_v4 source.0 ++ octets_v4 destination.0
        ++ spec.port_octets source.1 ++ spec.port_octets destination.1) }
{
    append_address(frame, source.0)?;
    append_address(frame, destination.0)?;
    append_port(frame, source.1)?;
    append_port(frame, destination.1)
}

/// Adds what stands in TCP behind the ports.
fn append_tcp_tail(frame: &mut Bytes, flags: u8) -> Result<(), Memory>
    ensures { OnOk result (frame.new ≡ frame.old ++ spec.tcp_tail flags) }
{
    frame.append(BEFORE_FLAGS)?;
    frame.push(flags)?;
    frame.append(BEHIND_FLAGS)
}

/// Adds a call of this port of the address by a Thing, which begins a connection.
#[tactic(auto, unfolding(crate::specs::Packets::call_frame))]
fn append_call(frame: &mut Bytes, thing: u16, address: u32, port: u16) -> Result<(), Memory>
    ensures { OnOk result (frame.new ≡ frame.old ++ spec.call_frame thing address port) }
{
    frame.append(FAR_MAC)?;
    frame.append(&mac_of(thing).0)?;
    frame.append(TCP_HEAD)?;
    append_ends(frame, (lease_of(thing), CALLING), (address, port))?;
    append_tcp_tail(frame, SYN)
}

/// Adds the answer of a Thing's host to a call of it.
#[tactic(auto, unfolding(crate::specs::Packets::answer_frame))]
fn append_answer(frame: &mut Bytes, thing: u16) -> Result<(), Memory>
    ensures { OnOk result (frame.new ≡ frame.old ++ spec.answer_frame thing) }
{
    frame.append(&mac_of(thing).0)?;
    frame.append(FAR_MAC)?;
    frame.append(TCP_HEAD)?;
    let source = (host_address(thing), HTTPS);
    append_ends(frame, source, (lease_of(thing), CALLING))?;
    append_tcp_tail(frame, SYN_ACK)
}

/// Adds a query of a Thing to the DNS server.
#[tactic(auto, unfolding(crate::specs::Packets::query_frame))]
fn append_query(frame: &mut Bytes, thing: u16) -> Result<(), Memory>
    ensures { OnOk result (frame.new ≡ frame.old ++ spec.query_frame thing) }
{
    frame.append(FAR_MAC)?;
    frame.append(&mac_of(thing).0)?;
    frame.append(UDP_HEAD)?;
    append_ends(frame, (lease_of(thing), ASKING), (DNS_ADDRESS, DNS))?;
    frame.append(UDP_TAIL)
}

/// The Thing of the packet of this number, of so many.
#[tactic(auto)]
fn thing_of(packets: u32, number: u32) -> u16
    requires { 0 < packets }
    ensures value { result ≡ 1 + number % thing_count packets }
    ensures near { result ≤ 256 }
{
    (1 + number % u32::from(thing_count(packets))) as u16
}

/// The Thing whose address this Thing calls in place of its host's.
#[tactic(auto)]
fn neighbour_of(packets: u32, thing: u16) -> u16
    requires some { 0 < packets }
    requires near { thing ≤ 256 }
    ensures { result ≡ (thing + 7) % thing_count packets + 1 }
{
    (thing + 7) % thing_count(packets) + 1
}

/// Adds what a Thing does, by the remainder of the packet's number by 5.
#[tactic(auto, unfolding(crate::specs::Packets::frame_of_kind))]
fn append_kind(frame: &mut Bytes, packets: u32, thing: u16, kind: u32) -> Result<(), Memory>
    requires some { 0 < packets }
    requires near { thing ≤ 256 }
    ensures { OnOk result (frame.new ≡ frame.old ++ spec.frame_of_kind packets thing kind) }
{
    match kind {
        0 => append_call(frame, thing, host_address(thing), HTTPS),
        1 => append_call(frame, thing, host_address(thing), HTTP),
        2 => append_query(frame, thing),
        3 => append_call(frame, thing, lease_of(neighbour_of(packets, thing)), HTTPS),
        _ => append_answer(frame, thing),
    }
}

/// Writes the packet of this number, of so many, in place of what stands in the buffer. It takes no
/// memory where a packet stands there.
#[tactic(auto, unfolding(crate::specs::Packets::packet_frame))]
pub(crate) fn write_packet(frame: &mut Bytes, packets: u32, number: u32) -> Result<(), Memory>
    requires { 0 < packets }
    ensures { OnOk result (frame.new ≡ spec.packet_frame packets number) }
{
    frame.clear();
    append_kind(frame, packets, thing_of(packets, number), number % 5)
}

/// The moment at which the packet of this number comes.
pub(crate) fn packet_moment(number: u32) -> Moment
    ensures { result ≡ spec.packet_moment number }
{
    Moment::at_most_last(BEFORE_PACKETS + u64::from(number))
}
