//! The line of a packet. It ends with a line feed.
ghost use Rattle.std.specs.Prelude.{◌≡◌, ◌++◌, OnOk};
ghost use Rattle.pcap_read.specs.Captured.{packet_of};
ghost use Rattle.mud_cli.specs.Frames.Lines as spec;

use desk_model::texts::append_unreadable;
use frame_view::{Frame, view};
use mud_base::{Bytes, Fields, Memory, Transport};
use pcap_read::Captured;
use std::alloc::Global;
use text_values::{append_addr, append_decimal, append_number};

/// Adds the ports and the octet of flags, or the type and the code.
#[tactic(auto, unfolding(crate::specs::Frames::Lines::transport_text))]
fn append_transport(line: &mut Bytes, transport: Transport) -> Result<(), Memory>
    ensures { OnOk result (line.new ≡ line.old ++ spec.transport_text transport) }
{
    match transport {
        Transport::Tcp {
            source,
            destination,
            flags,
        } => {
            line.append(b" tcp")?;
            append_number(line, u64::from(source))?;
            append_number(line, u64::from(destination))?;
            append_number(line, u64::from(flags))
        }
        Transport::Udp {
            source,
            destination,
        } => {
            line.append(b" udp")?;
            append_number(line, u64::from(source))?;
            append_number(line, u64::from(destination))
        }
        Transport::Icmp { kind, code } => {
            line.append(b" icmp")?;
            append_number(line, u64::from(kind))?;
            append_number(line, u64::from(code))
        }
        Transport::Absent => Ok(()),
    }
}

/// Adds `packet`, the two addresses, the protocol number and the transport header.
#[tactic(auto, unfolding(crate::specs::Frames::Lines::fields_text))]
fn append_fields(alloc: Global, line: &mut Bytes, fields: Fields) -> Result<(), Memory>
    ensures { OnOk result (line.new ≡ line.old ++ spec.fields_text fields) }
{
    line.append(b" packet ")?;
    append_addr(alloc, line, fields.src)?;
    line.append(b" ")?;
    append_addr(alloc, line, fields.dst)?;
    append_number(line, u64::from(fields.protocol))?;
    append_transport(line, fields.transport)
}

/// Adds what a frame is.
#[tactic(auto, unfolding(crate::specs::Frames::Lines::frame_text))]
fn append_frame(alloc: Global, line: &mut Bytes, frame: &Frame<'_>) -> Result<(), Memory>
    ensures { OnOk result (line.new ≡ line.old ++ spec.frame_text frame.now) }
{
    match frame {
        Frame::Link(_) => line.append(b" link"),
        Frame::Unreadable(_, part) => append_unreadable(line, *part),
        Frame::Packet(packet) => append_fields(alloc, line, packet.fields()),
    }
}

/// Adds the line of a packet: its number, its seconds, and what its frame is.
#[tactic(auto, unfolding(crate::specs::Frames::Lines::packet_line))]
pub(crate) fn append_packet(
    alloc: Global,
    lines: &mut Bytes,
    packet: &Captured<'_>,
) -> Result<(), Memory>
    ensures { OnOk result (lines.new ≡ lines.old ++ spec.packet_line (packet_of packet.now)) }
{
    append_decimal(lines, u64::from(packet.number))?;
    append_number(lines, u64::from(packet.seconds))?;
    append_frame(alloc, lines, &view(packet.octets))?;
    lines.append(b"\n")
}
