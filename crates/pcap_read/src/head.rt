//! The heads of packets.
ghost use Rattle.std.specs.Prelude.{◌≡◌, ◌≤◌, length};
ghost use Rattle.pcap_read.specs.Packets.{captured_len, offsets};
ghost use Rattle.pcap_read.specs.Parts as spec;
ghost use Rattle.mud_base.specs.Numbers.{number_32};

use mud_base::{ByteOrder, number_32};

/// Where the seconds stand in a head (draft-ietf-opsawg-pcap, section 5).
const SECONDS_OFFSET: usize = 0;
/// Where the captured length stands in a head (section 5).
const CAPTURED_LEN_OFFSET: usize = 8;
/// How many octets a head has (section 5).
pub(crate) const HEAD_LEN: usize = 16;
/// The most octets of a packet.
pub(crate) const MOST_OCTETS: usize = 262_144;
/// The most packets of a capture.
pub(crate) const MOST_PACKETS: u32 = 100_000_000;

/// What counts of a head: its seconds, and how many octets were captured.
#[derive(Clone, Copy)]
pub(crate) struct Head {
    pub(crate) seconds: u32,
    pub(crate) len: usize,
}

/// What a head says.
#[tactic(auto, unfolding(crate::specs::Packets::captured_len))]
pub(crate) fn head_in(order: ByteOrder, head: &[u8]) -> Head
    requires { 16 ≤ length head.now }
    ensures seconds { result.seconds ≡ number_32 order offsets.seconds head.now }
    ensures len { result.len ≡ captured_len order head.now }
{
    Head {
        seconds: number_32(order, head, SECONDS_OFFSET),
        len: number_32(order, head, CAPTURED_LEN_OFFSET) as usize,
    }
}

/// Whether the octets held behind so many packets tell what comes next.
#[tactic(auto, unfolding(crate::specs::Parts::is_decided))]
pub(crate) fn is_decided(order: ByteOrder, count: u32, held: &[u8]) -> bool
    ensures { result ≡ spec.is_decided order count held.now }
{
    if count >= MOST_PACKETS {
        return !held.is_empty();
    }
    if held.len() < HEAD_LEN {
        return false;
    }
    let (head, octets) = held.split_at(HEAD_LEN);
    let len = head_in(order, head).len;
    len > MOST_OCTETS || len <= octets.len()
}
