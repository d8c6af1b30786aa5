//! Numbers at an offset.
ghost use Rattle.std.specs.Prelude.{◌≡◌, ◌+◌, ◌≤◌, length};
ghost use Rattle.mud_base.specs.Numbers as spec;

use crate::offset::octets_at;

/// The order of the octets of a number.
#[derive(Clone, Copy)]
pub enum ByteOrder {
    /// The most significant octet first, as in all fields of network protocols (RFC 791,
    /// appendix B).
    Big,
    /// The least significant octet first.
    Little,
}

/// The number in the two octets from an offset on, the most significant one first.
#[tactic(auto, unfolding(crate::specs::Numbers::big_16))]
pub fn big_16(octets: &[u8], offset: usize) -> u16
    requires { offset + 2 ≤ length octets.now }
    ensures { result ≡ spec.big_16 offset octets.now }
{
    u16::from_be_bytes(octets_at(octets, offset))
}

/// The number in the four octets from an offset on, the most significant one first.
#[tactic(auto, unfolding(crate::specs::Numbers::big_32))]
pub fn big_32(octets: &[u8], offset: usize) -> u32
    requires { offset + 4 ≤ length octets.now }
    ensures { result ≡ spec.big_32 offset octets.now }
{
    u32::from_be_bytes(octets_at(octets, offset))
}

/// The number in the eight octets from an offset on, the most significant one first.
#[tactic(auto, unfolding(crate::specs::Numbers::big_64))]
pub fn big_64(octets: &[u8], offset: usize) -> u64
    requires { offset + 8 ≤ length octets.now }
    ensures { result ≡ spec.big_64 offset octets.now }
{
    u64::from_be_bytes(octets_at(octets, offset))
}

/// The number in the sixteen octets from an offset on, the most significant one first.
#[tactic(auto, unfolding(crate::specs::Numbers::big_128))]
pub fn big_128(octets: &[u8], offset: usize) -> u128
    requires { offset + 16 ≤ length octets.now }
    ensures { result ≡ spec.big_128 offset octets.now }
{
    u128::from_be_bytes(octets_at(octets, offset))
}

/// The number in the two octets from an offset on, in this order.
#[tactic(auto, unfolding(crate::specs::Numbers::number_16))]
pub fn number_16(order: ByteOrder, octets: &[u8], offset: usize) -> u16
    requires { offset + 2 ≤ length octets.now }
    ensures { result ≡ spec.number_16 order offset octets.now }
{
    match order {
        ByteOrder::Big => big_16(octets, offset),
        ByteOrder::Little => u16::from_le_bytes(octets_at(octets, offset)),
    }
}

/// The number in the four octets from an offset on, in this order.
#[tactic(auto, unfolding(crate::specs::Numbers::number_32))]
pub fn number_32(order: ByteOrder, octets: &[u8], offset: usize) -> u32
    requires { offset + 4 ≤ length octets.now }
    ensures { result ≡ spec.number_32 order offset octets.now }
{
    match order {
        ByteOrder::Big => big_32(octets, offset),
        ByteOrder::Little => u32::from_le_bytes(octets_at(octets, offset)),
    }
}
