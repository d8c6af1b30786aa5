//! The header of a capture.
ghost use Rattle.std.specs.Prelude.{◌≡◌, ◌≤◌, length, false, ◌==◌, ◌&&◌, Some, None, if◌then◌else◌};
ghost use Rattle.pcap_read.specs.Fault.{has_failed};
ghost use Rattle.pcap_read.specs.Packets as spec;
ghost use Rattle.mud_base.specs.Numbers.{number_16, number_32};
ghost use Rattle.mud_base.specs.declared.number.ByteOrder.TheVariants.{Little, Big};

use crate::fault::CapFault;
use mud_base::{ByteOrder, number_16, number_32};

/// Where the magic number stands in the header (draft-ietf-opsawg-pcap, section 4).
const MAGIC_OFFSET: usize = 0;
/// Where the major version stands in the header (section 4).
const MAJOR_VERSION_OFFSET: usize = 4;
/// Where the minor version stands in the header (section 4).
const MINOR_VERSION_OFFSET: usize = 6;
/// Where the link type stands in the header (section 4).
const LINK_TYPE_OFFSET: usize = 20;
/// How many octets the header has (section 4).
pub(crate) const HEADER_LEN: usize = 24;
/// The magic number of captures whose fractions of seconds are microseconds.
const MICROSECONDS: u32 = 0xA1B2_C3D4;
/// The magic number of captures whose fractions of seconds are nanoseconds.
const NANOSECONDS: u32 = 0xA1B2_3C4D;
/// The major version of the format.
const MAJOR_VERSION: u16 = 2;
/// The minor version of the format.
const MINOR_VERSION: u16 = 4;
/// The link type of Ethernet.
const ETHERNET: u32 = 1;

/// Whether a header has a magic number in this order.
#[tactic(auto, unfolding(crate::specs::Packets::has_magic))]
fn has_magic(order: ByteOrder, header: &[u8]) -> bool
    requires { 24 ≤ length header.now }
    ensures { result ≡ spec.has_magic order header.now }
{
    let magic = number_32(order, header, MAGIC_OFFSET);
    magic == MICROSECONDS || magic == NANOSECONDS
}

/// The order in which a header has a magic number.
#[tactic(auto)]
fn order_in(header: &[u8]) -> Option<ByteOrder>
    requires { 24 ≤ length header.now }
    ensures { result ≡ if spec.has_magic Big header.now then Some Big else (if spec.has_magic Little header.now then Some Little else None) }
{
    if has_magic(ByteOrder::Big, header) {
        return Some(ByteOrder::Big);
    }
    if has_magic(ByteOrder::Little, header) {
        return Some(ByteOrder::Little);
    }
    None
}

/// Whether a header has the version 2.4.
#[tactic(auto)]
fn is_version_2_4(order: ByteOrder, header: &[u8]) -> bool
    requires { 24 ≤ length header.now }
    ensures { result ≡ number_16 order spec.offsets.major_version header.now == 2 && number_16 order spec.offsets.minor_version header.now == 4 }
{
    number_16(order, header, MAJOR_VERSION_OFFSET) == MAJOR_VERSION
        && number_16(order, header, MINOR_VERSION_OFFSET) == MINOR_VERSION
}

/// Whether a header has the link type Ethernet.
#[tactic(auto)]
fn is_ethernet(order: ByteOrder, header: &[u8]) -> bool
    requires { 24 ≤ length header.now }
    ensures { result ≡ number_32 order spec.offsets.link_type header.now == 1 }
{
    number_32(order, header, LINK_TYPE_OFFSET) == ETHERNET
}

/// The order of the octets of all numbers, or what is wrong with the header.
#[tactic(auto, unfolding(crate::specs::Packets::header_of))]
pub(crate) fn header_of(header: &[u8]) -> Result<ByteOrder, CapFault>
    requires { 24 ≤ length header.now }
    ensures value { result ≡ spec.header_of header.now }
    ensures unfailing { has_failed result ≡ false }
{
    let Some(order) = order_in(header) else {
        return Err(CapFault::Magic);
    };
    if !is_version_2_4(order, header) {
        return Err(CapFault::Version);
    }
    if !is_ethernet(order, header) {
        return Err(CapFault::LinkType);
    }
    Ok(order)
}
