//! Hardware addresses and IP addresses.
ghost use Rattle.std.specs.Prelude.{◌≡◌, ◌↔◌, IsTrue};
ghost use Rattle.mud_base.specs.Addresses as spec;

use std::cmp::Ordering;

/// A hardware (MAC) address of six octets, in the order in which a frame carries them.
#[derive(Clone, Copy)]
pub struct Mac(pub [u8; 6]);

/// An IP address as the number that its octets spell, most significant first. IPv4 comes before
/// IPv6, and then the lesser number.
#[derive(Clone, Copy, PartialEq, Eq, PartialOrd, Ord)]
pub enum Addr {
    /// An IPv4 address (RFC 791).
    V4(u32),
    /// An IPv6 address (RFC 4291).
    V6(u128),
}

/// Which IP versions an entry is for.
#[derive(Clone, Copy)]
pub enum Family {
    /// IPv4 alone.
    V4,
    /// IPv6 alone.
    V6,
    /// Either version.
    Both,
}

/// The order of two addresses: IPv4 before IPv6, and then the lesser number first.
#[tactic(auto, unfolding(crate::specs::Addresses::addr_cmp))]
pub fn addr_order(a: Addr, b: Addr) -> Ordering
    ensures { result ≡ spec.addr_cmp a b }
{
    a.cmp(&b)
}

/// Whether both are one address.
#[tactic(auto, unfolding(crate::specs::Addresses::same_addr))]
pub fn same_addr(a: Addr, b: Addr) -> bool
    ensures value { result ≡ spec.same_addr a b }
    ensures same { IsTrue result ↔ (a ≡ b) }
{
    a == b
}
