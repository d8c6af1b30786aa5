//! Prefixes of IP addresses.
ghost use Rattle.std.specs.Prelude.{◌≡◌, ◌-◌, ◌/◌, ◌^◌, ◌≤◌};
ghost use Rattle.mud_base.specs.Addresses as spec;

use crate::addr::Addr;
use std::marker::Model;

/// A prefix of IPv4 or IPv6 addresses (RFC 4632, section 3.1; RFC 4291, section 2.3): the first
/// `len` bits of `addr`, at most 32 or 128. The bits of `addr` behind them are 0. Contracts see it
/// as the record of both.
#[derive(Clone, Copy)]
pub struct Prefix {
    addr: Addr,
    len: u8,
}

impl Model for Prefix {
    ghost use Rattle.mud_base.specs.Addresses.{PrefixParts, IsPrefix};

    ghost Value = { PrefixParts };

    ghost view = { λ p. record { addr = p.addr; len = p.len } };

    ghost invariant = { λ p. IsPrefix (record { addr = p.addr; len = p.len }) };

    ghost inverse = { λ p. record { addr = p.addr; len = p.len } };
}

/// How many bits an address of this version has.
#[tactic(auto, unfolding(crate::specs::Addresses::addr_bits))]
pub(crate) fn addr_bits(addr: Addr) -> u8
    ensures { result ≡ spec.addr_bits addr }
{
    match addr {
        Addr::V4(_) => 32,
        Addr::V6(_) => 128,
    }
}

/// The number that the first `len` bits spell.
fn front_v4(number: u32, len: u8) -> u32
    requires { len ≤ 32 }
    ensures { result ≡ number / 2 ^ (32 - len) }
{
    if len == 0 { 0 } else { number >> (32 - len) }
}

/// The number that the first `len` bits spell.
fn front_v6(number: u128, len: u8) -> u128
    requires { len ≤ 128 }
    ensures { result ≡ number / 2 ^ (128 - len) }
{
    if len == 0 { 0 } else { number >> (128 - len) }
}

/// The address with each bit behind the first `len` at 0.
#[tactic(auto, unfolding(crate::specs::Addresses::masked, crate::specs::Addresses::addr_bits))]
fn masked(addr: Addr, len: u8) -> Addr
    requires { len ≤ spec.addr_bits addr }
    ensures { result ≡ spec.masked addr len }
{
    match addr {
        Addr::V4(_) if len == 0 => Addr::V4(0),
        Addr::V4(number) => Addr::V4(front_v4(number, len) << (32 - len)),
        Addr::V6(_) if len == 0 => Addr::V6(0),
        Addr::V6(number) => Addr::V6(front_v6(number, len) << (128 - len)),
    }
}

/// Whether both addresses are of one version and begin with the same `len` bits.
#[tactic(auto, unfolding(crate::specs::Addresses::addr_bits))]
fn same_front(len: u8, own: Addr, other: Addr) -> bool
    requires { len ≤ spec.addr_bits own }
    ensures { result ≡ spec.same_front len own other }
{
    match (own, other) {
        (Addr::V4(own), Addr::V4(other)) => front_v4(own, len) == front_v4(other, len),
        (Addr::V6(own), Addr::V6(other)) => front_v6(own, len) == front_v6(other, len),
        _ => false,
    }
}

impl Prefix {
    /// The prefix that the first `len` bits of an address make: the other bits are cleared. None
    /// exactly where `len` is above 32 for IPv4 or 128 for IPv6.
    #[tactic(auto, unfolding(crate::specs::Addresses::prefix_at))]
    pub fn new(addr: Addr, len: u8) -> Option<Prefix>
        ensures { result ≡ spec.prefix_at addr len }
    {
        if len <= addr_bits(addr) {
            Some(Prefix {
                addr: masked(addr, len),
                len,
            })
        } else {
            None
        }
    }

    /// The fixed bits, with zeros behind them.
    pub fn addr(&self) -> Addr
        ensures value { result ≡ self.now.addr }
        ensures cleared { spec.masked result self.now.len ≡ result }
    {
        self.addr
    }

    /// How many bits are fixed: at most 32 for IPv4, 128 for IPv6.
    pub fn len(&self) -> u8
        ensures value { result ≡ self.now.len }
        ensures within { result ≤ spec.addr_bits self.now.addr }
    {
        self.len
    }

    /// Whether the address begins with the fixed bits, and is of the prefix's version.
    #[tactic(auto, unfolding(crate::specs::Addresses::prefix_holds))]
    pub fn holds(&self, addr: Addr) -> bool
        ensures { result ≡ spec.prefix_holds self.now addr }
    {
        same_front(self.len, self.addr, addr)
    }
}
