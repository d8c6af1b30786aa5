//! The texts of addresses.
ghost use Rattle.std.specs.Prelude.{◌≡◌, ◌++◌, ◌<◌, OnOk, IfOk};
ghost use Rattle.std.specs.Char.{digit_char};
ghost use Rattle.std.specs.Net.Addr.{ipv4_octets, ipv6_segments, segments_of};
ghost use Rattle.std.specs.Net.Text.{ipv4_text, hex_groups_text};
ghost use Rattle.mud_base.specs.Texts as spec;
ghost use Rattle.std.specs.Int.{to_be_bytes, w128};

use crate::addr::{Addr, Mac};
use crate::bytes::Bytes;
use crate::decimal::decimal_text;
use crate::memory::Memory;
use crate::prefix::Prefix;
use std::alloc::Global;
use std::net::{Ipv4Addr, Ipv6Addr};

fn hex_digit(value: u8) -> u8
    requires { value < 16 }
    ensures { result ≡ digit_char value }
{
    if value < 10 {
        b'0' + value
    } else {
        b'a' + (value - 10)
    }
}

#[tactic(auto, unfolding(crate::specs::Texts::hex_pair))]
fn append_hex_pair(text: &mut Bytes, octet: u8) -> Result<(), Memory>
    ensures { OnOk result (text.new ≡ text.old ++ spec.hex_pair octet) }
{
    let digits = [hex_digit(octet / 16), hex_digit(octet % 16)];
    text.append(&digits)
}

/// The text of a hardware address: six pairs of lower-case hex digits with colons between them.
#[tactic(auto, unfolding(crate::specs::Texts::mac_text))]
pub fn mac_text(alloc: Global, mac: Mac) -> Result<Bytes, Memory>
    ensures { IfOk result (λ text. text ≡ spec.mac_text mac) }
{
    let mut text = Bytes::empty(alloc);
    append_hex_pair(&mut text, mac.0[0])?;
    let (_, rest) = mac.0.split_at(1);
    for octet in rest {
        text.push(b':')?;
        append_hex_pair(&mut text, *octet)?;
    }
    Ok(text)
}

#[tactic(auto, unfolding(std::specs::Net::Addr::IsIpv4OfBits, crate::specs::Texts::octets_v4))]
fn ipv4_of(number: u32) -> Ipv4Addr
    ensures { ipv4_octets result ≡ spec.octets_v4 number }
{
    Ipv4Addr::from_bits(number)
}

#[tactic(auto, unfolding(std::specs::Net::Addr::IsIpv6OfBits))]
fn ipv6_of(number: u128) -> Ipv6Addr
    ensures { ipv6_segments result ≡ segments_of (to_be_bytes w128 number) }
{
    Ipv6Addr::from_bits(number)
}

fn dotted_text(alloc: Global, number: u32) -> Result<Bytes, Memory>
    ensures { IfOk result (λ text. text ≡ ipv4_text (spec.octets_v4 number)) }
{
    let text = ipv4_of(number).to_string(alloc)?;
    Bytes::new(alloc, text.as_bytes())
}

fn groups_text(alloc: Global, number: u128) -> Result<Bytes, Memory>
    ensures { IfOk result (λ text. text ≡ hex_groups_text (segments_of (to_be_bytes w128 number))) }
{
    let text = ipv6_of(number).hex_groups().to_string(alloc)?;
    Bytes::new(alloc, text.as_bytes())
}

/// The text of an IP address: an IPv4 address in dotted decimal, an IPv6 address by RFC 5952,
/// section 4, never with an IPv4 text at its end.
#[tactic(auto, unfolding(crate::specs::Texts::addr_text))]
pub fn addr_text(alloc: Global, addr: Addr) -> Result<Bytes, Memory>
    ensures { IfOk result (λ text. text ≡ spec.addr_text addr) }
{
    match addr {
        Addr::V4(number) => dotted_text(alloc, number),
        Addr::V6(number) => groups_text(alloc, number),
    }
}

/// The text of a prefix: its address as [`addr_text`] writes it, `/`, and its length in decimal
/// (RFC 4632, section 3.1; RFC 4291, section 2.3).
#[tactic(auto, unfolding(crate::specs::Texts::prefix_text))]
pub fn prefix_text(alloc: Global, prefix: Prefix) -> Result<Bytes, Memory>
    ensures { IfOk result (λ text. text ≡ spec.prefix_text prefix) }
{
    let mut text = addr_text(alloc, prefix.addr())?;
    text.push(b'/')?;
    let len = decimal_text(alloc, u64::from(prefix.len()))?;
    text.append(len.octets())?;
    Ok(text)
}
