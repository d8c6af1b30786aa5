//! The texts of addresses and moments, as they are read.
ghost use Rattle.std.specs.Prelude.{◌≡◌, ◌+◌, ◌<◌, IfSome, length, option_map, slice_index, ◌==◌, ◌∷◌, []};
ghost use Rattle.std.specs.List.{before_first, after_first, position, list_all};
ghost use Rattle.mud_base.specs.Reading as spec;
ghost use Rattle.std.specs.Net.Reader.{read_ipv4, whole_value, read_ipv6};

use crate::addr::{Addr, Mac};
use crate::decimal::number_upto;
use crate::moment::Moment;
use crate::prefix::{Prefix, addr_bits};
use std::net::{Ipv4Addr, Ipv6Addr};

#[tactic(auto, unfolding(crate::specs::Reading::hex_value))]
fn hex_value(digit: u8) -> Option<u8>
    ensures value { result ≡ spec.hex_value digit }
    ensures small { IfSome result (λ n. n < 16) }
{
    match digit {
        b'0'..=b'9' => Some(digit - b'0'),
        b'a'..=b'f' => Some(digit - b'a' + 10),
        b'A'..=b'F' => Some(digit - b'A' + 10),
        _ => None,
    }
}

#[tactic(auto, unfolding(crate::specs::Reading::octet_at))]
fn octet_at(text: &[u8], offset: usize) -> Option<u8>
    requires { offset + 1 < length text.now }
    ensures { result ≡ spec.octet_at text.now offset }
{
    let high = hex_value(text[offset])?;
    let low = hex_value(text[offset + 1])?;
    Some(high * 16 + low)
}

#[tactic(auto)]
fn has_mac_colons(text: &[u8]) -> bool
    requires { length text.now ≡ 17 }
    ensures { result ≡ list_all (λ offset. slice_index text.now offset == 58) (2 ∷ 5 ∷ 8 ∷ 11 ∷ 14 ∷ []) }
{
    text[2] == b':' && text[5] == b':' && text[8] == b':' && text[11] == b':' && text[14] == b':'
}

/// The hardware address of a text: six pairs of hex digits of either case with colons between
/// them. None for any other text. It takes no memory.
#[tactic(auto, unfolding(crate::specs::Reading::mac_in))]
pub fn mac_of(text: &[u8]) -> Option<Mac>
    ensures { result ≡ spec.mac_in text.now }
{
    if text.len() != 17 {
        return None;
    }
    if !has_mac_colons(text) {
        return None;
    }
    Some(Mac([
        octet_at(text, 0)?,
        octet_at(text, 3)?,
        octet_at(text, 6)?,
        octet_at(text, 9)?,
        octet_at(text, 12)?,
        octet_at(text, 15)?,
    ]))
}

#[tactic(auto, using(crate::proofs::AddrTexts::read_v4, crate::proofs::AddrTexts::none_v4))]
fn ipv4_of(text: &[u8]) -> Option<Addr>
    ensures { result ≡ option_map spec.addr_of_octets (whole_value (read_ipv4 text.now)) }
{
    match Ipv4Addr::parse_ascii(text) {
        Ok(addr) => Some(Addr::V4(addr.to_bits())),
        Err(_) => None,
    }
}

#[tactic(auto, using(crate::proofs::AddrTexts::read_v6, crate::proofs::AddrTexts::none_v6))]
fn ipv6_of(text: &[u8]) -> Option<Addr>
    ensures { result ≡ option_map spec.addr_of_groups (whole_value (read_ipv6 text.now)) }
{
    match Ipv6Addr::parse_ascii(text) {
        Ok(addr) => Some(Addr::V6(addr.to_bits())),
        Err(_) => None,
    }
}

/// The IP address of a text: an IPv4 address as four decimal numbers with dots between them and no
/// leading zero, or an IPv6 address in a form of RFC 4291, section 2.2, with no zone. None for any
/// other text. It takes no memory.
#[tactic(auto, unfolding(crate::specs::Reading::addr_in))]
pub fn addr_of(text: &[u8]) -> Option<Addr>
    ensures value { result ≡ spec.addr_in text.now }
    ensures grammar { spec.IsAddrReading text.now result }
{
    match ipv4_of(text) {
        Some(addr) => Some(addr),
        None => ipv6_of(text),
    }
}

fn first_slash(text: &[u8]) -> Option<usize>
    ensures { result ≡ position spec.is_slash text.now }
{
    text.iter().position(|octet| *octet == b'/')
}

/// What stands before and after the first slash. With no slash nothing stands after it.
#[tactic(auto, using(crate::proofs::Slashes::offset_is, crate::proofs::Slashes::offset_within, crate::proofs::Slashes::before_none, crate::proofs::Slashes::after_none))]
fn around_slash(text: &[u8]) -> (&[u8], &[u8])
    ensures before { result.0.now ≡ before_first spec.is_slash text.now }
    ensures after { result.1.now ≡ after_first spec.is_slash text.now }
{
    match first_slash(text) {
        Some(offset) => {
            let (before, _) = text.split_at(offset);
            let (_, after) = text.split_at(offset + 1);
            (before, after)
        }
        None => (text, &[]),
    }
}

/// The prefix of a text: an address as [`addr_of`] reads it, `/` and a decimal number with no
/// leading zero, at most 32 or 128. The bits behind so many are cleared. None for any other text.
/// It takes no memory.
#[tactic(auto, unfolding(crate::specs::Reading::prefix_in))]
pub fn prefix_of(text: &[u8]) -> Option<Prefix>
    ensures { result ≡ spec.prefix_in text.now }
{
    let (addr, len) = around_slash(text);
    let addr = addr_of(addr)?;
    let len = number_upto(u64::from(addr_bits(addr)), len)?;
    Prefix::new(addr, len as u8)
}

/// The moment of a text: its seconds since 1970-01-01T00:00:00Z in decimal digits with no leading
/// zero. None for any other text, and for a number above [`Moment::LAST`]. It takes no memory.
pub fn moment_of(text: &[u8]) -> Option<Moment>
    ensures { result ≡ spec.moment_in text.now }
{
    Moment::new(number_upto(Moment::LAST, text)?)
}
