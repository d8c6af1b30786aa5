//! Texts of addresses and prefixes, each added behind what stands in a body.
ghost use Rattle.std.specs.Prelude.{◌≡◌, ◌+◌, ◌<◌, ◌≤◌, [], ◌∷◌, ◌++◌, take, decimal, OnOk};
ghost use Rattle.std.specs.Net.Text.{ipv4_text};
ghost use Rattle.json.specs.Print.{quoted};
ghost use Rattle.mud_base.specs.Texts as of;

use console_answers::append_quoted;
use console_answers::texts::hex_digit;
use mud_base::{Addr, Bytes, Mac, Memory, Prefix, addr_text, prefix_text};
use std::alloc::Global;

/// The text of a hardware address.
#[tactic(auto, unfolding(mud_base::specs::Texts::mac_text), using(crate::proofs::Digits::mac_pairs))]
fn mac_octets(mac: Mac) -> [u8; 17]
    ensures { result ≡ of.mac_text mac }
{
    let octets = mac.0;
    [
        hex_digit(octets[0] / 16),
        hex_digit(octets[0] % 16),
        b':',
        hex_digit(octets[1] / 16),
        hex_digit(octets[1] % 16),
        b':',
        hex_digit(octets[2] / 16),
        hex_digit(octets[2] % 16),
        b':',
        hex_digit(octets[3] / 16),
        hex_digit(octets[3] % 16),
        b':',
        hex_digit(octets[4] / 16),
        hex_digit(octets[4] % 16),
        b':',
        hex_digit(octets[5] / 16),
        hex_digit(octets[5] % 16),
    ]
}

/// The most octets of the text of an IPv4 address.
const LONGEST_V4: usize = 15;

/// Writes an octet at an offset, and says where the next one stands.
fn put_octet(text: &mut [u8; LONGEST_V4], at: usize, octet: u8) -> usize
    requires { at < 15 }
    ensures text { take result text.new ≡ take at text.old ++ octet ∷ [] }
    ensures end { result ≡ at + 1 }
{
    text[at] = octet;
    at + 1
}

/// Writes the decimal digits of an octet at an offset, and says where they end.
#[tactic(auto, using(crate::proofs::Digits::one_put, crate::proofs::Digits::two_put, crate::proofs::Digits::three_put))]
fn put_decimal(text: &mut [u8; LONGEST_V4], at: usize, octet: u8) -> usize
    requires { at ≤ 12 }
    ensures text { take result text.new ≡ take at text.old ++ decimal octet }
    ensures end { result ≤ at + 3 }
{
    if octet < 10 {
        return put_octet(text, at, b'0' + octet);
    }
    if octet < 100 {
        let second = put_octet(text, at, b'0' + octet / 10);
        return put_octet(text, second, b'0' + octet % 10);
    }
    let second = put_octet(text, at, b'0' + octet / 100);
    let third = put_octet(text, second, b'0' + octet / 10 % 10);
    put_octet(text, third, b'0' + octet % 10)
}

/// Writes the text of an IPv4 address, and says where it ends.
#[tactic(auto, unfolding(mud_base::specs::Texts::octets_v4))]
fn put_dotted(text: &mut [u8; LONGEST_V4], number: u32) -> usize
    ensures text { take result text.new ≡ ipv4_text (of.octets_v4 number) }
    ensures end { result ≤ 15 }
{
    let octets = number.to_be_bytes();
    let first = put_decimal(text, 0, octets[0]);
    let dot = put_octet(text, first, b'.');
    let second = put_decimal(text, dot, octets[1]);
    let dot = put_octet(text, second, b'.');
    let third = put_decimal(text, dot, octets[2]);
    let dot = put_octet(text, third, b'.');
    put_decimal(text, dot, octets[3])
}

/// Adds the text of an IPv4 address.
fn append_dotted(body: &mut Bytes, number: u32) -> Result<(), Memory>
    ensures { OnOk result (body.new ≡ body.old ++ quoted (ipv4_text (of.octets_v4 number))) }
{
    let mut text = [0; LONGEST_V4];
    let end = put_dotted(&mut text, number);
    append_quoted(body, &text[..end])
}

/// Adds the text of a hardware address.
pub(crate) fn append_mac(body: &mut Bytes, mac: Mac) -> Result<(), Memory>
    ensures { OnOk result (body.new ≡ body.old ++ quoted (of.mac_text mac)) }
{
    append_quoted(body, &mac_octets(mac))
}

/// Adds the text of an IP address. It takes memory of its own for an IPv6 address alone.
#[tactic(auto, unfolding(mud_base::specs::Texts::addr_text))]
pub(crate) fn append_address(alloc: Global, body: &mut Bytes, address: Addr) -> Result<(), Memory>
    ensures { OnOk result (body.new ≡ body.old ++ quoted (of.addr_text address)) }
{
    match address {
        Addr::V4(number) => append_dotted(body, number),
        Addr::V6(_) => append_quoted(body, addr_text(alloc, address)?.octets()),
    }
}

/// Adds the text of a prefix.
pub(crate) fn append_prefix(alloc: Global, body: &mut Bytes, prefix: Prefix) -> Result<(), Memory>
    ensures { OnOk result (body.new ≡ body.old ++ quoted (of.prefix_text prefix)) }
{
    let text = prefix_text(alloc, prefix)?;
    append_quoted(body, text.octets())
}
