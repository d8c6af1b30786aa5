//! Hardware and IP addresses, and prefixes.
ghost use Rattle.std.specs.Prelude.{◌≡◌, ◌++◌, OnErr, OnOk, codes, decimal};
ghost use Rattle.std.specs.Net.Text.{ipv4_text};
ghost use Rattle.mud_base.specs.Texts.{addr_text, mac_text, octets_v4, prefix_text};
ghost use Rattle.text_values.specs.Added.{AddedPart};

use crate::numbers::append_decimal;
use mud_base::{Addr, Bytes, Mac, Memory, Prefix, addr_text, mac_text, prefix_text};
use std::alloc::Global;

/// Adds the text of a hardware address. Without memory the line stays as it was.
pub fn append_mac(alloc: Global, line: &mut Bytes, mac: Mac) -> Result<(), Memory>
    ensures ok { OnOk result (line.new ≡ line.old ++ mac_text mac) }
    ensures err { OnErr result (line.new ≡ line.old) }
{
    line.append(mac_text(alloc, mac)?.octets())
}

/// Adds the decimal digits of an octet and a dot.
fn append_dotted_octet(line: &mut Bytes, octet: u8) -> Result<(), Memory>
    ensures ok { OnOk result (line.new ≡ line.old ++ (decimal octet ++ codes ".")) }
    ensures part { OnErr result (AddedPart (decimal octet ++ codes ".") line.old line.new) }
{
    append_decimal(line, u64::from(octet))?;
    line.append(b".")
}

/// Adds the four octets of an IPv4 address with dots between them.
#[tactic(auto, unfolding(mud_base::specs::Texts::octets_v4))]
fn append_dotted(line: &mut Bytes, number: u32) -> Result<(), Memory>
    ensures ok { OnOk result (line.new ≡ line.old ++ ipv4_text (octets_v4 number)) }
    ensures part { OnErr result (AddedPart (ipv4_text (octets_v4 number)) line.old line.new) }
{
    let octets = number.to_be_bytes();
    append_dotted_octet(line, octets[0])?;
    append_dotted_octet(line, octets[1])?;
    append_dotted_octet(line, octets[2])?;
    append_decimal(line, u64::from(octets[3]))
}

/// Adds the text of an IP address. It takes memory of its own for an IPv6 address alone.
#[tactic(auto, unfolding(mud_base::specs::Texts::addr_text))]
pub fn append_addr(alloc: Global, line: &mut Bytes, addr: Addr) -> Result<(), Memory>
    ensures ok { OnOk result (line.new ≡ line.old ++ addr_text addr) }
    ensures part { OnErr result (AddedPart (addr_text addr) line.old line.new) }
{
    match addr {
        Addr::V4(number) => append_dotted(line, number),
        Addr::V6(_) => line.append(addr_text(alloc, addr)?.octets()),
    }
}

/// Adds the text of a prefix. Without memory the line stays as it was.
pub fn append_prefix(alloc: Global, line: &mut Bytes, prefix: Prefix) -> Result<(), Memory>
    ensures ok { OnOk result (line.new ≡ line.old ++ prefix_text prefix) }
    ensures err { OnErr result (line.new ≡ line.old) }
{
    line.append(prefix_text(alloc, prefix)?.octets())
}
