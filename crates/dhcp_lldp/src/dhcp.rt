//! DHCPv4 messages (RFC 2131).
ghost use Rattle.std.specs.Prelude.{◌≡◌, ◌≤◌, length, option_copied};
ghost use Rattle.dhcp_lldp.specs.Dhcp.{heard_of, is_request, is_reply, is_ethernet, has_cookie, is_ack, seconds_of, granted, said, offsets};
ghost use Rattle.mud_base.specs.Numbers.{big_32};

use crate::contents::Contents;
use crate::heard::{HearFault, Heard};
use crate::mud::announced;
use crate::options::{OPTIONS_OFFSET, contents};
use mud_base::{Addr, Mac, big_32, is_group_at, mac_at, octets_at};

/// The op of a client's message.
const BOOTREQUEST: u8 = 1;
/// The op of a server's message.
const BOOTREPLY: u8 = 2;
/// The htype of Ethernet.
const ETHERNET: u8 = 1;
/// The hlen of Ethernet.
const ETHERNET_LEN: u8 = 6;
/// The magic cookie in front of the options (section 3).
const COOKIE: [u8; 4] = [99, 130, 83, 99];
/// The DHCP message type of an acknowledged lease (RFC 2132, section 9.6).
const DHCPACK: u8 = 5;

/// Where op stands in a message (section 2, figure 1).
const OP_OFFSET: usize = 0;
/// Where htype stands in a message (section 2, figure 1).
const HTYPE_OFFSET: usize = 1;
/// Where hlen stands in a message (section 2, figure 1).
const HLEN_OFFSET: usize = 2;
/// Where yiaddr stands in a message (section 2, figure 1).
const YIADDR_OFFSET: usize = 16;
/// Where chaddr stands in a message (section 2, figure 1).
const CHADDR_OFFSET: usize = 28;
/// Where the magic cookie stands in a message: at the front of the field options (section 3).
const COOKIE_OFFSET: usize = 236;

/// What a DHCPv4 message, the payload of a UDP datagram, says. A client's message announces a MUD
/// URL by the option 161; a server's DHCPACK with a lease time and an address leases that address.
/// Any other message says nothing. It takes no memory.
///
/// A fault is the first of these: `Cut(0)` where there are fewer than 240 octets; `Hardware`;
/// `Cookie`; then at each option in turn `Cut`, at its code, where the message ends within it, and
/// `Repeat` where a second option 51, 53 or 161 begins; and in the end `Url`. What follows the
/// option 255 isn't read.
#[tactic(auto, unfolding(crate::specs::Dhcp::heard_of))]
pub fn read_dhcp(octets: &[u8]) -> Result<Heard, HearFault>
    ensures { result ≡ heard_of octets.now }
{
    if octets.len() < OPTIONS_OFFSET {
        return Err(HearFault::Cut(0));
    }
    if !is_ethernet(octets) {
        return Err(HearFault::Hardware);
    }
    if !has_cookie(octets) {
        return Err(HearFault::Cookie);
    }
    let contents = contents(octets)?;
    said(octets, &contents)
}

#[tactic(auto, unfolding(crate::specs::Dhcp::is_ethernet))]
fn is_ethernet(message: &[u8]) -> bool
    requires { 240 ≤ length message.now }
    ensures { result ≡ is_ethernet message.now }
{
    message[HTYPE_OFFSET] == ETHERNET
        && message[HLEN_OFFSET] == ETHERNET_LEN
        && !is_group_at(message, CHADDR_OFFSET)
}

#[tactic(auto, unfolding(crate::specs::Dhcp::has_cookie))]
fn has_cookie(message: &[u8]) -> bool
    requires { 240 ≤ length message.now }
    ensures { result ≡ has_cookie message.now }
{
    octets_at(message, COOKIE_OFFSET) == COOKIE
}

#[tactic(auto)]
fn yiaddr(message: &[u8]) -> u32
    requires { 240 ≤ length message.now }
    ensures { result ≡ big_32 offsets.yiaddr message.now }
{
    big_32(message, YIADDR_OFFSET)
}

/// What a message without a fault says.
#[tactic(auto, unfolding(crate::specs::Dhcp::said, crate::specs::Dhcp::is_request, crate::specs::Dhcp::is_reply))]
fn said(message: &[u8], contents: &Contents) -> Result<Heard, HearFault>
    requires { 240 ≤ length message.now }
    ensures { result ≡ said message.now contents.now }
{
    let mac = mac_at(message, CHADDR_OFFSET);
    match message[OP_OFFSET] {
        BOOTREQUEST => announced(mac, contents.mud_url()),
        BOOTREPLY => Ok(granted(mac, yiaddr(message), contents)),
        _ => Ok(Heard::Nothing),
    }
}

/// The lease of an address that a server acknowledges.
#[tactic(auto, unfolding(crate::specs::Dhcp::granted))]
fn granted(mac: Mac, yiaddr: u32, contents: &Contents) -> Heard
    ensures { result ≡ granted mac yiaddr contents.now }
{
    let seconds = seconds(contents.lease_time());
    if is_ack(contents.message_type()) && seconds != 0 && yiaddr != 0 {
        Heard::Lease(mac, Addr::V4(yiaddr), seconds)
    } else {
        Heard::Nothing
    }
}

/// Whether the content of the option DHCP Message Type is DHCPACK.
#[tactic(auto, unfolding(crate::specs::Dhcp::is_ack))]
fn is_ack(message_type: Option<&[u8]>) -> bool
    ensures { result ≡ is_ack (option_copied message_type.entry) }
{
    match message_type {
        None => false,
        Some(content) => content == [DHCPACK].as_slice(),
    }
}

/// The seconds that a lease lasts by the content of the option IP Address Lease Time; 0 where it is
/// no number of four octets.
#[tactic(auto, unfolding(crate::specs::Dhcp::seconds_of))]
fn seconds(lease_time: Option<&[u8]>) -> u32
    ensures { result ≡ seconds_of (option_copied lease_time.entry) }
{
    match lease_time {
        Some(content) if content.len() == 4 => big_32(content, 0),
        _ => 0,
    }
}
