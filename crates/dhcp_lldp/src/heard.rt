//! What a message says, and why one is refused.
ghost use Rattle.std.specs.Prelude.{◌≡◌};

use mud_base::{Addr, Mac};
use mud_url::{MudUrl, UrlFault};

/// What a DHCPv4 message or an LLDP frame says of a Thing.
#[derive(Clone, Copy)]
pub enum Heard {
    /// The Thing with this hardware address announces this MUD URL (RFC 8520, sections 10 and 12).
    Url(Mac, MudUrl),
    /// A server leases this address to the client with this hardware address, for so many seconds
    /// (RFC 2131, section 3.1). The number 4,294,967,295 stands for ever (RFC 2131, section 3.3).
    Lease(Mac, Addr, u32),
    /// Neither of the two.
    Nothing,
}

/// Why a message is refused. Offsets count the octets of the message or frame from 0.
#[derive(Clone, Copy)]
pub enum HearFault {
    /// The octets end before the fixed fields do, which is the offset 0, or within the option or
    /// TLV that begins at this offset.
    Cut(usize),
    /// The magic cookie isn't 99, 130, 83, 99 (RFC 2131, section 3).
    Cookie,
    /// The hardware isn't Ethernet, the frame isn't LLDP, or the hardware address is a group
    /// address.
    Hardware,
    /// An option or TLV that may stand once begins a second time.
    Repeat,
    /// The mandatory TLVs are out of order, or one is missing (IEEE 802.1AB, clause 8.2).
    Order,
    /// The MUD string is no MUD URL.
    Url(UrlFault),
}

impl HearFault {
    ghost use Rattle.dhcp_lldp.specs.Heard.{number_of, name_of, offset_of, url_fault_of};

    /// The number of the fault, from 1 in the order of the variants.
    #[tactic(auto, unfolding(crate::specs::Heard::number_of))]
    pub fn number(&self) -> u8
        ensures { result ≡ number_of self.now }
    {
        match self {
            HearFault::Cut(_) => 1,
            HearFault::Cookie => 2,
            HearFault::Hardware => 3,
            HearFault::Repeat => 4,
            HearFault::Order => 5,
            HearFault::Url(_) => 6,
        }
    }

    /// The name of the fault, as its variant is called.
    #[tactic(auto, unfolding(crate::specs::Heard::name_of))]
    pub fn name(&self) -> &'static str
        ensures { result.now ≡ name_of self.now }
    {
        match self {
            HearFault::Cut(_) => "Cut",
            HearFault::Cookie => "Cookie",
            HearFault::Hardware => "Hardware",
            HearFault::Repeat => "Repeat",
            HearFault::Order => "Order",
            HearFault::Url(_) => "Url",
        }
    }

    /// The offset of the fault in the message, where it has one.
    #[tactic(auto, unfolding(crate::specs::Heard::offset_of))]
    pub fn offset(&self) -> Option<usize>
        ensures { result ≡ offset_of self.now }
    {
        match self {
            HearFault::Cut(at) => Some(*at),
            _ => None,
        }
    }

    /// The fault of the MUD URL, where that is what is wrong. Its offsets count from 0 in the MUD
    /// string.
    #[tactic(auto, unfolding(crate::specs::Heard::url_fault_of))]
    pub fn url(&self) -> Option<UrlFault>
        ensures { result ≡ url_fault_of self.now }
    {
        match self {
            HearFault::Url(fault) => Some(*fault),
            _ => None,
        }
    }
}
