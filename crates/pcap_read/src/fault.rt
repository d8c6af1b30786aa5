//! Why the packets of a capture end.
ghost use Rattle.std.specs.Prelude.{◌≡◌};

use mud_world::Failed;

/// Why a capture is refused, or ends before its octets do. Offsets count the octets of the capture
/// from 0.
#[derive(Clone, Copy)]
pub enum CapFault {
    /// The magic number is neither that of captures in microseconds nor that of captures in
    /// nanoseconds.
    Magic,
    /// The version isn't 2.4.
    Version,
    /// The link type isn't Ethernet, all four octets counted.
    LinkType,
    /// The octets end before the header does, which is the offset 0, or within the packet whose
    /// head stands at this offset.
    Cut(u64),
    /// The packet whose head stands at this offset has more than 262,144 octets.
    Long(u64),
    /// The source failed. Its count of failed reads rose in the call that answered this first.
    ReadFault,
    /// More octets come behind 100,000,000 packets.
    Many,
}

impl From<Failed> for CapFault {
    ghost use Rattle.pcap_read.specs.declared.fault.CapFault.TheVariants.{ReadFault};

    ghost from_gives = { λ _ fault. fault ≡ ReadFault };

    fn from(_failed: Failed) -> CapFault {
        CapFault::ReadFault
    }
}

impl CapFault {
    ghost use Rattle.pcap_read.specs.Fault.{number_of, name_of, offset_of};

    /// The number of the fault, from 1 in the order of the variants.
    #[tactic(auto, unfolding(crate::specs::Fault::number_of))]
    pub fn number(&self) -> u8
        ensures { result ≡ number_of self.now }
    {
        match self {
            CapFault::Magic => 1,
            CapFault::Version => 2,
            CapFault::LinkType => 3,
            CapFault::Cut(_) => 4,
            CapFault::Long(_) => 5,
            CapFault::ReadFault => 6,
            CapFault::Many => 7,
        }
    }

    /// The name of the fault, as its variant is called.
    #[tactic(auto, unfolding(crate::specs::Fault::name_of))]
    pub fn name(&self) -> &'static str
        ensures { result.now ≡ name_of self.now }
    {
        match self {
            CapFault::Magic => "Magic",
            CapFault::Version => "Version",
            CapFault::LinkType => "LinkType",
            CapFault::Cut(_) => "Cut",
            CapFault::Long(_) => "Long",
            CapFault::ReadFault => "ReadFault",
            CapFault::Many => "Many",
        }
    }

    /// The offset of the fault, where it has one.
    #[tactic(auto, unfolding(crate::specs::Fault::offset_of))]
    pub fn offset(&self) -> Option<u64>
        ensures { result ≡ offset_of self.now }
    {
        match self {
            CapFault::Cut(at) | CapFault::Long(at) => Some(*at),
            _ => None,
        }
    }
}
