//! Why the packets of a capture end.
ghost use Rattle.std.specs.Prelude.{◌≡◌};

use mud_world::Failed;

/// Why a capture is refused, or ends before its octets do. Offsets count the octets of the capture
/// from 0, and name the beginning of a block.
#[derive(Clone, Copy)]
pub enum NgFault {
    /// The first block is no section header, or the magic number of a section header has neither
    /// order of octets.
    Magic(u64),
    /// The version of a section is neither 1.0 nor 1.2.
    Version(u64),
    /// The link type of a packet's interface isn't Ethernet.
    LinkType(u64),
    /// The octets end within a block.
    Cut(u64),
    /// A section, an interface or a packet has more than 524,288 octets, or more than 262,144
    /// octets were captured of a packet.
    Long(u64),
    /// The source failed. Its count of failed reads rose in the call that answered this first.
    ReadFault,
    /// More octets come behind 100,000,000 blocks, or a section has more than 64 interfaces.
    Many(u64),
    /// The lengths of a block don't fit together, or are fewer than its type has.
    Length(u64),
    /// A packet stands in a block of another form (types 2 and 3).
    PacketForm(u64),
    /// An interface counts its time in units that aren't read, or from another moment than 1970.
    Resolution(u64),
    /// The section has no interface of a packet's number.
    Interface(u64),
    /// The seconds of a packet's time are more than 4,294,967,295.
    Late(u64),
}

impl From<Failed> for NgFault {
    ghost use Rattle.pcapng_read.specs.declared.fault.NgFault.TheVariants.{ReadFault};

    ghost from_gives = { λ _ fault. fault ≡ ReadFault };

    fn from(_failed: Failed) -> NgFault {
        NgFault::ReadFault
    }
}

impl NgFault {
    ghost use Rattle.pcapng_read.specs.Fault.{number_of, name_of, offset_of};

    /// The number of the fault, from 1 in the order of the variants.
    #[tactic(auto, unfolding(crate::specs::Fault::number_of))]
    pub fn number(&self) -> u8
        ensures { result ≡ number_of self.now }
    {
        match self {
            NgFault::Magic(_) => 1,
            NgFault::Version(_) => 2,
            NgFault::LinkType(_) => 3,
            NgFault::Cut(_) => 4,
            NgFault::Long(_) => 5,
            NgFault::ReadFault => 6,
            NgFault::Many(_) => 7,
            NgFault::Length(_) => 8,
            NgFault::PacketForm(_) => 9,
            NgFault::Resolution(_) => 10,
            NgFault::Interface(_) => 11,
            NgFault::Late(_) => 12,
        }
    }

    /// The name of the fault, as its variant is called.
    #[tactic(auto, unfolding(crate::specs::Fault::name_of))]
    pub fn name(&self) -> &'static str
        ensures { result.now ≡ name_of self.now }
    {
        match self {
            NgFault::Magic(_) => "Magic",
            NgFault::Version(_) => "Version",
            NgFault::LinkType(_) => "LinkType",
            NgFault::Cut(_) => "Cut",
            NgFault::Long(_) => "Long",
            NgFault::ReadFault => "ReadFault",
            NgFault::Many(_) => "Many",
            NgFault::Length(_) => "Length",
            NgFault::PacketForm(_) => "PacketForm",
            NgFault::Resolution(_) => "Resolution",
            NgFault::Interface(_) => "Interface",
            NgFault::Late(_) => "Late",
        }
    }

    /// The offset of the fault, where it has one.
    #[tactic(auto, unfolding(crate::specs::Fault::offset_of))]
    pub fn offset(&self) -> Option<u64>
        ensures { result ≡ offset_of self.now }
    {
        match self {
            NgFault::ReadFault => None,
            NgFault::Magic(at)
            | NgFault::Version(at)
            | NgFault::LinkType(at)
            | NgFault::Cut(at)
            | NgFault::Long(at)
            | NgFault::Many(at)
            | NgFault::Length(at)
            | NgFault::PacketForm(at)
            | NgFault::Resolution(at)
            | NgFault::Interface(at)
            | NgFault::Late(at) => Some(*at),
        }
    }
}
