//! Why a DNS message isn't read.
ghost use Rattle.std.specs.Prelude.{◌≡◌};

use mud_base::Memory;

/// Why a DNS message isn't read. Offsets count the octets of the message from 0.
#[derive(Clone, Copy)]
pub enum DnsFault {
    /// Memory was wanted and there was none.
    Memory,
    /// The octets end before the header does, which is the offset 0, within the label or pointer at
    /// this offset, or within the record that begins there; or the content of that record isn't of
    /// its type's form.
    Cut(usize),
    /// The message is no whole answer without an error to one question (RFC 1035, section 4.1.1).
    NotAnswer,
    /// The octet at this offset begins neither a label nor a pointer.
    Label(usize),
    /// The pointer at this offset doesn't lead before the run of labels that it ends.
    Pointer(usize),
    /// With the label at this offset a name has more than 255 octets (RFC 1035, section 2.3.4).
    NameLong(usize),
}

impl From<Memory> for DnsFault {
    ghost use Rattle.dns_snoop.specs.declared.fault.DnsFault.TheVariants.{Memory as Want};

    ghost from_gives = { λ _ fault. fault ≡ Want };

    fn from(_memory: Memory) -> DnsFault {
        DnsFault::Memory
    }
}

impl DnsFault {
    ghost use Rattle.dns_snoop.specs.Fault.{number_of, name_of, offset_of};

    /// The number of the fault, from 1 to 5. Want of memory has none, and gives 0.
    #[tactic(auto, unfolding(crate::specs::Fault::number_of))]
    pub fn number(&self) -> u8
        ensures { result ≡ number_of self.now }
    {
        match self {
            DnsFault::Memory => 0,
            DnsFault::Cut(_) => 1,
            DnsFault::NotAnswer => 2,
            DnsFault::Label(_) => 3,
            DnsFault::Pointer(_) => 4,
            DnsFault::NameLong(_) => 5,
        }
    }

    /// The name of the fault, as its variant is called.
    #[tactic(auto, unfolding(crate::specs::Fault::name_of))]
    pub fn name(&self) -> &'static str
        ensures { result.now ≡ name_of self.now }
    {
        match self {
            DnsFault::Memory => "Memory",
            DnsFault::Cut(_) => "Cut",
            DnsFault::NotAnswer => "NotAnswer",
            DnsFault::Label(_) => "Label",
            DnsFault::Pointer(_) => "Pointer",
            DnsFault::NameLong(_) => "NameLong",
        }
    }

    /// The offset of the fault in the message, where it has one.
    #[tactic(auto, unfolding(crate::specs::Fault::offset_of))]
    pub fn offset(&self) -> Option<usize>
        ensures { result ≡ offset_of self.now }
    {
        match self {
            DnsFault::Cut(at)
            | DnsFault::Label(at)
            | DnsFault::Pointer(at)
            | DnsFault::NameLong(at) => Some(*at),
            DnsFault::Memory | DnsFault::NotAnswer => None,
        }
    }
}
