//! What can be wrong with the fields of an item.
ghost use Rattle.std.specs.Prelude.{◌≡◌};

/// Why a field couldn't be read. The reader is then as it was before.
#[derive(Clone, Copy)]
pub enum CodecFault {
    /// Fewer octets are left than the field needs.
    Short,
    /// The version octet is 0, or above the version that is asked for.
    Version,
    /// Octets are left where there should be none.
    Tail,
}

impl CodecFault {
    ghost use Rattle.item_codec.specs.Fault.{number_of_fault};

    /// The number of the fault, from 1 to 3.
    #[tactic(auto, unfolding(crate::specs::Fault::number_of_fault))]
    pub fn number(&self) -> u8
        ensures { result ≡ number_of_fault self.now }
    {
        match self {
            CodecFault::Short => 1,
            CodecFault::Version => 2,
            CodecFault::Tail => 3,
        }
    }
}
