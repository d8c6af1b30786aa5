//! Why a command on Things is refused.
ghost use Rattle.std.specs.Prelude.{◌≡◌};

use mud_base::Memory;

/// Why a command on Things is refused. A refusal changes nothing.
#[derive(Clone, Copy)]
pub enum ThingFault {
    /// Memory was wanted and there was none.
    Memory,
    /// An unknown hardware address announces a URL, and 512 Things are kept.
    ThingsFull,
    /// No Thing has the hardware address.
    NoThing,
    /// The URL isn't the one that waits for the operator.
    NoPending,
    /// The Thing has four live leases of other addresses.
    LeasesFull,
    /// No Thing has the address.
    NoLease,
}

impl From<Memory> for ThingFault {
    ghost use Rattle.table_model.specs.declared.thing_fault.ThingFault.TheVariants.{Memory};

    ghost from_gives = { λ _ fault. fault ≡ Memory };

    fn from(_memory: Memory) -> ThingFault {
        ThingFault::Memory
    }
}

impl ThingFault {
    ghost use Rattle.table_model.specs.FaultNames.{number_of_thing_fault, name_of_thing_fault};

    /// The number of the refusal, from 1 to 5. Want of memory has none, and gives 0.
    #[tactic(auto, unfolding(crate::specs::FaultNames::number_of_thing_fault))]
    pub fn number(&self) -> u8
        ensures { result ≡ number_of_thing_fault self.now }
    {
        match self {
            ThingFault::Memory => 0,
            ThingFault::ThingsFull => 1,
            ThingFault::NoThing => 2,
            ThingFault::NoPending => 3,
            ThingFault::LeasesFull => 4,
            ThingFault::NoLease => 5,
        }
    }

    /// The name of the refusal, as it is written.
    #[tactic(auto, unfolding(crate::specs::FaultNames::name_of_thing_fault))]
    pub fn name(&self) -> &'static str
        ensures { result.now ≡ name_of_thing_fault self.now }
    {
        match self {
            ThingFault::Memory => "Memory",
            ThingFault::ThingsFull => "ThingsFull",
            ThingFault::NoThing => "NoThing",
            ThingFault::NoPending => "NoPending",
            ThingFault::LeasesFull => "LeasesFull",
            ThingFault::NoLease => "NoLease",
        }
    }
}
