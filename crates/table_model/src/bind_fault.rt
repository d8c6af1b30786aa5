//! Why a command on classes, local networks or names is refused.
ghost use Rattle.std.specs.Prelude.{◌≡◌};

use mud_base::Memory;

/// Why a command on classes, local networks or names is refused. A refusal changes nothing.
#[derive(Clone, Copy)]
pub enum BindFault {
    /// Memory was wanted and there was none.
    Memory,
    /// The class isn't kept, and 256 are.
    ClassesFull,
    /// The class has 64 other addresses.
    ClassFull,
    /// The class doesn't have the address.
    NotBound,
    /// More than 64 distinct prefixes are named.
    LocalsFull,
    /// The name isn't kept, 4,096 names are, and each of them has a live address.
    NamesFull,
    /// The name has 64 other live addresses.
    NameFull,
}

impl From<Memory> for BindFault {
    ghost use Rattle.table_model.specs.declared.bind_fault.BindFault.TheVariants.{Memory};

    ghost from_gives = { λ _ fault. fault ≡ Memory };

    fn from(_memory: Memory) -> BindFault {
        BindFault::Memory
    }
}

impl BindFault {
    ghost use Rattle.table_model.specs.FaultNames.{number_of_bind_fault, name_of_bind_fault};

    /// The number of the refusal, from 1 to 6. Want of memory has none, and gives 0.
    #[tactic(auto, unfolding(crate::specs::FaultNames::number_of_bind_fault))]
    pub fn number(&self) -> u8
        ensures { result ≡ number_of_bind_fault self.now }
    {
        match self {
            BindFault::Memory => 0,
            BindFault::ClassesFull => 1,
            BindFault::ClassFull => 2,
            BindFault::NotBound => 3,
            BindFault::LocalsFull => 4,
            BindFault::NamesFull => 5,
            BindFault::NameFull => 6,
        }
    }

    /// The name of the refusal, as it is written.
    #[tactic(auto, unfolding(crate::specs::FaultNames::name_of_bind_fault))]
    pub fn name(&self) -> &'static str
        ensures { result.now ≡ name_of_bind_fault self.now }
    {
        match self {
            BindFault::Memory => "Memory",
            BindFault::ClassesFull => "ClassesFull",
            BindFault::ClassFull => "ClassFull",
            BindFault::NotBound => "NotBound",
            BindFault::LocalsFull => "LocalsFull",
            BindFault::NamesFull => "NamesFull",
            BindFault::NameFull => "NameFull",
        }
    }
}
