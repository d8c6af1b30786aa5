//! Why a desk can't be opened.
ghost use Rattle.std.specs.Prelude.{◌≡◌};

use mud_base::{Bytes, Memory};
use mud_world::KeepFault;

/// Why a desk can't be opened over a keeper.
#[derive(Drop)]
pub enum OpenFault {
    /// The keeper failed. Its count of failures rose in that call.
    Keeper,
    /// Memory was wanted and there was none.
    Memory,
    /// The kind and the key of the first item, in the keeper's order, that is no record.
    BadItem(u8, Bytes),
}

impl OpenFault {
    ghost use Rattle.mud_desk.specs.Items.Opening.{number_of_open_fault};

    /// Its number, from 1 to 3.
    pub fn number(&self) -> u8
        ensures { result ≡ number_of_open_fault self.now }
    {
        match self {
            OpenFault::Keeper => 1,
            OpenFault::Memory => 2,
            OpenFault::BadItem(_, _) => 3,
        }
    }
}

impl From<Memory> for OpenFault {
    ghost use Rattle.std.specs.Prelude.{◌≡◌};
    ghost use Rattle.mud_desk.specs.declared.items.fault.OpenFault.TheVariants.{Memory};

    ghost from_gives = { λ _ fault. fault ≡ Memory };

    fn from(_memory: Memory) -> OpenFault {
        OpenFault::Memory
    }
}

impl From<KeepFault> for OpenFault {
    ghost use Rattle.std.specs.Prelude.{◌≡◌};
    ghost use Rattle.mud_desk.specs.Items.Opening.{open_fault};

    ghost from_gives = { λ fault opened. opened ≡ open_fault fault };

    fn from(fault: KeepFault) -> OpenFault {
        match fault {
            KeepFault::Failed => OpenFault::Keeper,
            KeepFault::Memory => OpenFault::Memory,
        }
    }
}
