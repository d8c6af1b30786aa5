//! Why a call of the outside didn't succeed.
ghost use Rattle.std.specs.Prelude.{◌≡◌};

use mud_base::Memory;

/// The door itself failed. Its count of such failures rose in that call.
#[derive(Clone, Copy)]
pub struct Failed;

/// Why a call of a spool didn't succeed.
#[derive(Clone, Copy)]
pub enum SpoolFault {
    /// The spool itself failed, or has no file of that name. Its count of failures rose in that
    /// call.
    Failed,
    /// Memory was wanted and there was none.
    Memory,
}

impl From<Memory> for SpoolFault {
    ghost use Rattle.mud_world.specs.declared.fault.SpoolFault.TheVariants.{Memory};

    ghost from_gives = { λ _ fault. fault ≡ Memory };

    fn from(_memory: Memory) -> SpoolFault {
        SpoolFault::Memory
    }
}

/// Why a call of a keeper didn't succeed.
#[derive(Clone, Copy, Debug)]
pub enum KeepFault {
    /// The keeper itself failed. Its count of failures rose in that call.
    Failed,
    /// Memory was wanted and there was none.
    Memory,
}

impl From<Memory> for KeepFault {
    ghost use Rattle.mud_world.specs.declared.fault.KeepFault.TheVariants.{Memory};

    ghost from_gives = { λ _ fault. fault ≡ Memory };

    fn from(_memory: Memory) -> KeepFault {
        KeepFault::Memory
    }
}
