//! Why a drill ends early.
ghost use Rattle.std.specs.Prelude.{◌≡◌};
ghost use Rattle.run_common.specs.Status.{status_number};

use mud_base::Memory;
use mud_world::Keeper;
use run_common::Status;

/// Why a drill ends before all its commands ran, or before its lines were made.
#[derive(Clone, Copy)]
pub(crate) enum Stop {
    /// The keeper failed. Its count of failures rose.
    Keeper,
    /// Memory was wanted and there was none.
    Memory,
}

impl From<Memory> for Stop {
    ghost use Rattle.run_drills.specs.declared.stop.Stop.TheVariants.{Memory};

    ghost from_gives = { λ _ stop. stop ≡ Memory };

    fn from(_memory: Memory) -> Stop {
        Stop::Memory
    }
}

impl Stop {
    ghost use Rattle.run_drills.specs.Stops.{status_at};

    /// The status of a drill that ends so.
    pub(crate) fn status(self) -> Status
        ensures { status_number result ≡ status_at self }
    {
        match self {
            Stop::Keeper => Status::KeeperFailed,
            Stop::Memory => Status::NoMemory,
        }
    }
}
