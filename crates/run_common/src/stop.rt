//! Why a run ends early.
ghost use Rattle.std.specs.Prelude.{◌≡◌};
ghost use Rattle.run_common.specs.Status.{status_number};

use crate::status::Status;
use mud_base::Memory;
use mud_world::{Failed, SpoolFault};

/// Why a run ends before all of it is done.
#[derive(Clone, Copy)]
pub enum Stop {
    /// The spool or the door failed. Its count of failures rose.
    Failed,
    /// Memory was wanted and there was none.
    Memory,
}

impl From<Failed> for Stop {
    ghost use Rattle.run_common.specs.declared.stop.Stop.TheVariants.{Failed};

    ghost from_gives = { λ _ stop. stop ≡ Failed };

    fn from(_failed: Failed) -> Stop {
        Stop::Failed
    }
}

impl From<SpoolFault> for Stop {
    ghost use Rattle.run_common.specs.Stops.{stop_at};

    ghost from_gives = { λ fault stop. stop ≡ stop_at fault };

    fn from(fault: SpoolFault) -> Stop {
        match fault {
            SpoolFault::Failed => Stop::Failed,
            SpoolFault::Memory => Stop::Memory,
        }
    }
}

impl From<Memory> for Stop {
    ghost use Rattle.run_common.specs.declared.stop.Stop.TheVariants.{Memory};

    ghost from_gives = { λ _ stop. stop ≡ Memory };

    fn from(_memory: Memory) -> Stop {
        Stop::Memory
    }
}

impl Stop {
    ghost use Rattle.run_common.specs.Stops.{status_at};

    /// The status of a run that ends so.
    pub fn status(self) -> Status
        ensures { status_number result ≡ status_at self }
    {
        match self {
            Stop::Failed => Status::DoorFailed,
            Stop::Memory => Status::NoMemory,
        }
    }
}
