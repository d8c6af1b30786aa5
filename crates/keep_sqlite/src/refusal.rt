//! Why a database didn't do what was asked, and how a keeper tells and counts it.
ghost use Rattle.std.specs.Prelude.{◌≡◌};
ghost use Rattle.mud_world.specs.Calls.{counted};
ghost use Rattle.mud_world.specs.Causes.{Counts};
ghost use Rattle.keep_sqlite.specs.Refusals.{fault_of, has_failed, refusal_of};

use mud_base::Memory;
use mud_world::KeepFault;
use sqlite::{Error, ErrorCode};

/// Why a database didn't do what was asked, as far as it tells.
#[derive(Clone, Copy, PartialEq, Eq)]
pub enum Refusal {
    /// Memory was wanted and there was none.
    Memory,
    /// Another program has the file open.
    InUse,
    /// The file can't be opened or made.
    CannotOpen,
    /// The file is no database, is damaged, or holds something else than items.
    NoStore,
    /// The disk is full.
    DiskFull,
    /// The disk failed.
    DiskFailed,
    /// An earlier failure of the disk shut the database.
    Shut,
    /// Any other error of the database.
    Other,
}

impl From<Memory> for Refusal {
    ghost use Rattle.keep_sqlite.specs.declared.refusal.Refusal.TheVariants.{Memory};

    ghost from_gives = { λ _ refusal. refusal ≡ Memory };

    fn from(_memory: Memory) -> Refusal {
        Refusal::Memory
    }
}

impl Refusal {
    /// What a person is told of it, behind the name of the file.
    pub(crate) fn text(self) -> &'static str {
        match self {
            Refusal::Memory => "there isn't enough memory",
            Refusal::InUse => "another program uses the store",
            Refusal::CannotOpen => {
                "the store can't be opened: its folder isn't there, or the file may not be read and written"
            }
            Refusal::NoStore => "it is no store, or it is damaged",
            Refusal::DiskFull => "the disk is full",
            Refusal::DiskFailed => "the disk failed",
            Refusal::Shut =>
                "the store is shut since its disk failed, until the program is started anew",
            Refusal::Other => "the store refused it",
        }
    }
}

/// What an error of the database says.
pub(crate) fn refusal_of(error: Error) -> Refusal
    ensures { result ≡ refusal_of error }
{
    let Error::SqliteFailure(code) = error else {
        return Refusal::Other;
    };
    match code {
        ErrorCode::OutOfMemory => Refusal::Memory,
        ErrorCode::DatabaseBusy => Refusal::InUse,
        ErrorCode::CannotOpen => Refusal::CannotOpen,
        ErrorCode::NotADatabase | ErrorCode::DatabaseCorrupt => Refusal::NoStore,
        ErrorCode::DiskFull => Refusal::DiskFull,
        ErrorCode::SystemIoFailure => Refusal::DiskFailed,
        ErrorCode::Closed => Refusal::Shut,
        _ => Refusal::Other,
    }
}

/// Want of memory is told as such, and anything else as a failure of the keeper.
pub(crate) fn fault_of(refusal: Refusal) -> KeepFault
    ensures { result ≡ fault_of refusal }
{
    match refusal {
        Refusal::Memory => KeepFault::Memory,
        _ => KeepFault::Failed,
    }
}

/// Counts a failure. A count that has reached the last u64 stays there.
pub(crate) fn count<T: Drop>(answer: &Result<T, Refusal>, faults: &mut u64)
    ensures value { faults.new ≡ counted (has_failed answer.now) faults.old }
    ensures cause { Counts (has_failed answer.now) faults.old faults.new }
{
    match answer {
        Ok(_) | Err(Refusal::Memory) => {}
        Err(_) => *faults = faults.saturating_add(1),
    }
}
