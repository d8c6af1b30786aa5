//! The status of a run.
ghost use Rattle.std.specs.Prelude.{◌≡◌};
ghost use Rattle.run_common.specs.Status.{status_number};

/// How a run of the program ended. Its number is the program's exit status.
#[derive(Clone, Copy)]
pub enum Status {
    /// The input was read to its end.
    Done,
    /// The words are no listed line.
    Unlisted,
    /// The input breaks a rule of its reader.
    Refused,
    /// The door failed.
    DoorFailed,
    /// Memory was wanted and there was none.
    NoMemory,
    /// An item of the store is no record.
    BadItem,
    /// The keeper of the store failed.
    KeeperFailed,
}

impl Status {
    /// The number of the status: 0, or 2 to 7.
    pub fn number(self) -> u8
        ensures { result ≡ status_number self }
    {
        match self {
            Status::Done => 0,
            Status::Unlisted => 2,
            Status::Refused => 3,
            Status::DoorFailed => 4,
            Status::NoMemory => 5,
            Status::BadItem => 6,
            Status::KeeperFailed => 7,
        }
    }
}
