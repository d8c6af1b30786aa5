//! Moments and expiries, in whole seconds.
ghost use Rattle.std.specs.Prelude.{◌≡◌, ◌≤◌, min, SomeIff};

use std::marker::Model;

/// A moment: whole seconds since 1970-01-01T00:00:00Z, at most [`Moment::LAST`]. Contracts see it
/// as that number.
#[derive(Clone, Copy, Debug, PartialEq, Eq, PartialOrd, Ord)]
pub struct Moment(u64);

impl Model for Moment {
    ghost use Rattle.std.specs.Prelude.{ℕ, ◌≤◌};

    ghost Value = { ℕ };

    ghost view = { λ m. m.0 };

    ghost invariant = { λ m. m.0 ≤ 253402300799 };

    ghost inverse = { λ n. record { 0 = n } };
}

impl Moment {
    /// The last moment, 9999-12-31T23:59:59Z, in seconds.
    pub const LAST: u64 = 253_402_300_799;

    /// The moment so many seconds after 1970-01-01T00:00:00Z, or None above [`Moment::LAST`].
    pub fn new(seconds: u64) -> Option<Moment>
        ensures { SomeIff result (seconds ≤ 253402300799) seconds }
    {
        if seconds <= Moment::LAST {
            Some(Moment(seconds))
        } else {
            None
        }
    }

    /// The moment so many seconds after 1970-01-01T00:00:00Z, or the last one where that is later.
    pub fn at_most_last(seconds: u64) -> Moment
        ensures { result ≡ min seconds 253402300799 }
    {
        Moment(seconds.min(Moment::LAST))
    }

    /// The seconds since 1970-01-01T00:00:00Z.
    pub fn seconds(&self) -> u64
        ensures value { result ≡ self.now }
        ensures range { result ≤ 253402300799 }
    {
        self.0
    }
}

/// When something expires, in seconds like a [`Moment`]; [`End::NEVER`] means for ever. Contracts
/// see it as that number.
#[derive(Clone, Copy, PartialEq, Eq, PartialOrd, Ord)]
pub struct End(pub u64);

impl Model for End {
    ghost use Rattle.std.specs.Prelude.{ℕ};

    ghost Value = { ℕ };

    ghost view = { λ e. e.0 };

    ghost inverse = { λ n. record { 0 = n } };
}

impl End {
    /// The expiry of what lasts for ever.
    pub const NEVER: u64 = u64::MAX;
}
