//! The machine's clock. What it shows is outside what is proved, so it tells no moments.
ghost use Rattle.std.specs.Prelude.{◌≡◌, ◌≤◌, ◌/◌, [], min, max, IfOk, OnErr};
ghost use Rattle.std.specs.Time.{system_time_nanos};
ghost use Rattle.io_system.specs.Real.{last_of};

use mud_base::Moment;
use mud_world::Clock;
use std::io;
use std::time::SystemTime;

/// The machine's clock, cut to the range of moments. It never goes back: where the machine's clock
/// was set back or can't be read, the last moment that it gave stays, and 0 before the first one.
#[derive(Drop)]
pub struct RealClock<R: std::rt::Clock + Drop> {
    runtime: R,
    last: Moment,
}

impl<R: std::rt::Clock + Drop> RealClock<R> {
    /// The clock of this runtime.
    pub fn new(runtime: R) -> RealClock<R>
        ensures runtime { result.runtime ≡ runtime }
        ensures last { last_of result ≡ 0 }
    {
        RealClock {
            runtime,
            last: Moment::at_most_last(0),
        }
    }
}

/// The moment of a time that a clock gave: its whole seconds since 1970, cut to the range of moments,
/// or 0 where the clock couldn't be read.
fn shown(time: io::Result<SystemTime>) -> Moment
    ensures time { IfOk time (λ t. result ≡ min (system_time_nanos t / 1000000000) 253402300799) }
    ensures unread { OnErr time (result ≡ 0) }
{
    let Ok(time) = time else {
        return Moment::at_most_last(0);
    };
    match time.duration_since(SystemTime::UNIX_EPOCH) {
        Ok(since) => Moment::at_most_last(since.as_secs()),
        Err(_) => Moment::at_most_last(0),
    }
}

/// The later of two moments.
fn later(last: Moment, shown: Moment) -> Moment
    ensures { result ≡ max last shown }
{
    if last.seconds() < shown.seconds() {
        shown
    } else {
        last
    }
}

impl<R: std::rt::Clock + Drop> Clock for RealClock<R> {
    ghost tells = { ⊥ };

    ghost moments = { λ _. [] };

    /// It is no earlier than the last one.
    fn now(&mut self) -> Moment
        ensures never_back { last_of self.old ≤ result }
        ensures kept { last_of self.new ≡ result }
    {
        self.last = later(self.last, shown(SystemTime::now(&self.runtime)));
        self.last
    }
}
