//! A clock in memory.
ghost use Rattle.std.specs.Prelude.{◌≡◌, ◌<◌, length};

use crate::clock::Clock;
use mud_base::{Listed, Moment};

/// A clock in memory. It gives its moments in order, and then the last one again and again.
#[derive(Drop)]
pub struct MemoryClock {
    /// The moments.
    pub moments: Listed<Moment>,
    at: usize,
    ghost within: { at < length moments },
}

#[tactic(auto, unfolding(crate::specs::MemoryClock::moments_left))]
impl MemoryClock {
    ghost use Rattle.mud_world.specs.MemoryClock.{moments_left};

    /// A clock of these moments.
    pub fn new(moments: Listed<Moment>) -> MemoryClock
        requires { 0 < length moments }
        ensures given { result.moments ≡ moments }
        ensures left { moments_left result ≡ moments }
    {
        MemoryClock { moments, at: 0 }
    }
}

#[tactic(auto, unfolding(crate::specs::MemoryClock::moments_left))]
impl Clock for MemoryClock {
    ghost use Rattle.mud_world.specs.Clock.{later_moments, next_moment};
    ghost use Rattle.mud_world.specs.MemoryClock.{moments_left};

    ghost tells = { Unit {0} };

    ghost moments = { moments_left };

    fn now(&mut self) -> Moment
        ensures moment { result ≡ next_moment (moments_left self.old) }
        ensures later { moments_left self.new ≡ later_moments (moments_left self.old) }
        ensures same { self.new.moments ≡ self.old.moments }
    {
        let moment = self.moments.as_slice()[self.at];
        if self.at + 1 < self.moments.len() {
            self.at += 1;
        }
        moment
    }
}
