//! No clock.
use mud_base::Moment;
use mud_world::Clock;

/// What stands for the clock where each request gives its own moment. It has no moments: asked for
/// one, it would answer 0.
#[derive(Drop)]
pub(crate) struct NoClock;

impl Clock for NoClock {
    ghost use Rattle.std.specs.Prelude.{[]};

    ghost tells = { Unit {0} };

    ghost moments = { λ _. [] };

    fn now(&mut self) -> Moment {
        Moment::at_most_last(0)
    }
}
