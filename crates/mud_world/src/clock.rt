//! Clocks.
ghost use Rattle.std.specs.Prelude.{◌≡◌, ℕ, List};
ghost use Rattle.mud_world.specs.Clock.{later_moments, next_moment};

use mud_base::Moment;

/// A clock. It can't fail.
pub trait Clock {
    /// Whether it tells its moments.
    ghost tells: { Type 0 };

    /// The moments that it will give, in seconds since 1970-01-01T00:00:00Z, where it tells them.
    /// The last one stays.
    ghost moments: { Self → List ℕ };

    /// The moment now.
    fn now(&mut self) -> Moment
        ensures moment { tells → result ≡ next_moment (moments self.old) }
        ensures later { tells → moments self.new ≡ later_moments (moments self.old) };
}
