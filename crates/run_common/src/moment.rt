//! The moment at which a store is listed.
ghost use Rattle.std.specs.Prelude.{◌≡◌};
ghost use Rattle.run_common.specs.Moments as spec;

use mud_base::Moment;

/// The later of the moment of the store's last change and of that which the clock gave, in seconds
/// since 1970. Where there is neither it is the first moment.
#[tactic(auto, unfolding(crate::specs::Moments::listing_moment))]
pub fn listing_moment(stamp: Option<Moment>, clock: Option<Moment>) -> Moment
    ensures { result ≡ spec.listing_moment stamp clock }
{
    let first = Moment::at_most_last(0);
    stamp.unwrap_or(first).max(clock.unwrap_or(first))
}
