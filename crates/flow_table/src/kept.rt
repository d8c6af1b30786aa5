//! What is kept of a connection, and what follows from it.
ghost use Rattle.std.specs.Prelude.{◌≡◌, ◌-◌, nat_le};
ghost use Rattle.table_model.specs.Limits.{most};
ghost use Rattle.flow_table.specs.Kept as spec;

use mud_base::Moment;
use table_model::limits::MOST_PAUSE;
use table_model::{Endpoint, Segment};

/// Who began a connection, and the moment of its last packet.
pub type Begun = (Endpoint, Moment);

/// Who began a connection, by what is kept of it: nobody where its last packet was more than
/// [`MOST_PAUSE`] seconds ago.
#[tactic(auto, unfolding(crate::specs::Kept::beginner_kept))]
pub(crate) fn beginner_kept(kept: Option<Begun>, now: Moment) -> Option<Endpoint>
    ensures { result ≡ spec.beginner_kept kept now }
{
    match kept {
        Some((began, at)) => { if is_kept(at, now) { Some(began) } else { None } }
        None => None,
    }
}

/// Whether a connection whose last packet was at this moment is kept at a later one: that was no more
/// than [`MOST_PAUSE`] seconds ago.
pub(crate) fn is_kept(at: Moment, now: Moment) -> bool
    ensures { result ≡ nat_le (now - at) most.pause }
{
    now.seconds().saturating_sub(at.seconds()) <= MOST_PAUSE
}

/// What is kept of two endpoints after a packet between them: [`keep_up`].
pub(crate) fn kept_after(packet: &Segment, kept: Option<Begun>) -> Option<Begun>
    ensures { result ≡ spec.kept_after packet.now kept }
{
    let mut kept = kept;
    keep_up(&mut kept, packet);
    kept
}

/// Writes what is kept of two endpoints after a packet between them in place of what was kept: a
/// packet that opens begins the connection anew, one that resets ends it, and each other one keeps it
/// up, for which the moment alone is written.
#[tactic(auto, unfolding(crate::specs::Kept::kept_after, crate::specs::Kept::beginner_kept, table_model::specs::History::with_moment))]
fn keep_up(kept: &mut Option<Begun>, packet: &Segment)
    ensures { kept.new ≡ spec.kept_after packet.now kept.old }
{
    if packet.opens() {
        *kept = Some((packet.source, packet.at));
        return;
    }
    if packet.resets() {
        *kept = None;
        return;
    }
    if let Some((_, at)) = kept {
        if is_kept(*at, packet.at) {
            *at = packet.at;
        } else {
            *kept = None;
        }
    }
}
