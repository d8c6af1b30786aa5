//! Frames that pass or are dropped.
ghost use Rattle.std.specs.Prelude.{◌≡◌};
ghost use Rattle.mud_world.specs.Kept.{faults_of};
ghost use Rattle.mud_world.specs.Causes.{Counts};
ghost use Rattle.desk_model.specs.Sessions.{frame_in, IsNoted};
ghost use Rattle.mud_desk.specs.DeskState.{tables_of, session_of};
ghost use Rattle.mud_desk.specs.Stays.{StaysKept};
ghost use Rattle.desk_model.specs.Kept.{IsKept};
ghost use Rattle.console.specs.Replies.{reply, is_unavailable, IsOrFailed};
ghost use Rattle.console.specs.Requests.{by_verdict};

use crate::body::BodyText;
use crate::refusals::want_memory;
use crate::session::judge;
use console_answers::Status;
use mud_base::{Memory, Moment};
use mud_desk::Desk;
use mud_world::Keeper;

/// Judges a frame. Memory is wanted only for a TCP packet of a Thing that is forwarded.
pub(crate) fn answer_frame<K: Keeper>(
    desk: &mut Desk<K>,
    body: &mut BodyText,
    frame: &[u8],
    given: Moment,
) -> Status
    requires kept { IsKept ⟦<K as Keeper>⟧ desk.old.keeper (tables_of desk.old.state) }
    ensures reply { IsOrFailed ⊥ (session_of desk.old.state) (by_verdict (frame_in (session_of desk.old.state) given frame.now))
        (reply result body.new) (session_of desk.new.state) }
    ensures wanted { result ≡ Status.NoStorage → IsNoted (session_of desk.old.state) given frame.now }
    ensures stays { StaysKept ⟦<K as Keeper>⟧ desk.old desk.new }
    ensures cause { Counts (is_unavailable result) (faults_of ⟦<K as Keeper>⟧ desk.old.keeper) (faults_of ⟦<K as Keeper>⟧ desk.new.keeper) }
{
    match judge(desk, frame, given) {
        Ok(verdict) => {
            body.write_verdict(&verdict);
            Status::Done
        }
        Err(Memory) => want_memory(body),
    }
}
