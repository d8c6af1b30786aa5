//! Calls of a desk as they are seen in its session.
ghost use Rattle.std.specs.Prelude.{◌≡◌, ◌<◌, max};
ghost use Rattle.mud_world.specs.Kept.{faults_of};
ghost use Rattle.desk_model.specs.Sessions.{AllowedVerdict, raised};
ghost use Rattle.mud_desk.specs.DeskState.{tables_of, session_of};
ghost use Rattle.mud_desk.specs.Stays.{StaysKept};
ghost use Rattle.desk_model.specs.Kept.{IsKept};

use mud_base::{Memory, Moment};
use mud_desk::Desk;
use mud_world::Keeper;
use packet_judge::Verdict;

/// The later of two moments.
pub(crate) fn later(a: Moment, b: Moment) -> Moment
    ensures { result ≡ max a b }
{
    if a.seconds() < b.seconds() { b } else { a }
}

/// Makes the later of the session's moment and this one the moment of the session.
#[tactic(auto, unfolding(mud_desk::specs::DeskState::session_of, mud_desk::specs::DeskState::tables_of, desk_model::specs::Sessions::raised, desk_model::specs::Sessions::later))]
pub(crate) fn raise<K: Keeper>(desk: &mut Desk<K>, given: Moment)
    requires kept { IsKept ⟦<K as Keeper>⟧ desk.old.keeper (tables_of desk.old.state) }
    ensures raised { session_of desk.new.state ≡ raised (session_of desk.old.state) given }
    ensures stays { StaysKept ⟦<K as Keeper>⟧ desk.old desk.new }
    ensures steady { faults_of ⟦<K as Keeper>⟧ desk.new.keeper ≡ faults_of ⟦<K as Keeper>⟧ desk.old.keeper }
{
    let _moment = desk.raise(given);
}

/// Judges a frame.
pub(crate) fn judge<K: Keeper>(
    desk: &mut Desk<K>,
    frame: &[u8],
    given: Moment,
) -> Result<Verdict, Memory>
    requires kept { IsKept ⟦<K as Keeper>⟧ desk.old.keeper (tables_of desk.old.state) }
    ensures judged { AllowedVerdict (session_of desk.old.state) given frame.now result (session_of desk.new.state) }
    ensures stays { StaysKept ⟦<K as Keeper>⟧ desk.old desk.new }
    ensures steady { faults_of ⟦<K as Keeper>⟧ desk.new.keeper ≡ faults_of ⟦<K as Keeper>⟧ desk.old.keeper }
{
    match desk.judge_frame(frame, given) {
        Ok(judged) => Ok(judged.verdict),
        Err(Memory) => Err(Memory),
    }
}
