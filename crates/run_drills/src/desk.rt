//! A drill over a desk that is opened.
ghost use Rattle.std.specs.Prelude.{◌≡◌, IfOk, [], ◌∷◌};
ghost use Rattle.mud_world.specs.Door.{put_out};
ghost use Rattle.run_common.specs.Ends.{IsStoppedWriting};
ghost use Rattle.run_common.specs.Output.{WroteFirst};
ghost use Rattle.run_common.specs.Status.{Is, IsNot, IsOneOf, status_number};
ghost use Rattle.run_common.specs.declared.status.Status.TheVariants.{Done, Refused, DoorFailed, NoMemory, KeeperFailed};
ghost use Rattle.desk_model.specs.Kept.{IsKept};
ghost use Rattle.mud_desk.specs.DeskState.{tables_of, session_of};
ghost use Rattle.run_drills.specs.Counts.{count_lines, verdict_counts};
ghost use Rattle.run_drills.specs.Drill.{lines_in, numbers_to, verdicts_on};
ghost use Rattle.run_drills.specs.Store as spec;
ghost use Rattle.run_drills.specs.Store.{DrillsFrom, not_empty_line};

use crate::counts::append_counts;
use crate::judging::judge_packets;
use crate::running::run_commands;
use mud_base::{Bytes, Memory};
use mud_desk::{Desk, State};
use mud_world::{Door, Failed, Keeper, say};
use run_common::Status;
use std::alloc::Global;

/// What is written of a store that holds something.
const NOT_EMPTY: &[u8] = b"fault NotEmpty\n";

/// Whether a desk holds nothing, and nothing of it was ever changed.
#[tactic(auto, unfolding(crate::specs::Store::holds_nothing))]
pub(crate) fn holds_nothing<K: Keeper>(desk: &Desk<K>) -> bool
    ensures { result ≡ spec.holds_nothing (tables_of desk.now.state) }
{
    desk.things().is_empty()
        && desk.files().is_empty()
        && desk.classes().is_empty()
        && desk.locals().is_empty()
        && desk.names().is_empty()
        && desk.stamp().is_none()
}

/// Refuses a desk that holds something. The keeper is handed back.
pub(crate) fn refuse_full<K: Keeper, D: Door>(desk: Desk<K>, door: &mut D) -> (Status, K)
    requires { IsKept ⟦<K as Keeper>⟧ desk.keeper (tables_of desk.state) }
    ensures statuses { IsOneOf (Refused ∷ DoorFailed ∷ []) (status_number result.0) }
    ensures fault { Is DoorFailed (status_number result.0) → IsStoppedWriting (D.view door.old) (D.view door.new) }
    ensures steady { IsNot DoorFailed (status_number result.0) → (D.view door.new).writes ≡ (D.view door.old).writes }
    ensures done { D.tells → Is Refused (status_number result.0) → (D.view door.new).state ≡ put_out not_empty_line (D.view door.old).state }
    ensures part { D.tells → Is DoorFailed (status_number result.0) → WroteFirst not_empty_line (D.view door.old).state (D.view door.new).state }
    ensures keeper { result.1 ≡ desk.keeper }
    ensures turns { (D.view door.new).turns ≡ (D.view door.old).turns }
    ensures reads { (D.view door.new).reads ≡ (D.view door.old).reads }
{
    let keeper = desk.close();
    match say(door, NOT_EMPTY) {
        Ok(()) => (Status::Refused, keeper),
        Err(Failed) => (Status::DoorFailed, keeper),
    }
}

/// The lines of a drill: so many Things and usage files, and what came of the packets.
fn lines_of(
    alloc: Global,
    things: u64,
    files: u64,
    packets: u32,
    state: &mut State,
) -> Result<Bytes, Memory>
    ensures { IfOk result (λ lines. lines ≡
        count_lines things files packets (verdict_counts (verdicts_on packets (session_of state.old) (numbers_to packets)))) }
{
    let counts = judge_packets(alloc, state, packets)?;
    let mut lines = Bytes::empty(alloc);
    append_counts(&mut lines, things, files, u64::from(packets), &counts)?;
    Ok(lines)
}

/// Judges the packets in the session that a desk is in, and writes the lines. The keeper is handed back,
/// and the keeper isn't called.
fn write_lines<K: Keeper, D: Door>(
    alloc: Global,
    desk: Desk<K>,
    packets: u32,
    door: &mut D,
) -> (Status, K)
    requires { IsKept ⟦<K as Keeper>⟧ desk.keeper (tables_of desk.state) }
    ensures statuses { IsOneOf (Done ∷ DoorFailed ∷ NoMemory ∷ []) (status_number result.0) }
    ensures fault { Is DoorFailed (status_number result.0) → IsStoppedWriting (D.view door.old) (D.view door.new) }
    ensures steady { IsNot DoorFailed (status_number result.0) → (D.view door.new).writes ≡ (D.view door.old).writes }
    ensures done { D.tells → Is Done (status_number result.0) →
        (D.view door.new).state ≡ put_out (lines_in packets (session_of desk.state)) (D.view door.old).state }
    ensures part { D.tells → IsOneOf (DoorFailed ∷ NoMemory ∷ []) (status_number result.0) →
        WroteFirst (lines_in packets (session_of desk.state)) (D.view door.old).state (D.view door.new).state }
    ensures keeper { result.1 ≡ desk.keeper }
    ensures turns { (D.view door.new).turns ≡ (D.view door.old).turns }
    ensures reads { (D.view door.new).reads ≡ (D.view door.old).reads }
{
    let things = desk.things().len() as u64;
    let files = desk.files().len() as u64;
    let (keeper, mut state) = desk.into_parts();
    let Ok(lines) = lines_of(alloc, things, files, packets, &mut state) else {
        drop(state);
        return (Status::NoMemory, keeper);
    };
    drop(state);
    match say(door, lines.octets()) {
        Ok(()) => (Status::Done, keeper),
        Err(Failed) => (Status::DoorFailed, keeper),
    }
}

/// Runs the commands of a drill over a desk, and then judges the packets and writes the lines. The keeper
/// is handed back.
pub(crate) fn drill_desk<K: Keeper, D: Door>(
    alloc: Global,
    desk: Desk<K>,
    packets: u32,
    door: &mut D,
) -> (Status, K)
    requires { IsKept ⟦<K as Keeper>⟧ desk.keeper (tables_of desk.state) }
    ensures drilled { DrillsFrom ⟦<K as Keeper>⟧ D.tells packets (session_of desk.state) desk.keeper result.1
        (D.view door.old)
        (D.view door.new)
        (status_number result.0) }
    ensures untouched { Is KeeperFailed (status_number result.0) → door.new ≡ door.old }
{
    let mut desk = desk;
    let ran = run_commands(alloc, &mut desk, packets);
    desk.lists_are_sound();
    match ran {
        Ok(()) => write_lines(alloc, desk, packets, door),
        Err(stop) => (stop.status(), desk.close()),
    }
}
