//! One of the tables of a desk, written to a door.
ghost use Rattle.std.specs.Prelude.{◌≡◌, false, OnOk, OnErr, IsTrue, [], ◌∷◌};
ghost use Rattle.mud_world.specs.Causes.{Counts};
ghost use Rattle.mud_world.specs.Door.{put_out};
ghost use Rattle.desk_model.specs.Kept.{IsKept};
ghost use Rattle.mud_desk.specs.DeskState.{tables_of};
ghost use Rattle.run_common.specs.Ends.{IsStoppedWriting};
ghost use Rattle.run_common.specs.Output.{WroteFirst};
ghost use Rattle.run_common.specs.Status.{Is, IsNot, IsOneOf, status_number};
ghost use Rattle.run_common.specs.declared.status.Status.TheVariants.{Done, DoorFailed, NoMemory};
ghost use Rattle.run_common.specs.Stops.{has_failed};
ghost use Rattle.run_reports.specs.Store.{WritesTable};
ghost use Rattle.run_reports.specs.Tables.{clock_for, moments_after, table_text};
ghost use Rattle.run_reports.specs.Tables as spec;

use crate::rows::{write_due, write_rows};
use mud_base::Moment;
use mud_desk::Desk;
use mud_world::{Clock, Door, Keeper};
use run_common::{Status, Stop, listing_moment};
use run_words::ReportKind;
use std::alloc::Global;

/// Whether a table needs the moment now.
fn asks_clock(kind: ReportKind) -> bool
    ensures { result ≡ spec.asks_clock kind }
{
    match kind {
        ReportKind::Due => true,
        ReportKind::Things
        | ReportKind::Files
        | ReportKind::Classes
        | ReportKind::Locals
        | ReportKind::Names => false,
    }
}

/// What the clock gives, where the table needs it; else it isn't asked.
#[tactic(auto, unfolding(crate::specs::Tables::clock_for, crate::specs::Tables::moments_after))]
fn ask_clock<C: Clock>(kind: ReportKind, clock: &mut C) -> Option<Moment>
    ensures moment { C.tells → result ≡ clock_for kind (C.moments clock.old) }
    ensures later { C.tells → C.moments clock.new ≡ moments_after kind (C.moments clock.old) }
    ensures unasked { spec.asks_clock kind ≡ false → clock.new ≡ clock.old }
{
    if asks_clock(kind) {
        Some(clock.now())
    } else {
        None
    }
}

/// Writes a table of the desk, a row after the other.
#[tactic(auto, unfolding(crate::specs::Tables::table_text))]
fn write_table<K: Keeper, D: Door>(
    alloc: Global,
    desk: &Desk<K>,
    kind: ReportKind,
    clock: Option<Moment>,
    door: &mut D,
) -> Result<(), Stop>
    ensures ok { D.tells → OnOk result ((D.view door.new).state ≡ put_out (table_text kind clock (tables_of desk.now.state)) (D.view door.old).state) }
    ensures part { D.tells → OnErr result (WroteFirst (table_text kind clock (tables_of desk.now.state)) (D.view door.old).state (D.view door.new).state) }
    ensures cause { Counts (has_failed result) (D.view door.old).writes (D.view door.new).writes }
    ensures stop { IsTrue (has_failed result) → IsStoppedWriting (D.view door.old) (D.view door.new) }
    ensures turns { (D.view door.new).turns ≡ (D.view door.old).turns }
    ensures reads { (D.view door.new).reads ≡ (D.view door.old).reads }
{
    match kind {
        ReportKind::Things => write_rows(alloc, door, desk.things()),
        ReportKind::Files => write_rows(alloc, door, desk.files()),
        ReportKind::Classes => write_rows(alloc, door, desk.classes()),
        ReportKind::Locals => write_rows(alloc, door, desk.locals()),
        ReportKind::Names => write_rows(alloc, door, desk.names()),
        ReportKind::Due => write_due(
            alloc,
            door,
            desk.files(),
            listing_moment(desk.stamp(), clock),
        ),
    }
}

/// Writes a table of the desk. The answer says how that ended.
fn report_table<K: Keeper, D: Door>(
    alloc: Global,
    desk: &Desk<K>,
    kind: ReportKind,
    clock: Option<Moment>,
    door: &mut D,
) -> Status
    ensures statuses { IsOneOf (Done ∷ DoorFailed ∷ NoMemory ∷ []) (status_number result) }
    ensures fault { Is DoorFailed (status_number result) → IsStoppedWriting (D.view door.old) (D.view door.new) }
    ensures steady { IsNot DoorFailed (status_number result) → (D.view door.new).writes ≡ (D.view door.old).writes }
    ensures done { D.tells → Is Done (status_number result) → (D.view door.new).state ≡ put_out (table_text kind clock (tables_of desk.now.state)) (D.view door.old).state }
    ensures part { D.tells → IsOneOf (DoorFailed ∷ NoMemory ∷ []) (status_number result) →
        WroteFirst (table_text kind clock (tables_of desk.now.state)) (D.view door.old).state (D.view door.new).state }
    ensures turns { (D.view door.new).turns ≡ (D.view door.old).turns }
    ensures reads { (D.view door.new).reads ≡ (D.view door.old).reads }
{
    match write_table(alloc, desk, kind, clock, door) {
        Ok(()) => Status::Done,
        Err(stop) => stop.status(),
    }
}

/// Writes a table of the desk, each row as soon as its lines are made, and hands the keeper back,
/// which isn't called. The clock is asked for the URLs that are due, and not for another table.
///
/// | Status | It comes |
/// |---|---|
/// | 0 | the table was written |
/// | 4 | a write of the door failed: a first part was written |
/// | 5 | want of memory: a first part was written, and no line says so |
pub(crate) fn report_desk<K: Keeper, D: Door, C: Clock>(
    alloc: Global,
    desk: Desk<K>,
    kind: ReportKind,
    door: &mut D,
    clock: &mut C,
) -> (Status, K)
    requires { IsKept ⟦<K as Keeper>⟧ desk.keeper (tables_of desk.state) }
    ensures statuses { IsOneOf (Done ∷ DoorFailed ∷ NoMemory ∷ []) (status_number result.0) }
    ensures fault { Is DoorFailed (status_number result.0) → IsStoppedWriting (D.view door.old) (D.view door.new) }
    ensures steady { IsNot DoorFailed (status_number result.0) → (D.view door.new).writes ≡ (D.view door.old).writes }
    ensures writes { D.tells → WritesTable kind C.tells (C.moments clock.old) (D.view door.old).state (D.view door.new).state (status_number result.0) (tables_of desk.state) }
    ensures turns { (D.view door.new).turns ≡ (D.view door.old).turns }
    ensures reads { (D.view door.new).reads ≡ (D.view door.old).reads }
    ensures later { C.tells → C.moments clock.new ≡ moments_after kind (C.moments clock.old) }
    ensures unasked { spec.asks_clock kind ≡ false → clock.new ≡ clock.old }
    ensures keeper { result.1 ≡ desk.keeper }
{
    let now = ask_clock(kind, clock);
    let status = report_table(alloc, &desk, kind, now, door);
    (status, desk.close())
}
