//! The lists of a Thing of a desk, written to a door.
ghost use Rattle.std.specs.Prelude.{◌≡◌, ◌⊎◌, Some, codes, option_map, [], ◌∷◌};
ghost use Rattle.mud_world.specs.Clock.{later_moments};
ghost use Rattle.mud_world.specs.Door.{put_out};
ghost use Rattle.table_model.specs.Things.{thing_at};
ghost use Rattle.desk_model.specs.Kept.{IsKept};
ghost use Rattle.mud_desk.specs.DeskState.{tables_of};
ghost use Rattle.run_common.specs.Ends.{IsStoppedWriting};
ghost use Rattle.run_common.specs.Output.{WroteFirst};
ghost use Rattle.run_common.specs.Status.{Is, IsNot, IsOneOf, status_number};
ghost use Rattle.run_common.specs.declared.status.Status.TheVariants.{Done, Refused, DoorFailed, NoMemory};
ghost use Rattle.run_reports.specs.Export.Exported.{export_output, WritesLists};
ghost use Rattle.run_reports.specs.Export.Sources.{is_held, sources_text};
ghost use Rattle.run_reports.specs.Export.Store.{IsOfDesk, WritesThing};

use crate::export::sources::{Sources, held_of, sources_of};
use crate::export::writing::write_lists;
use mud_base::{Mac, Moment};
use mud_desk::Desk;
use mud_world::{Clock, Door, Keeper};
use run_common::{Status, listing_moment, write_text};
use std::alloc::Global;

/// Writes that there is no such Thing.
fn refuse_thing<D: Door>(door: &mut D) -> Status
    ensures statuses { IsOneOf (Refused ∷ DoorFailed ∷ NoMemory ∷ []) (status_number result) }
    ensures fault { Is DoorFailed (status_number result) → IsStoppedWriting (D.view door.old) (D.view door.new) }
    ensures steady { IsNot DoorFailed (status_number result) → (D.view door.new).writes ≡ (D.view door.old).writes }
    ensures done { D.tells → Is Refused (status_number result) → (D.view door.new).state ≡ put_out (codes "fault NoThing\n") (D.view door.old).state }
    ensures part { D.tells → IsOneOf (DoorFailed ∷ NoMemory ∷ []) (status_number result) →
        WroteFirst (codes "fault NoThing\n") (D.view door.old).state (D.view door.new).state }
    ensures turns { (D.view door.new).turns ≡ (D.view door.old).turns }
    ensures reads { (D.view door.new).reads ≡ (D.view door.old).reads }
{
    match write_text(door, b"fault NoThing\n") {
        Ok(()) => Status::Refused,
        Err(stop) => stop.status(),
    }
}

/// Writes the four lists. The answer says how that ended.
fn export_lists<D: Door>(alloc: Global, sources: &Option<Sources<'_>>, door: &mut D) -> Status
    ensures statuses { IsOneOf (Done ∷ DoorFailed ∷ NoMemory ∷ []) (status_number result) }
    ensures fault { Is DoorFailed (status_number result) → IsStoppedWriting (D.view door.old) (D.view door.new) }
    ensures steady { IsNot DoorFailed (status_number result) → (D.view door.new).writes ≡ (D.view door.old).writes }
    ensures done { D.tells → Is Done (status_number result) → (D.view door.new).state ≡ put_out (sources_text sources.now) (D.view door.old).state }
    ensures part { D.tells → IsOneOf (DoorFailed ∷ NoMemory ∷ []) (status_number result) →
        WroteFirst (sources_text sources.now) (D.view door.old).state (D.view door.new).state }
    ensures turns { (D.view door.new).turns ≡ (D.view door.old).turns }
    ensures reads { (D.view door.new).reads ≡ (D.view door.old).reads }
{
    match write_lists(alloc, door, sources) {
        Ok(()) => Status::Done,
        Err(stop) => stop.status(),
    }
}

/// Writes the lists of a Thing at the later of the moment of the last change and of that which the
/// clock gave; empty ones where the operator holds it. Its rules aren't asked for then.
fn export_thing<K: Keeper, D: Door>(
    alloc: Global,
    desk: &Desk<K>,
    mac: Mac,
    held: bool,
    clock: Moment,
    door: &mut D,
) -> Status
    requires { Some held ≡ option_map is_held (thing_at mac (tables_of desk.now.state).tables.things) }
    ensures statuses { IsOneOf (Done ∷ DoorFailed ∷ NoMemory ∷ []) (status_number result) }
    ensures fault { Is DoorFailed (status_number result) → IsStoppedWriting (D.view door.old) (D.view door.new) }
    ensures steady { IsNot DoorFailed (status_number result) → (D.view door.new).writes ≡ (D.view door.old).writes }
    ensures writes { D.tells → WritesLists (export_output mac clock (tables_of desk.now.state))
        (D.view door.old).state (D.view door.new).state (status_number result) }
    ensures turns { (D.view door.new).turns ≡ (D.view door.old).turns }
    ensures reads { (D.view door.new).reads ≡ (D.view door.old).reads }
{
    if held {
        return export_lists(alloc, &None, door);
    }
    let moment = listing_moment(desk.stamp(), Some(clock));
    let sources = sources_of(desk, mac, moment);
    export_lists(alloc, &sources, door)
}

/// The same of a hardware address, at the moment of the clock, which is asked once where there is such a
/// Thing. Else a line says that there is none.
fn export_mac<K: Keeper, D: Door, C: Clock>(
    alloc: Global,
    desk: &Desk<K>,
    mac: Mac,
    door: &mut D,
    clock: &mut C,
) -> Status
    ensures statuses { IsOfDesk (status_number result) }
    ensures fault { Is DoorFailed (status_number result) → IsStoppedWriting (D.view door.old) (D.view door.new) }
    ensures steady { IsNot DoorFailed (status_number result) → (D.view door.new).writes ≡ (D.view door.old).writes }
    ensures writes { D.tells → WritesThing mac C.tells (C.moments clock.old)
        (D.view door.old).state (D.view door.new).state (status_number result) (tables_of desk.now.state) }
    ensures turns { (D.view door.new).turns ≡ (D.view door.old).turns }
    ensures reads { (D.view door.new).reads ≡ (D.view door.old).reads }
    ensures later { C.tells → Is Done (status_number result) → C.moments clock.new ≡ later_moments (C.moments clock.old) }
    ensures once { C.tells → (C.moments clock.new ≡ C.moments clock.old) ⊎ (C.moments clock.new ≡ later_moments (C.moments clock.old)) }
    ensures unasked { Is Refused (status_number result) → clock.new ≡ clock.old }
{
    match held_of(desk.things(), mac) {
        None => refuse_thing(door),
        Some(held) => export_thing(alloc, desk, mac, held, clock.now(), door),
    }
}

/// Writes the lists of a Thing of the desk, each item as soon as its text is made, and hands the keeper
/// back, which isn't called. The clock is asked once, and not where there is no such Thing.
///
/// | Status | It comes |
/// |---|---|
/// | 0 | the lists were written |
/// | 3 | no Thing has this hardware address, and a line says so |
/// | 4 | a write of the door failed: a first part was written |
/// | 5 | want of memory: a first part was written, and no line says so |
pub(crate) fn export_desk<K: Keeper, D: Door, C: Clock>(
    alloc: Global,
    desk: Desk<K>,
    mac: Mac,
    door: &mut D,
    clock: &mut C,
) -> (Status, K)
    requires { IsKept ⟦<K as Keeper>⟧ desk.keeper (tables_of desk.state) }
    ensures statuses { IsOfDesk (status_number result.0) }
    ensures fault { Is DoorFailed (status_number result.0) → IsStoppedWriting (D.view door.old) (D.view door.new) }
    ensures steady { IsNot DoorFailed (status_number result.0) → (D.view door.new).writes ≡ (D.view door.old).writes }
    ensures writes { D.tells → WritesThing mac C.tells (C.moments clock.old)
        (D.view door.old).state (D.view door.new).state (status_number result.0) (tables_of desk.state) }
    ensures turns { (D.view door.new).turns ≡ (D.view door.old).turns }
    ensures reads { (D.view door.new).reads ≡ (D.view door.old).reads }
    ensures later { C.tells → Is Done (status_number result.0) → C.moments clock.new ≡ later_moments (C.moments clock.old) }
    ensures once { C.tells → (C.moments clock.new ≡ C.moments clock.old) ⊎ (C.moments clock.new ≡ later_moments (C.moments clock.old)) }
    ensures unasked { Is Refused (status_number result.0) → clock.new ≡ clock.old }
    ensures keeper { result.1 ≡ desk.keeper }
{
    let status = export_mac(alloc, &desk, mac, door, clock);
    (status, desk.close())
}
