//! The command `tally`, from the opening of its store to its status.
ghost use Rattle.std.specs.Prelude.{◌≡◌, ◌≢◌, [], ◌∷◌};
ghost use Rattle.run_captures.specs.Capture.{WritesTaken};
ghost use Rattle.run_common.specs.Ends.{IsSteady, IsStopped};
ghost use Rattle.run_common.specs.Output.{WritesOutput, WritesPart};
ghost use Rattle.run_common.specs.Status.{Is, IsNot, IsOneOf, status_number};
ghost use Rattle.run_common.specs.declared.status.Status.TheVariants.{Done, Refused, DoorFailed, NoMemory, KeeperFailed};
ghost use Rattle.mud_desk.specs.Items.Loaded.{kept_of};
ghost use Rattle.desk_model.specs.Items.{none_kept};
ghost use Rattle.desk_model.specs.Kept.{IsKept};
ghost use Rattle.mud_desk.specs.DeskState.{tables_of, session_of};
ghost use Rattle.run_packets.specs.Tally.Store.{TalliesStore, output_of_tally};
ghost use Rattle.run_packets.specs.Tally.Tallied.{begun, tally_step};

use crate::tally::counting::TalliedLines;
use mud_desk::{Desk, Loaded};
use mud_world::{Door, Keeper};
use run_captures::write_capture;
use run_common::Status;
use run_desk::refuse_store;
use std::alloc::Global;

/// Reads a capture, judges its packets in the desk's session, and writes how often each ruling was
/// given, hour by hour, and at the end what was denied; then the line of the fault that ends the
/// capture. The keeper isn't called.
fn tally_capture<K: Keeper, D: Door>(alloc: Global, desk: Desk<K>, door: &mut D) -> (Status, K)
    requires { IsKept ⟦<K as Keeper>⟧ desk.keeper (tables_of desk.state) }
    ensures statuses { IsOneOf (Done ∷ Refused ∷ DoorFailed ∷ NoMemory ∷ []) (status_number result.0) }
    ensures fault { Is DoorFailed (status_number result.0) → IsStopped (D.view door.old) (D.view door.new) }
    ensures steady { IsNot DoorFailed (status_number result.0) → IsSteady (D.view door.old) (D.view door.new) }
    // The lines are those that the list of the packets tells, in the session of the desk.
    ensures done { D.tells → IsOneOf (Done ∷ Refused ∷ []) (status_number result.0) →
        WritesOutput (output_of_tally (session_of desk.state) (D.view door.old).state.left)
        (D.view door.old).state (D.view door.new).state (status_number result.0) }
    ensures part { D.tells → IsOneOf (DoorFailed ∷ NoMemory ∷ []) (status_number result.0) →
        WritesPart (output_of_tally (session_of desk.state) (D.view door.old).state.left)
        (D.view door.old).state (D.view door.new).state }
    ensures taken { D.tells → (D.view door.new).reads ≢ (D.view door.old).reads →
        WritesTaken tally_step (begun (session_of desk.state)) (D.view door.old).state (D.view door.new).state }
    ensures turns { (D.view door.new).turns ≡ (D.view door.old).turns }
    ensures keeper { result.1 ≡ desk.keeper }
{
    let moment = desk.moment();
    let (keeper, state) = desk.into_parts();
    let mut lines = TalliedLines::new(alloc, state, moment);
    let status = write_capture(alloc, door, &mut lines);
    drop(lines);
    (status, keeper)
}

/// Opens a desk over the keeper, and then reads a capture and writes its tally. Where the store can't
/// be opened, the capture isn't read. The keeper is handed back. Nothing was taken before, as
/// [`Desk::open`] wants it: [`Loaded::new`].
pub fn tally_store<K: Keeper, D: Door>(
    alloc: Global,
    keeper: K,
    nothing: Loaded,
    door: &mut D,
) -> (Status, K)
    requires { kept_of nothing ≡ none_kept }
    ensures tallied { TalliesStore ⟦<K as Keeper>⟧ D.tells keeper result.1
        (D.view door.old)
        (D.view door.new)
        (status_number result.0) }
    // Where the keeper failed, the door isn't called at all.
    ensures untouched { Is KeeperFailed (status_number result.0) → door.new ≡ door.old }
{
    match Desk::open(alloc, keeper, nothing) {
        Ok(desk) => tally_capture(alloc, desk, door),
        Err((fault, keeper)) => (refuse_store(alloc, door, fault), keeper),
    }
}
