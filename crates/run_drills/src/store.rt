//! The command `drill`, from the opening of its store to its status.
ghost use Rattle.std.specs.Prelude.{◌≡◌};
ghost use Rattle.run_common.specs.Status.{Is, status_number};
ghost use Rattle.run_common.specs.declared.status.Status.TheVariants.{KeeperFailed};
ghost use Rattle.mud_desk.specs.Items.Loaded.{kept_of};
ghost use Rattle.desk_model.specs.Items.{none_kept};
ghost use Rattle.run_drills.specs.Store.{DrillsStore};

use crate::desk::{drill_desk, holds_nothing, refuse_full};
use mud_desk::{Desk, Loaded};
use mud_world::{Door, Keeper};
use run_common::Status;
use run_desk::refuse_store;
use std::alloc::Global;

/// Opens a desk over the keeper, and drills it with so many packets: the commands of the made network
/// run, each kept as ever, its packets are judged, and the counts are written. Nothing was taken
/// before, as [`Desk::open`] wants it: [`Loaded::new`]. The keeper is handed back.
///
/// | Status | It comes |
/// |---|---|
/// | 0 | all commands ran, and all lines were written |
/// | 3 | the store holds something: `fault NotEmpty` was written, and nothing changed |
/// | 4 | the door failed at a write |
/// | 5 | want of memory: some of the commands ran, from the first on |
/// | 6 | an item of the store is no record: the line that names it was written |
/// | 7 | the keeper failed: the commands before the failed one ran, and nothing was written |
pub fn run_drill<K: Keeper, D: Door>(
    alloc: Global,
    keeper: K,
    nothing: Loaded,
    packets: u32,
    door: &mut D,
) -> (Status, K)
    requires { kept_of nothing ≡ none_kept }
    ensures drilled { DrillsStore ⟦<K as Keeper>⟧ D.tells packets keeper result.1
        (D.view door.old)
        (D.view door.new)
        (status_number result.0) }
    // Where the keeper failed, the door isn't called at all.
    ensures untouched { Is KeeperFailed (status_number result.0) → door.new ≡ door.old }
{
    match Desk::open(alloc, keeper, nothing) {
        Ok(desk) if holds_nothing(&desk) => drill_desk(alloc, desk, packets, door),
        Ok(desk) => refuse_full(desk, door),
        Err((fault, keeper)) => (refuse_store(alloc, door, fault), keeper),
    }
}
