//! The command `snoop`, from the opening of its store to its status.
ghost use Rattle.std.specs.Prelude.{◌≡◌};
ghost use Rattle.run_common.specs.Status.{status_number};
ghost use Rattle.mud_desk.specs.Items.Loaded.{kept_of};
ghost use Rattle.desk_model.specs.Items.{none_kept};
ghost use Rattle.run_packets.specs.Snoop.Store.{SnoopsStore};

use crate::snoop::capture::snoop_capture;
use mud_desk::{Desk, Loaded};
use mud_world::{Door, Keeper};
use run_common::Status;
use run_desk::refuse_store;
use std::alloc::Global;

/// Opens a desk over the keeper, and then judges the packets of a capture and learns names from the
/// answers of DNS servers in it. Where the store can't be opened, the capture isn't read. The keeper is
/// handed back. Nothing was taken before, as [`Desk::open`] wants it: [`Loaded::new`].
///
/// | Status | It comes |
/// |---|---|
/// | 0 | the capture was read to its end |
/// | 3 | a fault of the capture ended it, and its line was written |
/// | 4 | a read or a write of the door failed: the run ends there |
/// | 5 | want of memory: the run ends there, and no line says so |
/// | 6 | an item of the store is no record |
/// | 7 | the keeper failed in the opening, or at a name; what follows it in the capture is judged |
pub fn snoop_store<K: Keeper, D: Door>(
    alloc: Global,
    keeper: K,
    nothing: Loaded,
    door: &mut D,
) -> (Status, K)
    requires { kept_of nothing ≡ none_kept }
    ensures { SnoopsStore ⟦<K as Keeper>⟧ D.tells keeper result.1
        (D.view door.old)
        (D.view door.new)
        (status_number result.0) }
{
    match Desk::open(alloc, keeper, nothing) {
        Ok(mut desk) => {
            let status = snoop_capture(alloc, &mut desk, door);
            desk.lists_are_sound();
            (status, desk.close())
        }
        Err((fault, keeper)) => (refuse_store(alloc, door, fault), keeper),
    }
}
