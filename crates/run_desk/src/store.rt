//! The command `judge`, from the opening of its store to its status.
ghost use Rattle.std.specs.Prelude.{◌≡◌};
ghost use Rattle.run_common.specs.Status.{Is, status_number};
ghost use Rattle.run_common.specs.declared.status.Status.TheVariants.{KeeperFailed};
ghost use Rattle.mud_desk.specs.Items.Loaded.{kept_of};
ghost use Rattle.desk_model.specs.Items.{none_kept};
ghost use Rattle.run_desk.specs.Store.{JudgesStore};

use crate::judging::judge_capture;
use crate::refusing::refuse_store;
use mud_desk::{Desk, Loaded};
use mud_world::{Door, Keeper};
use run_common::Status;
use std::alloc::Global;

/// Opens a desk over the keeper, and then reads a capture and writes the verdict on each of its
/// packets. Where the store can't be opened, the capture isn't read. The keeper is handed back. Nothing
/// was taken before, as [`Desk::open`] wants it: [`Loaded::new`].
pub fn judge_store<K: Keeper, D: Door>(
    alloc: Global,
    keeper: K,
    nothing: Loaded,
    door: &mut D,
) -> (Status, K)
    requires { kept_of nothing ≡ none_kept }
    ensures judged { JudgesStore ⟦<K as Keeper>⟧ D.tells keeper result.1
        (D.view door.old)
        (D.view door.new)
        (status_number result.0) }
    // Where the keeper failed, the door isn't called at all.
    ensures untouched { Is KeeperFailed (status_number result.0) → door.new ≡ door.old }
{
    match Desk::open(alloc, keeper, nothing) {
        Ok(desk) => judge_capture(alloc, desk, door),
        Err((fault, keeper)) => (refuse_store(alloc, door, fault), keeper),
    }
}
