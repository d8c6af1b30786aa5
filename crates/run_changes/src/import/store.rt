//! An import into a store: a desk is opened over it for the folder's files.
ghost use Rattle.std.specs.Prelude.{◌≡◌};
ghost use Rattle.run_common.specs.Status.{status_number};
ghost use Rattle.mud_world.specs.View.{viewed};
ghost use Rattle.mud_desk.specs.Items.Loaded.{kept_of};
ghost use Rattle.desk_model.specs.Items.{none_kept};
ghost use Rattle.run_changes.specs.Import.Store.{ImportsStore};
ghost use Rattle.mud_world.specs.View.{outside};

use crate::import::folder::import_files;
use mud_desk::{Desk, Loaded};
use mud_world::{Clock, Door, Keeper, Spool};
use run_common::Status;
use run_desk::refuse_store;
use std::alloc::Global;

/// Opens a desk over the keeper, and then imports the usage files of the folder into it. Where the
/// store can't be opened, the folder isn't listed. The keeper is handed back. Nothing was taken before,
/// as [`Desk::open`] wants it: [`Loaded::new`].
pub fn import_store<K: Keeper, D: Door, P: Spool, C: Clock>(
    alloc: Global,
    keeper: K,
    nothing: Loaded,
    door: &mut D,
    spool: &mut P,
    clock: &mut C,
) -> (Status, K)
    requires { kept_of nothing ≡ none_kept }
    ensures { ImportsStore ⟦<K as Keeper>⟧ (D.tells × (P.tells × C.tells)) keeper result.1
        (outside (D.view door.old)
        (P.view spool.old) (C.moments clock.old))
        (outside (D.view door.new)
        (P.view spool.new) (C.moments clock.new))
        (status_number result.0) }
{
    match Desk::open(alloc, keeper, nothing) {
        Ok(mut desk) => {
            let status = import_files(alloc, &mut desk, door, spool, clock);
            desk.lists_are_sound();
            (status, desk.close())
        }
        Err((fault, keeper)) => (refuse_store(alloc, door, fault), keeper),
    }
}
