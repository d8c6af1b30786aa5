//! The command `export`, from the opening of its store to its status.
ghost use Rattle.std.specs.Prelude.{◌≡◌, ◌⊎◌, [], ◌∷◌};
ghost use Rattle.run_common.specs.Status.{Is, IsOneOf, status_number};
ghost use Rattle.run_common.specs.declared.status.Status.TheVariants.{Done, Refused, BadItem, KeeperFailed};
ghost use Rattle.mud_world.specs.Clock.{later_moments};
ghost use Rattle.mud_desk.specs.Items.Loaded.{kept_of};
ghost use Rattle.desk_model.specs.Items.{none_kept};
ghost use Rattle.run_reports.specs.Export.Store.{ExportsStore};

use crate::export::desk::export_desk;
use mud_base::Mac;
use mud_desk::{Desk, Loaded};
use mud_world::{Clock, Door, Keeper};
use run_common::Status;
use run_desk::refuse_store;
use std::alloc::Global;

/// Opens a desk over the keeper, and then writes what the Thing of a hardware address may do, as four
/// access lists with addresses alone (RFC 8519): at the later of the moment of the last change and of
/// the one that the clock gives. Nothing is read of the door. The clock is asked once, where the store
/// was opened and there is such a Thing. The keeper is handed back. Nothing was taken before, as
/// [`Desk::open`] wants it: [`Loaded::new`].
pub fn export_store<K: Keeper, D: Door, C: Clock>(
    alloc: Global,
    keeper: K,
    nothing: Loaded,
    mac: Mac,
    door: &mut D,
    clock: &mut C,
) -> (Status, K)
    requires { kept_of nothing ≡ none_kept }
    ensures exported { ExportsStore ⟦<K as Keeper>⟧ mac D.tells C.tells (C.moments clock.old) keeper result.1
        (D.view door.old)
        (D.view door.new)
        (status_number result.0) }
    // Where the keeper failed, the door isn't called at all.
    ensures untouched { Is KeeperFailed (status_number result.0) → door.new ≡ door.old }
    // The clock is asked once where lists were written, at most once else, and not where the store can't
    // be opened.
    ensures asked { C.tells → Is Done (status_number result.0) → C.moments clock.new ≡ later_moments (C.moments clock.old) }
    ensures once { C.tells → (C.moments clock.new ≡ C.moments clock.old) ⊎ (C.moments clock.new ≡ later_moments (C.moments clock.old)) }
    ensures unasked { IsOneOf (Refused ∷ BadItem ∷ KeeperFailed ∷ []) (status_number result.0) → clock.new ≡ clock.old }
{
    match Desk::open(alloc, keeper, nothing) {
        Ok(desk) => export_desk(alloc, desk, mac, door, clock),
        Err((fault, keeper)) => (refuse_store(alloc, door, fault), keeper),
    }
}
