//! The command `report`, from the opening of its store to its status.
ghost use Rattle.std.specs.Prelude.{◌≡◌, ◌⊎◌, false, [], ◌∷◌};
ghost use Rattle.run_common.specs.Status.{Is, IsOneOf, status_number};
ghost use Rattle.run_common.specs.declared.status.Status.TheVariants.{Done, BadItem, KeeperFailed};
ghost use Rattle.mud_desk.specs.Items.Loaded.{kept_of};
ghost use Rattle.desk_model.specs.Items.{none_kept};
ghost use Rattle.run_reports.specs.Store.{ReportsStore};
ghost use Rattle.run_reports.specs.Tables.{asks_clock, moments_after};

use crate::table::report_desk;
use mud_desk::{Desk, Loaded};
use mud_world::{Clock, Door, Keeper};
use run_common::Status;
use run_desk::refuse_store;
use run_words::ReportKind;
use std::alloc::Global;

/// Opens a desk over the keeper, and then writes one of its tables, a row after the other in the
/// order in which they are listed. Nothing is read of the door. Where the store can't be opened, no
/// row is written, and the clock isn't asked. The keeper is handed back. Nothing was taken before, as
/// [`Desk::open`] wants it: [`Loaded::new`].
pub fn report_store<K: Keeper, D: Door, C: Clock>(
    alloc: Global,
    keeper: K,
    nothing: Loaded,
    kind: ReportKind,
    door: &mut D,
    clock: &mut C,
) -> (Status, K)
    requires { kept_of nothing ≡ none_kept }
    ensures reported { ReportsStore ⟦<K as Keeper>⟧ kind D.tells C.tells (C.moments clock.old) keeper result.1
        (D.view door.old)
        (D.view door.new)
        (status_number result.0) }
    // Where the keeper failed, the door isn't called at all.
    ensures untouched { Is KeeperFailed (status_number result.0) → door.new ≡ door.old }
    // The clock is asked once for the URLs that are due,
    ensures asked { C.tells → Is Done (status_number result.0) → C.moments clock.new ≡ moments_after kind (C.moments clock.old) }
    ensures once { C.tells → (C.moments clock.new ≡ C.moments clock.old) ⊎ (C.moments clock.new ≡ moments_after kind (C.moments clock.old)) }
    // and not for another table, nor where the store can't be opened.
    ensures unasked { asks_clock kind ≡ false → clock.new ≡ clock.old }
    ensures unopened { IsOneOf (BadItem ∷ KeeperFailed ∷ []) (status_number result.0) → clock.new ≡ clock.old }
{
    match Desk::open(alloc, keeper, nothing) {
        Ok(desk) => report_desk(alloc, desk, kind, door, clock),
        Err((fault, keeper)) => (refuse_store(alloc, door, fault), keeper),
    }
}
