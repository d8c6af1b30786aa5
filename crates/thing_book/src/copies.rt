//! Copies of Things.
ghost use Rattle.std.specs.Prelude.{◌≡◌, IfOk};

use mud_base::{Listed, Memory};
use std::alloc::Global;
use table_model::Thing;

/// An equal Thing.
pub(crate) fn copy_of(alloc: Global, thing: &Thing) -> Result<Thing, Memory>
    ensures { IfOk result (λ copy. copy ≡ thing.now) }
{
    let leases = Vec::from_slice(alloc, thing.leases.as_slice())?;
    Ok(Thing {
        mac: thing.mac,
        url: thing.url,
        pending: thing.pending,
        leases: Listed::from_vec(leases),
        held: thing.held,
    })
}
