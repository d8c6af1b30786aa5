//! The names of a folder, in order.
ghost use Rattle.std.specs.Prelude.{◌≡◌, IfOk, IsTrue};
ghost use Rattle.mud_world.specs.Causes.{Counts, StopsAtFailure};
ghost use Rattle.mud_world.specs.Files.{has_failed, names_of};
ghost use Rattle.run_changes.specs.Import.Order.{in_order};

use mud_base::Bytes;
use mud_world::{Spool, SpoolFault};
use std::alloc::Global;

/// Puts names in the order of their octets. It takes no memory.
fn put_in_order(names: &mut [Bytes])
    ensures { names.new ≡ in_order names.old }
{
    names.sort_unstable_by(|a, b| a.octets().cmp(b.octets()));
}

/// The names of the folder, each as often as it is there, in the order of their octets.
pub(crate) fn names_in_order<P: Spool>(
    alloc: Global,
    spool: &mut P,
) -> Result<Vec<Bytes>, SpoolFault>
    ensures names { P.tells → IfOk result (λ names. names.items ≡ in_order (names_of (P.view spool.old).files)) }
    ensures same { P.tells → (P.view spool.new).files ≡ (P.view spool.old).files }
    ensures cause { Counts (has_failed result) (P.view spool.old).faults (P.view spool.new).faults }
    ensures stop { IsTrue (has_failed result) → StopsAtFailure (P.view spool.new).failed (P.view spool.old).faults (P.view spool.new).faults }
{
    let mut names = spool.list(alloc)?.into_vec();
    put_in_order(&mut names);
    Ok(names)
}
