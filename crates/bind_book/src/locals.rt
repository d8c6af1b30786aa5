//! The local networks that a command sets.
ghost use Rattle.std.specs.Prelude.{◌≡◌, IfOk, IfErr};
ghost use Rattle.table_model.specs.BindCommands.{locals_step};
ghost use Rattle.bind_book.specs.Book.{IsRefusal};
ghost use Rattle.bind_book.specs.Plans.{IsSetLocals};

use mud_base::{Listed, Prefix};
use std::alloc::Global;
use table_model::BindFault;
use table_model::addrs::{prefixes_in_order, same_prefixes};
use table_model::limits::MOST_LOCALS;

/// The local networks that these prefixes are, in order and each once; None where they are the kept
/// ones.
#[tactic(auto, unfolding(table_model::specs::BindCommands::locals_step))]
pub(crate) fn set_locals(
    alloc: Global,
    prefixes: &[Prefix],
    locals: &[Prefix],
) -> Result<Option<Listed<Prefix>>, BindFault>
    ensures ok { IfOk result (IsSetLocals prefixes.now locals.now) }
    ensures err { IfErr result (IsRefusal (locals_step prefixes.now locals.now)) }
{
    let sorted = prefixes_in_order(alloc, prefixes)?;
    if sorted.len() > MOST_LOCALS {
        return Err(BindFault::LocalsFull);
    }
    if same_prefixes(sorted.as_slice(), locals) {
        return Ok(None);
    }
    Ok(Some(sorted))
}
