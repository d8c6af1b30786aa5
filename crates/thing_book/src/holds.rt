//! The operator holds a Thing, or releases it.
ghost use Rattle.std.specs.Prelude.{◌≡◌, List, Some, IfOk, IfErr};
ghost use Rattle.table_model.specs.declared.thing.Thing.{Thing as ThingValue};
ghost use Rattle.table_model.specs.ThingCommands.{hold_cases, hold_step, release_cases, release_step};
ghost use Rattle.thing_book.specs.Planned.{IsRefusal};
ghost use Rattle.thing_book.specs.RowChanges.{IsSaid, hold_cases_change, hold_change, release_cases_change, release_change};

use crate::copies::copy_of;
use crate::plan::{Plan, or_memory, thing_of};
use base_rows::SortedRows;
use item_codec::Word;
use mud_base::{Mac, Memory};
use std::alloc::Global;
use table_model::{Thing, ThingFault};

/// The Thing is held from now on.
#[tactic(auto, unfolding(table_model::specs::ThingCommands::hold_step, table_model::specs::ThingCommands::hold_cases, crate::specs::RowChanges::hold_change))]
pub(crate) fn hold(alloc: Global, things: &SortedRows<Thing>, mac: Mac) -> Result<Plan, ThingFault>
    ensures ok { IfOk result (IsSaid (hold_step mac things.now.rows)
        (hold_change mac things.now.rows)) }
    ensures err { IfErr result (IsRefusal (hold_step mac things.now.rows)) }
{
    match thing_of(things, mac) {
        Some(thing) => or_memory(hold_thing(alloc, thing)),
        None => Err(ThingFault::NoThing),
    }
}

#[tactic(auto, unfolding(table_model::specs::ThingCommands::hold_cases, table_model::specs::ThingCommands::with_hold, crate::specs::RowChanges::hold_cases_change))]
fn hold_thing(alloc: Global, thing: &Thing) -> Result<Plan, Memory>
    ensures { (things : List ThingValue) → IfOk result (IsSaid (hold_cases things (Some thing.now))
        (hold_cases_change (Some thing.now))) }
{
    if thing.held {
        return Ok(Plan::unchanged(alloc, Word::Same, None));
    }
    let mut held = copy_of(alloc, thing)?;
    held.held = true;
    Plan::putting_one(alloc, held, Word::Held, None)
}

/// The Thing isn't held any more.
#[tactic(auto, unfolding(table_model::specs::ThingCommands::release_step, table_model::specs::ThingCommands::release_cases, crate::specs::RowChanges::release_change))]
pub(crate) fn release(
    alloc: Global,
    things: &SortedRows<Thing>,
    mac: Mac,
) -> Result<Plan, ThingFault>
    ensures ok { IfOk result (IsSaid (release_step mac things.now.rows)
        (release_change mac things.now.rows)) }
    ensures err { IfErr result (IsRefusal (release_step mac things.now.rows)) }
{
    match thing_of(things, mac) {
        Some(thing) => or_memory(release_thing(alloc, thing)),
        None => Err(ThingFault::NoThing),
    }
}

#[tactic(auto, unfolding(table_model::specs::ThingCommands::release_cases, table_model::specs::ThingCommands::with_hold, crate::specs::RowChanges::release_cases_change))]
fn release_thing(alloc: Global, thing: &Thing) -> Result<Plan, Memory>
    ensures { (things : List ThingValue) → IfOk result
        (IsSaid (release_cases things (Some thing.now))
        (release_cases_change (Some thing.now))) }
{
    if !thing.held {
        return Ok(Plan::unchanged(alloc, Word::Same, None));
    }
    let mut released = copy_of(alloc, thing)?;
    released.held = false;
    Plan::putting_one(alloc, released, Word::Released, None)
}
