//! A hardware address announces a URL, the operator moves the Thing to it, or removes the Thing.
ghost use Rattle.std.specs.Prelude.{◌≡◌, List, [], ◌∷◌, length, Some, None, IfOk, IfErr};
ghost use Rattle.mud_base.specs.declared.addr.Mac.{Mac as MacValue};
ghost use Rattle.item_codec.specs.declared.word.Word.TheVariants as word;
ghost use Rattle.table_model.specs.declared.thing.Thing.{Thing as ThingValue};
ghost use Rattle.table_model.specs.ThingCommands.{is_pending, url_cases, url_step, move_cases, move_step, remove_step};
ghost use Rattle.table_model.specs.ThingChanges.{puts_in};
ghost use Rattle.thing_book.specs.Planned.{IsRefusal};
ghost use Rattle.thing_book.specs.RowChanges.{IsSaid, url_cases_change, url_change, moved_to, move_cases_change, move_change, remove_change};

use crate::copies::copy_of;
use crate::plan::{Plan, or_memory, thing_of};
use base_rows::SortedRows;
use item_codec::Word;
use mud_base::{Listed, Mac, Memory};
use mud_url::MudUrl;
use std::alloc::Global;
use table_model::limits::MOST_THINGS;
use table_model::{Thing, ThingFault};

/// A hardware address announces a URL.
#[tactic(auto, unfolding(table_model::specs::ThingCommands::url_step, table_model::specs::ThingCommands::url_cases, crate::specs::RowChanges::url_change))]
pub(crate) fn announce(
    alloc: Global,
    things: &SortedRows<Thing>,
    mac: Mac,
    url: MudUrl,
) -> Result<Plan, ThingFault>
    ensures ok { IfOk result (IsSaid (url_step mac url things.now.rows)
        (url_change mac url things.now.rows)) }
    ensures err { IfErr result (IsRefusal (url_step mac url things.now.rows)) }
{
    match thing_of(things, mac) {
        Some(thing) => or_memory(announce_anew(alloc, thing, url)),
        None => announce_first(alloc, things.len(), mac, url),
    }
}

/// No Thing has the hardware address, and so many are kept.
#[tactic(auto, unfolding(table_model::specs::ThingCommands::url_cases, table_model::specs::Things::new_thing, crate::specs::RowChanges::url_cases_change))]
fn announce_first(alloc: Global, kept: usize, mac: Mac, url: MudUrl) -> Result<Plan, ThingFault>
    ensures ok { (things : List ThingValue) → length things ≡ kept
        → IfOk result (IsSaid (url_cases mac url things None) (url_cases_change mac url None)) }
    ensures err { (things : List ThingValue) → length things ≡ kept
        → IfErr result (IsRefusal (url_cases mac url things None)) }
{
    if kept >= MOST_THINGS {
        return Err(ThingFault::ThingsFull);
    }
    let thing = Thing {
        mac,
        url,
        pending: None,
        leases: Listed::new(alloc),
        held: false,
    };
    or_memory(Plan::putting_one(alloc, thing, Word::New, None))
}

/// The Thing announces a URL: another one than its own waits for the operator.
#[tactic(auto, unfolding(table_model::specs::ThingCommands::url_cases, crate::specs::RowChanges::url_cases_change, crate::specs::RowChanges::waiting_for))]
fn announce_anew(alloc: Global, thing: &Thing, url: MudUrl) -> Result<Plan, Memory>
    ensures { (mac : MacValue) (things : List ThingValue)
        → IfOk result (IsSaid (url_cases mac url things (Some thing.now)) (url_cases_change mac url (Some thing.now))) }
{
    if url == thing.url || is_pending(&url, &thing.pending) {
        return Ok(Plan::unchanged(alloc, Word::Same, None));
    }
    let mut waiting = copy_of(alloc, thing)?;
    waiting.pending = Some(url);
    Plan::putting_one(alloc, waiting, Word::Pending, None)
}

/// Whether the URL waits for the operator.
#[tactic(auto, unfolding(table_model::specs::ThingCommands::is_pending))]
fn is_pending(url: &MudUrl, pending: &Option<MudUrl>) -> bool
    ensures { result ≡ is_pending url.now pending.now }
{
    match pending {
        Some(pending) => url == pending,
        None => false,
    }
}

/// The operator moves a Thing to the URL that waits.
#[tactic(auto, unfolding(table_model::specs::ThingCommands::move_step, table_model::specs::ThingCommands::move_cases, crate::specs::RowChanges::move_change))]
pub(crate) fn move_to(
    alloc: Global,
    things: &SortedRows<Thing>,
    mac: Mac,
    url: MudUrl,
) -> Result<Plan, ThingFault>
    ensures ok { IfOk result (IsSaid (move_step mac url things.now.rows)
        (move_change mac url things.now.rows)) }
    ensures err { IfErr result (IsRefusal (move_step mac url things.now.rows)) }
{
    match thing_of(things, mac) {
        Some(thing) => move_thing(alloc, thing, url),
        None => Err(ThingFault::NoThing),
    }
}

#[tactic(auto, unfolding(table_model::specs::ThingCommands::move_cases, crate::specs::RowChanges::move_cases_change, crate::specs::RowChanges::moved_to))]
fn move_thing(alloc: Global, thing: &Thing, url: MudUrl) -> Result<Plan, ThingFault>
    ensures ok { (things : List ThingValue)
        → IfOk result (IsSaid (move_cases url things (Some thing.now)) (move_cases_change url (Some thing.now))) }
    ensures err { (things : List ThingValue)
        → IfErr result (IsRefusal (move_cases url things (Some thing.now))) }
{
    if url == thing.url {
        return Ok(Plan::unchanged(alloc, Word::Same, None));
    }
    if !is_pending(&url, &thing.pending) {
        return Err(ThingFault::NoPending);
    }
    or_memory(moved(alloc, thing, url))
}

/// The Thing has the URL, and none waits.
#[tactic(auto, unfolding(crate::specs::RowChanges::moved_to))]
fn moved(alloc: Global, thing: &Thing, url: MudUrl) -> Result<Plan, Memory>
    ensures word { IfOk result (λ plan. plan.word ≡ word.Moved) }
    ensures until { IfOk result (λ plan. plan.until ≡ None) }
    ensures rows { IfOk result (λ plan. plan.rows ≡ puts_in (moved_to url thing.now ∷ [])) }
{
    let mut moved = copy_of(alloc, thing)?;
    moved.url = url;
    moved.pending = None;
    Plan::putting_one(alloc, moved, Word::Moved, None)
}

/// The operator removes a Thing.
#[tactic(auto, unfolding(table_model::specs::ThingCommands::remove_step))]
pub(crate) fn remove(
    alloc: Global,
    things: &SortedRows<Thing>,
    mac: Mac,
) -> Result<Plan, ThingFault>
    ensures ok { IfOk result (IsSaid (remove_step mac things.now.rows) (remove_change mac)) }
    ensures err { IfErr result (IsRefusal (remove_step mac things.now.rows)) }
{
    match thing_of(things, mac) {
        Some(_) => Ok(Plan::taking(alloc, mac, Word::Removed)),
        None => Err(ThingFault::NoThing),
    }
}
