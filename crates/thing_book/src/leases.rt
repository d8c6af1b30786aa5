//! A hardware address has an address for some time, and the operator ends that.
ghost use Rattle.std.specs.Prelude.{◌≡◌, ◌++◌, ◌∷◌, [], ℕ, List, Some, None, IfOk, IfErr};
ghost use Rattle.std.specs.List.{list_any};
ghost use Rattle.table_model.specs.declared.thing.Thing.{Thing as ThingValue};
ghost use Rattle.item_codec.specs.declared.word.Word.TheVariants as word;
ghost use Rattle.table_model.specs.Expiries as spec;
ghost use Rattle.table_model.specs.Things.{thing_at, holds, released};
ghost use Rattle.table_model.specs.ThingCommands.{expiry_after, end_step, kept_lease, known_lease, lease_cases, lease_step, new_lease, stranger_lease};
ghost use Rattle.table_model.specs.ThingChanges.{end_change, kept_lease_change, known_lease_change, lease_cases_change, lease_change, leased, new_lease_change, released_holders};
ghost use Rattle.thing_book.specs.Planned.{IsRefusal};
ghost use Rattle.thing_book.specs.RowChanges.{IsSaid};

use crate::copies::copy_of;
use crate::plan::{Plan, or_memory, thing_of};
use base_rows::SortedRows;
use item_codec::Word;
use mud_base::{Addr, End, Listed, Mac, Memory, Moment};
use std::alloc::Global;
use table_model::expiries::{
    expiry_of, has_address, live_count, live_rows, with_expiry, without_address,
};
use table_model::limits::MOST_LEASES;
use table_model::{Thing, ThingFault};

/// So many seconds are for ever (RFC 2131, 3.3).
const FOR_EVER: u32 = u32::MAX;

/// What a command says of a lease.
#[derive(Clone, Copy)]
struct Lease {
    addr: Addr,
    until: End,
    now: Moment,
}

/// The expiry of a lease of so many seconds.
#[tactic(auto, unfolding(table_model::specs::ThingCommands::expiry_after))]
fn expiry_after(now: Moment, seconds: u32) -> End
    ensures { result ≡ expiry_after now seconds }
{
    if seconds == FOR_EVER {
        return End(End::NEVER);
    }
    End(now.seconds() + seconds as u64)
}

/// A hardware address has an address for so many seconds from a moment on.
#[tactic(auto, unfolding(table_model::specs::ThingCommands::lease_step, table_model::specs::ThingChanges::lease_change))]
pub(crate) fn lease_for(
    alloc: Global,
    things: &SortedRows<Thing>,
    mac: Mac,
    addr: Addr,
    seconds: u32,
    now: Moment,
    heard: bool,
) -> Result<Plan, ThingFault>
    ensures ok { IfOk result (IsSaid (lease_step mac addr seconds now heard things.now.rows)
        (lease_change mac addr seconds now things.now.rows)) }
    ensures err { IfErr result (IsRefusal (lease_step mac addr seconds now heard things.now.rows)) }
{
    let until = expiry_after(now, seconds);
    lease_to(alloc, things, mac, Lease { addr, until, now }, heard)
}

/// A hardware address has an address until some expiry.
#[tactic(auto, unfolding(table_model::specs::ThingCommands::lease_cases, table_model::specs::ThingChanges::lease_cases_change))]
fn lease_to(
    alloc: Global,
    things: &SortedRows<Thing>,
    mac: Mac,
    lease: Lease,
    heard: bool,
) -> Result<Plan, ThingFault>
    ensures ok { IfOk result
        (IsSaid (lease_cases lease.addr lease.until lease.now heard things.now.rows (thing_at mac things.now.rows))
        (lease_cases_change lease.addr lease.until lease.now things.now.rows (thing_at mac things.now.rows))) }
    ensures err { IfErr result (IsRefusal (lease_cases lease.addr lease.until lease.now heard things.now.rows (thing_at mac things.now.rows))) }
{
    match thing_of(things, mac) {
        Some(thing) => lease_known(alloc, things.rows(), thing, lease),
        None => {
            if !heard {
                return Err(ThingFault::NoThing);
            }
            or_memory(lease_stranger(alloc, things.rows(), lease.addr))
        }
    }
}

/// No Thing has the hardware address: the address leaves the Thing that has it.
#[tactic(auto, unfolding(table_model::specs::ThingCommands::stranger_lease, table_model::specs::ThingChanges::end_change))]
fn lease_stranger(alloc: Global, things: &[Thing], addr: Addr) -> Result<Plan, Memory>
    ensures { IfOk result (IsSaid (stranger_lease addr things.now) (end_change addr things.now)) }
{
    let released = released_holders(alloc, things, addr)?;
    Ok(Plan::putting(released, Word::Stranger, None))
}

/// The lease of a Thing.
#[tactic(auto, unfolding(table_model::specs::ThingCommands::known_lease, table_model::specs::ThingChanges::known_lease_change))]
fn lease_known(
    alloc: Global,
    things: &[Thing],
    thing: &Thing,
    lease: Lease,
) -> Result<Plan, ThingFault>
    ensures ok { IfOk result
        (IsSaid (known_lease lease.addr lease.until lease.now things.now thing.now (spec.expiry_of lease.addr thing.now.leases))
        (known_lease_change lease.addr lease.until lease.now things.now thing.now (spec.expiry_of lease.addr thing.now.leases))) }
    ensures err { IfErr result (IsRefusal (known_lease lease.addr lease.until lease.now things.now thing.now (spec.expiry_of lease.addr thing.now.leases))) }
{
    match expiry_of(lease.addr, thing.leases.as_slice()) {
        Some(old) => or_memory(lease_kept(alloc, thing, lease, old)),
        None => lease_new(alloc, things, thing, lease),
    }
}

/// The Thing has the address already, with an expiry.
#[tactic(auto, unfolding(table_model::specs::ThingCommands::kept_lease, table_model::specs::ThingChanges::kept_lease_change, table_model::specs::Things::with_leases))]
fn lease_kept(alloc: Global, thing: &Thing, lease: Lease, old: End) -> Result<Plan, Memory>
    ensures { (things : List ThingValue)
        → IfOk result (IsSaid (kept_lease lease.addr lease.until things thing.now old) (kept_lease_change lease.addr lease.until thing.now old)) }
{
    if old == lease.until {
        return Ok(Plan::unchanged(alloc, Word::Same, Some(lease.until)));
    }
    let mut renewed = copy_of(alloc, thing)?;
    renewed.leases = with_expiry(alloc, lease.addr, lease.until, thing.leases.as_slice())?;
    Plan::putting_one(alloc, renewed, Word::Renewed, Some(lease.until))
}

/// The Thing hasn't the address yet.
#[tactic(auto, unfolding(table_model::specs::ThingCommands::new_lease, table_model::specs::ThingChanges::new_lease_change))]
fn lease_new(
    alloc: Global,
    things: &[Thing],
    thing: &Thing,
    lease: Lease,
) -> Result<Plan, ThingFault>
    ensures ok { IfOk result
        (IsSaid (new_lease lease.addr lease.until lease.now things.now thing.now)
        (new_lease_change lease.addr lease.until lease.now things.now thing.now)) }
    ensures err { IfErr result (IsRefusal (new_lease lease.addr lease.until lease.now things.now thing.now)) }
{
    if live_count(lease.now, thing.leases.as_slice()) >= MOST_LEASES {
        return Err(ThingFault::LeasesFull);
    }
    or_memory(taken(alloc, things, thing, lease))
}

/// The address leaves the Thing that has it, and this one gets it.
#[tactic(auto, unfolding(table_model::specs::ThingChanges::new_lease_change))]
fn taken(alloc: Global, things: &[Thing], thing: &Thing, lease: Lease) -> Result<Plan, Memory>
    ensures word { IfOk result (λ plan. plan.word ≡ word.New) }
    ensures until { IfOk result (λ plan. plan.until ≡ Some lease.until) }
    ensures rows { IfOk result (λ plan. plan.rows ≡ new_lease_change lease.addr lease.until lease.now things.now thing.now) }
{
    let mut changed = released_holders(alloc, things, lease.addr)?;
    changed.push(leased(alloc, thing, lease)?)?;
    Ok(Plan::putting(changed, Word::New, Some(lease.until)))
}

/// The Thing with the address, and with those of its leases that are live.
#[tactic(auto, unfolding(table_model::specs::ThingChanges::leased, table_model::specs::Things::with_leases))]
fn leased(alloc: Global, thing: &Thing, lease: Lease) -> Result<Thing, Memory>
    ensures { IfOk result (λ made. made ≡ leased lease.addr lease.until lease.now thing.now) }
{
    let live = live_rows(alloc, lease.now, thing.leases.as_slice())?;
    let mut made = copy_of(alloc, thing)?;
    made.leases = with_expiry(alloc, lease.addr, lease.until, live.as_slice())?;
    Ok(made)
}

/// The operator ends the lease of an address.
pub(crate) fn end_lease(
    alloc: Global,
    things: &SortedRows<Thing>,
    addr: Addr,
) -> Result<Plan, ThingFault>
    ensures ok { IfOk result (IsSaid (end_step addr things.now.rows)
        (end_change addr things.now.rows)) }
    ensures err { IfErr result (IsRefusal (end_step addr things.now.rows)) }
{
    end_among(alloc, things.rows(), addr)
}

#[tactic(auto, unfolding(table_model::specs::ThingCommands::end_step, table_model::specs::ThingChanges::end_change))]
fn end_among(alloc: Global, things: &[Thing], addr: Addr) -> Result<Plan, ThingFault>
    ensures ok { IfOk result (IsSaid (end_step addr things.now) (end_change addr things.now)) }
    ensures err { IfErr result (IsRefusal (end_step addr things.now)) }
{
    if !is_leased(things, addr) {
        return Err(ThingFault::NoLease);
    }
    or_memory(ended(alloc, things, addr))
}

/// The address leaves the Thing that has it.
#[tactic(auto, unfolding(table_model::specs::ThingChanges::end_change))]
fn ended(alloc: Global, things: &[Thing], addr: Addr) -> Result<Plan, Memory>
    ensures word { IfOk result (λ plan. plan.word ≡ word.Ended) }
    ensures until { IfOk result (λ plan. plan.until ≡ None) }
    ensures rows { IfOk result (λ plan. plan.rows ≡ end_change addr things.now) }
{
    let released = released_holders(alloc, things, addr)?;
    Ok(Plan::putting(released, Word::Ended, None))
}

/// Whether some Thing has the address.
fn is_leased(things: &[Thing], addr: Addr) -> bool
    ensures { result ≡ list_any (holds addr) things.now }
{
    things.iter().any(|thing| holds(thing, addr))
}

/// Whether one of these Things has one of the Thing's addresses.
#[tactic(auto)]
pub(crate) fn is_taken(things: &[Thing], thing: &Thing) -> bool
    ensures { result ≡ list_any (λ r. list_any (holds r.0) things.now) thing.now.leases }
{
    thing
        .leases
        .as_slice()
        .iter()
        .any(|row| is_leased(things, row.0))
}

/// Whether the Thing has the address, its lease live or not.
#[tactic(auto, unfolding(table_model::specs::Things::holds))]
pub(crate) fn holds(thing: &Thing, addr: Addr) -> bool
    ensures { result ≡ holds addr thing.now }
{
    has_address(addr, thing.leases.as_slice())
}

/// The Things that have the address, without it.
#[tactic(auto, unfolding(table_model::specs::ThingChanges::released_holders))]
fn released_holders(alloc: Global, things: &[Thing], addr: Addr) -> Result<Listed<Thing>, Memory>
    ensures { IfOk result (λ made. made ≡ released_holders addr things.now) }
{
    let mut made = Listed::new(alloc);
    for thing in things {
        if holds(thing, addr) {
            made.push(released(alloc, thing, addr)?)?;
        }
    }
    Ok(made)
}

/// The Thing without the address.
#[tactic(auto, unfolding(table_model::specs::Things::released, table_model::specs::Things::with_leases))]
fn released(alloc: Global, thing: &Thing, addr: Addr) -> Result<Thing, Memory>
    ensures { IfOk result (λ made. made ≡ released addr thing.now) }
{
    let mut made = copy_of(alloc, thing)?;
    made.leases = without_address(alloc, addr, thing.leases.as_slice())?;
    Ok(made)
}
