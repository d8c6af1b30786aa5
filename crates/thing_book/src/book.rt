//! The book of Things.
ghost use Rattle.std.specs.Prelude.{◌≡◌, ◌≤◌, ◌<◌, [], ◌∷◌, ◌++◌, length, false, Some, None, IsTrue, IfOk, IfErr, OnErr, option_copied, slice_get, if◌then◌else◌};
ghost use Rattle.base_rows.specs.Changes.{changed};
ghost use Rattle.table_model.specs.Things.{mac_of, thing_at, IsSoundThings};
ghost use Rattle.table_model.specs.ThingCommands.{url_step, move_step, remove_step, hold_step, release_step, lease_step, end_step};
ghost use Rattle.table_model.specs.ThingItems.{thing_items, may_follow, with_thing_item};
ghost use Rattle.thing_book.specs.Numbers.{AreNumbersOf};
ghost use Rattle.thing_book.specs.Planned.{IsReady, Plans};

use crate::change::ThingChange;
use crate::holds::{hold, release};
use crate::items::item_of;
use crate::leases::{end_lease, is_taken, lease_for};
use crate::numbers::{ThingNumbers, numbered_thing};
use crate::plan::or_memory;
use crate::ranges::{addr_fits, mac_has_six_octets, moment_is_kept};
use crate::reading::kept_thing;
use crate::urls::{announce, move_to, remove};
use base_rows::SortedRows;
use mud_base::{Addr, Mac, Memory, Moment};
use mud_url::MudUrl;
use mud_world::Item;
use std::alloc::Global;
use std::marker::Model;
use table_model::limits::MOST_THINGS;
use table_model::{Thing, ThingFault};

/// The Things that the manager keeps, at most 512, in the order of their hardware addresses, each
/// with at most four leases; an address is in the leases of one Thing. Contracts see the book as the
/// list and its room.
pub struct ThingBook {
    alloc: Global,
    things: SortedRows<Thing>,
    /// The numbers of their hardware addresses, among which one is looked for.
    numbers: ThingNumbers,
}

impl Drop for ThingBook {
    fn drop(self) {
        let ThingBook {
            alloc: _,
            things: _,
            numbers: _,
        } = self;
    }
}

impl Model for ThingBook {
    ghost use Rattle.thing_book.specs.Numbers.{IsSoundBook};
    ghost use Rattle.thing_book.specs.Planned.{Things};

    ghost Value = { Things };

    ghost view = { λ b. record { things = b.things.rows; room = b.things.room } };

    ghost invariant = { λ b. IsSoundBook b.things.rows b.numbers };
}

impl ThingBook {
    /// A book with no Things. It takes no memory.
    pub fn new(alloc: Global) -> ThingBook
        ensures { result.things ≡ [] }
    {
        ThingBook {
            alloc,
            things: SortedRows::new(alloc),
            numbers: ThingNumbers::new(),
        }
    }

    /// The Things, in the order of their hardware addresses.
    pub fn things(&self) -> &[Thing]
        ensures things { result.now ≡ self.now.things }
        ensures sound { IsSoundThings self.now.things }
    {
        self.things.rows()
    }

    /// The Thing of a hardware address.
    pub fn thing_at(&self, mac: Mac) -> Option<&Thing>
        ensures { option_copied result ≡ thing_at mac self.now.things }
    {
        numbered_thing(&self.things, &self.numbers, &mac)
    }

    /// A hardware address announces a URL (RFC 8520, 1.5, 10 and 12). Where no Thing has the
    /// hardware address, it becomes one (`new`), and [`ThingFault::ThingsFull`] is answered exactly
    /// where 512 are kept. The URL that the Thing has, or that waits, changes nothing (`same`); any
    /// other one waits for the operator, in place of what waited (`pending`).
    pub fn plan_url(&mut self, mac: Mac, url: MudUrl) -> Result<ThingChange, ThingFault>
        ensures { Plans (url_step mac url self.old.things) self.old self.new result }
    {
        mac_has_six_octets(mac);
        url.text_is_canonical();
        let plan = announce(self.alloc, &self.things, mac, url)?;
        or_memory(ThingChange::made(self.alloc, &mut self.things, plan))
    }

    /// The operator moves a Thing to the URL that waits (`moved`). Its own URL is `same`;
    /// [`ThingFault::NoThing`] where no Thing has the hardware address, and
    /// [`ThingFault::NoPending`] where another URL waits, or none.
    pub fn plan_move(&mut self, mac: Mac, url: MudUrl) -> Result<ThingChange, ThingFault>
        ensures { Plans (move_step mac url self.old.things) self.old self.new result }
    {
        let plan = move_to(self.alloc, &self.things, mac, url)?;
        or_memory(ThingChange::made(self.alloc, &mut self.things, plan))
    }

    /// The operator removes a Thing, and its leases with it (`removed`); [`ThingFault::NoThing`]
    /// where no Thing has the hardware address.
    pub fn plan_remove(&mut self, mac: Mac) -> Result<ThingChange, ThingFault>
        ensures { Plans (remove_step mac self.old.things) self.old self.new result }
    {
        let plan = remove(self.alloc, &self.things, mac)?;
        or_memory(ThingChange::made(self.alloc, &mut self.things, plan))
    }

    /// The operator holds a Thing (`held`), for the verdict to drop all its packets. One that is held
    /// already is `same`; [`ThingFault::NoThing`] where no Thing has the hardware address.
    pub fn plan_hold(&mut self, mac: Mac) -> Result<ThingChange, ThingFault>
        ensures { Plans (hold_step mac self.old.things) self.old self.new result }
    {
        let plan = hold(self.alloc, &self.things, mac)?;
        or_memory(ThingChange::made(self.alloc, &mut self.things, plan))
    }

    /// The operator releases a Thing (`released`), for the verdict to go by its usage file. One that
    /// isn't held is `same`; [`ThingFault::NoThing`] where no Thing has the hardware address.
    pub fn plan_release(&mut self, mac: Mac) -> Result<ThingChange, ThingFault>
        ensures { Plans (release_step mac self.old.things) self.old self.new result }
    {
        let plan = release(self.alloc, &self.things, mac)?;
        or_memory(ThingChange::made(self.alloc, &mut self.things, plan))
    }

    /// A hardware address has an address for so many seconds from a moment on, or for ever where
    /// they are 4,294,967,295: heard in a DHCP message, or stated by the operator. The first case
    /// that holds counts. No Thing has the hardware address: the address leaves the Thing that has
    /// it where that was heard (`stranger`), and else [`ThingFault::NoThing`]. The Thing has the
    /// address with that expiry (`same`), or with another one, which is replaced (`renewed`). It
    /// has four live leases: [`ThingFault::LeasesFull`]. Otherwise its leases that aren't live go,
    /// the address leaves another Thing that has it, and this one gets it (`new`).
    pub fn plan_lease(
        &mut self,
        mac: Mac,
        addr: Addr,
        seconds: u32,
        m: Moment,
        heard: bool,
    ) -> Result<ThingChange, ThingFault>
        ensures { Plans (lease_step mac addr seconds m heard self.old.things) self.old self.new result }
    {
        addr_fits(addr);
        moment_is_kept(m);
        let plan = lease_for(self.alloc, &self.things, mac, addr, seconds, m, heard)?;
        or_memory(ThingChange::made(self.alloc, &mut self.things, plan))
    }

    /// The operator ends the lease of an address (`ended`); [`ThingFault::NoLease`] where no Thing
    /// has it.
    pub fn plan_end(&mut self, addr: Addr) -> Result<ThingChange, ThingFault>
        ensures { Plans (end_step addr self.old.things) self.old self.new result }
    {
        let plan = end_lease(self.alloc, &self.things, addr)?;
        or_memory(ThingChange::made(self.alloc, &mut self.things, plan))
    }

    /// Makes a change that was planned. Nothing was committed since. It takes no memory, and can't
    /// fail.
    pub fn commit(&mut self, change: ThingChange)
        requires { IsReady self.old change }
        ensures { self.new.things ≡ changed mac_of change.rows self.old.things }
    {
        self.things.change(change.into_rows());
        self.numbers.write(self.things.rows());
    }

    /// The item in which the Thing at this index of the list is kept.
    pub fn item_of(&self, index: usize) -> Result<Item, Memory>
        requires { index < length self.now.things }
        ensures { IfOk result (λ item. slice_get (thing_items self.now.things) index ≡ Some item) }
    {
        item_of(self.alloc, &self.things.rows()[index])
    }

    /// Takes the Thing of an item behind those that were taken before, and no call has planned a
    /// change yet. The answer is false exactly where the item isn't one of a Thing that can be kept
    /// and may follow them: its hardware address is greater than theirs, fewer than 512 are kept,
    /// and none of them has one of its addresses. Without memory the Things stay as they were too.
    pub fn take(&mut self, item: &Item) -> Result<bool, Memory>
        ensures taken { IfOk result
            (λ taken. IsTrue taken
            → with_thing_item self.old.things item.now ≡ Some self.new.things) }
        ensures refused { IfOk result
            (λ taken. taken ≡ false → with_thing_item self.old.things item.now ≡ None) }
        ensures same { IfOk result (λ taken. taken ≡ false → self.new.things ≡ self.old.things) }
        ensures err { OnErr result (self.new.things ≡ self.old.things) }
    {
        let Some(thing) = kept_thing(self.alloc, item)? else {
            return Ok(false);
        };
        follow(&mut self.things, &mut self.numbers, thing)
    }
}

/// Puts a Thing behind all others, where it may follow them, and its number behind theirs.
fn follow(
    things: &mut SortedRows<Thing>,
    numbers: &mut ThingNumbers,
    thing: Thing,
) -> Result<bool, Memory>
    requires { AreNumbersOf things.old.rows numbers.old }
    ensures may { IfOk result (λ taken. taken ≡ may_follow things.old.rows thing) }
    ensures rows { IfOk result
        (λ taken. things.new.rows
        ≡ (if taken then things.old.rows ++ thing ∷ [] else things.old.rows)) }
    ensures err { OnErr result (things.new.rows ≡ things.old.rows) }
    ensures numbered { AreNumbersOf things.new.rows numbers.new }
{
    let mac = thing.mac;
    if !put_behind(things, thing)? {
        return Ok(false);
    }
    numbers.push(&mac);
    Ok(true)
}

/// Puts a Thing behind all others, where it may follow them.
#[tactic(auto, unfolding(table_model::specs::ThingItems::may_follow))]
fn put_behind(things: &mut SortedRows<Thing>, thing: Thing) -> Result<bool, Memory>
    ensures may { IfOk result (λ taken. taken ≡ may_follow things.old.rows thing) }
    ensures few { IfOk result (λ taken. IsTrue taken → length things.old.rows < 512) }
    ensures rows { IfOk result
        (λ taken. things.new.rows
        ≡ (if taken then things.old.rows ++ thing ∷ [] else things.old.rows)) }
    ensures err { OnErr result (things.new.rows ≡ things.old.rows) }
{
    if things.len() >= MOST_THINGS || is_taken(things.rows(), &thing) {
        return Ok(false);
    }
    things.reserve(1)?;
    Ok(things.push_last(thing))
}
