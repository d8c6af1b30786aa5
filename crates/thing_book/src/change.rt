//! A change of the Things that is planned, and committed later.
ghost use Rattle.std.specs.Prelude.{◌≡◌, ◌≤◌, [], length, IfOk, OnOk};
ghost use Rattle.std.specs.List.{AllByRecursion};
ghost use Rattle.thing_book.specs.Changes.{HasFewLeases, change_of};

use crate::items::puts_of;
use crate::plan::Plan;
use acl_model::Binding;
use base_rows::{Change, SortedRows};
use item_codec::Word;
use mud_base::{End, Listed, Mac, Memory};
use mud_world::Put;
use std::alloc::Global;
use std::marker::Model;
use std::mem;
use table_laws::changed_bindings;
use table_model::Thing;

/// A planned change of the Things: what its command answers, and what it will do. Contracts see it
/// as the record of these.
pub struct ThingChange {
    word: Word,
    until: Option<End>,
    rows: Change<Mac, Thing>,
    puts: Listed<Put>,
    gone: Listed<Binding>,
    come: Listed<Binding>,
}

// It is written out, so that what lets one go doesn't prove again how each part is dropped.
impl Drop for ThingChange {
    fn drop(self) {
        let ThingChange {
            word: _,
            until: _,
            rows: _,
            puts: _,
            gone: _,
            come: _,
        } = self;
    }
}

impl Model for ThingChange {
    ghost use Rattle.thing_book.specs.Planned.{PlannedThings};

    ghost Value = { PlannedThings };

    ghost view = { λ c. record { word = c.word; until = c.until; rows = c.rows; puts = c.puts; gone = c.gone; come = c.come } };
}

impl ThingChange {
    /// What the command did.
    pub fn word(&self) -> Word
        ensures { result ≡ self.now.word }
    {
        self.word
    }

    /// The expiry that is kept for a lease.
    pub fn until(&self) -> Option<End>
        ensures { result ≡ self.now.until }
    {
        self.until
    }

    /// The puts that the change means, without that of the stamp: none exactly where nothing
    /// changes.
    pub fn puts(&self) -> &[Put]
        ensures { result.now ≡ self.now.puts }
    {
        self.puts.as_slice()
    }

    /// Moves the puts out. All else of the change stays.
    pub fn take_puts(&mut self) -> Listed<Put>
        ensures puts { result ≡ self.old.puts }
        ensures left { self.new ≡ record self.old { puts = [] } }
    {
        let none = self.puts.empty_like();
        mem::replace(&mut self.puts, none)
    }

    /// The bindings that go with the change. One whose expiry changes goes and comes.
    pub fn gone(&self) -> &[Binding]
        ensures { result.now ≡ self.now.gone }
    {
        self.gone.as_slice()
    }

    /// The bindings that come with the change.
    pub fn come(&self) -> &[Binding]
        ensures { result.now ≡ self.now.come }
    {
        self.come.as_slice()
    }

    /// The change that a plan is, with room made for its rows. The Things stay as they are.
    pub(crate) fn made(
        alloc: Global,
        things: &mut SortedRows<Thing>,
        plan: Plan,
    ) -> Result<ThingChange, Memory>
        requires { AllByRecursion HasFewLeases plan.rows.sets }
        ensures same { things.new.rows ≡ things.old.rows }
        ensures ok { IfOk result (λ change. change ≡ change_of things.old.rows plan) }
        ensures room { OnOk result (length plan.rows.sets ≤ things.new.room) }
    {
        things.reserve(plan.rows.sets().len())?;
        ThingChange::of_plan(alloc, things, plan)
    }

    /// The change that a plan is.
    #[tactic(auto, unfolding(crate::specs::Changes::change_of))]
    fn of_plan(alloc: Global, things: &SortedRows<Thing>, plan: Plan) -> Result<ThingChange, Memory>
        requires { AllByRecursion HasFewLeases plan.rows.sets }
        ensures { IfOk result (λ change. change ≡ change_of things.now.rows plan) }
    {
        let puts = puts_of(alloc, &plan.rows)?;
        let (gone, come) = changed_bindings(alloc, &plan.rows, things)?;
        Ok(ThingChange {
            word: plan.word,
            until: plan.until,
            rows: plan.rows,
            puts,
            gone,
            come,
        })
    }

    /// The rows that change.
    pub(crate) fn into_rows(self) -> Change<Mac, Thing>
        ensures { result ≡ self.rows }
    {
        let ThingChange {
            word: _,
            until: _,
            rows,
            puts: _,
            gone: _,
            come: _,
        } = self;
        rows
    }
}
