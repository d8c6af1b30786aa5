//! A keeper in memory.
ghost use Rattle.std.specs.Prelude.{◌≡◌, ◌⊎◌, List, true, IsTrue, IfOk, OnOk, OnErr};
ghost use Rattle.mud_world.specs.Calls.{counted, next_call};
ghost use Rattle.mud_world.specs.Causes.{Counts};
ghost use Rattle.mud_world.specs.Items.{has_failed, is_batch, put_all, IsOrdered};
ghost use Rattle.mud_world.specs.declared.item.Item.{Item};

use crate::calls::{is_to_fail, raise};
use crate::fault::KeepFault;
use crate::item::{Item, Put};
use crate::keeper::Keeper;
use crate::memory_items::{copied_items, copied_puts, put_in};
use base_rows::SortedRows;
use mud_base::Listed;
use std::alloc::Global;

/// How often each call of a keeper was made. A number that has reached the last u64 stays there.
#[derive(Clone, Copy)]
pub struct KeeperCalls {
    pub open: u64,
    pub apply: u64,
}

/// A keeper in memory. A call fails exactly where its number is in the list of its method, counted
/// from 1.
pub struct MemoryKeeper {
    /// The items, ordered by kind and then key, keys distinct.
    pub items: SortedRows<Item>,
    /// The numbers of the calls of `open` that are to fail.
    pub failing_open: Listed<u64>,
    /// The numbers of the calls of `apply` that are to fail.
    pub failing_apply: Listed<u64>,
    /// How often a call has failed.
    pub count: u64,
    /// How often each call was made.
    pub calls: KeeperCalls,
    is_open: bool,
    alloc: Global,
}

impl Drop for MemoryKeeper {
    fn drop(self) {
        let MemoryKeeper {
            items: _,
            failing_open: _,
            failing_apply: _,
            count: _,
            calls: _,
            is_open: _,
            alloc: _,
        } = self;
    }
}

impl MemoryKeeper {
    ghost use Rattle.mud_world.specs.MemoryKeeper.{IsNew};

    /// A keeper of these items, ordered by kind and then key, keys distinct. No call is to fail.
    pub fn new(alloc: Global, items: Listed<Item>) -> MemoryKeeper
        requires { IsOrdered items }
        ensures { IsNew items result }
    {
        MemoryKeeper {
            items: sorted(items),
            failing_open: Listed::new(alloc),
            failing_apply: Listed::new(alloc),
            count: 0,
            calls: KeeperCalls { open: 0, apply: 0 },
            is_open: false,
            alloc,
        }
    }
}

/// The same items, in a list that stays in order.
fn sorted(items: Listed<Item>) -> SortedRows<Item>
    requires { IsOrdered items }
    ensures { result.rows ≡ items }
{
    SortedRows::from_sorted(items.into_vec()).unwrap()
}

impl Keeper for MemoryKeeper {
    ghost use Rattle.mud_world.specs.MemoryKeeper.{SameScript, apply_fails, has_opened, open_fails};

    ghost tells = { λ _. Unit {0} };

    ghost items = { λ keeper. keeper.items.rows };

    ghost opened = { has_opened };

    ghost left = { λ keeper list. list ≡ keeper.items.rows };

    ghost faults = { λ keeper. keeper.count };

    fn open(&mut self, alloc: Global) -> Result<Listed<Item>, KeepFault>
        ensures items { IfOk result (λ list. list ≡ self.new.items.rows) }
        ensures ordered { IsOrdered self.new.items.rows }
        ensures same { self.new.items.rows ≡ self.old.items.rows }
        ensures crash { (list : List Item) → list ≡ self.new.items.rows
            → (list ≡ self.old.items.rows) ⊎ (list ≡ self.old.items.rows) }
        ensures opened { OnOk result (has_opened self.new ≡ true) }
        ensures still { OnErr result (has_opened self.new ≡ has_opened self.old) }
        ensures fails { has_failed result ≡ open_fails self.old }
        ensures count { self.new.count ≡ counted (has_failed result) self.old.count }
        ensures calls { self.new.calls ≡ record self.old.calls { «open» = next_call self.old.calls.open } }
        ensures script { SameScript self.old self.new }
        ensures cause { Counts (has_failed result) self.old.count self.new.count }
    {
        let items = self.items.rows();
        if is_to_fail(&self.failing_open, &mut self.calls.open) {
            raise(&mut self.count);
            return Err(KeepFault::Failed);
        }
        let items = copied_items(alloc, items)?;
        self.is_open = true;
        Ok(items)
    }

    fn apply(&mut self, batch: &[Put]) -> Result<(), KeepFault>
        requires opened { IsTrue (has_opened self.old) }
        requires batch { IsTrue (is_batch batch.now) }
        ensures ordered { IsOrdered self.new.items.rows }
        ensures ok { OnOk result (self.new.items.rows ≡ put_all self.old.items.rows batch.now) }
        ensures err { OnErr result (self.new.items.rows ≡ self.old.items.rows) }
        ensures crash { (list : List Item) → list ≡ self.new.items.rows
            → (list ≡ self.old.items.rows) ⊎ (Unit {0} × (list ≡ put_all self.old.items.rows batch.now)) }
        ensures opened { has_opened self.new ≡ has_opened self.old }
        ensures fails { has_failed result ≡ apply_fails self.old }
        ensures count { self.new.count ≡ counted (has_failed result) self.old.count }
        ensures calls { self.new.calls ≡ record self.old.calls { apply = next_call self.old.calls.apply } }
        ensures script { SameScript self.old self.new }
        ensures cause { Counts (has_failed result) self.old.count self.new.count }
    {
        let _ = self.items.rows();
        if is_to_fail(&self.failing_apply, &mut self.calls.apply) {
            raise(&mut self.count);
            return Err(KeepFault::Failed);
        }
        let puts = copied_puts(self.alloc, batch)?;
        put_in(&mut self.items, puts)?;
        Ok(())
    }
}
