//! What is compiled, and views of it.
ghost use Rattle.std.specs.Prelude.{◌≡◌, ℕ, ◌+◌, ◌*◌, ◌^◌, ◌<◌, ◌≤◌, ◌++◌, [], length, IfOk, OnOk, option_copied, ◌↔◌, IsTrue};
ghost use Rattle.acl_rows.specs.View.{IsViewOf};
ghost use Rattle.acl_rows.specs.Rows.{rows_of};
ghost use Rattle.acl_changes.specs.Patch.{rows_apart};
ghost use Rattle.acl_changes.specs.Touched.{touches};
ghost use Rattle.acl_compile.specs.Compiled.{HasItsRows};
ghost use Rattle.acl_compile.specs.Plans.{Fits, slots_after, bindings_after, IsKept, IsMemberPlan, IsPolicyPlan, CanBeCounted, held_for, others_held, policy_reads, policy_steps};
ghost use Rattle.acl_changes.specs.Steps.{least_looks, least_steps, HaveKeys, PolicyKeys, sort_key_steps};

use crate::plan::{RowPlan, others_in, plan_change, plan_slot, set_slot};
use crate::url_slots::{SlotGuesses, UrlSlot, find_guessed, set_url_slot};
use acl_buckets::{BindingBuckets, RowBuckets};
use acl_changes::{Held, HeldDefaults};
use acl_model::{Binding, Policy};
use acl_rows::{Owner, RuleView};
use base_rows::{SortedRows, Steps};
use mud_base::{Direction, Memory};
use mud_url::MudUrl;
use std::alloc::Global;
use std::marker::Model;
use std::sync::ledger::Ledger;

/// The approved policies, each in its slot of a table of at most 128, which is found by its URL,
/// the bindings, those of each key by themselves, and the rows that follow from them, those of each
/// policy, side and address by themselves. Contracts see policies, bindings and rows, and how much
/// more there is room for.
pub struct Compiled {
    alloc: Global,
    slots: Vec<Option<Held>>,
    url_slots: SortedRows<UrlSlot>,
    defaults: HeldDefaults,
    bindings: BindingBuckets,
    rows: RowBuckets,
    guesses: SlotGuesses,
}

impl Drop for Compiled {
    fn drop(self) {
        let Compiled {
            alloc: _,
            slots: _,
            url_slots: _,
            defaults: _,
            bindings: _,
            rows: _,
            guesses: _,
        } = self;
    }
}

impl Model for Compiled {
    ghost use Rattle.std.specs.Prelude.{◌-◌, vec_len, vec_capacity};
    ghost use Rattle.acl_compile.specs.Compiled.{CompiledState};
    ghost use Rattle.acl_compile.specs.UrlSlots.{IsSoundWithSlots};

    ghost Value = { CompiledState };

    ghost view = { λ c. record { slots = c.slots.items; bindings = c.bindings.rows; rows = c.rows.rows; slot_room = vec_capacity c.slots - vec_len c.slots; url_slot_room = c.url_slots.room; binding_room = c.bindings.room; row_room = c.rows.room } };

    ghost invariant = { λ c. IsSoundWithSlots c.slots.items c.bindings.rows c.rows.rows c.defaults c.url_slots.rows c.guesses };
}

impl Compiled {
    /// No policy, no binding and no row. It takes the memory of the default entries.
    pub fn new(alloc: Global) -> Result<Compiled, Memory>
        ensures slots { IfOk result (λ compiled. compiled.slots ≡ []) }
        ensures bindings { IfOk result (λ compiled. compiled.bindings ≡ []) }
        ensures rows { IfOk result (λ compiled. compiled.rows ≡ []) }
    {
        let defaults = HeldDefaults::new(alloc)?;
        Ok(Compiled {
            alloc,
            slots: Vec::new(alloc),
            url_slots: SortedRows::new(alloc),
            defaults,
            bindings: BindingBuckets::new(alloc),
            rows: RowBuckets::new(alloc),
            guesses: SlotGuesses::new(),
        })
    }

    /// Whether a policy can be held for this URL: fewer than 128 other URLs have one.
    pub fn has_slot(&self, url: &MudUrl) -> bool
        ensures { IsTrue result ↔ (others_held url.now self.now.slots < 128) }
    {
        others_in(self.slots.as_slice(), url) < 128
    }

    /// What a ruling on packets with a Thing of this URL on this side reads: the entries of the
    /// policy that is held for the URL, where one is, and the default entries, and the rows of
    /// both.
    #[inline(always)]
    pub fn view(&self, url: &MudUrl, side: Direction) -> RuleView<'_>
        ensures view { IsViewOf self.now.slots self.now.rows url.now side result }
        ensures kept { HasItsRows self.now }
    {
        self.bindings.tell_order();
        let slots = self.slots.as_slice();
        let file = match find_guessed(slots, &self.url_slots, &self.guesses, url) {
            None => None,
            Some((n, held)) => Some(held.policy().part(Owner::Url(n), side, &self.rows)),
        };
        let defaults = self.defaults.policy();
        let defaults = defaults.part(Owner::Default, side, &self.rows);
        RuleView::new(side, file, defaults)
    }

    /// Plans a change of bindings: these go and those come. What is kept stays as it is, whatever
    /// the answer. It reads the sort keys that the change touches: for each binding that goes or
    /// comes the entries that have its key, at its address. Each is looked for among the rows of
    /// its owner, side and address, which is a step at least where there are any. So is each of
    /// these bindings among those of its key.
    pub fn plan_member<L: Ledger>(
        &mut self,
        gone: &[Binding],
        come: &[Binding],
        steps: &mut Steps<L>,
    ) -> Result<RowPlan, Memory>
        ensures kept { IsKept self.old self.new }
        ensures ok { IfOk result (λ plan. IsMemberPlan gone.now come.now self.new plan) }
        ensures looked { OnOk result (steps.old + least_looks self.old.bindings gone.now + least_looks self.old.bindings come.now
            + least_steps self.old.rows (touches self.old.slots (gone.now ++ come.now)) ≤ steps.new) }
        ensures least { OnOk result (steps.old + least_steps self.old.rows (touches self.old.slots (gone.now ++ come.now)) ≤ steps.new) }
        ensures most { (s b k : ℕ) → HaveKeys s self.old.slots → length self.old.bindings + length come.now < 2 ^ b → length self.old.rows < 2 ^ k
            → steps.new ≤ steps.old + (length gone.now + length come.now + length (touches self.old.slots (gone.now ++ come.now))) * sort_key_steps s b k }
    {
        plan_change(
            self.alloc,
            self.slots.as_slice(),
            &self.defaults,
            &mut self.bindings,
            &mut self.rows,
            gone,
            come,
            steps,
        )
    }

    /// Plans that this policy is held for the URL, in place of the one that is; None takes that one
    /// away. What is kept stays as it is, whatever the answer. It reads the URL's rows, and for
    /// each entry of the new policy with a member selector the bindings of its first key: each is a
    /// step at least.
    pub fn plan_policy<L: Ledger>(
        &mut self,
        url: &MudUrl,
        policy: Option<&Policy>,
        steps: &mut Steps<L>,
    ) -> Result<RowPlan, Memory>
        requires others { others_held url.now self.old.slots < 128 }
        requires lists { CanBeCounted (option_copied policy) }
        ensures kept { IsKept self.old self.new }
        ensures ok { IfOk result (λ plan. IsPolicyPlan url.now (option_copied policy.entry) self.new plan) }
        ensures least { OnOk result (steps.old + policy_reads url.now (option_copied policy.entry) self.old.slots self.old.bindings self.old.rows ≤ steps.new) }
        ensures most { (s b k : ℕ) → HaveKeys s self.old.slots → PolicyKeys s (held_for url.now (option_copied policy.entry)) → length self.old.bindings < 2 ^ b → length self.old.rows < 2 ^ k
            → steps.new ≤ steps.old + policy_steps url.now (option_copied policy.entry) self.old.slots self.old.bindings self.old.rows s b k }
    {
        plan_slot(
            self.alloc,
            &mut self.slots,
            &mut self.url_slots,
            &self.guesses,
            &self.bindings,
            &mut self.rows,
            url,
            policy,
            steps,
        )
    }

    /// Makes the change that was planned last, where nothing was committed since. It takes no
    /// memory, and one step for each row and each binding that it puts in or takes away: no more
    /// than there are rows before or after and not both, and bindings that go or come.
    pub fn commit<L: Ledger>(&mut self, plan: RowPlan, steps: &mut Steps<L>)
        requires { Fits plan self.old }
        ensures slots { self.new.slots ≡ slots_after plan self.old }
        ensures bindings { self.new.bindings ≡ bindings_after plan self.old }
        ensures rows { self.new.rows ≡ rows_of self.new.slots self.new.bindings }
        ensures counted { steps.new ≡ steps.old + length plan.rows + length plan.bindings }
        ensures most { length plan.rows ≤ rows_apart self.old.rows self.new.rows }
    {
        let RowPlan {
            rows,
            bindings,
            slot,
        } = plan;
        self.rows.make_edits(rows, steps);
        self.bindings.make_edits(bindings, steps);
        if let Some((index, held)) = slot {
            set_url_slot(&mut self.url_slots, self.slots.as_slice(), index, &held);
            set_slot(&mut self.slots, index, held);
            self.guesses.write(self.slots.as_slice());
        }
    }
}
