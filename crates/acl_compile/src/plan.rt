//! Changes that are planned.
ghost use Rattle.std.specs.Prelude.{◌≡◌, ℕ, ◌+◌, ◌-◌, ◌*◌, ◌^◌, ◌<◌, ◌≤◌, ◌++◌, length, slice_get, IfOk, OnOk, Option, Some, None, true, is_some, option_copied, vec_len, vec_capacity};
ghost use Rattle.acl_model.specs.Policies.{UrlPolicy};
ghost use Rattle.acl_model.specs.Defaults.{default_policy};
ghost use Rattle.acl_rows.specs.Rows.{rows_of};
ghost use Rattle.acl_changes.specs.Touched.{touches};
ghost use Rattle.acl_compile.specs.Compiled.{UrlsApart, compiled_state};
ghost use Rattle.acl_compile.specs.UrlSlots.{AreGuessed, AreSlotsOf};
ghost use Rattle.acl_compile.specs.Plans as spec;
ghost use Rattle.acl_compile.specs.Plans.{slot_set, IsMemberPlan, IsPolicyPlan, IsSlotFor, CanBeCounted, held_for, others_held, policy_reads, policy_steps};
ghost use Rattle.acl_buckets.specs.RowBuckets.{HasRoom};
ghost use Rattle.acl_changes.specs.Steps.{least_looks, least_steps, HaveKeys, PolicyKeys, sort_key_steps};

use crate::url_slots::{SlotGuesses, UrlSlot, find_guessed};
use acl_buckets::{BindingBuckets, RowBuckets};
use acl_changes::{Change, CompiledPolicy, Held, HeldDefaults, Holding, edits_of, slot_rows};
use acl_model::{Binding, Policy};
use acl_rows::Row;
use base_rows::{Edit, SortedRows, Steps};
use mud_base::Memory;
use mud_url::MudUrl;
use std::alloc::Global;
use std::marker::Model;
use std::sync::ledger::Ledger;

/// A change that is planned: the edits of rows and of bindings, and what is to stand in a slot of
/// the table of policies. `Compiled::commit` makes it.
#[derive(Drop)]
pub struct RowPlan {
    pub(crate) rows: SortedRows<Edit<Row>>,
    pub(crate) bindings: SortedRows<Edit<Binding>>,
    pub(crate) slot: Option<(usize, Option<Held>)>,
}

impl Model for RowPlan {
    ghost use Rattle.acl_compile.specs.Plans.{Plan};

    ghost Value = { Plan };

    ghost view = { λ p. record { rows = p.rows.rows; bindings = p.bindings.rows; slot = p.slot } };
}

/// Puts this in a slot of the table, or in one behind the last. It takes no memory.
#[tactic(auto, unfolding(crate::specs::Plans::slot_set))]
pub(crate) fn set_slot(slots: &mut Vec<Option<Held>>, index: usize, held: Option<Held>)
    requires within { index ≤ vec_len slots.old }
    requires room { index < vec_capacity slots.old }
    ensures { slots.new.items ≡ slot_set (index, held) slots.old.items }
{
    if index < slots.len() {
        slots[index] = held;
    } else {
        slots.push_reserved(held);
    }
}

/// Plans that these bindings go and those come.
pub(crate) fn plan_change<L: Ledger>(
    alloc: Global,
    slots: &[Option<Held>],
    defaults: &HeldDefaults,
    bindings: &mut BindingBuckets,
    rows: &mut RowBuckets,
    gone: &[Binding],
    come: &[Binding],
    steps: &mut Steps<L>,
) -> Result<RowPlan, Memory>
    requires few { length slots.now ≤ 128 }
    requires apart { UrlsApart slots.now }
    requires default { defaults.now ≡ default_policy }
    requires kept { rows.old.rows ≡ rows_of slots.now bindings.old.rows }
    ensures bindings { bindings.new.rows ≡ bindings.old.rows }
    ensures rows { rows.new.rows ≡ rows.old.rows }
    ensures ok { IfOk result (λ plan. (room url_slot_room : ℕ) → IsMemberPlan gone.now come.now (compiled_state slots.now bindings.new rows.new room url_slot_room) plan) }
    ensures looked { OnOk result (steps.old + least_looks bindings.old.rows gone.now + least_looks bindings.old.rows come.now
        + least_steps rows.old.rows (touches slots.now (gone.now ++ come.now)) ≤ steps.new) }
    ensures read { OnOk result (steps.old + least_steps rows.old.rows (touches slots.now (gone.now ++ come.now)) ≤ steps.new) }
    ensures most { (s b k : ℕ) → HaveKeys s slots.now → length bindings.old.rows + length come.now < 2 ^ b → length rows.old.rows < 2 ^ k
        → steps.new ≤ steps.old + (length gone.now + length come.now + length (touches slots.now (gone.now ++ come.now))) * sort_key_steps s b k }
{
    let binding_edits = edits_of(alloc, bindings, gone, come, steps)?;
    let change = Change::new(slots, bindings, rows, gone, come, &binding_edits);
    let holding = Holding::of_defaults(defaults);
    let row_edits = change.plan(alloc, &holding, steps)?;
    rows.make_room(alloc, &row_edits)?;
    bindings.make_room(alloc, &binding_edits)?;
    Ok(RowPlan {
        rows: row_edits,
        bindings: binding_edits,
        slot: None,
    })
}

/// Whether a policy of another URL is held in a slot.
#[tactic(auto, unfolding(crate::specs::Plans::is_other))]
fn is_other(slot: &Option<Held>, url: &MudUrl) -> bool
    ensures { result ≡ spec.is_other url.now slot.now }
{
    match slot {
        None => false,
        Some(held) => held.url() != url,
    }
}

/// In how many slots a policy of another URL is held.
#[tactic(auto, unfolding(crate::specs::Plans::others_held))]
pub(crate) fn others_in(slots: &[Option<Held>], url: &MudUrl) -> usize
    ensures { result ≡ others_held url.now slots.now }
{
    let mut count = 0;
    for slot in slots {
        if is_other(slot, url) {
            count += 1;
        }
    }
    count
}

/// The first slot in which no policy is held: behind all others where each has one.
fn free_slot(slots: &[Option<Held>]) -> usize
    ensures within { result ≤ length slots.now }
    ensures free { (h : UrlPolicy) → slice_get slots.now result ≡ Some (Some h) → Some h ≡ None }
    ensures full { (j : ℕ) (slot : Option UrlPolicy) → j < result → slice_get slots.now j ≡ Some slot → is_some slot ≡ true }
{
    let mut slot_number = 0;
    for slot in slots {
        if slot.is_none() {
            return slot_number;
        }
        slot_number += 1;
    }
    slot_number
}

/// The slot of a URL: the one in which its policy is held, or else a free one.
fn slot_for(
    slots: &[Option<Held>],
    url_slots: &SortedRows<UrlSlot>,
    guesses: &SlotGuesses,
    url: &MudUrl,
) -> usize
    requires few { length slots.now ≤ 128 }
    requires apart { UrlsApart slots.now }
    requires url_slots { AreSlotsOf slots.now url_slots.now.rows }
    requires guessed { AreGuessed slots.now guesses.now }
    ensures { IsSlotFor url.now slots.now result }
{
    match find_guessed(slots, url_slots, guesses, url) {
        Some((slot_number, _)) => usize::from(slot_number),
        None => free_slot(slots),
    }
}

/// The policy as it is held, where there is one.
#[tactic(auto, unfolding(crate::specs::Plans::held_for))]
fn held_policy(alloc: Global, url: &MudUrl, policy: Option<&Policy>) -> Result<Option<Held>, Memory>
    requires { CanBeCounted (option_copied policy) }
    ensures { IfOk result (λ held. held ≡ held_for url.now (option_copied policy.entry)) }
{
    match policy {
        None => Ok(None),
        Some(policy) => {
            let compiled = CompiledPolicy::new(alloc, policy.copy()?)?;
            Ok(Some(Held::new(alloc, *url, compiled)?))
        }
    }
}

/// Makes room for a policy in the table, for its slot, and for the rows of these edits.
fn make_slot_room(
    alloc: Global,
    slots: &mut Vec<Option<Held>>,
    url_slots: &mut SortedRows<UrlSlot>,
    rows: &mut RowBuckets,
    edits: &SortedRows<Edit<Row>>,
) -> Result<(), Memory>
    ensures slots { slots.new.items ≡ slots.old.items }
    ensures url_slots { url_slots.new.rows ≡ url_slots.old.rows }
    ensures rows { rows.new.rows ≡ rows.old.rows }
    ensures slot_room { OnOk result (1 ≤ vec_capacity slots.new - vec_len slots.new) }
    ensures url_slot_room { OnOk result (1 ≤ url_slots.new.room) }
    ensures row_room { OnOk result (HasRoom edits.now.rows rows.new.room) }
{
    slots.reserve(1)?;
    url_slots.reserve(1)?;
    rows.make_room(alloc, edits)
}

/// Plans that this policy is held for the URL, or none.
pub(crate) fn plan_slot<L: Ledger>(
    alloc: Global,
    slots: &mut Vec<Option<Held>>,
    url_slots: &mut SortedRows<UrlSlot>,
    guesses: &SlotGuesses,
    bindings: &BindingBuckets,
    rows: &mut RowBuckets,
    url: &MudUrl,
    policy: Option<&Policy>,
    steps: &mut Steps<L>,
) -> Result<RowPlan, Memory>
    requires few { length slots.old.items ≤ 128 }
    requires apart { UrlsApart slots.old.items }
    requires url_slots { AreSlotsOf slots.old.items url_slots.old.rows }
    requires guessed { AreGuessed slots.old.items guesses.now }
    requires kept { rows.old.rows ≡ rows_of slots.old.items bindings.now.rows }
    requires others { others_held url.now slots.old.items < 128 }
    requires lists { CanBeCounted (option_copied policy) }
    ensures slots { slots.new.items ≡ slots.old.items }
    ensures url_slots { url_slots.new.rows ≡ url_slots.old.rows }
    ensures rows { rows.new.rows ≡ rows.old.rows }
    ensures ok { IfOk result (λ plan. IsPolicyPlan url.now (option_copied policy.entry) (compiled_state slots.new.items bindings.now rows.new (vec_capacity slots.new - vec_len slots.new) url_slots.new.room) plan) }
    ensures read { OnOk result (steps.old + policy_reads url.now (option_copied policy.entry) slots.old.items bindings.now.rows rows.old.rows ≤ steps.new) }
    ensures most { (s b k : ℕ) → HaveKeys s slots.old.items → PolicyKeys s (held_for url.now (option_copied policy.entry)) → length bindings.now.rows < 2 ^ b → length rows.old.rows < 2 ^ k
        → steps.new ≤ steps.old + policy_steps url.now (option_copied policy.entry) slots.old.items bindings.now.rows rows.old.rows s b k }
{
    let slot_number = slot_for(slots.as_slice(), url_slots, guesses, url);
    let held = held_policy(alloc, url, policy)?;
    let Ok(edits) = slot_rows(
        alloc,
        slots.as_slice(),
        bindings,
        rows,
        slot_number as u16,
        &held,
        steps,
    ) else {
        drop(held);
        return Err(Memory);
    };
    let Ok(()) = make_slot_room(alloc, slots, url_slots, rows, &edits) else {
        drop(edits);
        drop(held);
        return Err(Memory);
    };
    Ok(RowPlan {
        rows: edits,
        bindings: SortedRows::new(alloc),
        slot: Some((slot_number, held)),
    })
}
