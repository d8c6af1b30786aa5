//! The edits of bindings that go and come.
ghost use Rattle.std.specs.Prelude.{◌≡◌, ℕ, ◌+◌, ◌*◌, ◌^◌, ◌<◌, ◌≤◌, [], length, OnOk, IfOk, true, false, map};
ghost use Rattle.base_rows.specs.Sortable.{set_rows};
ghost use Rattle.acl_model.specs.SortKeys.{binding_sort_key};
ghost use Rattle.base_rows.specs.Edits.{edit_sort_key};
ghost use Rattle.acl_changes.specs.Bindings.{binding_edit, AreEditsOf};
ghost use Rattle.acl_changes.specs.Steps.{least_looks};

use acl_buckets::BindingBuckets;
use acl_model::Binding;
use base_rows::{Edit, SortedRows, Steps, plan_edit};
use mud_base::Memory;
use std::alloc::Global;
use std::sync::ledger::Ledger;

/// From this number of bindings on, each half of them is planned by itself.
const MANY: usize = 16;

/// Adds the edit of each of these bindings, which come or go, to those that are planned. They are few,
/// since each may move the edits of the others.
fn plan_each<L: Ledger>(
    bindings: &BindingBuckets,
    changed: &[Binding],
    comes: bool,
    edits: &mut SortedRows<Edit<Binding>>,
    steps: &mut Steps<L>,
) -> Result<(), Memory>
    requires few { length changed.now < 16 }
    ensures ok { OnOk result (edits.new.rows
        ≡ set_rows (edit_sort_key binding_sort_key) (map (binding_edit bindings.now.rows comes) changed.now) edits.old.rows) }
    ensures looked { OnOk result (steps.old + least_looks bindings.now.rows changed.now ≤ steps.new) }
    ensures least { steps.old ≤ steps.new }
    ensures most { (b : ℕ) → length bindings.now.rows < 2 ^ b → steps.new ≤ steps.old + length changed.now * b }
{
    for binding in changed {
        let found = bindings.find_counted(binding, steps);
        plan_edit(edits, binding.copy()?, comes, found)?;
    }
    Ok(())
}

/// The edits by which these bindings come, or go. Those of each half are planned by themselves and
/// then put together in one pass over both, so bindings in another order than that of their sort
/// keys don't each move the edits of all others.
fn plan_bindings<L: Ledger>(
    alloc: Global,
    bindings: &BindingBuckets,
    changed: &[Binding],
    comes: bool,
    steps: &mut Steps<L>,
) -> Result<SortedRows<Edit<Binding>>, Memory>
    ensures ok { IfOk result (λ edits. edits.rows ≡ set_rows (edit_sort_key binding_sort_key) (map (binding_edit bindings.now.rows comes) changed.now) []) }
    ensures looked { OnOk result (steps.old + least_looks bindings.now.rows changed.now ≤ steps.new) }
    ensures least { steps.old ≤ steps.new }
    ensures most { (b : ℕ) → length bindings.now.rows < 2 ^ b → steps.new ≤ steps.old + length changed.now * b }
{
    if changed.len() < MANY {
        let mut edits = SortedRows::new(alloc);
        plan_each(bindings, changed, comes, &mut edits, steps)?;
        return Ok(edits);
    }
    let (front, behind) = changed.split_at(changed.len() / 2);
    let mut edits = plan_bindings(alloc, bindings, front, comes, steps)?;
    let more = plan_bindings(alloc, bindings, behind, comes, steps)?;
    edits.put_sorted(more)?;
    Ok(edits)
}

/// The edits by which these bindings go, and those come. Each is looked for among the bindings of
/// its key.
pub fn edits_of<L: Ledger>(
    alloc: Global,
    bindings: &BindingBuckets,
    gone: &[Binding],
    come: &[Binding],
    steps: &mut Steps<L>,
) -> Result<SortedRows<Edit<Binding>>, Memory>
    ensures ok { IfOk result (λ edits. AreEditsOf gone.now come.now bindings.now.rows edits.rows) }
    ensures looked { OnOk result (steps.old + least_looks bindings.now.rows gone.now + least_looks bindings.now.rows come.now ≤ steps.new) }
    ensures least { steps.old ≤ steps.new }
    ensures most { (b : ℕ) → length bindings.now.rows < 2 ^ b → steps.new ≤ steps.old + (length gone.now + length come.now) * b }
{
    bindings.tell_order();
    let mut edits = plan_bindings(alloc, bindings, gone, false, steps)?;
    let more = plan_bindings(alloc, bindings, come, true, steps)?;
    edits.put_sorted(more)?;
    Ok(edits)
}
