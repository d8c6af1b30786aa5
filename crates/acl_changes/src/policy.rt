//! The edits of rows that a policy leads to which comes, goes or is replaced.
ghost use Rattle.std.specs.Prelude.{◌≡◌, ℕ, ◌+◌, ◌*◌, ◌^◌, ◌<◌, ◌≤◌, [], length, IfOk, OnOk};
ghost use Rattle.base_rows.specs.Sortable.{SortKeysAscend};
ghost use Rattle.acl_rows.specs.declared.row.Owner.TheVariants as owner_of;
ghost use Rattle.acl_rows.specs.SortKeys.{row_sort_key};
ghost use Rattle.acl_rows.specs.Rows.{Slots, rows_of, held_by};
ghost use Rattle.acl_rows.specs.View.{rows_of_side};
ghost use Rattle.acl_changes.specs.Patch.{IsPatch};
ghost use Rattle.acl_changes.specs.PolicyTouched.{new_touches, owner_rows, IsSlotChange};
ghost use Rattle.acl_changes.specs.Fresh.{fresh_of, more_fresh, policy_count, left_edits};
ghost use Rattle.acl_changes.specs.Steps.{HaveKeys, PolicyKeys, sort_key_steps};

use crate::change::{Change, Holding};
use crate::fresh::{FreshRows, plan_left};
use crate::policies::Held;
use acl_buckets::{BindingBuckets, RowBuckets};
use acl_rows::{Owner, Row};
use base_rows::{Edit, SortedRows, Steps};
use mud_base::{Direction, Memory};
use std::alloc::Global;
use std::sync::ledger::Ledger;

/// Plans that those rows of an owner and side go whose sort keys aren't among the rows that stay.
/// Each row of the owner and side is one step.
fn plan_side<L: Ledger>(
    rows: &RowBuckets,
    owner: Owner,
    side: Direction,
    fresh: &mut FreshRows,
    steps: &mut Steps<L>,
) -> Result<(), Memory>
    ensures rows { fresh.new.rows ≡ fresh.old.rows }
    ensures ok { OnOk result (fresh.new.edits ≡ left_edits rows.now.rows fresh.old.rows (rows_of_side owner side rows.now.rows) fresh.old.edits) }
    ensures counted { steps.new ≡ steps.old + length (rows_of_side owner side rows.now.rows) }
{
    let groups = rows.all_rows(owner, side, steps);
    for group in groups.values() {
        plan_left(group.rows(), fresh)?;
    }
    Ok(())
}

/// Plans that those rows of an owner go whose sort keys aren't among the rows that stay. Each row
/// of the owner is one step.
fn plan_own<L: Ledger>(
    rows: &RowBuckets,
    owner: Owner,
    fresh: &mut FreshRows,
    steps: &mut Steps<L>,
) -> Result<(), Memory>
    requires { SortKeysAscend row_sort_key rows.now.rows }
    ensures ok { OnOk result (fresh.new.edits ≡ left_edits rows.now.rows fresh.old.rows (rows_of_side owner Direction.To rows.now.rows) (left_edits rows.now.rows fresh.old.rows (rows_of_side owner Direction.From rows.now.rows) fresh.old.edits)) }
    ensures read { OnOk result (steps.old + length (owner_rows owner rows.now.rows) ≤ steps.new) }
    ensures most { steps.new ≤ steps.old + length (owner_rows owner rows.now.rows) }
{
    plan_side(rows, owner, Direction::From, fresh, steps)?;
    plan_side(rows, owner, Direction::To, fresh, steps)
}

/// The edits of the rows that the policy of an owner asks for, where there is one, and those of
/// these rows that stay.
fn fresh_rows<L: Ledger>(
    alloc: Global,
    change: &Change<'_>,
    owner: Owner,
    held: &Option<Held>,
    steps: &mut Steps<L>,
) -> Result<FreshRows, Memory>
    requires gone { change.now.gone ≡ [] }
    requires come { change.now.come ≡ [] }
    ensures ok { IfOk result (λ fresh. (new : Slots) → held_by new owner ≡ held.now → fresh ≡ more_fresh change.now.slots change.now.bindings new (new_touches change.now.bindings owner held.now) (fresh_of [] [])) }
    ensures read { OnOk result (steps.old + length (new_touches change.now.bindings owner held.now) ≤ steps.new) }
    ensures most { (s b k : ℕ) → PolicyKeys s held.now → length change.now.bindings < 2 ^ b → length change.now.rows < 2 ^ k
        → steps.new ≤ steps.old + policy_count held.now * b + length (new_touches change.now.bindings owner held.now) * (s * b + k + 1) }
{
    match held {
        None => Ok(FreshRows::new(alloc)),
        Some(held) => change.policy_fresh(alloc, &Holding::of_held(owner, held), steps),
    }
}

/// The edits of rows for this policy in a slot of the table, or for none. The rows of that slot
/// are read, and the bindings of the first key of each new entry.
pub fn slot_rows<L: Ledger>(
    alloc: Global,
    slots: &[Option<Held>],
    bindings: &BindingBuckets,
    rows: &RowBuckets,
    index: u16,
    held: &Option<Held>,
    steps: &mut Steps<L>,
) -> Result<SortedRows<Edit<Row>>, Memory>
    requires { rows.now.rows ≡ rows_of slots.now bindings.now.rows }
    ensures ok { IfOk result (λ edits. (new : Slots) → IsSlotChange slots.now new index held.now → IsPatch slots.now bindings.now.rows new bindings.now.rows edits.rows) }
    ensures read { OnOk result (steps.old + length (owner_rows (owner_of.Url index) rows.now.rows) + length (new_touches bindings.now.rows (owner_of.Url index) held.now) ≤ steps.new) }
    ensures most { (s b k : ℕ) → HaveKeys s slots.now → PolicyKeys s held.now → length bindings.now.rows < 2 ^ b → length rows.now.rows < 2 ^ k
        → steps.new ≤ steps.old + length (owner_rows (owner_of.Url index) rows.now.rows) + (policy_count held.now + length (new_touches bindings.now.rows (owner_of.Url index) held.now) + 1) * sort_key_steps s b k }
{
    let owner = Owner::Url(index);
    let unchanged = SortedRows::new(alloc);
    let change = Change::new(slots, bindings, rows, &[], &[], &unchanged);
    let mut fresh = fresh_rows(alloc, &change, owner, held, steps)?;
    plan_own(rows, owner, &mut fresh, steps)?;
    let FreshRows { edits, rows: _ } = fresh;
    Ok(edits)
}
