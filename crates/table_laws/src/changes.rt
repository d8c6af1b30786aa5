//! The bindings that go and come with a change of rows.
ghost use Rattle.std.specs.Prelude.{◌≡◌, ◌≤◌, ◌<◌, [], ◌++◌, length, map, flat_map, is_some, IfOk, IfSome, OnOk, position};
ghost use Rattle.base_rows.specs.Sortable.{row_at};
ghost use Rattle.base_rows.specs.Changes.{old_rows, with_found, gone_row};
ghost use Rattle.acl_model.specs.Changes.{has_binding};
ghost use Rattle.acl_model.specs.Changes as spec;
ghost use Rattle.table_model.specs.BindingChanges.{gone_of, come_of};
ghost use Rattle.table_laws.specs.Lent.{lent_binding, is_lent};

use crate::lent::LentBinding;
use crate::rows::BindingRow;
use acl_model::Binding;
use base_rows::{Change, KeyOf, SortedRows};
use mud_base::{Listed, Memory};
use std::alloc::Global;

/// Where the binding stands first among others.
#[tactic(auto, unfolding(crate::specs::Lent::is_lent))]
fn index_in_list(binding: &LentBinding<'_>, others: &[LentBinding<'_>]) -> Option<usize>
    ensures { result ≡ position (is_lent binding.now) others.now }
{
    others.iter().position(|other| binding.is_same(other))
}

/// Where the binding stands among others, looked for from this index on, and then before it.
fn index_from(from: usize, binding: &LentBinding<'_>, others: &[LentBinding<'_>]) -> Option<usize>
    requires { from ≤ length others.now }
    ensures found { is_some result ≡ has_binding (lent_binding binding.now) (map lent_binding others.now) }
    ensures within { IfSome result (λ index. index < length others.now) }
{
    let (before, behind) = others.split_at(from);
    match index_in_list(binding, behind) {
        Some(index) => Some(from + index),
        None => index_in_list(binding, before),
    }
}

/// Copies of those bindings that aren't among the others, in their order. A binding with another
/// expiry is another one. Each is looked for behind the last one that was found, so that in lists
/// of one order all that stay cost one look at each of the others, and each that doesn't stay costs
/// one more. No contract counts the looks.
fn those_not_in(
    alloc: Global,
    others: &[LentBinding<'_>],
    bindings: &[LentBinding<'_>],
) -> Result<Listed<Binding>, Memory>
    ensures { IfOk result (λ left. left ≡ spec.those_not_in (map lent_binding others.now) (map lent_binding bindings.now)) }
{
    let mut left = Listed::new(alloc);
    let mut next = 0;
    for binding in bindings {
        match index_from(next, binding, others) {
            Some(index) => next = index + 1,
            None => left.push(binding.to_binding(alloc)?)?,
        }
    }
    Ok(left)
}

/// The bindings of rows, row after row.
fn bindings_of<'a, R: BindingRow>(
    alloc: Global,
    rows: &'a [R],
) -> Result<Listed<LentBinding<'a>>, Memory>
    ensures { IfOk result (λ list. map lent_binding list ≡ flat_map R.bindings rows.now) }
{
    let mut list = Listed::new(alloc);
    for row in rows {
        row.add_bindings(&mut list)?;
    }
    Ok(list)
}

/// Adds the bindings of the row that a key names, where there is one.
fn add_bindings_at<'a, R: BindingRow, K: KeyOf<R>>(
    list: &mut Listed<LentBinding<'a>>,
    key: &K,
    rows: &'a SortedRows<R>,
) -> Result<(), Memory>
    ensures { OnOk result (map lent_binding list.new ≡ map lent_binding list.old ++ flat_map R.bindings (with_found (row_at R.sort_key (K.sort_key key.now) rows.now.rows) [])) }
{
    match rows.get(key) {
        Some(row) => row.add_bindings(list),
        None => Ok(()),
    }
}

/// The bindings of the row that goes, where one goes.
fn bindings_gone<'a, K: KeyOf<R>, R: BindingRow>(
    alloc: Global,
    change: &Change<K, R>,
    rows: &'a SortedRows<R>,
) -> Result<Listed<LentBinding<'a>>, Memory>
    ensures { IfOk result (λ list. map lent_binding list ≡ flat_map R.bindings (with_found (gone_row R.sort_key change.now.gone rows.now.rows) [])) }
{
    let mut list = Listed::new(alloc);
    match change.gone() {
        Some(key) => {
            add_bindings_at(&mut list, key, rows)?;
            Ok(list)
        }
        None => Ok(list),
    }
}

/// The bindings of the rows that stand at the sort keys that a change touches.
fn old_bindings<'a, K: KeyOf<R>, R: BindingRow>(
    alloc: Global,
    change: &Change<K, R>,
    rows: &'a SortedRows<R>,
) -> Result<Listed<LentBinding<'a>>, Memory>
    ensures { IfOk result (λ list. map lent_binding list ≡ flat_map R.bindings (old_rows R.sort_key change.now rows.now.rows)) }
{
    let mut list = bindings_gone(alloc, change, rows)?;
    for row in change.sets() {
        add_bindings_at(&mut list, row, rows)?;
    }
    Ok(list)
}

/// The bindings that go and those that come with a change of these rows.
#[tactic(auto, unfolding(table_model::specs::BindingChanges::gone_of, table_model::specs::BindingChanges::come_of))]
pub fn changed_bindings<K: KeyOf<R>, R: BindingRow>(
    alloc: Global,
    change: &Change<K, R>,
    rows: &SortedRows<R>,
) -> Result<(Listed<Binding>, Listed<Binding>), Memory>
    ensures gone { IfOk result (λ lists. lists.0 ≡ gone_of R.sort_key R.bindings change.now rows.now.rows) }
    ensures come { IfOk result (λ lists. lists.1 ≡ come_of R.sort_key R.bindings change.now rows.now.rows) }
{
    let old = old_bindings(alloc, change, rows)?;
    let new = bindings_of(alloc, change.sets())?;
    let gone = those_not_in(alloc, new.as_slice(), old.as_slice())?;
    let come = those_not_in(alloc, old.as_slice(), new.as_slice())?;
    Ok((gone, come))
}
