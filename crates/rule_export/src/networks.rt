//! The networks of an entry.
ghost use Rattle.std.specs.Prelude.{◌≡◌, IfOk, OnOk, option_map};
ghost use Rattle.std.specs.List.{filter_map};
ghost use Rattle.base_rows.specs.Sortable.{set_rows};
ghost use Rattle.base_rows.specs.Addresses.{prefix_sort_key};
ghost use Rattle.rule_export.specs.Networks as spec;

use crate::near_laws::choices_are_joint;
use acl_model::{Entry, Selector, is_in_family};
use base_rows::SortedRows;
use mud_base::{Family, Memory, Prefix};
use std::alloc::Global;

/// Whether the first prefix holds each address of the second.
#[tactic(auto, unfolding(crate::specs::Networks::holds_all))]
fn holds_all(p: Prefix, q: Prefix) -> bool
    ensures { result ≡ spec.holds_all p q }
{
    p.len() <= q.len() && p.holds(q.addr())
}

/// What two prefixes have in common: the longer one, where the other holds it.
#[tactic(auto, unfolding(crate::specs::Networks::common_part))]
fn common_part(p: Prefix, q: Prefix) -> Option<Prefix>
    ensures { result ≡ spec.common_part p q }
{
    if holds_all(p, q) {
        Some(q)
    } else if holds_all(q, p) {
        Some(p)
    } else {
        None
    }
}

/// Puts a network in, where there is one.
fn put_some(networks: &mut SortedRows<Prefix>, network: Option<Prefix>) -> Result<(), Memory>
    ensures { OnOk result (networks.new.rows ≡ set_rows prefix_sort_key (spec.listed network) networks.old.rows) }
{
    if let Some(network) = network {
        networks.reserve(1)?;
        networks.put(network);
    }
    Ok(())
}

/// Puts in what one prefix has in common with each of these.
fn put_common(networks: &mut SortedRows<Prefix>, p: Prefix, rest: &[Prefix]) -> Result<(), Memory>
    ensures { OnOk result (networks.new.rows ≡ set_rows prefix_sort_key (filter_map (spec.common_part p) rest.now) networks.old.rows) }
{
    for q in rest {
        put_some(networks, common_part(p, *q))?;
    }
    Ok(())
}

/// Puts in one prefix, or what it has in common with each of those so far.
#[tactic(auto, unfolding(crate::specs::Networks::joined_with))]
fn put_joined(
    networks: &mut SortedRows<Prefix>,
    p: Prefix,
    rest: &Option<SortedRows<Prefix>>,
) -> Result<(), Memory>
    ensures { OnOk result (networks.new.rows ≡ set_rows prefix_sort_key (spec.joined_with (option_map spec.rows_in rest.now) p) networks.old.rows) }
{
    match rest {
        None => put_some(networks, Some(p)),
        Some(rest) => put_common(networks, p, rest.rows()),
    }
}

/// The same of each local network of the family.
#[tactic(auto, unfolding(crate::specs::Networks::is_local_of))]
fn put_locals(
    networks: &mut SortedRows<Prefix>,
    family: Family,
    locals: &[Prefix],
    rest: &Option<SortedRows<Prefix>>,
) -> Result<(), Memory>
    ensures { OnOk result (networks.new.rows ≡ set_rows prefix_sort_key (spec.joined_locals family locals.now (option_map spec.rows_in rest.now)) networks.old.rows) }
{
    for p in locals {
        if is_in_family(family, p.addr()) {
            put_joined(networks, *p, rest)?;
        }
    }
    Ok(())
}

/// The networks of one selector more.
#[tactic(auto, unfolding(crate::specs::Networks::joint_with, crate::specs::Networks::named_by, crate::specs::Networks::in_order, acl_model::specs::Keys::is_member))]
fn with_selector(
    alloc: Global,
    selector: &Selector,
    family: Family,
    locals: &[Prefix],
    rest: Option<SortedRows<Prefix>>,
) -> Result<Option<SortedRows<Prefix>>, Memory>
    ensures { IfOk result (λ found. option_map spec.rows_in found ≡ spec.joint_with family locals.now selector.now (option_map spec.rows_in rest)) }
{
    let mut networks = SortedRows::new(alloc);
    match selector {
        Selector::LocalNetworks => put_locals(&mut networks, family, locals, &rest)?,
        Selector::Network(p) => put_joined(&mut networks, *p, &rest)?,
        _ => return Ok(rest),
    }
    Ok(Some(networks))
}

/// The networks in which the peer meets all near selectors of the entry, for packets of an IP version and by these
/// local networks: in ascending order by address and length, each once. It is None where the entry has no near
/// selector. There are never more than the local networks and the near selectors together, since each is one of
/// the prefixes that these name.
#[tactic(auto, unfolding(crate::specs::Networks::joint))]
pub fn near_networks(
    alloc: Global,
    entry: &Entry,
    family: Family,
    locals: &[Prefix],
) -> Result<Option<SortedRows<Prefix>>, Memory>
    ensures { IfOk result (λ found. option_map spec.rows_in found ≡ spec.asked_networks family locals.now entry.now) }
{
    choices_are_joint();
    let selectors = entry.selectors.as_slice();
    let mut found = None;
    let mut index = selectors.len();
    'selectors: while index > 0 {
        index -= 1;
        found = with_selector(alloc, &selectors[index], family, locals, found)?;
    }
    Ok(found)
}
