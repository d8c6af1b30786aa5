//! The addresses of a class, and the local networks.
ghost use Rattle.std.specs.Prelude.{◌≡◌, IfOk, Some, None, if◌then◌else◌};
ghost use Rattle.table_model.specs.Binds as spec;
ghost use Rattle.base_rows.specs.Addresses.{addr_sort_key};
ghost use Rattle.base_rows.specs.Ascending.{sort_keys_ascend};

use base_rows::sortable::lists;
use mud_base::{Addr, Listed, Memory, Prefix, same_addr};
use std::alloc::Global;

/// Whether the address is one of these.
#[tactic(auto, unfolding(crate::specs::Binds::has_addr))]
pub fn has_addr(addr: Addr, addrs: &[Addr]) -> bool
    ensures { result ≡ spec.has_addr addr addrs.now }
{
    addrs.iter().any(|other| same_addr(*other, addr))
}

/// A copy of the addresses with this one put in, in their order.
#[tactic(auto, unfolding(crate::specs::Binds::with_addr))]
pub fn with_addr(alloc: Global, addr: Addr, addrs: &[Addr]) -> Result<Listed<Addr>, Memory>
    ensures { IfOk result (λ made. made ≡ spec.with_addr addr addrs.now) }
{
    let made = lists::with_row(alloc, addrs, addr)?;
    Ok(Listed::from_vec(made))
}

/// A copy of the addresses without this one.
#[tactic(auto, unfolding(crate::specs::Binds::without_addr))]
pub fn without_addr(alloc: Global, addr: Addr, addrs: &[Addr]) -> Result<Listed<Addr>, Memory>
    ensures { IfOk result (λ left. left ≡ spec.without_addr addr addrs.now) }
{
    let left: Vec<Addr> = addrs
        .iter()
        .copied()
        .filter(|other| !same_addr(*other, addr))
        .collect(alloc)?;
    Ok(Listed::from_vec(left))
}

/// Whether the addresses are in their order, each once.
#[tactic(auto)]
pub(crate) fn are_addrs(addrs: &[Addr]) -> bool
    ensures { result ≡ sort_keys_ascend addr_sort_key addrs.now }
{
    lists::is_ascending(addrs)
}

/// The prefixes in their order, each once.
#[tactic(auto, unfolding(crate::specs::Binds::prefixes_in_order))]
pub fn prefixes_in_order(alloc: Global, prefixes: &[Prefix]) -> Result<Listed<Prefix>, Memory>
    ensures { IfOk result (λ sorted. sorted ≡ spec.prefixes_in_order prefixes.now) }
{
    let mut sorted = Vec::new(alloc);
    let mut at = prefixes.len();
    while at > 0 {
        at -= 1;
        lists::put_in(&mut sorted, prefixes[at])?;
    }
    Ok(Listed::from_vec(sorted))
}

/// Whether both are one prefix.
#[tactic(auto, unfolding(crate::specs::Binds::same_prefix))]
fn same_prefix(one: &Prefix, other: &Prefix) -> bool
    ensures { result ≡ spec.same_prefix one.now other.now }
{
    same_addr(one.addr(), other.addr()) && one.len() == other.len()
}

/// Whether two lists have the same prefixes, one after the other.
#[tactic(auto, using(crate::proofs::SamePrefixes::other_lengths))]
pub fn same_prefixes(first: &[Prefix], second: &[Prefix]) -> bool
    ensures { result ≡ spec.same_prefixes first.now second.now }
{
    if first.len() != second.len() {
        return false;
    }
    let mut at = first.len();
    while at > 0 {
        at -= 1;
        if !same_prefix(&first[at], &second[at]) {
            return false;
        }
    }
    true
}

/// Whether the prefixes are in their order, each once.
#[tactic(auto, unfolding(crate::specs::Binds::are_prefixes))]
pub(crate) fn are_prefixes(prefixes: &[Prefix]) -> bool
    ensures { result ≡ spec.are_prefixes prefixes.now }
{
    lists::is_ascending(prefixes)
}

/// The prefix with this address and length, or None where it fixes more bits than there are, or
/// where a bit behind them isn't 0.
#[tactic(auto, unfolding(crate::specs::Binds::is_prefix, mud_base::specs::Addresses::prefix_at))]
pub fn prefix_of_parts(addr: Addr, len: u8) -> Option<Prefix>
    ensures { let prefix = spec.prefix_with addr len in result ≡ (if spec.is_prefix prefix then Some prefix else None) }
{
    let prefix = Prefix::new(addr, len)?;
    if same_addr(prefix.addr(), addr) {
        Some(prefix)
    } else {
        None
    }
}
