//! The index of a policy by the keys of its member selectors.
ghost use Rattle.std.specs.Prelude.{◌≡◌, ℕ, ◌≤◌, ◌++◌, ◌&&◌, List, not, length, OnOk, IfOk};
ghost use Rattle.std.specs.List.{list_any};
ghost use Rattle.mud_url.specs.Url.{host_of};
ghost use Rattle.acl_model.specs.SortKeys.{text_sort_key};
ghost use Rattle.acl_changes.specs.Spots.{is_keyed, spot_if, spots_in, side_spots, policy_spots};

use crate::entry_keys::selector_key;
use crate::group::{EntrySpot, KeyEntries, add_spot};
use acl_model::{Entry, KeyText, Policy, Selector, order_keys};
use base_rows::SortedRows;
use mud_base::{Direction, Memory};
use std::alloc::Global;
use std::marker::Model;

/// The entries of a policy by the keys that they have. Contracts see it as the keys, each with its
/// entries.
#[derive(Drop)]
pub struct KeyIndex {
    groups: SortedRows<KeyEntries>,
}

impl Model for KeyIndex {
    ghost use Rattle.std.specs.Prelude.{List};
    ghost use Rattle.acl_changes.specs.declared.group.KeyEntries.{KeyEntries};

    ghost Value = { List KeyEntries };

    ghost view = { λ index. index.groups.rows };
}

impl KeyIndex {
    /// The index of a policy of the URL with this text and host, each of whose lists has at most
    /// 65,535 entries.
    pub fn new(alloc: Global, url: &[u8], host: &[u8], policy: &Policy) -> Result<KeyIndex, Memory>
        requires host { host.now ≡ host_of url.now }
        requires outgoing { length policy.now.outgoing ≤ 65535 }
        requires incoming { length policy.now.incoming ≤ 65535 }
        ensures { IfOk result (λ index. (p : List ℕ) → spots_in index p ≡ policy_spots url.now policy.now p) }
    {
        let mut groups = SortedRows::new(alloc);
        let outgoing = policy.outgoing.as_slice();
        add_side(alloc, &mut groups, outgoing, url, host, Direction::From)?;
        let incoming = policy.incoming.as_slice();
        add_side(alloc, &mut groups, incoming, url, host, Direction::To)?;
        Ok(KeyIndex { groups })
    }

    /// The entries with a key, in their order: those for what the Thing sends first.
    #[tactic(auto, unfolding(crate::specs::Spots::spots_in, crate::specs::Spots::spots_of))]
    pub fn spots(&self, key: &KeyText<'_>) -> &[EntrySpot]
        ensures { result.now ≡ spots_in self.now (text_sort_key key.entry.now.kind key.entry.now.text.now) }
    {
        match self.groups.get(key) {
            Some(group) => group.spots(),
            None => &[],
        }
    }
}

/// Whether a selector has this key, in the file of the URL with this text and host.
#[tactic(auto, unfolding(crate::specs::Spots::is_keyed))]
fn selector_is_keyed(selector: &Selector, url: &[u8], host: &[u8], key: &KeyText<'_>) -> bool
    requires { host.now ≡ host_of url.now }
    ensures { result ≡ is_keyed url.now (text_sort_key key.entry.now.kind key.entry.now.text.now) selector.now }
{
    match selector_key(selector, url, host) {
        None => false,
        Some(own) => order_keys(own, *key).is_eq(),
    }
}

/// Whether one of these selectors has this key.
fn are_keyed(selectors: &[Selector], url: &[u8], host: &[u8], key: &KeyText<'_>) -> bool
    requires { host.now ≡ host_of url.now }
    ensures { result ≡ list_any (is_keyed url.now (text_sort_key key.entry.now.kind key.entry.now.text.now)) selectors.now }
{
    selectors
        .iter()
        .any(|selector| selector_is_keyed(selector, url, host, key))
}

/// Adds an entry to those with the key of one of its selectors, where no earlier one has it.
fn add_selector(
    alloc: Global,
    groups: &mut SortedRows<KeyEntries>,
    earlier: &[Selector],
    selector: &Selector,
    url: &[u8],
    host: &[u8],
    spot: EntrySpot,
) -> Result<(), Memory>
    requires { host.now ≡ host_of url.now }
    ensures { OnOk result ((p : List ℕ) → spots_in groups.new.rows p ≡ spots_in groups.old.rows p ++ spot_if (is_keyed url.now p selector.now && not (list_any (is_keyed url.now p) earlier.now)) spot) }
{
    match selector_key(selector, url, host) {
        None => Ok(()),
        Some(key) => {
            if are_keyed(earlier, url, host, &key) {
                return Ok(());
            }
            add_spot(alloc, groups, &key, spot)
        }
    }
}

/// Adds an entry to those with each of its keys.
fn add_entry(
    alloc: Global,
    groups: &mut SortedRows<KeyEntries>,
    selectors: &[Selector],
    url: &[u8],
    host: &[u8],
    spot: EntrySpot,
) -> Result<(), Memory>
    requires { host.now ≡ host_of url.now }
    ensures { OnOk result ((p : List ℕ) → spots_in groups.new.rows p ≡ spots_in groups.old.rows p ++ spot_if (list_any (is_keyed url.now p) selectors.now) spot) }
{
    for (index, selector) in selectors.iter().enumerate() {
        let earlier = &selectors[..index];
        add_selector(alloc, groups, earlier, selector, url, host, spot)?;
    }
    Ok(())
}

/// Adds the entries of one side.
#[tactic(auto, unfolding(crate::specs::Spots::side_spots))]
fn add_side(
    alloc: Global,
    groups: &mut SortedRows<KeyEntries>,
    entries: &[Entry],
    url: &[u8],
    host: &[u8],
    side: Direction,
) -> Result<(), Memory>
    requires host { host.now ≡ host_of url.now }
    requires few { length entries.now ≤ 65535 }
    ensures { OnOk result ((p : List ℕ) → spots_in groups.new.rows p ≡ spots_in groups.old.rows p ++ side_spots url.now p side entries.now) }
{
    let mut number: u16 = 0;
    for entry in entries {
        number += 1;
        let spot = EntrySpot { side, number };
        add_entry(alloc, groups, entry.selectors.as_slice(), url, host, spot)?;
    }
    Ok(())
}
