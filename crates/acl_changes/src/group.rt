//! Keys, each with the entries that have it.
ghost use Rattle.std.specs.Prelude.{◌≡◌, ℕ, ◌++◌, List, OnOk, IfOk};
ghost use Rattle.base_rows.specs.Sortable.{sort_key_cmp, same_sort_key, without_row};
ghost use Rattle.acl_model.specs.SortKeys.{text_sort_key};
ghost use Rattle.acl_changes.specs.Spots.{group_sort_key, spots_in, spot_if};

use acl_model::{KeyText, order_keys};
use base_rows::{KeyOf, Sortable, SortedRows};
use mud_base::{Bytes, Direction, Listed, Memory};
use std::alloc::Global;
use std::cmp::Ordering;

/// Where an entry stands in a policy.
#[derive(Clone, Copy)]
pub struct EntrySpot {
    /// The side of the packets that it is for.
    pub side: Direction,
    /// Its number among the entries of that side, from 1 on.
    pub number: u16,
}

/// A kind of key with its text, and the entries with such a key.
#[derive(Drop)]
pub struct KeyEntries {
    kind: u8,
    text: Bytes,
    spots: Listed<EntrySpot>,
}

impl KeyEntries {
    /// The kind and the text.
    #[tactic(auto, unfolding(crate::specs::Spots::group_sort_key))]
    fn key_text(&self) -> KeyText<'_>
        ensures { text_sort_key result.kind result.text.now ≡ group_sort_key self.now }
    {
        KeyText {
            kind: self.kind,
            text: self.text.octets(),
        }
    }

    /// The entries.
    pub(crate) fn spots(&self) -> &[EntrySpot]
        ensures { result.now ≡ self.now.spots }
    {
        self.spots.as_slice()
    }
}

impl Sortable for KeyEntries {
    ghost use Rattle.acl_changes.specs.Spots.{group_sort_key};

    ghost sort_key = { group_sort_key };

    fn order(&self, other: &KeyEntries) -> Ordering {
        order_keys(self.key_text(), other.key_text())
    }
}

impl KeyOf<KeyEntries> for KeyText<'_> {
    ghost use Rattle.acl_model.specs.SortKeys.{text_sort_key};

    ghost sort_key = { λ own. text_sort_key own.kind own.text.now };

    fn order_to(&self, row: &KeyEntries) -> Ordering {
        order_keys(*self, row.key_text())
    }
}

/// Takes out what is kept of a key; where nothing is, it begins with no entry.
#[tactic(auto, unfolding(crate::specs::Spots::group_sort_key, crate::specs::Spots::spots_in, crate::specs::Spots::spots_of))]
fn taken(
    alloc: Global,
    groups: &mut SortedRows<KeyEntries>,
    key: &KeyText<'_>,
) -> Result<KeyEntries, Memory>
    ensures rest { OnOk result (groups.new.rows ≡ without_row group_sort_key (text_sort_key key.entry.now.kind key.entry.now.text.now) groups.old.rows) }
    ensures sort_key { IfOk result (λ taken. group_sort_key taken ≡ text_sort_key key.entry.now.kind key.entry.now.text.now) }
    ensures spots { IfOk result (λ taken. taken.spots ≡ spots_in groups.old.rows (text_sort_key key.entry.now.kind key.entry.now.text.now)) }
{
    match groups.remove(key) {
        Some(kept) => Ok(kept),
        None => Ok(KeyEntries {
            kind: key.kind,
            text: Bytes::new(alloc, key.text)?,
            spots: Listed::new(alloc),
        }),
    }
}

/// Adds an entry to those with a key, behind the others.
pub(crate) fn add_spot(
    alloc: Global,
    groups: &mut SortedRows<KeyEntries>,
    key: &KeyText<'_>,
    spot: EntrySpot,
) -> Result<(), Memory>
    ensures { OnOk result ((p : List ℕ) → spots_in groups.new.rows p ≡ spots_in groups.old.rows p ++ spot_if (same_sort_key (text_sort_key key.entry.now.kind key.entry.now.text.now) p) spot) }
{
    let _ascending = groups.rows();
    let mut group = taken(alloc, groups, key)?;
    group.spots.push(spot)?;
    groups.reserve(1)?;
    groups.put(group);
    Ok(())
}
