//! The items that a keeper keeps, and the changes of them.
ghost use Rattle.std.specs.Prelude.{◌≡◌, ◌∷◌, IfOk};
ghost use Rattle.base_rows.specs.Sortable.{sort_key_cmp};
ghost use Rattle.mud_world.specs.Items.{sort_key_of};

use base_rows::{KeyOf, Sortable};
use mud_base::{Bytes, Memory, octets_order};
use std::cmp::Ordering;

/// An item. Items are ordered by kind and then by the octets of the key, and no two have the same
/// kind and key.
#[derive(Drop)]
pub struct Item {
    pub kind: u8,
    pub key: Bytes,
    pub body: Bytes,
}

impl Item {
    /// An equal item.
    pub fn copy(&self) -> Result<Item, Memory>
        ensures { IfOk result (λ item. item ≡ self.now) }
    {
        let key = self.key.copy()?;
        let body = self.body.copy()?;
        Ok(Item {
            kind: self.kind,
            key,
            body,
        })
    }
}

impl Sortable for Item {
    ghost sort_key = { sort_key_of };

    fn order(&self, other: &Item) -> Ordering {
        sort_key_order(self.kind, self.key.octets(), other.kind, other.key.octets())
    }
}

/// The sort key of an item: a kind, and the octets of a key.
#[derive(Clone, Copy)]
pub struct ItemKey<'a> {
    pub kind: u8,
    pub key: &'a [u8],
}

impl KeyOf<Item> for ItemKey<'_> {
    ghost sort_key = { λ item_key. item_key.kind ∷ item_key.key.now };

    fn order_to(&self, row: &Item) -> Ordering {
        sort_key_order(self.kind, self.key, row.kind, row.key.octets())
    }
}

/// How one sort key stands to another: by the kinds, and then by the octets of the keys.
fn sort_key_order(kind: u8, key: &[u8], other_kind: u8, other_key: &[u8]) -> Ordering
    ensures { result ≡ sort_key_cmp (kind ∷ key.now) (other_kind ∷ other_key.now) }
{
    match kind.cmp(&other_kind) {
        Ordering::Less => Ordering::Less,
        Ordering::Equal => octets_order(key, other_key),
        Ordering::Greater => Ordering::Greater,
    }
}

/// A change of one item.
#[derive(Drop)]
pub enum Put {
    /// This item, in place of the one of its kind and key if there is one.
    Set(Item),
    /// No item of this kind and key.
    Gone(u8, Bytes),
}

impl Put {
    /// An equal change.
    pub fn copy(&self) -> Result<Put, Memory>
        ensures { IfOk result (λ put. put ≡ self.now) }
    {
        match self {
            Put::Set(item) => Ok(Put::Set(item.copy()?)),
            Put::Gone(kind, key) => Ok(Put::Gone(*kind, key.copy()?)),
        }
    }
}
