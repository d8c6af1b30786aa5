//! Classes and names, and the addresses that are bound to them.
ghost use Rattle.std.specs.Prelude.{◌≡◌, IfOk};

use base_rows::{KeyOf, Sortable};
use mud_base::{Addr, Bytes, End, Listed, Memory, octets_order};
use mud_url::MudUrl;
use std::cmp::Ordering;

/// A class of addresses that the operator fills.
#[derive(Drop)]
pub enum Class {
    /// The class of this URI, of 1 to 255 octets from 21 to 7E hex (RFC 8520, 4.6, `controller`).
    Uri(Bytes),
    /// The controllers of the Things with this MUD URL (RFC 8520, 4.7, `my-controller`).
    Mine(MudUrl),
}

/// A class and its addresses, at least one. Classes by URI stand before those by MUD URL, and both
/// in the order of their texts.
#[derive(Drop)]
pub struct ClassRow {
    pub class: Class,
    /// In their order, each once.
    pub addrs: Listed<Addr>,
}

/// A DNS name and the addresses at which it was observed, at least one (RFC 8520, 8). Names are
/// ordered by their octets.
#[derive(Drop)]
pub struct NameRow {
    /// A host name in lower case.
    pub name: Bytes,
    /// The addresses with their expiries, in the order of the addresses, each once. An address
    /// whose expiry has come may still stand here.
    pub addrs: Listed<(Addr, End)>,
}

impl Class {
    ghost use Rattle.base_rows.specs.Sortable.{sort_key_cmp};
    ghost use Rattle.table_model.specs.Binds.{key_of_class};

    /// An equal class.
    pub fn copy(&self) -> Result<Class, Memory>
        ensures { IfOk result (λ class. class ≡ self.now) }
    {
        match self {
            Class::Uri(uri) => Ok(Class::Uri(uri.copy()?)),
            Class::Mine(url) => Ok(Class::Mine(*url)),
        }
    }

    /// How it stands to another class: those by URI before those by MUD URL, and then by text.
    #[tactic(auto, unfolding(crate::specs::Binds::key_of_class))]
    pub fn order(&self, other: &Class) -> Ordering
        ensures { result ≡ sort_key_cmp (key_of_class self.now) (key_of_class other.now) }
    {
        match (self, other) {
            (Class::Uri(own), Class::Uri(other)) => octets_order(own.octets(), other.octets()),
            (Class::Uri(_), Class::Mine(_)) => Ordering::Less,
            (Class::Mine(_), Class::Uri(_)) => Ordering::Greater,
            (Class::Mine(own), Class::Mine(other)) => own.cmp(other),
        }
    }
}

impl Sortable for ClassRow {
    ghost use Rattle.table_model.specs.Binds.{class_key};

    ghost sort_key = { class_key };

    #[tactic(auto, unfolding(crate::specs::Binds::class_key))]
    fn order(&self, other: &ClassRow) -> Ordering {
        self.class.order(&other.class)
    }
}

impl KeyOf<ClassRow> for Class {
    ghost use Rattle.table_model.specs.Binds.{key_of_class};

    ghost sort_key = { key_of_class };

    #[tactic(auto, unfolding(crate::specs::Binds::class_key))]
    fn order_to(&self, row: &ClassRow) -> Ordering {
        self.order(&row.class)
    }
}

impl Sortable for NameRow {
    ghost use Rattle.table_model.specs.Binds.{name_of};

    ghost sort_key = { name_of };

    #[tactic(auto, unfolding(crate::specs::Binds::name_of))]
    fn order(&self, other: &NameRow) -> Ordering {
        octets_order(self.name.octets(), other.name.octets())
    }
}

/// A name, as the key of its row.
#[derive(Clone, Copy)]
pub struct NameKey<'a>(pub &'a [u8]);

impl KeyOf<NameRow> for NameKey<'_> {
    ghost sort_key = { λ key. key.0.now };

    #[tactic(auto, unfolding(crate::specs::Binds::name_of))]
    fn order_to(&self, row: &NameRow) -> Ordering {
        octets_order(self.0, row.name.octets())
    }
}
