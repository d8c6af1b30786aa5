//! Bindings whose keys are lent by the rows that bind.
ghost use Rattle.std.specs.Prelude.{◌≡◌, IfOk};
ghost use Rattle.acl_model.specs.Keys.{same_key};
ghost use Rattle.acl_model.specs.Changes.{same_binding};
ghost use Rattle.table_laws.specs.Lent.{lent_key, lent_binding};

use acl_model::{Binding, MemberKey};
use mud_base::{Addr, Bytes, End, Memory, same_addr};
use mud_url::MudUrl;
use std::alloc::Global;

/// What an address is bound to, lent.
#[derive(Clone, Copy)]
pub enum LentKey<'a> {
    /// The host of the MUD URL of the Thing that has the address.
    Host(&'a [u8]),
    /// The MUD URL of the Thing that has the address.
    Model(&'a MudUrl),
    /// The URI of a class.
    Class(&'a [u8]),
    /// The MUD URL of the Things that the address controls.
    Mine(&'a MudUrl),
    /// A DNS name.
    Name(&'a [u8]),
}

/// An address and what it is bound to until its expiry, lent.
#[derive(Clone, Copy)]
pub struct LentBinding<'a> {
    /// What the address is bound to.
    pub key: LentKey<'a>,
    /// The address.
    pub addr: Addr,
    /// When the binding expires.
    pub until: End,
}

impl LentKey<'_> {
    /// The key that it is.
    #[tactic(auto, unfolding(crate::specs::Lent::lent_key))]
    fn to_key(&self, alloc: Global) -> Result<MemberKey, Memory>
        ensures { IfOk result (λ key. key ≡ lent_key self.now) }
    {
        match self {
            LentKey::Host(host) => Ok(MemberKey::Host(Bytes::new(alloc, host)?)),
            LentKey::Model(url) => Ok(MemberKey::Model(Bytes::new(alloc, url.text())?)),
            LentKey::Class(uri) => Ok(MemberKey::Class(Bytes::new(alloc, uri)?)),
            LentKey::Mine(url) => Ok(MemberKey::Mine(Bytes::new(alloc, url.text())?)),
            LentKey::Name(name) => Ok(MemberKey::Name(Bytes::new(alloc, name)?)),
        }
    }

    /// Whether both are one key.
    #[tactic(auto, unfolding(crate::specs::Lent::lent_key, acl_model::specs::Keys::same_key))]
    pub(crate) fn is_same(&self, other: &LentKey<'_>) -> bool
        ensures { result ≡ same_key (lent_key self.now) (lent_key other.now) }
    {
        match (self, other) {
            (LentKey::Host(own), LentKey::Host(other)) => *own == *other,
            (LentKey::Model(own), LentKey::Model(other)) => *own == *other,
            (LentKey::Class(own), LentKey::Class(other)) => *own == *other,
            (LentKey::Mine(own), LentKey::Mine(other)) => *own == *other,
            (LentKey::Name(own), LentKey::Name(other)) => *own == *other,
            _ => false,
        }
    }
}

impl LentBinding<'_> {
    /// The binding that it is.
    #[tactic(auto, unfolding(crate::specs::Lent::lent_binding))]
    pub(crate) fn to_binding(&self, alloc: Global) -> Result<Binding, Memory>
        ensures { IfOk result (λ binding. binding ≡ lent_binding self.now) }
    {
        Ok(Binding {
            key: self.key.to_key(alloc)?,
            addr: self.addr,
            until: self.until,
        })
    }

    /// Whether both are one binding: of one key, address and expiry. The keys, whose texts are
    /// long, are looked at last.
    #[tactic(auto, using(crate::proofs::Indices::tests_in_order), unfolding(crate::specs::Lent::lent_binding, acl_model::specs::Changes::same_binding, acl_model::specs::Changes::same_spot))]
    pub(crate) fn is_same(&self, other: &LentBinding<'_>) -> bool
        ensures { result ≡ same_binding (lent_binding self.now) (lent_binding other.now) }
    {
        same_addr(self.addr, other.addr)
            && self.until == other.until
            && self.key.is_same(&other.key)
    }
}
