//! Which addresses member selectors mean.
ghost use Rattle.std.specs.Prelude.{◌≡◌, ◌↔◌, IsTrue, IfOk};
ghost use Rattle.acl_model.specs.Keys as spec;

use mud_base::{Addr, Bytes, End, Memory};

/// What an address is bound to, so that it meets the member selectors with this key.
#[derive(Drop)]
pub enum MemberKey {
    /// The host of the MUD URL of the Thing that has the address.
    Host(Bytes),
    /// The text of the MUD URL of the Thing that has the address.
    Model(Bytes),
    /// The URI of a class.
    Class(Bytes),
    /// The text of the MUD URL of the Things that the address controls.
    Mine(Bytes),
    /// A DNS name.
    Name(Bytes),
}

/// An address and what it is bound to until its expiry.
#[derive(Drop)]
pub struct Binding {
    /// What the address is bound to.
    pub key: MemberKey,
    /// The address.
    pub addr: Addr,
    /// When the binding expires.
    pub until: End,
}

/// Whether two keys are equal.
#[tactic(auto, using(crate::proofs::KeyLaws::key_laws), unfolding(crate::specs::Keys::same_key))]
pub fn same_key(own: &MemberKey, other: &MemberKey) -> bool
    ensures value { result ≡ spec.same_key own.now other.now }
    ensures equal { IsTrue result ↔ (own.now ≡ other.now) }
{
    match own {
        MemberKey::Host(own) => match other {
            MemberKey::Host(other) => own.octets() == other.octets(),
            _ => false,
        },
        MemberKey::Model(own) => match other {
            MemberKey::Model(other) => own.octets() == other.octets(),
            _ => false,
        },
        MemberKey::Class(own) => match other {
            MemberKey::Class(other) => own.octets() == other.octets(),
            _ => false,
        },
        MemberKey::Mine(own) => match other {
            MemberKey::Mine(other) => own.octets() == other.octets(),
            _ => false,
        },
        MemberKey::Name(own) => match other {
            MemberKey::Name(other) => own.octets() == other.octets(),
            _ => false,
        },
    }
}

impl MemberKey {
    /// An equal key.
    pub fn copy(&self) -> Result<MemberKey, Memory>
        ensures { IfOk result (λ copy. copy ≡ self.now) }
    {
        match self {
            MemberKey::Host(host) => Ok(MemberKey::Host(host.copy()?)),
            MemberKey::Model(url) => Ok(MemberKey::Model(url.copy()?)),
            MemberKey::Class(uri) => Ok(MemberKey::Class(uri.copy()?)),
            MemberKey::Mine(url) => Ok(MemberKey::Mine(url.copy()?)),
            MemberKey::Name(name) => Ok(MemberKey::Name(name.copy()?)),
        }
    }
}

impl Binding {
    /// An equal binding.
    pub fn copy(&self) -> Result<Binding, Memory>
        ensures { IfOk result (λ copy. copy ≡ self.now) }
    {
        Ok(Binding {
            key: self.key.copy()?,
            addr: self.addr,
            until: self.until,
        })
    }
}
