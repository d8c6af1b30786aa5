//! The order in which bindings are kept: by the kind of the key, the length of its text, the text,
//! and the address.
ghost use Rattle.std.specs.Prelude.{◌≡◌, ◌++◌};
ghost use Rattle.base_rows.specs.Sortable.{sort_key_cmp, same_sort_key};
ghost use Rattle.acl_model.specs.declared.binding.Binding.{Binding as BindingValue};
ghost use Rattle.acl_model.specs.Changes.{same_spot};
ghost use Rattle.base_rows.specs.Addresses.{addr_sort_key};
ghost use Rattle.acl_model.specs.SortKeys.{key_kind, key_text, text_sort_key, binding_sort_key};

use crate::binding::{Binding, MemberKey};
use base_rows::{KeyOf, PrefixOf, Sortable};
use mud_base::{Addr, addr_order, octets_order};
use std::cmp::Ordering;

/// A kind of key and its text, lent. Of bindings it is the prefix of those with such a key.
#[derive(Clone, Copy)]
pub struct KeyText<'a> {
    /// From 1 to 5, in the order of the variants of `MemberKey`.
    pub kind: u8,
    /// The host, the URL, the URI or the name.
    pub text: &'a [u8],
}

/// A kind of key with its text, and an address: the key by which their binding is found.
#[derive(Clone, Copy)]
pub struct BoundKey<'a> {
    /// What the address is bound to.
    pub key: KeyText<'a>,
    /// The address.
    pub addr: Addr,
}

impl MemberKey {
    /// Its kind and its text.
    #[tactic(auto, unfolding(crate::specs::SortKeys::key_kind, crate::specs::SortKeys::key_text))]
    pub fn key_text(&self) -> KeyText<'_>
        ensures kind { result.kind ≡ key_kind self.now }
        ensures text { result.text.now ≡ key_text self.now }
    {
        match self {
            MemberKey::Host(host) => KeyText {
                kind: 1,
                text: host.octets(),
            },
            MemberKey::Model(url) => KeyText {
                kind: 2,
                text: url.octets(),
            },
            MemberKey::Class(uri) => KeyText {
                kind: 3,
                text: uri.octets(),
            },
            MemberKey::Mine(url) => KeyText {
                kind: 4,
                text: url.octets(),
            },
            MemberKey::Name(name) => KeyText {
                kind: 5,
                text: name.octets(),
            },
        }
    }
}

/// How two kinds of key with their texts stand to one another: by kind, then by length, then by
/// text. Texts are compared only where both are of one kind and length.
pub fn order_keys(own: KeyText<'_>, other: KeyText<'_>) -> Ordering
    ensures { result ≡ sort_key_cmp (text_sort_key own.entry.kind own.entry.text.now) (text_sort_key other.entry.kind other.entry.text.now) }
{
    let front = own
        .kind
        .cmp(&other.kind)
        .then(own.text.len().cmp(&other.text.len()));
    if front.is_ne() {
        return front;
    }
    octets_order(own.text, other.text)
}

/// How two keys with their addresses stand to one another: by key, and then by address.
fn order_bound(own: BoundKey<'_>, other: BoundKey<'_>) -> Ordering
    ensures { result ≡ sort_key_cmp
        (text_sort_key own.entry.key.kind own.entry.key.text.now ++ addr_sort_key own.entry.addr)
        (text_sort_key other.entry.key.kind other.entry.key.text.now ++ addr_sort_key other.entry.addr) }
{
    order_keys(own.key, other.key).then(addr_order(own.addr, other.addr))
}

impl Binding {
    /// Its key and its address.
    #[tactic(auto, unfolding(crate::specs::SortKeys::member_sort_key, crate::specs::SortKeys::bound_sort_key, crate::specs::SortKeys::binding_sort_key))]
    pub fn bound_key(&self) -> BoundKey<'_>
        ensures key { text_sort_key result.key.kind result.key.text.now ++ addr_sort_key result.addr ≡ binding_sort_key self.now }
        ensures addr { result.addr ≡ self.now.addr }
    {
        BoundKey {
            key: self.key.key_text(),
            addr: self.addr,
        }
    }
}

impl Sortable for Binding {
    ghost use Rattle.acl_model.specs.SortKeys.{binding_sort_key};

    ghost sort_key = { binding_sort_key };

    fn order(&self, other: &Binding) -> Ordering {
        order_bound(self.bound_key(), other.bound_key())
    }
}

impl KeyOf<Binding> for BoundKey<'_> {
    ghost use Rattle.std.specs.Prelude.{◌++◌};
    ghost use Rattle.base_rows.specs.Addresses.{addr_sort_key};
    ghost use Rattle.acl_model.specs.SortKeys.{text_sort_key};

    ghost sort_key = { λ own. text_sort_key own.key.kind own.key.text.now ++ addr_sort_key own.addr };

    fn order_to(&self, row: &Binding) -> Ordering {
        order_bound(*self, row.bound_key())
    }
}

impl PrefixOf<Binding> for KeyText<'_> {
    ghost use Rattle.acl_model.specs.SortKeys.{text_sort_key};

    ghost prefix = { λ own. text_sort_key own.kind own.text.now };

    fn order_to_beginning(&self, row: &Binding) -> Ordering {
        order_keys(*self, row.key.key_text())
    }
}

/// The sort key of a binding tells its key and its address, and nothing else.
pub fn sort_keys_tell_bindings_apart()
    ensures { (b c : BindingValue) → same_sort_key (binding_sort_key b) (binding_sort_key c) ≡ same_spot b c }
{}
