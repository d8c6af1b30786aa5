//! The words of access lists and entries. Each is an identity, which may carry the prefix of its YANG
//! module (RFC 7951, 6.8).
ghost use Rattle.std.specs.Prelude.{◌≡◌, codes};
ghost use Rattle.mud_file.specs.Entries as spec;

use acl_model::Action;
use mud_base::Family;
use usage_match::ListType;

/// The prefix of the module of access lists.
#[tactic(auto, unfolding(crate::specs::Entries::module_prefix))]
fn module_prefix() -> &'static [u8]
    ensures { result.now ≡ spec.module_prefix }
{
    b"ietf-access-control-list:"
}

/// The text without the prefix of the module, where it has it.
#[tactic(auto, unfolding(crate::specs::Entries::without_module))]
fn without_module(text: &[u8]) -> &[u8]
    ensures { result.now ≡ spec.without_module text.now }
{
    match text.strip_prefix(module_prefix()) {
        Some(name) => name,
        None => text,
    }
}

/// The name of the type whose entries are for IPv4.
#[tactic(auto)]
fn ipv4_type_word() -> &'static [u8]
    ensures { result.now ≡ codes "ipv4-acl-type" }
{
    b"ipv4-acl-type"
}

/// The name of the type whose entries are for IPv6.
#[tactic(auto)]
fn ipv6_type_word() -> &'static [u8]
    ensures { result.now ≡ codes "ipv6-acl-type" }
{
    b"ipv6-acl-type"
}

/// The type of this name.
#[tactic(auto, unfolding(crate::specs::Entries::type_named))]
fn type_named(name: &[u8]) -> Option<ListType>
    ensures { result ≡ spec.type_named name.now }
{
    if name == ipv4_type_word() {
        return Some(ListType::Ipv4);
    }
    if name == ipv6_type_word() {
        return Some(ListType::Ipv6);
    }
    None
}

/// The type of access lists that a text names.
#[tactic(auto)]
pub(crate) fn type_in(text: &[u8]) -> Option<ListType>
    ensures { result ≡ spec.type_named (spec.without_module text.now) }
{
    type_named(without_module(text))
}

/// The IP version that the entries of a type are for.
#[tactic(auto, unfolding(crate::specs::Entries::family_of))]
pub(crate) fn family_of(list_type: ListType) -> Family
    ensures { result ≡ spec.family_of list_type }
{
    match list_type {
        ListType::Ipv4 => Family::V4,
        ListType::Ipv6 => Family::V6,
    }
}

/// The name of what forwards a packet.
#[tactic(auto)]
fn accept_word() -> &'static [u8]
    ensures { result.now ≡ codes "accept" }
{
    b"accept"
}

/// The name of what drops a packet and says nothing.
#[tactic(auto)]
fn drop_word() -> &'static [u8]
    ensures { result.now ≡ codes "drop" }
{
    b"drop"
}

/// The name of what drops a packet and tells its sender.
#[tactic(auto)]
fn reject_word() -> &'static [u8]
    ensures { result.now ≡ codes "reject" }
{
    b"reject"
}

/// The action of this name. `reject` is read as `drop`.
#[tactic(auto, unfolding(crate::specs::Entries::action_named))]
fn action_named(name: &[u8]) -> Option<Action>
    ensures { result ≡ spec.action_named name.now }
{
    if name == accept_word() {
        return Some(Action::Accept);
    }
    if name == drop_word() {
        return Some(Action::Drop);
    }
    if name == reject_word() {
        return Some(Action::Drop);
    }
    None
}

/// What becomes of a packet, as a text names it.
#[tactic(auto)]
pub(crate) fn action_in(text: &[u8]) -> Option<Action>
    ensures { result ≡ spec.action_named (spec.without_module text.now) }
{
    action_named(without_module(text))
}
