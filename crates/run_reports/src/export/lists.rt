//! The four access lists of a Thing.
ghost use Rattle.std.specs.Prelude.{◌≡◌};
ghost use Rattle.run_reports.specs.Export.Lists as spec;

use mud_base::Family;

/// An access list of a Thing, in the order in which they are written.
#[derive(Clone, Copy)]
pub enum ListName {
    /// `from-v4`: the IPv4 packets that it sends.
    FromV4,
    /// `from-v6`: the IPv6 packets that it sends.
    FromV6,
    /// `to-v4`: the IPv4 packets that are sent to it.
    ToV4,
    /// `to-v6`: the IPv6 packets that are sent to it.
    ToV6,
}

/// The lists, in their order.
#[tactic(auto, unfolding(crate::specs::Export::Lists::all_lists))]
pub(crate) fn all_lists() -> [ListName; 4]
    ensures { result ≡ spec.all_lists }
{
    [
        ListName::FromV4,
        ListName::FromV6,
        ListName::ToV4,
        ListName::ToV6,
    ]
}

/// The IP version that a list is for.
#[tactic(auto, unfolding(crate::specs::Export::Lists::family_of))]
pub(crate) fn family_of(name: ListName) -> Family
    ensures { result ≡ spec.family_of name }
{
    match name {
        ListName::FromV4 | ListName::ToV4 => Family::V4,
        ListName::FromV6 | ListName::ToV6 => Family::V6,
    }
}

/// What stands before the items of a list. The text begins with that of the first list.
#[tactic(auto, unfolding(crate::specs::Export::Lists::front_of))]
pub(crate) fn front_of(name: ListName) -> &'static [u8]
    ensures { result.now ≡ spec.front_of name }
{
    match name {
        ListName::FromV4 => b"{\"ietf-access-control-list:acls\":{\"acl\":[{\"aces\":{\"ace\":[",
        ListName::FromV6 | ListName::ToV4 | ListName::ToV6 => b",{\"aces\":{\"ace\":[",
    }
}

/// What stands behind the items of a list. The text ends with that of the last list.
#[tactic(auto, unfolding(crate::specs::Export::Lists::back_of))]
pub(crate) fn back_of(name: ListName) -> &'static [u8]
    ensures { result.now ≡ spec.back_of name }
{
    match name {
        ListName::FromV4 => b"]},\"name\":\"from-v4\",\"type\":\"ipv4-acl-type\"}",
        ListName::FromV6 => b"]},\"name\":\"from-v6\",\"type\":\"ipv6-acl-type\"}",
        ListName::ToV4 => b"]},\"name\":\"to-v4\",\"type\":\"ipv4-acl-type\"}",
        ListName::ToV6 => b"]},\"name\":\"to-v6\",\"type\":\"ipv6-acl-type\"}]}}\n",
    }
}
