//! The keys of member selectors.
ghost use Rattle.std.specs.Prelude.{◌≡◌};
ghost use Rattle.std.specs.Option.{option_map};
ghost use Rattle.mud_url.specs.Url.{host_of};
ghost use Rattle.acl_model.specs.Keys.{key_of};
ghost use Rattle.acl_changes.specs.EntryKeys.{key_parts};

use acl_model::{KeyText, Selector};

/// The kind and the text of the key of a member selector, in the file of the URL with this text
/// and host; None where the selector isn't one.
#[tactic(auto, unfolding(acl_model::specs::SortKeys::key_kind, acl_model::specs::SortKeys::key_text, crate::specs::EntryKeys::key_parts, acl_model::specs::Keys::key_of))]
pub fn selector_key<'a>(
    selector: &'a Selector,
    url: &'a [u8],
    host: &'a [u8],
) -> Option<KeyText<'a>>
    requires { host.now ≡ host_of url.now }
    ensures { option_map (λ k. (k.kind, k.text.now)) result ≡ option_map key_parts (key_of url.now selector.now) }
{
    match selector {
        Selector::Controller(uri) => Some(KeyText {
            kind: 3,
            text: uri.octets(),
        }),
        Selector::MyController => Some(KeyText { kind: 4, text: url }),
        Selector::Manufacturer(host) => Some(KeyText {
            kind: 1,
            text: host.octets(),
        }),
        Selector::SameManufacturer => Some(KeyText {
            kind: 1,
            text: host,
        }),
        Selector::Model(model) => Some(KeyText {
            kind: 2,
            text: model.text(),
        }),
        Selector::Name(name) => Some(KeyText {
            kind: 5,
            text: name.octets(),
        }),
        Selector::LocalNetworks | Selector::Network(_) => None,
    }
}
