//! Keys of entries.
ghost use Rattle.std.specs.Prelude.{◌≡◌, IfSome};
ghost use Rattle.std.specs.Option.{option_map};
ghost use Rattle.std.specs.List.{filter_map};
ghost use Rattle.mud_url.specs.Url.{host_of};
ghost use Rattle.acl_model.specs.Keys.{key_of};
ghost use Rattle.acl_rows.specs.Rows.{member_keys};
ghost use Rattle.acl_changes.specs.EntryKeys.{key_parts};
ghost use Rattle.acl_changes.specs.Fresh.{first_of, rest_of};

use crate::selector_key;
use acl_model::{Entry, KeyText, Selector};

/// The key of the entry's first member selector, in the file of the URL with this text and host, and
/// the selectors behind that one; None where the entry has none.
pub(crate) fn first_key<'a>(
    entry: &'a Entry,
    url: &'a [u8],
    host: &'a [u8],
) -> Option<(KeyText<'a>, &'a [Selector])>
    requires { host.now ≡ host_of url.now }
    ensures key { option_map (λ f. (f.0.kind, f.0.text.now)) result ≡ option_map key_parts (first_of (member_keys url.now entry.now)) }
    ensures behind { IfSome result (λ f. filter_map (key_of url.now) f.1.now ≡ rest_of (member_keys url.now entry.now)) }
{
    let selectors = entry.selectors.as_slice();
    let mut next = 0;
    for selector in selectors {
        next += 1;
        if let Some(key) = selector_key(selector, url, host) {
            return Some((key, &selectors[next..]));
        }
    }
    None
}
