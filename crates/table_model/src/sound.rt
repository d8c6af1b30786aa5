//! Whether rows that were read are ones that may be kept.
ghost use Rattle.std.specs.Prelude.{◌≡◌, ◌==◌, bytes_eq, nat_le, length, ◌&&◌};
ghost use Rattle.std.specs.List.{list_all};
ghost use Rattle.std.specs.Char.{is_ascii_graphic, to_ascii_lowercase};
ghost use Rattle.mud_url.specs.Host.{lowered};
ghost use Rattle.table_model.specs.Things.{is_sound_thing, may_wait};
ghost use Rattle.table_model.specs.Binds as spec;
ghost use Rattle.table_model.specs.BindItems.{are_locals};
ghost use Rattle.table_model.specs.Limits.{most};
ghost use Rattle.table_model.specs.Expiries.{have_expiries, are_ascending};

use crate::addrs::{are_addrs, are_prefixes, prefix_of_parts};
use crate::bind::{Class, ClassRow, NameRow};
use crate::expiries::{are_ascending, have_expiries};
use crate::limits::{MOST_CLASS_ADDRESSES, MOST_LEASES, MOST_LOCALS, MOST_NAME_ADDRESSES};
use crate::thing::Thing;
use mud_base::{Addr, End, Prefix};
use mud_url::MudUrl;
use mud_url::host::is_host;

/// Whether these are the leases of a Thing: at most four, in the order of their addresses, each
/// address once, with expiries that are for ever or below 2^40 seconds.
#[tactic(auto)]
pub fn are_leases(rows: &[(Addr, End)]) -> bool
    ensures { result ≡ are_ascending rows.now && have_expiries rows.now && nat_le (length rows.now) most.leases }
{
    are_ascending(rows) && have_expiries(rows) && rows.len() <= MOST_LEASES
}

/// Whether a Thing may be kept: its URLs are canonical, the URL that waits is another than its own,
/// and its leases are leases of a Thing.
#[tactic(auto, unfolding(crate::specs::Things::is_sound_thing))]
pub fn is_sound_thing(thing: &Thing) -> bool
    ensures { result ≡ is_sound_thing thing.now }
{
    thing.url.text_is_canonical();
    may_wait(&thing.url, &thing.pending) && are_leases(thing.leases.as_slice())
}

/// Whether a URL may wait beside a Thing's own: it is another one.
#[tactic(auto, unfolding(crate::specs::Things::may_wait))]
fn may_wait(url: &MudUrl, pending: &Option<MudUrl>) -> bool
    ensures { result ≡ may_wait url.now pending.now }
{
    match pending {
        Some(pending) => {
            pending.text_is_canonical();
            pending.text() != url.text()
        }
        None => true,
    }
}

/// Whether a class may be kept: a URI has 1 to 255 octets from 21 to 7E hex, and there are 1 to 64
/// addresses in their order, each once.
#[tactic(auto, unfolding(crate::specs::Binds::is_sound_class))]
pub fn is_sound_class(row: &ClassRow) -> bool
    ensures { result ≡ spec.is_sound_class row.now }
{
    let addrs = row.addrs.as_slice();
    is_class(&row.class)
        && are_addrs(addrs)
        && !addrs.is_empty()
        && addrs.len() <= MOST_CLASS_ADDRESSES
}

/// Whether a class has a URI of that form, or a MUD URL.
#[tactic(auto, unfolding(crate::specs::Binds::is_class))]
fn is_class(class: &Class) -> bool
    ensures { result ≡ spec.is_class class.now }
{
    match class {
        Class::Uri(uri) => is_class_uri(uri.octets()),
        Class::Mine(url) => {
            url.text_is_canonical();
            true
        }
    }
}

/// Whether these are 1 to 255 octets from 21 to 7E hex.
#[tactic(auto, unfolding(crate::specs::Binds::is_class_uri))]
pub fn is_class_uri(uri: &[u8]) -> bool
    ensures { result ≡ spec.is_class_uri uri.now }
{
    !uri.is_empty() && uri.len() <= 255 && is_graphic(uri)
}

/// Whether each octet is from 21 to 7E hex.
fn is_graphic(text: &[u8]) -> bool
    ensures { result ≡ list_all is_ascii_graphic text.now }
{
    text.iter().all(u8::is_ascii_graphic)
}

/// Whether a name may be kept: a host name in lower case, with 1 to 64 addresses in their order,
/// each once, with expiries that are for ever or below 2^40 seconds.
#[tactic(auto, unfolding(crate::specs::Binds::is_sound_name))]
pub fn is_sound_name(row: &NameRow) -> bool
    ensures { result ≡ spec.is_sound_name row.now }
{
    let addrs = row.addrs.as_slice();
    is_name(row.name.octets())
        && are_ascending(addrs)
        && have_expiries(addrs)
        && !addrs.is_empty()
        && addrs.len() <= MOST_NAME_ADDRESSES
}

/// Whether this is a host name in lower case.
#[tactic(auto, unfolding(crate::specs::Binds::is_name))]
pub fn is_name(name: &[u8]) -> bool
    ensures { result ≡ spec.is_name name.now }
{
    is_host(name) && is_lowered(name)
}

/// Whether a text has no letter in upper case.
fn is_lowered(text: &[u8]) -> bool
    ensures { result ≡ bytes_eq (lowered text.now) text.now }
{
    each_lowered(text)
}

/// Whether each octet is as in lower case.
fn each_lowered(text: &[u8]) -> bool
    ensures { result ≡ list_all (λ c. to_ascii_lowercase c == c) text.now }
{
    text.iter()
        .all(|octet| octet.to_ascii_lowercase() == *octet)
}

/// Whether these may be the local networks: 1 to 64 prefixes in their order, each once.
#[tactic(auto, unfolding(crate::specs::BindItems::are_locals))]
pub fn are_locals(locals: &[Prefix]) -> bool
    ensures { result ≡ are_locals locals.now }
{
    are_prefixes(locals) && each_prefix(locals) && !locals.is_empty() && locals.len() <= MOST_LOCALS
}

/// Whether each fixes no more bits than there are, and its others are 0.
fn each_prefix(prefixes: &[Prefix]) -> bool
    ensures { result ≡ list_all spec.is_prefix prefixes.now }
{
    prefixes.iter().all(|prefix| is_prefix(prefix))
}

/// Whether a prefix fixes no more bits than there are, and the others are 0.
fn is_prefix(prefix: &Prefix) -> bool
    ensures { result ≡ spec.is_prefix prefix.now }
{
    prefix_of_parts(prefix.addr(), prefix.len()).is_some()
}
