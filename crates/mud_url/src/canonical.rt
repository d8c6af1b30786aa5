//! Writing the canonical text of a URL.
ghost use Rattle.std.specs.Prelude.{◌≡◌, ◌≤◌, ◌+◌, ◌++◌, length, take, drop, bytes_eq, codes, ◌==◌, ◌||◌, ◌∷◌, if◌then◌else◌, []};
ghost use Rattle.mud_url.specs.Host.{lowered};
ghost use Rattle.mud_url.specs.Url as spec;

use crate::parts::{SCHEME, authority, host_part, path_and_query, port_part};
use mud_base::ShortText;

/// Adds octets at the end.
fn append(text: &mut ShortText, octets: &[u8])
    requires { length text.old + length octets.now ≤ 256 }
    ensures { text.new ≡ text.old ++ octets.now }
{
    for octet in octets {
        text.push(*octet);
    }
}

/// Adds octets at the end, their letters in lower case.
#[tactic(auto, using(crate::proofs::Bounds::lengths), unfolding(crate::specs::Host::lowered))]
fn append_lowered(text: &mut ShortText, octets: &[u8])
    requires { length text.old + length octets.now ≤ 256 }
    ensures { text.new ≡ text.old ++ lowered octets.now }
{
    for octet in octets {
        text.push(octet.to_ascii_lowercase());
    }
}

/// Adds `:` and the port, unless it is empty or the default one.
#[tactic(auto)]
fn append_port(text: &mut ShortText, port: &[u8])
    requires { length text.old + length (if length port.now == 0 || bytes_eq port.now (codes "443") then [] else 58 ∷ port.now) ≤ 256 }
    ensures { text.new ≡ text.old ++ (if length port.now == 0 || bytes_eq port.now (codes "443") then [] else 58 ∷ port.now) }
{
    if port.is_empty() || port == b"443".as_slice() {
        return;
    }
    text.push(b':');
    append(text, port);
}

/// Adds the path and the query, with `/` for an empty path.
#[tactic(auto, unfolding(crate::specs::Url::canonical_path))]
fn append_path(text: &mut ShortText, path: &[u8])
    requires { length text.old + length (spec.canonical_path path.now) ≤ 256 }
    ensures { text.new ≡ text.old ++ spec.canonical_path path.now }
{
    match path {
        [b'/', ..] => {}
        _ => text.push(b'/'),
    }
    append(text, path);
}

/// The text of the scheme.
#[tactic(auto, unfolding(crate::specs::Url::scheme))]
fn scheme() -> ShortText
    ensures { result ≡ spec.scheme }
{
    let mut text = ShortText::new();
    append(&mut text, SCHEME);
    text
}

/// The canonical text.
#[tactic(auto, using(crate::proofs::Bounds::canonical_fits, crate::proofs::Bounds::lengths), unfolding(crate::specs::Url::canonical))]
pub(crate) fn canonical_text(url: &[u8]) -> ShortText
    requires { length url.now ≤ 255 }
    ensures { result ≡ spec.canonical url.now }
{
    let mut text = scheme();
    append_lowered(&mut text, host_part(url));
    append_port(&mut text, port_part(url));
    append_path(&mut text, path_and_query(url));
    text
}

/// What stands up to the path, and what stands behind its first octet.
#[tactic(auto, using(std::proofs::lemmas::List::take_min, std::proofs::lemmas::List::drop_min))]
fn around_slash(text: &[u8]) -> (&[u8], &[u8])
    requires { length text.now ≤ 256 }
    ensures front { result.0.now ≡ take (8 + length (spec.authority text.now)) text.now }
    ensures back { result.1.now ≡ drop 1 (spec.path_and_query text.now) }
{
    let path = path_and_query(text);
    let (front, _) = text.split_at((8 + authority(text).len()).min(text.len()));
    let (_, back) = path.split_at(1.min(path.len()));
    (front, back)
}

/// The text without the first octet of its path.
#[tactic(auto, using(crate::proofs::Bounds::around_slash_fits))]
pub(crate) fn without_slash(text: &[u8]) -> ShortText
    requires { length text.now ≤ 256 }
    ensures { result ≡ take (8 + length (spec.authority text.now)) text.now ++ drop 1 (spec.path_and_query text.now) }
{
    let (front, back) = around_slash(text);
    let mut shorter = ShortText::new();
    append(&mut shorter, front);
    append(&mut shorter, back);
    shorter
}
