//! Host names.
ghost use Rattle.std.specs.Prelude.{◌≡◌, IfOk, OnErr, IsSome};
ghost use Rattle.std.specs.List.{list_all, slice_split};
ghost use Rattle.mud_url.specs.Host as spec;

use mud_base::{Bytes, Memory};
use std::alloc::Global;

/// Whether an octet is a letter, a digit, `-` or `_`.
#[tactic(auto, unfolding(crate::specs::Host::is_label_octet))]
fn is_label_octet(octet: u8) -> bool
    ensures { result ≡ spec.is_label_octet octet }
{
    octet.is_ascii_alphanumeric() || octet == b'-' || octet == b'_'
}

/// Whether each octet may stand in a label.
fn has_label_octets(text: &[u8]) -> bool
    ensures { result ≡ list_all spec.is_label_octet text.now }
{
    text.iter().all(|octet| is_label_octet(*octet))
}

/// Whether a text is one label of a host name.
#[tactic(auto, unfolding(crate::specs::Host::is_label))]
fn is_label(text: &[u8]) -> bool
    ensures { result ≡ spec.is_label text.now }
{
    if text.is_empty() || text.len() > 63 {
        return false;
    }
    if text[0] == b'-' || text[text.len() - 1] == b'-' {
        return false;
    }
    has_label_octets(text)
}

/// Whether a text is one or more labels joined by `.`.
fn has_labels(text: &[u8]) -> bool
    ensures { result ≡ list_all spec.is_label (slice_split spec.is_dot text.now) }
{
    text.split(|octet| *octet == b'.').all(is_label)
}

/// Whether a text is a host name, without a trailing dot.
#[tactic(auto, unfolding(crate::specs::Host::is_host))]
pub fn is_host(text: &[u8]) -> bool
    ensures { result ≡ spec.is_host text.now }
{
    if text.len() > 253 {
        return false;
    }
    has_labels(text)
}

/// The text without one trailing dot.
#[tactic(auto, unfolding(crate::specs::Host::without_last_dot))]
fn without_last_dot(text: &[u8]) -> &[u8]
    ensures { result.now ≡ spec.without_last_dot text.now }
{
    match text {
        [name @ .., b'.'] => name,
        _ => text,
    }
}

/// A copy of a text, its letters in lower case.
#[tactic(auto, unfolding(crate::specs::Host::lowered))]
fn lowered(alloc: Global, text: &[u8]) -> Result<Bytes, Memory>
    ensures { IfOk result (λ copy. copy ≡ spec.lowered text.now) }
{
    let mut copy = Bytes::empty(alloc);
    for octet in text {
        copy.push(octet.to_ascii_lowercase())?;
    }
    Ok(copy)
}

/// The host name that octets spell, in lower case: labels of 1 to 63 letters, digits, `-` and `_`
/// that neither begin nor end with `-`, joined by `.` (RFC 1123, 2.1), and at most 253 octets. One
/// trailing `.` is dropped before the octets are counted. None for any other octets, without need
/// of memory.
#[tactic(auto, unfolding(crate::specs::Host::host_name_of))]
pub fn host_name(alloc: Global, octets: &[u8]) -> Result<Option<Bytes>, Memory>
    ensures name { IfOk result (λ name. name ≡ spec.host_name_of octets.now) }
    ensures memory { OnErr result (IsSome (spec.host_name_of octets.now)) }
{
    let text = without_last_dot(octets);
    if !is_host(text) {
        return Ok(None);
    }
    let name = lowered(alloc, text)?;
    Ok(Some(name))
}
