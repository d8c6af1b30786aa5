//! MUD URLs and MUD strings.
ghost use Rattle.std.specs.Prelude.{◌≡◌, ◌+◌, ◌≤◌, length, position, bytes_eq, if◌then◌else◌, IsTrue};
ghost use Rattle.std.proofs.Common.{rules};
ghost use Rattle.std.specs.Cmp.Lexicographic.{slice_cmp};
ghost use Rattle.std.specs.Cmp.Rules.{comparing};
ghost use Rattle.std.specs.Ordering.{nat_cmp, as_partial_cmp};
ghost use Rattle.mud_base.specs.Faults.{first_row};
ghost use Rattle.mud_url.specs.Url as spec;
ghost use Rattle.mud_url.specs.Url.{url_of, string_of, host_of, is_canonical};
ghost use Rattle.std.specs.List.{before_first};

use crate::canonical::{canonical_text, without_slash};
use crate::fault::UrlFault;
use crate::host::is_host;
use crate::parts::{
    authority, begins_with_scheme, first_not_graphic, has_fragment, has_user_info, host_part,
    is_port, path_and_query, path_fault, path_part, port_part,
};
use mud_base::{ShortText, octets_order};
use std::cmp::Ordering;
use std::fmt;
use std::marker::Model;

/// A MUD URL, kept as its canonical text: `https://`, the host in lower case, `:` and the port
/// unless it is 443, the path and the query. Two are equal where their texts are, and the order is
/// that of the texts. Contracts see it as its text.
#[derive(Clone, Copy)]
pub struct MudUrl {
    text: ShortText,
}

impl Model for MudUrl {
    ghost use Rattle.std.specs.Prelude.{ℕ, List};
    ghost use Rattle.std.specs.Prelude.{IsTrue};
    ghost use Rattle.mud_url.specs.Url.{is_canonical};

    ghost Value = { List ℕ };

    ghost view = { λ u. u.text };

    ghost invariant = { λ u. IsTrue (is_canonical u.text) };

    ghost inverse = { λ text. record { text = text } };
}

impl MudUrl {
    /// The canonical text, at most 256 octets.
    pub fn text(&self) -> &[u8]
        ensures value { result.now ≡ self.now }
        ensures short { length self.now ≤ 256 }
    {
        self.text.octets()
    }

    /// Every URL's text is canonical, so [`canonical_url`] reads it back.
    pub fn text_is_canonical(&self)
        ensures { IsTrue (is_canonical self.now) }
    {
        let _text = &self.text;
    }

    /// The host, in lower case.
    #[tactic(auto, unfolding(crate::specs::Url::host_of))]
    pub fn host(&self) -> &[u8]
        ensures { result.now ≡ host_of self.now }
    {
        host_part(self.text())
    }
}

impl PartialEq for MudUrl {
    ghost eq = { bytes_eq };

    ghost laws = { Prim.search (comparing, rules) };

    fn eq(&self, other: &MudUrl) -> bool {
        self.text() == other.text()
    }
}

impl Eq for MudUrl {
    ghost laws = { Prim.search (comparing, rules) };
}

impl PartialOrd for MudUrl {
    ghost partial_cmp = { as_partial_cmp (slice_cmp nat_cmp) };

    ghost laws = { Prim.search (comparing, rules) };

    fn partial_cmp(&self, other: &MudUrl) -> Option<Ordering> {
        Some(self.cmp(other))
    }
}

impl Ord for MudUrl {
    ghost cmp = { slice_cmp nat_cmp };

    ghost total = { Prim.search (comparing, rules) };

    ghost matches_partial_cmp = { Prim.search (comparing, rules) };

    ghost matches_eq = { Prim.search (comparing, rules) };

    fn cmp(&self, other: &MudUrl) -> Ordering {
        octets_order(self.text(), other.text())
    }
}

impl fmt::Debug for MudUrl {
    fn fmt<W: fmt::Write>(&self, f: &mut fmt::Formatter<W>) -> fmt::Result {
        match str::from_utf8(self.text()) {
            Ok(text) => write!(f, "MudUrl({text})"),
            Err(_) => Err(fmt::Error),
        }
    }
}

/// The first fault of a URL.
fn first_fault(url: &[u8]) -> Option<UrlFault>
    ensures { result ≡ first_row (spec.faults url.now) }
{
    if url.is_empty() {
        return Some(UrlFault::Empty);
    }
    if url.len() > 255 {
        return Some(UrlFault::Long);
    }
    if let Some(at) = first_not_graphic(url) {
        return Some(UrlFault::Octet(at));
    }
    if !begins_with_scheme(url) {
        return Some(UrlFault::Scheme);
    }
    if has_fragment(url) {
        return Some(UrlFault::Fragment);
    }
    if has_user_info(authority(url)) {
        return Some(UrlFault::UserInfo);
    }
    if !is_host(host_part(url)) {
        return Some(UrlFault::Host);
    }
    if !is_port(port_part(url)) {
        return Some(UrlFault::Port);
    }
    first_path_fault(url).map(UrlFault::Path)
}

/// The offset of the first octet of a URL that can't stand in its path or query.
#[tactic(auto, using(crate::proofs::Bounds::lengths))]
fn first_path_fault(url: &[u8]) -> Option<usize>
    requires { length url.now ≤ 255 }
    ensures { result ≡ spec.path_fault (8 + length (spec.authority url.now)) (spec.path_and_query url.now) }
{
    path_fault(8 + authority(url).len(), path_and_query(url))
}

/// The MUD URL that octets spell, or the first fault: an `https` URL (RFC 8520, 6) of at most 255
/// octets with a host name, an optional port, a path and an optional query (RFC 3986). It takes no
/// memory.
#[tactic(auto, unfolding(crate::specs::Url::url_of))]
pub fn mud_url(octets: &[u8]) -> Result<MudUrl, UrlFault>
    ensures { result ≡ url_of octets.now }
{
    match first_fault(octets) {
        Some(fault) => Err(fault),
        None => Ok(MudUrl {
            text: canonical_text(octets),
        }),
    }
}

/// The octets without one zero octet at their end.
#[tactic(auto, unfolding(crate::specs::Url::without_last_zero))]
fn without_last_zero(octets: &[u8]) -> &[u8]
    ensures { result.now ≡ spec.without_last_zero octets.now }
{
    match octets {
        [text @ .., 0] => text,
        _ => octets,
    }
}

/// The offset of the first space.
fn first_space(text: &[u8]) -> Option<usize>
    ensures { result ≡ position spec.is_space text.now }
{
    text.iter().position(|octet| *octet == b' ')
}

/// What stands before the first space.
#[tactic(auto, using(crate::proofs::Offsets::before_first_found, crate::proofs::Offsets::before_first_none))]
fn before_space(text: &[u8]) -> &[u8]
    ensures { result.now ≡ before_first spec.is_space text.now }
{
    match first_space(text) {
        Some(end) => text.split_at(end).0,
        None => text,
    }
}

/// The MUD URL of a MUD string (RFC 8520, 10): one zero octet at its end is dropped, at most 255
/// octets may be left, and what follows the first space is ignored. Offsets are those in the
/// string. It takes no memory.
#[tactic(auto, unfolding(crate::specs::Url::string_of))]
pub fn mud_string(octets: &[u8]) -> Result<MudUrl, UrlFault>
    ensures { result ≡ string_of octets.now }
{
    let text = without_last_zero(octets);
    if text.len() > 255 {
        return Err(UrlFault::Long);
    }
    mud_url(before_space(text))
}

/// The MUD URL that octets spell, where this is its text.
#[tactic(auto, using(crate::proofs::Offsets::same_octets), unfolding(crate::specs::Url::reads_as))]
fn read_as(octets: &[u8], text: &[u8]) -> Option<MudUrl>
    ensures { result ≡ (if spec.reads_as octets.now text.now then Some text.now else None) }
{
    match mud_url(octets) {
        Ok(url) if url.text() == text => Some(url),
        _ => None,
    }
}

/// The MUD URL of a canonical text that was kept. None exactly where the octets are no canonical
/// text of a MUD URL. It takes no memory.
#[tactic(auto, unfolding(crate::specs::Url::is_canonical))]
pub fn canonical_url(octets: &[u8]) -> Option<MudUrl>
    ensures { result ≡ (if is_canonical octets.now then Some octets.now else None) }
{
    if let Some(url) = read_as(octets, octets) {
        return Some(url);
    }
    if octets.len() != 256 {
        return None;
    }
    if path_part(octets) != b"/".as_slice() {
        return None;
    }
    read_as(without_slash(octets).octets(), octets)
}
