//! The parts of a URL, and what may stand in them.
ghost use Rattle.std.specs.Prelude.{◌≡◌, ◌==◌, ◌+◌, ◌<◌, ◌^◌, drop, take, not, length, position, codes, ◌||◌};
ghost use Rattle.std.specs.Char.{is_ascii_graphic, is_ascii_alphanumeric};
ghost use Rattle.std.specs.List.{list_any};
ghost use Rattle.mud_url.specs.Url as spec;

use mud_base::decimal::number_upto;

/// The scheme, in lower case.
pub const SCHEME: &[u8; 8] = b"https://";

/// The octets where the scheme stands, and those behind it.
#[tactic(auto, using(std::proofs::lemmas::List::take_min, std::proofs::lemmas::List::drop_min))]
fn cut_scheme(url: &[u8]) -> (&[u8], &[u8])
    ensures front { result.0.now ≡ take 8 url.now }
    ensures back { result.1.now ≡ drop 8 url.now }
{
    url.split_at(8.min(url.len()))
}

/// Whether a text begins with `https://`, in either case.
pub(crate) fn begins_with_scheme(url: &[u8]) -> bool
    ensures { result ≡ spec.begins_with_scheme url.now }
{
    let (front, _) = cut_scheme(url);
    front.eq_ignore_ascii_case(SCHEME)
}

/// The offset of the first octet outside 21 to 7E hex.
pub(crate) fn first_not_graphic(url: &[u8]) -> Option<usize>
    ensures { result ≡ position (λ c. not (is_ascii_graphic c)) url.now }
{
    url.iter().position(|octet| !octet.is_ascii_graphic())
}

/// The offset of the first `/` or `?`.
fn first_slash_or_question(text: &[u8]) -> Option<usize>
    ensures { result ≡ position spec.is_slash_or_question text.now }
{
    text.iter()
        .position(|octet| *octet == b'/' || *octet == b'?')
}

/// The offset of the first `:`.
fn first_colon(text: &[u8]) -> Option<usize>
    ensures { result ≡ position spec.is_colon text.now }
{
    text.iter().position(|octet| *octet == b':')
}

/// The authority, up to the first `/` or `?` behind the scheme.
#[tactic(auto, using(crate::proofs::Offsets::before_first_found, crate::proofs::Offsets::before_first_none), unfolding(crate::specs::Url::authority))]
pub fn authority(url: &[u8]) -> &[u8]
    ensures { result.now ≡ spec.authority url.now }
{
    let (_, rest) = cut_scheme(url);
    match first_slash_or_question(rest) {
        Some(end) => rest.split_at(end).0,
        None => rest,
    }
}

/// What stands behind the authority.
#[tactic(auto, using(crate::proofs::Offsets::authority_within), unfolding(crate::specs::Url::path_and_query))]
pub(crate) fn path_and_query(url: &[u8]) -> &[u8]
    ensures { result.now ≡ spec.path_and_query url.now }
{
    let (_, rest) = cut_scheme(url);
    rest.split_at(authority(url).len()).1
}

/// The offset of the first `?`.
fn first_question_mark(text: &[u8]) -> Option<usize>
    ensures { result ≡ position spec.is_question_mark text.now }
{
    text.iter().position(|octet| *octet == b'?')
}

/// What stands before the first `?`, with which a query begins (RFC 3986, 3.4).
#[tactic(auto, using(crate::proofs::Offsets::before_first_found, crate::proofs::Offsets::before_first_none), unfolding(crate::specs::Url::before_query))]
pub fn before_query(text: &[u8]) -> &[u8]
    ensures { result.now ≡ spec.before_query text.now }
{
    match first_question_mark(text) {
        Some(end) => text.split_at(end).0,
        None => text,
    }
}

/// The path, without the query (RFC 3986, 3.3).
#[tactic(auto)]
pub fn path_part(url: &[u8]) -> &[u8]
    ensures { result.now ≡ spec.before_query (spec.path_and_query url.now) }
{
    before_query(path_and_query(url))
}

/// The host, before the first `:` of the authority.
#[tactic(auto, using(crate::proofs::Offsets::before_first_found, crate::proofs::Offsets::before_first_none), unfolding(crate::specs::Url::host_part))]
pub fn host_part(url: &[u8]) -> &[u8]
    ensures { result.now ≡ spec.host_part url.now }
{
    let authority = authority(url);
    match first_colon(authority) {
        Some(end) => authority.split_at(end).0,
        None => authority,
    }
}

/// The port, behind the first `:` of the authority.
#[tactic(auto, using(crate::proofs::Offsets::after_first_found, crate::proofs::Offsets::after_first_none), unfolding(crate::specs::Url::port_part))]
pub(crate) fn port_part(url: &[u8]) -> &[u8]
    ensures { result.now ≡ spec.port_part url.now }
{
    let authority = authority(url);
    match first_colon(authority) {
        Some(end) => authority.split_at(end + 1).1,
        None => &[],
    }
}

/// Whether a text is empty, or 1 to 65535 in decimal without a leading zero.
#[tactic(auto, unfolding(crate::specs::Url::is_port))]
pub(crate) fn is_port(text: &[u8]) -> bool
    ensures { result ≡ spec.is_port text.now }
{
    if text.is_empty() {
        return true;
    }
    match number_upto(65535, text) {
        Some(number) => 0 < number,
        None => false,
    }
}

/// Whether there is a `#`.
pub(crate) fn has_fragment(url: &[u8]) -> bool
    ensures { result ≡ list_any (λ c. c == 35) url.now }
{
    url.contains(&b'#')
}

/// Whether there is an `@`.
pub(crate) fn has_user_info(authority: &[u8]) -> bool
    ensures { result ≡ list_any (λ c. c == 64) authority.now }
{
    authority.contains(&b'@')
}

/// The octets besides letters and digits that may stand in a path or a query.
const MARKS: &[u8; 19] = b"-._~!$&'()*+,;=:@/?";

/// Whether an octet may stand in a path or a query by itself.
#[tactic(auto)]
fn is_path_octet(octet: u8) -> bool
    ensures { result ≡ is_ascii_alphanumeric octet || list_any (λ mark. mark == octet) (codes "-._~!$&'()*+,;=:@/?") }
{
    octet.is_ascii_alphanumeric() || MARKS.contains(&octet)
}

/// Whether two hex digits stand at the front.
#[tactic(auto, unfolding(crate::specs::Url::begins_with_hex_pair))]
fn begins_with_hex_pair(text: &[u8]) -> bool
    ensures { result ≡ spec.begins_with_hex_pair text.now }
{
    match text {
        [first, second, ..] => first.is_ascii_hexdigit() && second.is_ascii_hexdigit(),
        _ => false,
    }
}

/// Whether an octet may stand in a path or a query in front of the others.
#[tactic(auto, unfolding(crate::specs::Url::may_stand))]
fn may_stand(octet: u8, more: &[u8]) -> bool
    ensures { result ≡ spec.may_stand octet more.now }
{
    if is_path_octet(octet) {
        return true;
    }
    octet == b'%' && begins_with_hex_pair(more)
}

/// The offset of the first octet that can't stand in a path or a query, counted from `start`.
#[tactic(auto, unfolding(crate::specs::Url::path_fault))]
pub(crate) fn path_fault(start: usize, text: &[u8]) -> Option<usize>
    requires { start + length text.now < 2 ^ 64 }
    ensures { result ≡ spec.path_fault start text.now }
{
    let mut at = start;
    let mut rest = text;
    while let [octet, more @ ..] = rest {
        if !may_stand(*octet, more) {
            return Some(at);
        }
        at += 1;
        rest = more;
    }
    None
}
