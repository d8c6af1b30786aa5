//! What the fields of a head say.
ghost use Rattle.std.specs.Prelude.{◌≡◌, ◌+◌, List, ℕ, length, map, All, reverse, [], ◌∷◌, ◌++◌, ◌==◌};
ghost use Rattle.std.specs.Str.{str_eq_ignore_ascii_case};
ghost use Rattle.httparse.specs.Grammar.{skip_ows, trim_ows};
ghost use Rattle.httparse.specs.Spans.{IsHeaderWithin, header_bytes};
ghost use Rattle.http_requests.specs.Fields as spec;
ghost use Rattle.http_requests.specs.Values.{AreValues};
ghost use Rattle.std.specs.List.{list_any, slice_split};

use httparse::is_space_or_tab;
use httparse::spans::HeaderSpan;

/// Whether both texts are the same but for the case of letters.
fn same_text(a: &[u8], b: &[u8]) -> bool
    ensures { result ≡ str_eq_ignore_ascii_case a.now b.now }
{
    a.eq_ignore_ascii_case(b)
}

/// The text from its first octet on that is no space or tab.
fn trim_start(mut text: &[u8]) -> &[u8]
    ensures { result.now ≡ skip_ows text.now }
{
    while let [first, rest @ ..] = text
        && is_space_or_tab(*first)
    {
        text = rest;
    }
    text
}

/// The text up to its last octet that is no space or tab.
fn trim_end(mut text: &[u8]) -> &[u8]
    ensures { result.now ≡ reverse (skip_ows (reverse text.now)) }
{
    while let [rest @ .., last] = text
        && is_space_or_tab(*last)
    {
        text = rest;
    }
    text
}

/// The text without the spaces and tabs at its ends.
#[tactic(auto, unfolding(httparse::specs::Grammar::trim_ows))]
fn trim(text: &[u8]) -> &[u8]
    ensures { result.now ≡ trim_ows text.now }
{
    trim_end(trim_start(text))
}

/// Whether a list of words with commas between them has the word.
fn has_element(word: &[u8], value: &[u8]) -> bool
    ensures { result ≡ list_any (λ part. str_eq_ignore_ascii_case (trim_ows part) word.now) (slice_split (λ c. c == 44) value.now) }
{
    value
        .split(|octet| *octet == b',')
        .any(|part| same_text(trim(part), word))
}

/// Whether the field has the name.
fn is_named(octets: &[u8], name: &[u8], field: &HeaderSpan) -> bool
    requires { IsHeaderWithin (length octets.now) field.now }
    ensures { result ≡ spec.is_named name.now (header_bytes octets.now field.now) }
{
    same_text(field.name.of(octets), name)
}

/// Whether there is a field of the name.
pub(crate) fn has_field(octets: &[u8], name: &[u8], fields: &[HeaderSpan]) -> bool
    requires { All (IsHeaderWithin (length octets.now)) fields.now }
    ensures { result ≡ spec.has_field name.now (map (header_bytes octets.now) fields.now) }
{
    fields.iter().any(|field| is_named(octets, name, field))
}

/// Whether a field of the name has this value, in any case.
pub(crate) fn has_value(octets: &[u8], name: &[u8], value: &[u8], fields: &[HeaderSpan]) -> bool
    requires { All (IsHeaderWithin (length octets.now)) fields.now }
    ensures { result ≡ spec.has_value name.now value.now (map (header_bytes octets.now) fields.now) }
{
    fields.iter().any(|field| is_named(octets, name, field)
        && same_text(field.value.of(octets), value))
}

/// Whether a field of the name has the word in its list.
pub(crate) fn lists_word(octets: &[u8], name: &[u8], word: &[u8], fields: &[HeaderSpan]) -> bool
    requires { All (IsHeaderWithin (length octets.now)) fields.now }
    ensures { result ≡ spec.lists_word name.now word.now (map (header_bytes octets.now) fields.now) }
{
    fields.iter().any(|field| is_named(octets, name, field)
        && has_element(word, field.value.of(octets)))
}

/// The values of the fields of one name.
#[derive(Clone, Copy)]
pub(crate) enum Values<'a> {
    /// There is no field of the name.
    Absent,
    /// There is one, with this value.
    One(&'a [u8]),
    /// There are more.
    Several,
}

/// The values, and this one behind them.
fn with_value<'a>(values: Values<'a>, value: &'a [u8]) -> Values<'a>
    ensures { (list : List (List ℕ)) → AreValues list values.entry → AreValues (list ++ value.now ∷ []) result }
{
    match values {
        Values::Absent => Values::One(value),
        Values::One(_first) => Values::Several,
        Values::Several => Values::Several,
    }
}

/// The values of the fields of the name.
pub(crate) fn values_of<'a>(octets: &'a [u8], name: &[u8], fields: &[HeaderSpan]) -> Values<'a>
    requires { All (IsHeaderWithin (length octets.now)) fields.now }
    ensures { AreValues (spec.values_of name.now (map (header_bytes octets.now) fields.now)) result }
{
    let mut values = Values::Absent;
    for field in fields {
        if is_named(octets, name, field) {
            values = with_value(values, field.value.of(octets));
        }
    }
    values
}
