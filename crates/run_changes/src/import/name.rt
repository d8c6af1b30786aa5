//! The names of usage files that wait to be imported.
ghost use Rattle.std.specs.Prelude.{◌≡◌, ◌==◌, option_map, None, if◌then◌else◌, length, nat_le, nat_lt, ◌&&◌};
ghost use Rattle.std.specs.List.{list_all, before_first, after_first, position};
ghost use Rattle.run_changes.specs.Import.Names as spec;
ghost use Rattle.mud_base.specs.Reading.{moment_in};

use mud_base::{Moment, moment_of};

/// Whether a label may have the octet: a letter, a digit, `-`, `_` or `.`.
#[tactic(auto, unfolding(crate::specs::Import::Names::is_label_octet))]
fn is_label_octet(octet: u8) -> bool
    ensures { result ≡ spec.is_label_octet octet }
{
    octet.is_ascii_alphanumeric() || octet == b'-' || octet == b'_' || octet == b'.'
}

/// Whether the text has 1 to 64 octets.
fn has_label_length(text: &[u8]) -> bool
    ensures { result ≡ nat_lt 0 (length text.now) && nat_le (length text.now) 64 }
{
    !text.is_empty() && text.len() <= 64
}

fn are_label_octets(text: &[u8]) -> bool
    ensures { result ≡ list_all spec.is_label_octet text.now }
{
    text.iter().all(|octet| is_label_octet(*octet))
}

/// Whether the text has 1 to 64 octets of a label.
#[tactic(auto, unfolding(crate::specs::Import::Names::is_label))]
fn is_label(text: &[u8]) -> bool
    ensures { result ≡ spec.is_label text.now }
{
    has_label_length(text) && are_label_octets(text)
}

fn first_dash(text: &[u8]) -> Option<usize>
    ensures { result ≡ position spec.is_dash text.now }
{
    text.iter().position(|octet| *octet == b'-')
}

/// What stands before the first dash, and what behind it; all and nothing where there is none.
#[tactic(auto, using(mud_base::proofs::Slashes::offset_is, mud_base::proofs::Slashes::offset_within, mud_base::proofs::Slashes::before_none, mud_base::proofs::Slashes::after_none))]
fn around_dash(text: &[u8]) -> (&[u8], &[u8])
    ensures before { result.0.now ≡ before_first spec.is_dash text.now }
    ensures after { result.1.now ≡ after_first spec.is_dash text.now }
{
    match first_dash(text) {
        Some(offset) => {
            let (before, _) = text.split_at(offset);
            let (_, after) = text.split_at(offset + 1);
            (before, after)
        }
        None => (text, &[]),
    }
}

/// The moment in front of the first dash, where a label stands behind it.
#[tactic(auto)]
fn fetched_in_stem(stem: &[u8]) -> Option<Moment>
    ensures { result ≡ if spec.is_label (after_first spec.is_dash stem.now) then moment_in (before_first spec.is_dash stem.now) else None }
{
    let (moment, label) = around_dash(stem);
    if !is_label(label) {
        return None;
    }
    moment_of(moment)
}

/// The moment at which the usage file of this name was fetched: its seconds since
/// 1970-01-01T00:00:00Z in front of a dash, a label of 1 to 64 letters, digits, `-`, `_` and `.`, and
/// `.json`. None for a name of another form. It takes no memory.
#[tactic(auto, unfolding(crate::specs::Import::Names::fetched_in))]
pub(crate) fn fetched_in(name: &[u8]) -> Option<Moment>
    ensures { result ≡ spec.fetched_in name.now }
{
    fetched_in_stem(name.strip_suffix(b".json")?)
}
