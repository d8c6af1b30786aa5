//! Texts that name flags of TCP (RFC 8519, 4.2, `flags`).
ghost use Rattle.std.specs.Prelude.{◌≡◌, ◌≤◌, map, sum, nat_lt, bytes_eq, length, slice_index, ◌==◌, ◌-◌};
ghost use Rattle.serde_json.specs.View.{view};
ghost use Rattle.mud_base.specs.Readings.{Gives};
ghost use Rattle.acl_model.specs.TcpFlags.{bit_of, all_flags, word_of};
ghost use Rattle.usage_match.specs.Flags as spec;
ghost use Rattle.std.specs.List.{list_all, list_any};

use crate::texts::{meant, text_of};
use acl_model::TcpFlag;
use acl_model::tcp_flag::{all_flags, bit_of, word_of};
use usage_walk::{FileFault, Rule, Spot};

/// Whether a word names a flag.
#[tactic(auto)]
fn is_flag(word: &str) -> bool
    ensures { result ≡ list_any (λ f. bytes_eq (word_of f) word.now) all_flags }
{
    all_flags().iter().any(|flag| word_of(*flag) == word)
}

/// Whether what stands between two spaces is a flag or nothing.
#[tactic(auto, unfolding(crate::specs::Flags::is_piece))]
fn is_piece(piece: &str) -> bool
    ensures { result ≡ spec.is_piece piece.now }
{
    if piece.is_empty() {
        return true;
    }
    is_flag(piece)
}

/// Whether every word of a text is a flag.
#[tactic(auto, unfolding(crate::specs::Flags::pieces))]
fn are_flags(text: &str) -> bool
    ensures { result ≡ list_all spec.is_piece (spec.pieces text.now) }
{
    text.split(' ').all(is_piece)
}

/// How many times a text names a flag.
#[tactic(auto, unfolding(crate::specs::Flags::times, crate::specs::Flags::pieces))]
fn times(text: &str, flag: TcpFlag) -> usize
    ensures { result ≡ spec.times text.now flag }
{
    let word = word_of(flag);
    text.split(' ').filter(|piece| *piece == word).count()
}

/// Whether a text names a flag twice.
#[tactic(auto)]
fn has_repeat(text: &str) -> bool
    ensures { result ≡ list_any (λ f. nat_lt 1 (spec.times text.now f)) all_flags }
{
    all_flags().iter().any(|flag| times(text, *flag) > 1)
}

/// Whether a text begins with a space.
#[tactic(auto, unfolding(crate::specs::Flags::begins_with_space))]
fn begins_with_space(text: &[u8]) -> bool
    ensures { result ≡ spec.begins_with_space text.now }
{
    match text {
        [] => false,
        [first, ..] => *first == b' ',
    }
}

/// Whether a text ends with a space.
#[tactic(auto)]
fn ends_with_space(text: &[u8]) -> bool
    ensures { result ≡ slice_index text.now (length text.now - 1) == 32 }
{
    match text {
        [] => false,
        [.., last] => *last == b' ',
    }
}

/// Whether a text names flags, each at most once, parted by one or more spaces, with no space at
/// either end.
#[tactic(auto, unfolding(crate::specs::Flags::is_flag_text))]
fn is_flag_text(text: &str) -> bool
    ensures { result ≡ spec.is_flag_text text.now }
{
    if begins_with_space(text.as_bytes()) {
        return false;
    }
    if ends_with_space(text.as_bytes()) {
        return false;
    }
    if !are_flags(text) {
        return false;
    }
    !has_repeat(text)
}

/// What a flag stands for, where a text names it, and else 0.
#[tactic(auto, unfolding(crate::specs::Flags::bit_where_named))]
fn bit_where_named(text: &str, flag: TcpFlag) -> u8
    ensures bit { result ≡ spec.bit_where_named text.now flag }
    ensures most { result ≤ bit_of flag }
{
    if times(text, flag) > 0 {
        bit_of(flag)
    } else {
        0
    }
}

/// The octet of flags in which those that a text names are set, and no other.
#[tactic(auto, unfolding(acl_model::specs::TcpFlags::all_flags, acl_model::specs::TcpFlags::bit_of))]
fn octet_of(text: &str) -> u8
    ensures { result ≡ sum (map (spec.bit_where_named text.now) all_flags) }
{
    let cwr = bit_where_named(text, TcpFlag::Cwr);
    let ece = bit_where_named(text, TcpFlag::Ece);
    let urg = bit_where_named(text, TcpFlag::Urg);
    let ack = bit_where_named(text, TcpFlag::Ack);
    let psh = bit_where_named(text, TcpFlag::Psh);
    let rst = bit_where_named(text, TcpFlag::Rst);
    let syn = bit_where_named(text, TcpFlag::Syn);
    let fin = bit_where_named(text, TcpFlag::Fin);
    cwr + ece + urg + ack + psh + rst + syn + fin
}

/// The octet of flags that a text names.
#[tactic(auto, unfolding(crate::specs::Flags::flags_in))]
fn flags_in(text: &str) -> Option<u8>
    ensures { result ≡ spec.flags_in text.now }
{
    if is_flag_text(text) {
        Some(octet_of(text))
    } else {
        None
    }
}

/// An octet of flags, where it is there.
#[tactic(auto, unfolding(crate::specs::Flags::flags_where_there), using(crate::proofs::Meant::meant_refused, crate::proofs::Meant::meant_absent, crate::proofs::Meant::meant_there))]
pub(crate) fn flags_where_there(spot: Spot<'_>) -> Result<Option<u8>, FileFault>
    ensures { Gives (λ v. v) result (spec.flags_where_there spot.entry.path.now spot.entry.member (view spot.entry.object.now)) }
{
    match text_of(spot)? {
        None => Ok(None),
        Some(text) => meant(spot, Rule::FlagText, flags_in(text)),
    }
}
