//! Numbers in decimal digits.
ghost use Rattle.std.specs.Prelude.{◌≡◌, ◌≤◌, IfOk, IfSome, decimal, slice_index, length, not, ◌==◌, ◌&&◌, ◌||◌};
ghost use Rattle.mud_base.specs.Decimal as spec;

use crate::bytes::Bytes;
use crate::memory::Memory;
use std::alloc::Global;

/// Whether a zero stands in front of no other digit, and the text isn't empty.
#[tactic(auto)]
fn has_numeral_front(text: &[u8]) -> bool
    ensures { result ≡ not (length text.now == 0) && (length text.now == 1 || not (slice_index text.now 0 == 48)) }
{
    match text {
        [] => false,
        [_] => true,
        [first, ..] => *first != b'0',
    }
}

/// The number that a text of digits spells, where it is at most `most`.
#[tactic(auto, using(crate::proofs::Digits::digits_step, crate::proofs::Digits::digits_stop, crate::proofs::Digits::digits_above, crate::proofs::Digits::digits_end))]
fn digits_upto(most: u64, text: &[u8]) -> Option<u64>
    ensures value { result ≡ spec.digits_upto most 0 text.now }
    ensures within { IfSome result (λ number. number ≤ most) }
{
    let mut number = 0u64;
    for digit in text {
        if !digit.is_ascii_digit() {
            return None;
        }
        let longer = number as u128 * 10 + (*digit - b'0') as u128;
        if longer > most as u128 {
            return None;
        }
        number = longer as u64;
    }
    Some(number)
}

/// The number that decimal digits with no leading zero spell. None for any other text, and for a
/// number above `most`.
#[tactic(auto, unfolding(crate::specs::Decimal::number_upto))]
pub fn number_upto(most: u64, text: &[u8]) -> Option<u64>
    ensures value { result ≡ spec.number_upto most text.now }
    ensures within { IfSome result (λ number. number ≤ most) }
{
    if has_numeral_front(text) {
        digits_upto(most, text)
    } else {
        None
    }
}

/// The decimal digits of a number, with no leading zero.
pub(crate) fn decimal_text(alloc: Global, number: u64) -> Result<Bytes, Memory>
    ensures { IfOk result (λ text. text ≡ decimal number) }
{
    let text = number.to_string(alloc)?;
    Bytes::new(alloc, text.as_bytes())
}
