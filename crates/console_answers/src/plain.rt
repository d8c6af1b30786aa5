//! Texts that a JSON string shows as they are: no octet of them needs an escape (RFC 8259, 7).
ghost use Rattle.std.specs.Prelude.{◌≡◌, ◌+◌, ◌≤◌, length};
ghost use Rattle.std.specs.Bool.{OnTrue};
ghost use Rattle.json.specs.Print.{escape};
ghost use Rattle.json.specs.Written.{PlainBetween};

use std::simd::prelude::*;

/// Whether none of the 8 octets from this offset on needs an escape.
#[inline(always)]
fn are_8_plain(text: &[u8], at: usize) -> bool
    requires { at + 8 ≤ length text.now }
    ensures { OnTrue result (PlainBetween text.now at (at + 8)) }
{
    let octets = u8x8::from_slice(&text[at..]);
    (octets.simd_eq(u8x8::splat(b'"'))
        | octets.simd_eq(u8x8::splat(b'\\'))
        | octets.simd_lt(u8x8::splat(32))).to_bitmask()
        == 0
}

/// Whether none of the 16 octets from this offset on needs an escape.
#[inline(always)]
fn are_16_plain(text: &[u8], at: usize) -> bool
    requires { at + 16 ≤ length text.now }
    ensures { OnTrue result (PlainBetween text.now at (at + 16)) }
{
    let octets = u8x16::from_slice(&text[at..]);
    (octets.simd_eq(u8x16::splat(b'"'))
        | octets.simd_eq(u8x16::splat(b'\\'))
        | octets.simd_lt(u8x16::splat(32))).to_bitmask()
        == 0
}

/// Whether no octet of a short text needs an escape.
#[inline(always)]
fn is_few_plain(text: &[u8]) -> bool
    ensures { OnTrue result (PlainBetween text.now 0 (length text.now)) }
{
    'text: for octet in text {
        if *octet == b'"' || *octet == b'\\' || *octet < 32 {
            return false;
        }
    }
    true
}

/// Whether no octet of a text of at least 16 octets needs an escape. The last 16 octets may be
/// looked at again in part.
fn is_long_plain(text: &[u8]) -> bool
    requires { 16 ≤ length text.now }
    ensures { OnTrue result (PlainBetween text.now 0 (length text.now)) }
{
    let mut at = 0;
    'text: while text.len() - at > 16 {
        if !are_16_plain(text, at) {
            return false;
        }
        at += 16;
    }
    are_16_plain(text, text.len() - 16)
}

/// Whether no octet of a text of at most 16 octets needs an escape.
fn is_short_plain(text: &[u8]) -> bool
    requires { length text.now ≤ 16 }
    ensures { OnTrue result (PlainBetween text.now 0 (length text.now)) }
{
    let len = text.len();
    if len >= 8 {
        are_8_plain(text, 0) && are_8_plain(text, len - 8)
    } else {
        is_few_plain(text)
    }
}

/// Whether no octet of a text needs an escape in a JSON string.
pub(crate) fn is_plain(text: &[u8]) -> bool
    ensures { OnTrue result (escape text.now ≡ text.now) }
{
    if text.len() < 16 {
        is_short_plain(text)
    } else {
        is_long_plain(text)
    }
}
