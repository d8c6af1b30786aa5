//! The order of octet strings.
ghost use Rattle.std.specs.Prelude.{◌≡◌, ℕ, ◌<◌, ◌≤◌, length, slice_index};
ghost use Rattle.std.specs.Cmp.Lexicographic.{slice_cmp};
ghost use Rattle.std.specs.Ordering.{nat_cmp};
ghost use Rattle.mud_base.specs.Numbers as spec;

use crate::number::big_64;
use std::cmp::Ordering;

/// How two octet strings stand to one another of which the first eight octets are the same: the
/// first octet in which they differ decides, and else the shorter one comes first. Eight octets are
/// compared at once, as one number. The last eight may be some that were looked at already.
#[inline(never)]
fn order_behind_eight(own: &[u8], other: &[u8]) -> Ordering
    requires own { 8 ≤ length own.now }
    requires other { 8 ≤ length other.now }
    requires same { spec.big_64 0 own.now ≡ spec.big_64 0 other.now }
    ensures { result ≡ slice_cmp nat_cmp own.now other.now }
{
    let both = own.len().min(other.len());
    let mut offset = 8;
    while both - offset > 8 {
        let (eight, other_eight) = (big_64(own, offset), big_64(other, offset));
        if eight != other_eight {
            return eight.cmp(&other_eight);
        }
        offset += 8;
    }
    let (last, other_last) = (big_64(own, both - 8), big_64(other, both - 8));
    if last != other_last {
        return last.cmp(&other_last);
    }
    own.len().cmp(&other.len())
}

/// Every octet is one.
fn are_octets(octets: &[u8])
    ensures { (k : ℕ) → slice_index octets.now k < 256 }
{}

/// How two octet strings stand to one another: the first octet in which they differ decides, and
/// else the shorter one comes first. That is std's order of slices. It is here for strings that
/// mostly differ in their first eight octets: these are compared as one number, in a part of the
/// time that std's comparison of slices takes.
#[inline]
pub fn octets_order(own: &[u8], other: &[u8]) -> Ordering
    ensures { result ≡ slice_cmp nat_cmp own.now other.now }
{
    if own.len() < 8 || other.len() < 8 {
        return own.cmp(other);
    }
    are_octets(own);
    are_octets(other);
    let (eight, other_eight) = (big_64(own, 0), big_64(other, 0));
    if eight == other_eight {
        return order_behind_eight(own, other);
    }
    eight.cmp(&other_eight)
}
