//! The two endpoints of a connection.
ghost use Rattle.std.specs.Prelude.{◌≡◌, ◌<◌, ◌^◌};
ghost use Rattle.mud_base.specs.declared.addr.Addr.{Addr as AddrValue};
ghost use Rattle.flow_table.specs.Pairs as spec;
ghost use Rattle.flow_table.specs.Keys as keys;

use crate::key::Key;
use mud_base::Addr;
use std::cmp::Ordering;
use table_model::Endpoint;

/// Two endpoints in one order: by address, and then by port.
pub type Pair = (Endpoint, Endpoint);

/// The two endpoints in one order, whichever of them sends.
#[tactic(auto, unfolding(crate::specs::Pairs::pair_of))]
fn pair_of(a: Endpoint, b: Endpoint) -> Pair
    ensures { result ≡ spec.pair_of a b }
{
    match a.cmp(&b) {
        Ordering::Less => (a, b),
        Ordering::Equal => (a, b),
        Ordering::Greater => (b, a),
    }
}

/// The number that the octets of an address spell.
#[tactic(auto, unfolding(crate::specs::Keys::number_of))]
fn number_of(addr: Addr) -> u128
    ensures { result ≡ keys.number_of addr }
{
    match addr {
        Addr::V4(number) => number as u128,
        Addr::V6(number) => number,
    }
}

/// Whether it is an address of IPv6.
#[tactic(auto, unfolding(crate::specs::Keys::is_long))]
fn is_long(addr: Addr) -> bool
    ensures { result ≡ keys.is_long addr }
{
    match addr {
        Addr::V4(_) => false,
        Addr::V6(_) => true,
    }
}

/// The last 32 bits of a number.
#[tactic(auto, unfolding(crate::specs::Keys::last_bits))]
fn last_bits(number: u128) -> u64
    ensures value { result ≡ keys.last_bits number }
    ensures range { result < 2 ^ 32 }
{
    (number % 0x1_0000_0000) as u64
}

/// The key of two endpoints that stand in their order.
#[tactic(auto, unfolding(crate::specs::Keys::key_in))]
fn key_in(one: Endpoint, other: Endpoint) -> Key
    ensures { result ≡ keys.key_in (one, other) }
{
    let first = number_of(one.0);
    let second = number_of(other.0);
    Key {
        near: last_bits(first) * 0x1_0000_0000 + last_bits(second),
        first_port: one.1,
        second_port: other.1,
        first_long: is_long(one.0),
        second_long: is_long(other.0),
        first,
        second,
    }
}

/// The key of two endpoints with addresses of IPv4, whichever of them sends.
#[tactic(auto, unfolding(crate::specs::Keys::key_of, crate::specs::Pairs::pair_of))]
fn short_key_of(a: u32, a_port: u16, b: u32, b_port: u16) -> Key
    ensures { result ≡ keys.key_of (AddrValue.V4 a, a_port) (AddrValue.V4 b, b_port) }
{
    match a.cmp(&b).then(a_port.cmp(&b_port)) {
        Ordering::Less => key_in((Addr::V4(a), a_port), (Addr::V4(b), b_port)),
        Ordering::Equal => key_in((Addr::V4(a), a_port), (Addr::V4(b), b_port)),
        Ordering::Greater => key_in((Addr::V4(b), b_port), (Addr::V4(a), a_port)),
    }
}

/// What two endpoints are looked for by, whichever of them sends. Most have addresses of IPv4, for
/// which it takes less.
#[tactic(auto, unfolding(crate::specs::Keys::key_of))]
pub(crate) fn key_of(a: Endpoint, b: Endpoint) -> Key
    ensures { result ≡ keys.key_of a b }
{
    match (a.0, b.0) {
        (Addr::V4(number), Addr::V4(other)) => short_key_of(number, a.1, other, b.1),
        _ => {
            let (one, other) = pair_of(a, b);
            key_in(one, other)
        }
    }
}
