//! The answers of a message, one by one.
ghost use Rattle.std.specs.Prelude.{◌≡◌, ◌+◌, ◌≤◌, length, false, IfOk, IfSome, not, ◌==◌, ◌&&◌, ◌||◌};
ghost use Rattle.dns_snoop.specs.Records as spec;
ghost use Rattle.dns_snoop.specs.Records.{class_in, type_a, type_aaaa};
ghost use Rattle.dns_snoop.specs.Steps.{AreJumps};

use crate::fault::DnsFault;
use crate::name::read_name;
use mud_base::{ShortText, big_16, big_32};

/// The type of an IPv4 address (RFC 1035, section 3.2.2).
pub(crate) const A: u16 = 1;
/// The type of an alias (RFC 1035, section 3.2.2).
pub(crate) const CNAME: u16 = 5;
/// The type of an IPv6 address (RFC 3596, section 2.1).
pub(crate) const AAAA: u16 = 28;
/// The class of the Internet (RFC 1035, section 3.2.4).
pub(crate) const IN: u16 = 1;

/// How many octets the content of an IPv4 address has.
const A_LEN: usize = 4;
/// How many octets the content of an IPv6 address has.
const AAAA_LEN: usize = 16;

/// Where the class stands behind the owner (RFC 1035, section 4.1.3).
const CLASS_OFFSET: usize = 2;
/// Where the ttl stands behind the owner.
const TTL_OFFSET: usize = 4;
/// Where the length of the content stands behind the owner.
const LEN_OFFSET: usize = 8;
/// How many octets stand between the owner and the content.
const FIELDS_LEN: usize = 10;

/// An answer (RFC 1035, section 4.1.3): its owner, type, class and ttl, where its content stands,
/// and the name that this is where the type is that of an alias, else empty.
#[derive(Clone, Copy)]
pub struct Record {
    pub owner: ShortText,
    pub kind: u16,
    pub class: u16,
    pub ttl: u32,
    pub offset: usize,
    pub len: usize,
    pub alias: ShortText,
}

/// Whether an address doesn't have the octets that it should.
#[tactic(auto)]
fn is_amiss(kind: u16, class: u16, len: usize) -> bool
    ensures value { result ≡ class == class_in && ((kind == type_a && not (len == 4)) || (kind == type_aaaa && not (len == 16))) }
    ensures four { result ≡ false → kind ≡ type_a → class ≡ class_in → len ≡ 4 }
    ensures sixteen { result ≡ false → kind ≡ type_aaaa → class ≡ class_in → len ≡ 16 }
{
    if class != IN {
        return false;
    }
    if kind == A {
        return len != A_LEN;
    }
    if kind == AAAA {
        return len != AAAA_LEN;
    }
    false
}

/// The name that the content is, where the type is that of an alias, else the empty name. None
/// where the content isn't of its type's form.
#[tactic(auto, unfolding(crate::specs::Records::alias_in))]
fn alias_in(
    message: &[u8],
    jumps: &[u16],
    kind: u16,
    class: u16,
    offset: usize,
    len: usize,
) -> Option<ShortText>
    requires jumps { AreJumps message.now jumps.now }
    requires content { offset + len ≤ length message.now }
    ensures alias { result ≡ spec.alias_in message.now kind class offset len }
    ensures four { IfSome result (λ _. kind ≡ type_a → class ≡ class_in → len ≡ 4) }
    ensures sixteen { IfSome result (λ _. kind ≡ type_aaaa → class ≡ class_in → len ≡ 16) }
{
    if kind == CNAME {
        let Ok(name) = read_name(message, jumps, offset) else {
            return None;
        };
        if name.behind != offset + len {
            return None;
        }
        return Some(name.text);
    }
    if is_amiss(kind, class, len) {
        return None;
    }
    Some(ShortText::new())
}

/// The answer at an offset.
#[tactic(auto, unfolding(crate::specs::Records::record_at))]
pub(crate) fn read_record(message: &[u8], jumps: &[u16], offset: usize) -> Result<Record, DnsFault>
    requires jumps { AreJumps message.now jumps.now }
    requires start { offset ≤ length message.now }
    ensures read { result ≡ spec.record_at message.now offset }
    ensures within { IfOk result (λ r. r.offset + r.len ≤ length message.now) }
    ensures four { IfOk result (λ r. r.kind ≡ type_a → r.class ≡ class_in → r.len ≡ 4) }
    ensures sixteen { IfOk result (λ r. r.kind ≡ type_aaaa → r.class ≡ class_in → r.len ≡ 16) }
{
    let owner = read_name(message, jumps, offset)?;
    let at = owner.behind;
    if message.len() - at < FIELDS_LEN {
        return Err(DnsFault::Cut(offset));
    }
    let kind = big_16(message, at);
    let class = big_16(message, at + CLASS_OFFSET);
    let ttl = big_32(message, at + TTL_OFFSET);
    let len = usize::from(big_16(message, at + LEN_OFFSET));
    let content = at + FIELDS_LEN;
    if message.len() - content < len {
        return Err(DnsFault::Cut(offset));
    }
    let Some(alias) = alias_in(message, jumps, kind, class, content, len) else {
        return Err(DnsFault::Cut(offset));
    };
    Ok(Record {
        owner: owner.text,
        kind,
        class,
        ttl,
        offset: content,
        len,
        alias,
    })
}
