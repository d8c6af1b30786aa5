//! The rows of the answers: addresses, each with its seconds.
ghost use Rattle.std.specs.Prelude.{◌≡◌, ◌+◌, ◌≤◌, ◌≢◌, ◌⊎◌, IfSome, IsTrue, OnOk, ◌++◌, ◌∷◌, [], length, None, ◌==◌, if◌then◌else◌};
ghost use Rattle.dns_snoop.specs.Records as spec;
ghost use Rattle.dns_snoop.specs.Records.{records_from, class_in, type_a, type_aaaa};
ghost use Rattle.dns_snoop.specs.Rows.{Answered, collected, bound_with, row_if, alias_after, least_after};
ghost use Rattle.dns_snoop.specs.Steps.{AreJumps};
ghost use Rattle.mud_base.specs.declared.addr.Addr.TheVariants.{V6, V4};
ghost use Rattle.mud_base.specs.Numbers.{big_32, big_128};

use crate::answer::{A, CNAME, IN, Record, read_record};
use crate::fault::DnsFault;
use mud_base::{Addr, Listed, Memory, ShortText, big_32, big_128};
use std::alloc::Global;

/// The most seconds of a ttl, which has 31 bits (RFC 2181, section 8).
const MOST_TTL: u32 = 2_147_483_647;

/// Whether an answer has this owner, and the class of the Internet.
#[tactic(auto, unfolding(crate::specs::Records::is_owned))]
fn is_owned(answer: &Record, alias: &ShortText) -> bool
    ensures value { result ≡ spec.is_owned alias.now answer.now }
    ensures class { IsTrue result → answer.now.class ≡ class_in }
{
    if answer.class != IN {
        return false;
    }
    answer.owner.octets() == alias.octets()
}

/// Whether an answer is a link: it gives the alias before it another name.
#[tactic(auto, unfolding(crate::specs::Records::is_link))]
fn is_link(answer: &Record, alias: &ShortText) -> bool
    ensures { result ≡ spec.is_link alias.now answer.now }
{
    is_owned(answer, alias) && answer.kind == CNAME
}

/// The least of a ttl and those of the links before, if there are any.
fn bound_with(least: Option<u32>, ttl: u32) -> u32
    ensures { result ≡ bound_with least ttl }
{
    match least {
        None => ttl,
        Some(least) => least.min(ttl),
    }
}

/// The alias behind an answer.
fn alias_after(answer: &Record, alias: &ShortText) -> ShortText
    ensures { result ≡ alias_after alias.now answer.now }
{
    if is_link(answer, alias) {
        return answer.alias;
    }
    *alias
}

/// The least ttl of the links behind an answer.
fn least_after(answer: &Record, alias: &ShortText, least: Option<u32>) -> Option<u32>
    ensures { result ≡ least_after alias.now least answer.now }
{
    if is_link(answer, alias) {
        return Some(bound_with(least, answer.ttl));
    }
    least
}

/// The address of an answer: its content, which has 4 or 16 octets.
fn address_in(message: &[u8], answer: &Record) -> Addr
    requires four { answer.now.kind ≡ type_a → answer.now.offset + 4 ≤ length message.now }
    requires sixteen { answer.now.kind ≢ 1 → answer.now.offset + 16 ≤ length message.now }
    ensures { result ≡ if answer.now.kind == type_a then V4 (big_32 answer.now.offset message.now) else V6 (big_128 answer.now.offset message.now) }
{
    if answer.kind == A {
        return Addr::V4(big_32(message, answer.offset));
    }
    Addr::V6(big_128(message, answer.offset))
}

/// Whether an answer gives a row: it has this type and owner, and this bound is that of a row.
#[tactic(auto, unfolding(crate::specs::Records::gives_row))]
fn gives_row(answer: &Record, kind: u16, alias: &ShortText, bound: u32) -> bool
    ensures class { IsTrue result → answer.now.class ≡ class_in }
    ensures kind { IsTrue result → answer.now.kind ≡ kind }
    ensures value { result ≡ spec.gives_row kind alias.now bound answer.now }
{
    if answer.kind != kind || !is_owned(answer, alias) {
        return false;
    }
    1 <= bound && bound <= MOST_TTL
}

/// Adds the row of an answer, if it gives one to a question of this type.
fn add_row(
    rows: &mut Listed<(Addr, u32)>,
    message: &[u8],
    answer: &Record,
    asked: Option<u16>,
    alias: &ShortText,
    bound: u32,
) -> Result<(), Memory>
    requires kind { IfSome asked (λ kind. (kind ≡ type_a) ⊎ (kind ≡ type_aaaa)) }
    requires four { answer.now.kind ≡ type_a → answer.now.class ≡ class_in → answer.now.offset + 4 ≤ length message.now }
    requires sixteen { answer.now.kind ≡ type_aaaa → answer.now.class ≡ class_in → answer.now.offset + 16 ≤ length message.now }
    ensures { OnOk result (rows.new ≡ rows.old ++ row_if message.now asked alias.now bound answer.now) }
{
    let Some(kind) = asked else {
        return Ok(());
    };
    if !gives_row(answer, kind, alias, bound) {
        return Ok(());
    }
    rows.push((address_in(message, answer), bound))
}

/// Reads so many answers, and collects their rows where a type of address is asked for. The alias
/// before them is the name of the question.
pub(crate) fn read_rows(
    alloc: Global,
    message: &[u8],
    jumps: &[u16],
    count: u16,
    start: usize,
    asked: Option<u16>,
    name: ShortText,
) -> Result<Listed<(Addr, u32)>, DnsFault>
    requires jumps { AreJumps message.now jumps.now }
    requires start { start ≤ length message.now }
    requires kind { IfSome asked (λ kind. (kind ≡ type_a) ⊎ (kind ≡ type_aaaa)) }
    ensures { Answered result (collected message.now asked [] name None (records_from count message.now start)) }
{
    let mut rows = Listed::new(alloc);
    let mut alias = name;
    let mut least = None;
    let mut offset = start;
    let mut left = count;
    'answers: while left > 0 {
        let answer = read_record(message, jumps, offset)?;
        let bound = bound_with(least, answer.ttl);
        add_row(&mut rows, message, &answer, asked, &alias, bound)?;
        least = least_after(&answer, &alias, least);
        alias = alias_after(&answer, &alias);
        offset = answer.offset + answer.len;
        left -= 1;
    }
    Ok(rows)
}
