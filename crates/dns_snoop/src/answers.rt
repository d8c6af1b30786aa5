//! What a DNS message answers.
ghost use Rattle.std.specs.Prelude.{◌≡◌, ◌≤◌, length, drop, IfOk, IfSome, ◌⊎◌};
ghost use Rattle.std.specs.List.{All};
ghost use Rattle.dns_snoop.specs.Messages as spec;
ghost use Rattle.dns_snoop.specs.Observed.{IsObservable};
ghost use Rattle.dns_snoop.specs.Records.{type_a, type_aaaa};
ghost use Rattle.dns_snoop.specs.Rows.{Answered};
ghost use Rattle.dns_snoop.specs.Steps.{AreJumps};

use crate::answer::{A, AAAA, IN};
use crate::fault::DnsFault;
use crate::jumps::read_jumps;
use crate::name::read_name;
use crate::rows::read_rows;
use mud_base::{Addr, Bytes, Listed, ShortText, big_16};
use mud_url::host::is_host;
use std::alloc::Global;

/// How many octets the header has (RFC 1035, section 4.1.1).
const HEADER_LEN: usize = 12;
/// Where the flags QR, OPCODE and TC stand in the header.
const QUERY_FLAGS_OFFSET: usize = 2;
/// Where RCODE stands in the header.
const RCODE_OFFSET: usize = 3;
/// Where the number of questions stands in the header.
const QUESTIONS_OFFSET: usize = 4;
/// Where the number of answers stands in the header.
const ANSWERS_OFFSET: usize = 6;

/// The bits QR, OPCODE and TC of their octet.
const QUERY_FLAGS: u8 = 0xFA;
/// Of these bits those that a whole answer to a standard query has set: QR.
const WHOLE_ANSWER: u8 = 0x80;
/// The bits of RCODE in its octet.
const RCODE: u8 = 0x0F;

/// How many octets the type and class of a question have (RFC 1035, section 4.1.2).
const QUESTION_FIELDS_LEN: usize = 4;

/// The name that was asked for, in lower case and with dots between its labels, and the addresses
/// that were answered for it, each with the number of seconds for which it may be taken for that
/// name.
#[derive(Drop)]
pub struct Answers {
    pub name: Bytes,
    pub rows: Listed<(Addr, u32)>,
}

/// The question: its name, type and class, and the offset behind it.
#[derive(Clone, Copy)]
pub struct Question {
    pub name: ShortText,
    pub kind: u16,
    pub class: u16,
    pub behind: usize,
}

/// Whether a header is that of a whole answer without an error to one question.
#[tactic(auto, unfolding(crate::specs::Messages::is_answer))]
fn is_answer(payload: &[u8]) -> bool
    requires { 12 ≤ length payload.now }
    ensures { result ≡ spec.is_answer payload.now }
{
    payload[QUERY_FLAGS_OFFSET] & QUERY_FLAGS == WHOLE_ANSWER
        && payload[RCODE_OFFSET] & RCODE == 0
        && big_16(payload, QUESTIONS_OFFSET) == 1
}

/// The question of a message.
#[tactic(auto, unfolding(crate::specs::Messages::question_of))]
fn read_question(payload: &[u8], jumps: &[u16]) -> Result<Question, DnsFault>
    requires jumps { AreJumps payload.now jumps.now }
    requires header { 12 ≤ length payload.now }
    ensures read { result ≡ spec.question_of payload.now }
    ensures within { IfOk result (λ q. q.behind ≤ length payload.now) }
    ensures short { IfOk result (λ q. length q.name ≤ 254) }
{
    let name = read_name(payload, jumps, HEADER_LEN)?;
    if payload.len() - name.behind < QUESTION_FIELDS_LEN {
        return Err(DnsFault::Cut(HEADER_LEN));
    }
    Ok(Question {
        name: name.text,
        kind: big_16(payload, name.behind),
        class: big_16(payload, name.behind + 2),
        behind: name.behind + QUESTION_FIELDS_LEN,
    })
}

/// The labels of a name, each behind a dot.
fn dots_of(name: &ShortText) -> ShortText
    requires { length name.now ≤ 254 }
    ensures { result ≡ spec.dots_from 0 name.now }
{
    let mut text = ShortText::new();
    let mut skipped = 0;
    'octets: for octet in name.octets() {
        if skipped == 0 {
            text.push(b'.');
            skipped = *octet;
        } else {
            text.push(*octet);
            skipped -= 1;
        }
    }
    text
}

/// The octets behind the first one.
fn behind_first(text: &ShortText) -> &[u8]
    ensures { result.now ≡ drop 1 text.now }
{
    match text.octets().split_first() {
        Some((_, behind)) => behind,
        None => &[],
    }
}

/// The type of the question, where its class is that of the Internet, its type that of an address,
/// and its name a host name.
#[tactic(auto, unfolding(crate::specs::Messages::asked_by))]
fn asked_by(question: &Question, name: &[u8]) -> Option<u16>
    ensures value { result ≡ spec.asked_by question.now name.now }
    ensures kind { IfSome result (λ kind. (kind ≡ type_a) ⊎ (kind ≡ type_aaaa)) }
{
    if question.class != IN || !is_host(name) {
        return None;
    }
    if question.kind == A {
        return Some(A);
    }
    if question.kind == AAAA {
        return Some(AAAA);
    }
    None
}

/// The addresses that a DNS message, the payload of a UDP datagram, answers for the name that it
/// was asked for (RFC 1035). A fault is the first of these: `Cut(0)` where there are fewer than 12
/// octets; `NotAnswer`; then those of the question, and of each answer in turn. All answers are
/// read, also where none of them can give a row; authorities and additions aren't.
///
/// Each row is one that a table of names may be asked to keep: its seconds are those of the answer,
/// or of an alias on the way to it where these are fewer.
///
/// It takes memory for the name and for the rows, and, where the message has more than the 1,472
/// octets of one frame of Ethernet, two octets for each of its first 16,384. There are no more rows
/// than answers, and an answer that gives one has 15 octets at least.
#[tactic(auto, unfolding(crate::specs::Messages::answers_of))]
pub fn read_answers(alloc: Global, payload: &[u8]) -> Result<Answers, DnsFault>
    ensures read { Answered result (spec.answers_of payload.now) }
    ensures asked { IfOk result (λ answers. All (IsObservable answers.name) answers.rows) }
{
    if payload.len() < HEADER_LEN {
        return Err(DnsFault::Cut(0));
    }
    if !is_answer(payload) {
        return Err(DnsFault::NotAnswer);
    }
    let jumps = read_jumps(alloc, payload)?;
    let jumps = jumps.as_slice();
    let question = read_question(payload, jumps)?;
    let dots = dots_of(&question.name);
    let name = behind_first(&dots);
    let asked = asked_by(&question, name);
    let count = big_16(payload, ANSWERS_OFFSET);
    let rows = read_rows(
        alloc,
        payload,
        jumps,
        count,
        question.behind,
        asked,
        question.name,
    )?;
    let name = Bytes::new(alloc, name)?;
    Ok(Answers { name, rows })
}
