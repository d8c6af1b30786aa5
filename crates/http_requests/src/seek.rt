//! Looking for a head at the front of octets.
ghost use Rattle.std.specs.Prelude.{◌≡◌, ◌≢◌, ◌==◌, ◌<◌, Some, None, IfOk, IfErr, ◌≤◌, ◌+◌, length, map, take, All, codes, ◌||◌, nat_lt, ◌&&◌};
ghost use Rattle.httparse.specs.declared.spans.RequestSpans.{RequestSpans};
ghost use Rattle.http_requests.specs.declared.fault.RequestFault.{RequestFault};
ghost use Rattle.http_requests.specs.declared.shape.RequestShape.{RequestShape};
ghost use Rattle.std.specs.List.{before_first, position};
ghost use Rattle.httparse.specs.Grammar.{RequestHead};
ghost use Rattle.httparse.specs.Spans.{IsWithin, IsHeaderWithin, IsRequestWithin, IsRequestOf, span_bytes, header_bytes};
ghost use Rattle.http_requests.specs.Framing.{refusal_of};
ghost use Rattle.http_requests.specs.Framing as spec;
ghost use Rattle.http_requests.specs.Head.{HasNoHead, NeverHasHead};
ghost use Rattle.http_requests.specs.Shapes.{IsUnfinished, AreSpans, IsShape, HasHead, MayGetHead, EndsBroken};
ghost use Rattle.http_requests.specs.Fields.{lists_word, has_value};

use crate::fault::{FramingFault, MomentFrom, NO_HEAD, RequestFault, is_head};
use crate::fields::{has_value, lists_word};
use crate::framing::framing_of;
use crate::shape::RequestShape;
use httparse::spans::{EMPTY_HEADER_SPAN, HeaderSpan, RequestSpans, Span, parse_request};
use httparse::{Error, Status};

/// The most octets that a head may have.
const MOST_HEAD: usize = 8_192;

/// The most fields that a head may have.
const MOST_FIELDS: usize = 64;

/// What stands at the front of octets.
#[derive(Clone, Copy)]
pub enum HeadStep {
    /// A head of this shape, which isn't refused.
    Found(RequestShape),
    /// No head, and the octets aren't refused yet.
    Wait,
    /// Whatever follows, the connection ends here with this fault.
    Broken(RequestFault),
}

/// What the parser makes of octets.
enum Parsed {
    Head(RequestSpans),
    Partial,
    Never,
}

/// Parses a head at the front of the octets.
fn parse(front: &[u8], headers: &mut [HeaderSpan]) -> Parsed
    requires room { length headers.old ≡ 64 }
    requires size { length front.now ≤ 8192 }
    ensures within { (r : RequestSpans) → result ≡ Parsed.Head r → IsRequestWithin front.now headers.new r }
    ensures head { (r : RequestSpans) → result ≡ Parsed.Head r → IsRequestOf front.now headers.new r }
    ensures partial { result ≡ Parsed.Partial → HasNoHead front.now }
    ensures unfinished { result ≡ Parsed.Partial → IsUnfinished front.now }
    ensures never { result ≡ Parsed.Never → NeverHasHead front.now }
{
    match parse_request(front, headers) {
        Ok(Status::Complete(head)) => Parsed::Head(head),
        Ok(Status::Partial) => Parsed::Partial,
        Err(Error::TooManyHeaders) => Parsed::Partial,
        Err(_) => Parsed::Never,
    }
}

/// The first octets, at most as many as a head may have.
#[tactic(auto, using(std::proofs::lemmas::List::take_min))]
fn front_of(octets: &[u8]) -> &[u8]
    ensures front { result.now ≡ take 8192 octets.now }
    ensures size { length result.now ≤ 8192 }
{
    octets.split_at(MOST_HEAD.min(octets.len())).0
}

/// The offset of the first `?`.
fn first_question(target: &[u8]) -> Option<usize>
    ensures { result ≡ position (λ c. c == 63) target.now }
{
    target.iter().position(|octet| *octet == b'?')
}

/// The length of the target up to its first `?`.
#[tactic(auto, using(mud_base::proofs::Positions::before_first_found, crate::proofs::Fronts::before_first_none))]
fn path_len(target: &[u8]) -> usize
    ensures value { take result target.now ≡ before_first (λ c. c == 63) target.now }
    ensures within { result ≤ length target.now }
{
    match first_question(target) {
        Some(offset) => offset,
        None => target.len(),
    }
}

/// Where the target up to its first `?` stands.
#[tactic(auto, using(crate::proofs::Fronts::span_front))]
fn path_span(octets: &[u8], target: Span) -> Span
    requires { IsWithin (length octets.now) target }
    ensures value { span_bytes octets.now result ≡ before_first (λ c. c == 63) (span_bytes octets.now target) }
    ensures ordered { result.start ≤ result.end }
    ensures end { result.end ≤ target.end }
{
    let start = target.start;
    let end = start + path_len(target.of(octets));
    Span { start, end }
}

/// Whether the connection ends after a request of this version and these fields.
fn closes_by(minor: u8, octets: &[u8], fields: &[HeaderSpan]) -> bool
    requires { All (IsHeaderWithin (length octets.now)) fields.now }
    ensures { result ≡ minor == 0 || lists_word (codes "connection") (codes "close") (map (header_bytes octets.now) fields.now) }
{
    minor == 0 || lists_word(octets, b"connection", b"close", fields)
}

/// Whether the client waits for leave to send a body of this length.
fn awaits_by(minor: u8, body_len: usize, octets: &[u8], fields: &[HeaderSpan]) -> bool
    requires { All (IsHeaderWithin (length octets.now)) fields.now }
    ensures { result ≡ minor == 1 && nat_lt 0 body_len && has_value (codes "expect") (codes "100-continue") (map (header_bytes octets.now) fields.now) }
{
    minor == 1 && body_len > 0 && has_value(octets, b"expect", b"100-continue", fields)
}

/// The shape of the head with these spans, or why it is refused.
fn shape_of(
    octets: &[u8],
    fields: &[HeaderSpan],
    spans: RequestSpans,
    from: MomentFrom,
) -> Result<RequestShape, FramingFault>
    requires size { length octets.now ≤ 8192 }
    requires len { spans.len ≤ length octets.now }
    requires method { IsWithin spans.len spans.method }
    requires path { IsWithin spans.len spans.path }
    requires fields { All (IsHeaderWithin (length octets.now)) fields.now }
    ensures ok { IfOk result (λ shape. (head : RequestHead) → AreSpans octets.now fields.now spans head
        → (refusal_of from head ≡ None) × IsShape from shape head) }
    ensures err { IfErr result (λ fault.
        spec.first_reason (spec.reasons from (span_bytes octets.now spans.method) (map (header_bytes octets.now) fields.now)) ≡ Some fault) }
{
    let framing = framing_of(octets, spans.method.of(octets), fields, from)?;
    Ok(RequestShape {
        method: spans.method,
        path: path_span(octets, spans.path),
        head_len: spans.len,
        body_len: framing.body_len,
        closes: closes_by(spans.version, octets, fields),
        moment: framing.moment,
        awaits_leave: awaits_by(spans.version, framing.body_len, octets, fields),
        is_head: is_head(spans.method.of(octets)),
    })
}

/// What a head with these spans, at the front of the octets, is for the connection.
fn step_of(octets: &[u8], fields: &[HeaderSpan], spans: RequestSpans, from: MomentFrom) -> HeadStep
    requires size { length octets.now ≤ 8192 }
    requires len { spans.len ≤ length octets.now }
    requires method { IsWithin spans.len spans.method }
    requires path { IsWithin spans.len spans.path }
    requires fields { All (IsHeaderWithin (length octets.now)) fields.now }
    ensures found { (shape : RequestShape) → result ≡ HeadStep.Found shape
        → (head : RequestHead) → AreSpans octets.now fields.now spans head
        → (refusal_of from head ≡ None) × IsShape from shape head }
    ensures broken { (fault : RequestFault) → result ≡ HeadStep.Broken fault
        → (head : RequestHead) → AreSpans octets.now fields.now spans head
        → (refusal_of from head ≡ Some fault.framing) × (fault.is_head ≡ spec.is_head head.method) }
    ensures settled { result ≢ HeadStep.Wait }
{
    match shape_of(octets, fields, spans, from) {
        Ok(shape) => HeadStep::Found(shape),
        Err(framing) => HeadStep::Broken(RequestFault {
            framing,
            is_head: is_head(spans.method.of(octets)),
        }),
    }
}

/// What stands at the front of the octets of a connection.
pub(crate) fn look(octets: &[u8], from: MomentFrom) -> HeadStep
    ensures found { (shape : RequestShape) → result ≡ HeadStep.Found shape → HasHead from octets.now shape }
    ensures wait { result ≡ HeadStep.Wait → MayGetHead octets.now }
    ensures broken { (fault : RequestFault) → result ≡ HeadStep.Broken fault → EndsBroken from octets.now fault }
{
    if octets.is_empty() {
        return HeadStep::Wait;
    }
    let front = front_of(octets);
    let mut headers = [EMPTY_HEADER_SPAN; MOST_FIELDS];
    match parse(front, &mut headers) {
        Parsed::Head(spans) => {
            let (fields, _) = headers.split_at(spans.headers);
            step_of(front, fields, spans, from)
        }
        Parsed::Partial => {
            if front.len() < MOST_HEAD {
                HeadStep::Wait
            } else {
                HeadStep::Broken(NO_HEAD)
            }
        }
        Parsed::Never => HeadStep::Broken(NO_HEAD),
    }
}
