//! What a head says of the message.
ghost use Rattle.std.specs.Prelude.{◌≡◌, ◌≤◌, List, [], ◌∷◌, ℕ, Some, None, false, true, IfOk, IfErr, length, map, All};
ghost use Rattle.httparse.specs.Spans.{IsHeaderWithin, header_bytes};
ghost use Rattle.http_requests.specs.Framing as spec;
ghost use Rattle.http_requests.specs.Values.{AreValues, IsFraming, length_refusal};

use crate::fault::{FramingFault, MomentFrom, is_head};
use crate::fields::{Values, has_field, values_of};
use crate::lengths::length_number;
use httparse::spans::HeaderSpan;
use mud_base::{Moment, moment_of};

/// The most octets that a body may have.
const MOST_BODY: usize = 524_288;

/// What the fields of a head say of the body and the moment.
#[derive(Clone, Copy)]
pub(crate) struct Framing {
    /// How many octets the body has.
    pub(crate) body_len: usize,
    /// The moment that the request gives, where moments come from headers.
    pub(crate) moment: Option<Moment>,
}

/// Whether a request of the method may lack a length.
fn may_lack_length(method: &[u8]) -> bool
    ensures { result ≡ spec.may_lack_length method.now }
{
    method == b"GET".as_slice() || is_head(method)
}

/// The length that one `Content-Length` gives.
fn given_len(text: &[u8]) -> Result<usize, FramingFault>
    ensures ok { IfOk result (λ len. (method : List ℕ) → (len ≡ spec.length_by (text.now ∷ []))
        × (length_refusal method (text.now ∷ []) ≡ None)) }
    ensures within { IfOk result (λ len. len ≤ 524288) }
    ensures err { IfErr result (λ fault. (method : List ℕ) → length_refusal method (text.now ∷ []) ≡ Some fault) }
{
    match length_number(text) {
        Some(len) => {
            if len > MOST_BODY as u64 {
                Err(FramingFault::Long)
            } else {
                Ok(len as usize)
            }
        }
        None => Err(FramingFault::Length),
    }
}

/// The length of the body of a request of the method, where these are its `Content-Length` fields.
fn body_len(method: &[u8], lengths: Values<'_>) -> Result<usize, FramingFault>
    ensures ok { IfOk result (λ len. (list : List (List ℕ)) → AreValues list lengths.entry
        → (len ≡ spec.length_by list) × (length_refusal method.now list ≡ None)) }
    ensures within { IfOk result (λ len. len ≤ 524288) }
    ensures err { IfErr result (λ fault. (list : List (List ℕ)) → AreValues list lengths.entry
        → length_refusal method.now list ≡ Some fault) }
{
    match lengths {
        Values::Absent => {
            if may_lack_length(method) {
                Ok(0)
            } else {
                Err(FramingFault::NoLength)
            }
        }
        Values::One(text) => given_len(text),
        Values::Several => Err(FramingFault::Length),
    }
}

/// The moment that the fields give, where moments come from headers.
fn given_moment(
    octets: &[u8],
    fields: &[HeaderSpan],
    from: MomentFrom,
) -> Result<Option<Moment>, FramingFault>
    requires { All (IsHeaderWithin (length octets.now)) fields.now }
    ensures ok { let said = map (header_bytes octets.now) fields.now in
        IfOk result (λ moment. (moment ≡ spec.moment_by from said) × (spec.lacks_moment from said ≡ false)) }
    ensures err { let said = map (header_bytes octets.now) fields.now in
        IfErr result (λ fault. (fault ≡ FramingFault.Moment) × (spec.lacks_moment from said ≡ true)) }
{
    match from {
        MomentFrom::Clock => Ok(None),
        MomentFrom::Header => match values_of(octets, b"mud-moment", fields) {
            Values::One(text) => match moment_of(text) {
                Some(moment) => Ok(Some(moment)),
                None => Err(FramingFault::Moment),
            },
            Values::Absent => Err(FramingFault::Moment),
            Values::Several => Err(FramingFault::Moment),
        },
    }
}

/// What the fields of a head of the method say, or why the head is refused.
pub(crate) fn framing_of(
    octets: &[u8],
    method: &[u8],
    fields: &[HeaderSpan],
    from: MomentFrom,
) -> Result<Framing, FramingFault>
    requires { All (IsHeaderWithin (length octets.now)) fields.now }
    ensures within { IfOk result (λ framing. framing.body_len ≤ 524288) }
    ensures ok { IfOk result (IsFraming from method.now (map (header_bytes octets.now) fields.now)) }
    ensures err { IfErr result (λ fault.
        spec.first_reason (spec.reasons from method.now (map (header_bytes octets.now) fields.now)) ≡ Some fault) }
{
    if has_field(octets, b"transfer-encoding", fields) {
        return Err(FramingFault::Coding);
    }
    let body_len = body_len(method, values_of(octets, b"content-length", fields))?;
    let moment = given_moment(octets, fields, from)?;
    Ok(Framing { body_len, moment })
}
