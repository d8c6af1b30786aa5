//! The parts of a whole request.
ghost use Rattle.std.specs.Prelude.{◌+◌, ◌≤◌, ℕ, List, length};
ghost use Rattle.http_requests.specs.declared.fault.MomentFrom.{MomentFrom};
ghost use Rattle.http_requests.specs.Parts.{AreParts};
ghost use Rattle.http_requests.specs.Requests.{Request, Begins};
ghost use Rattle.http_requests.specs.Shapes.{IsShape};

use crate::shape::RequestShape;
use mud_base::Moment;

/// A whole request, lent from the octets among which it stands.
#[derive(Clone, Copy)]
pub struct RequestParts<'a> {
    /// The method (RFC 9110, section 9).
    pub method: &'a [u8],
    /// The target up to its first `?`.
    pub path: &'a [u8],
    /// The body.
    pub body: &'a [u8],
    /// Whether the connection ends after the request.
    pub closes: bool,
    /// The moment that the request gives, where moments come from headers.
    pub moment: Option<Moment>,
}

/// The request of this shape at the front of the octets.
pub fn parts_of<'a>(shape: &RequestShape, octets: &'a [u8]) -> RequestParts<'a>
    requires { shape.now.head_len + shape.now.body_len ≤ length octets.now }
    ensures { (from : MomentFrom) (request : Request) (after : List ℕ) → Begins from octets.now request after
        → IsShape from shape.now request.head → AreParts from request result }
{
    let (head, behind) = octets.split_at(shape.head_len);
    let (body, _) = behind.split_at(shape.body_len);
    RequestParts {
        method: shape.method.of(head),
        path: shape.path.of(head),
        body,
        closes: shape.closes,
        moment: shape.moment,
    }
}
