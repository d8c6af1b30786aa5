//! Where the parts of a request stand among octets.
ghost use Rattle.std.specs.Prelude.{◌≡◌, ◌+◌, ◌≤◌};
ghost use Rattle.httparse.specs.Spans.{IsWithin};

use httparse::spans::Span;
use mud_base::Moment;

/// Where the parts of a request stand, counted from the front of its head, and what its head says.
#[derive(Clone, Copy)]
pub struct RequestShape {
    /// Where the method stands.
    pub method: Span,
    /// Where the target stands, up to its first `?`.
    pub path: Span,
    /// How many octets the head has, at most 8,192.
    pub head_len: usize,
    /// How many octets of body follow it, at most 524,288.
    pub body_len: usize,
    /// Whether the connection ends after the request.
    pub closes: bool,
    /// The moment that the request gives, where moments come from headers.
    pub moment: Option<Moment>,
    /// Whether the client waits for leave to send the body (RFC 9110, 10.1.1).
    pub awaits_leave: bool,
    /// Whether the method is HEAD.
    pub is_head: bool,
    ghost method_within: { IsWithin head_len method },
    ghost path_within: { IsWithin head_len path },
    ghost head_most: { head_len ≤ 8192 },
    ghost body_most: { body_len ≤ 524288 },
}

impl RequestShape {
    /// How many octets the request has, head and body together.
    pub fn len(&self) -> usize
        ensures value { result ≡ self.now.head_len + self.now.body_len }
        ensures most { result ≤ 532480 }
    {
        self.head_len + self.body_len
    }
}
