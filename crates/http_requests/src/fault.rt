//! The faults that end a connection, and where moments come from.
ghost use Rattle.std.specs.Prelude.{◌≡◌};
ghost use Rattle.http_requests.specs.Framing as spec;

/// Why no whole request stands where one should begin. Each ends its connection.
#[derive(Clone, Copy)]
pub enum FramingFault {
    /// No head stands there, or one of more than 64 fields or 8,192 octets.
    Head,
    /// The body is sent in a transfer coding (RFC 9112, 6.1), which isn't read.
    Coding,
    /// More than one `Content-Length`, or one that isn't 1 to 10 digits.
    Length,
    /// A body of more than 524,288 octets.
    Long,
    /// No `Content-Length`, and a method other than GET and HEAD.
    NoLength,
    /// Moments come from headers, and there isn't exactly one `Mud-Moment` with a moment.
    Moment,
    /// The octets end inside the body.
    Cut,
}

/// The fault of a request, and what its answer has to know of the request's method.
#[derive(Clone, Copy)]
pub struct RequestFault {
    /// Why no whole request stands there.
    pub framing: FramingFault,
    /// Whether a head could be read whose method is HEAD: the answer has then no content.
    pub is_head: bool,
}

/// The fault where no head can be read, and so no method.
pub(crate) const NO_HEAD: RequestFault = RequestFault {
    framing: FramingFault::Head,
    is_head: false,
};

/// Where the moments of requests come from.
#[derive(Clone, Copy)]
pub enum MomentFrom {
    /// From a clock. The requests give none.
    Clock,
    /// From each request's `Mud-Moment` header.
    Header,
}

/// Whether the method is HEAD, and an answer to it has no content (RFC 9110, 9.3.2).
#[tactic(auto, unfolding(crate::specs::Framing::is_head))]
pub fn is_head(method: &[u8]) -> bool
    ensures { result ≡ spec.is_head method.now }
{
    method == b"HEAD".as_slice()
}

impl FramingFault {
    /// The status of the answer to it (RFC 9110, section 15).
    pub fn status(self) -> u16
        ensures { result ≡ spec.status_of self }
    {
        match self {
            FramingFault::Coding => 501,
            FramingFault::Long => 413,
            FramingFault::NoLength => 411,
            FramingFault::Head | FramingFault::Length | FramingFault::Moment | FramingFault::Cut =>
                400,
        }
    }

    /// The name of the rule that it breaks, which the answer's body gives.
    pub fn rule(self) -> &'static str
        ensures { result.now ≡ spec.rule_of self }
    {
        match self {
            FramingFault::Head => "head",
            FramingFault::Coding => "coding",
            FramingFault::Length => "length",
            FramingFault::Long => "long",
            FramingFault::NoLength => "no-length",
            FramingFault::Moment => "moment",
            FramingFault::Cut => "cut",
        }
    }
}
