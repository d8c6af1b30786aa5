//! What answers requests.
ghost use Rattle.std.specs.Prelude.{◌≡◌, ◌++◌};
ghost use Rattle.http_requests.specs.declared.fault.MomentFrom.{MomentFrom};
ghost use Rattle.http_requests.specs.Parts.{AreParts};
ghost use Rattle.http_requests.specs.Requests.{Request};
ghost use Rattle.http_requests.specs.Asked.{CarriedOut, asked_by};

use crate::{RequestFault, RequestParts};

/// What answers the requests of connections, and keeps a state from request to request. It holds
/// one answer at a time, in two pieces: that to the last request or fault that it was given.
pub trait Service {
    ghost use Rattle.std.specs.Prelude.{ℕ, List};
    ghost use Rattle.http_requests.specs.declared.fault.RequestFault.{RequestFault};
    ghost use Rattle.http_requests.specs.Asked.{Asked};

    /// Whether it may be given requests.
    ghost ready: { Self → Type 0 };

    /// What it keeps from request to request.
    ghost State: { Type 0 };

    /// Whether this is what it keeps now.
    ghost keeps: { Self → State → Type 0 };

    /// Whether a request may be given this answer from a state, and what is kept behind it.
    ghost may: { State → Asked → List ℕ → State → Type 0 };

    /// The answer to a fault of the framing.
    ghost refusal: { RequestFault → List ℕ };

    /// The octets of the answer that it holds.
    ghost held: { Self → List ℕ };

    /// Carries a whole request out, once, and holds the answer to it. `is_last` says whether the
    /// connection ends after that answer.
    fn carry_out(&mut self, request: &RequestParts<'_>, is_last: bool)
        requires ready { ready self.old }
        ensures ready { ready self.new }
        ensures answer { (from : MomentFrom) (whole : Request) → AreParts from whole request.now
            → (s : State) → keeps self.old s
            → CarriedOut may (keeps self.new) s (asked_by from is_last whole) (held self.new) };

    /// Holds the answer to a fault of the framing. The state stays.
    fn refuse(&mut self, fault: RequestFault)
        requires ready { ready self.old }
        ensures ready { ready self.new }
        ensures answer { held self.new ≡ refusal fault }
        ensures state { (s : State) → keeps self.old s → keeps self.new s };

    /// The answer that it holds: its head, and behind it its body.
    fn answer(&self) -> (&[u8], &[u8])
        ensures { result.0.now ++ result.1.now ≡ held self.now };
}
