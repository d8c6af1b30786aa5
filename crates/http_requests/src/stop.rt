//! Whether a connection ends after a request.
ghost use Rattle.std.specs.Prelude.{◌≡◌};
ghost use Rattle.http_requests.specs.Framing as spec;
ghost use Rattle.http_requests.specs.Requests.{Request, closed, spent, stop_after};

/// How many requests are answered on one connection.
pub const MOST_REQUESTS: u32 = 1_000_000;

/// Why a connection ends after a request.
#[derive(Clone, Copy)]
pub enum Stop {
    /// The request closes it.
    Closed,
    /// It was the last one that is answered on one connection.
    Spent,
}

/// Whether the connection ends after a request, where so many more are answered with it, and why.
#[tactic(auto, unfolding(crate::specs::Requests::stop_after))]
pub fn stop_of(more: u32, closes: bool) -> Option<Stop>
    ensures goes_on { result ≡ None → (request : Request) → closes ≡ spec.closes request.head
        → stop_after more request ≡ None }
    ensures closed { result ≡ Some Stop.Closed → (request : Request) → closes ≡ spec.closes request.head
        → stop_after more request ≡ Some closed }
    ensures spent { result ≡ Some Stop.Spent → (request : Request) → closes ≡ spec.closes request.head
        → stop_after more request ≡ Some spent }
{
    if more == 1 {
        Some(Stop::Spent)
    } else if closes {
        Some(Stop::Closed)
    } else {
        None
    }
}
