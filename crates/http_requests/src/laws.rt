//! Laws of the requests of a connection. Each is the contract of a function that does nothing.
ghost use Rattle.std.specs.Prelude.{◌≡◌, ℕ, ◌-◌, List, [], ◌∷◌, ◌++◌, length, None};
ghost use Rattle.http_requests.specs.declared.fault.MomentFrom.{MomentFrom};
ghost use Rattle.http_requests.specs.Requests.{Request, Begins, Ending, AreRequests, GoOn, stop_after};

/// The octets of a connection are one list of requests, with one end.
#[tactic(auto, using(crate::proofs::Readings::reading_unique))]
pub fn one_reading()
    ensures { (from : MomentFrom) (most : ℕ) (octets : List ℕ) (a b : List Request) (e f : Ending)
        → AreRequests from most octets a e → AreRequests from most octets b f → (a ≡ b) × (e ≡ f) }
{}

/// Requests at the front of octets.
#[tactic(auto, using(crate::proofs::Runs::joined, crate::proofs::Runs::goes_append, crate::proofs::Runs::goes_on, crate::proofs::Runs::goes_count))]
pub fn requests_go_on()
    // Those of what comes after them are requests of the whole.
    ensures joined { (from : MomentFrom) (most : ℕ) (octets : List ℕ) (requests : List Request) (left : ℕ)
        (after : List ℕ) (more : List Request) (end : Ending)
        → GoOn from most octets requests left after → AreRequests from left after more end
        → AreRequests from most octets (requests ++ more) end }
    // They stay, whatever octets come later,
    ensures goes_append { (from : MomentFrom) (most : ℕ) (octets : List ℕ) (requests : List Request) (left : ℕ)
        (after later : List ℕ) → GoOn from most octets requests left after
        → GoOn from most (octets ++ later) requests left (after ++ later) }
    // and one more may be added to them.
    ensures goes_on { (from : MomentFrom) (most : ℕ) (octets : List ℕ) (requests : List Request) (left : ℕ)
        (mid : List ℕ) (r : Request) (after : List ℕ)
        → GoOn from most octets requests left mid → Begins from mid r after → stop_after left r ≡ None
        → GoOn from most octets (requests ++ r ∷ []) (left - 1) after }
    // So many fewer are answered behind them.
    ensures counted { (from : MomentFrom) (most : ℕ) (octets : List ℕ) (requests : List Request) (left : ℕ)
        (after : List ℕ) → GoOn from most octets requests left after → left ≡ most - length requests }
{}
