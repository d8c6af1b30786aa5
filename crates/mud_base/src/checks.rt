//! Single checks, of callers whose faults take no memory.
ghost use Rattle.std.specs.Prelude.{◌≡◌, Ok, Err, ok_or, if◌then◌else◌};
ghost use Rattle.mud_base.specs.Readings.{Gives};
ghost use Rattle.mud_base.specs.Readings as spec;
ghost use Rattle.mud_base.specs.declared.refusal.Refusal.TheVariants.{Broken};

use crate::refusal::Refusal;

/// The value that has to be there; else this fault is the refusal.
#[tactic(auto, using(crate::proofs::Readings::answer_wanted, crate::proofs::Readings::answer_unwanted))]
pub fn wanted<F: Drop, A>(found: Option<A>, fault: F) -> Result<A, Refusal<F>>
    ensures is { result ≡ ok_or found (Broken fault) }
    ensures gives { (default : A) → Gives (λ a. a) result (spec.wanted default fault found) }
{
    match found {
        Some(value) => Ok(value),
        None => Err(Refusal::Broken(fault)),
    }
}

/// Refuses with this fault where it holds.
#[tactic(auto, using(crate::proofs::Readings::answer_passed, crate::proofs::Readings::answer_refused))]
pub fn refuse_where<F: Drop>(fails: bool, fault: F) -> Result<(), Refusal<F>>
    ensures is { result ≡ (if fails then Err (Broken fault) else Ok tt) }
    ensures gives { Gives (λ _. tt) result (spec.refused_where fails fault) }
{
    if fails {
        return Err(Refusal::Broken(fault));
    }
    Ok(())
}
