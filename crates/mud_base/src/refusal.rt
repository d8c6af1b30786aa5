//! Why something has no reading.
use crate::Memory;
use std::alloc::{AllocError, AllocFailed};

/// Why something has no reading, where `F` says which check fails.
#[derive(Drop)]
pub enum Refusal<F> {
    /// Memory was wanted and there was none.
    Memory,
    /// The first check that fails.
    Broken(F),
}

impl<F> From<Memory> for Refusal<F> {
    ghost use Rattle.std.specs.Prelude.{◌≡◌};
    ghost use Rattle.mud_base.specs.declared.refusal.Refusal.TheVariants.{Memory};

    ghost from_gives = { λ _ refusal. refusal ≡ Memory };

    fn from(_memory: Memory) -> Refusal<F> {
        Refusal::Memory
    }
}

impl<F> From<AllocError> for Refusal<F> {
    ghost use Rattle.std.specs.Prelude.{◌≡◌};
    ghost use Rattle.mud_base.specs.declared.refusal.Refusal.TheVariants.{Memory};

    ghost from_gives = { λ _ refusal. refusal ≡ Memory };

    fn from(_error: AllocError) -> Refusal<F> {
        Refusal::Memory
    }
}

impl<F, T: Drop> From<AllocFailed<T>> for Refusal<F> {
    ghost use Rattle.std.specs.Prelude.{◌≡◌};
    ghost use Rattle.mud_base.specs.declared.refusal.Refusal.TheVariants.{Memory};

    ghost from_gives = { λ _ refusal. refusal ≡ Memory };

    fn from(_error: AllocFailed<T>) -> Refusal<F> {
        Refusal::Memory
    }
}
