//! The plain error of refused memory.
ghost use Rattle.std.specs.Prelude.{◌≡◌};
ghost use Rattle.scm_sequences.specs.declared.refusal.Refusal.TheVariants.{NoMemory as RefusedMemory};

use crate::Refusal;
use std::alloc::{AllocError, AllocFailed};

/// Memory was refused.
#[derive(Clone, Copy, Debug, PartialEq, Eq)]
pub struct NoMemory;

impl From<AllocError> for NoMemory {
    fn from(_error: AllocError) -> NoMemory {
        NoMemory
    }
}

impl<T: Drop> From<AllocFailed<T>> for NoMemory {
    fn from(_error: AllocFailed<T>) -> NoMemory {
        NoMemory
    }
}

impl From<NoMemory> for Refusal {
    ghost from_gives = { λ _ refusal. refusal ≡ RefusedMemory };

    fn from(_error: NoMemory) -> Refusal {
        Refusal::NoMemory
    }
}
