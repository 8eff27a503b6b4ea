//! Why a run of a script ends before its script does.
ghost use Rattle.std.specs.Prelude.{◌≡◌};
ghost use Rattle.scm_sessions.specs.declared.fault.RunFault.TheVariants.{ReadFailed, WriteFailed, NoMemory as RefusedMemory};

use crate::port::{ReadFault, WriteFault};
use scm_sequences::NoMemory;
use thiserror::Error;

/// Why a run ended before its script did.
#[derive(Clone, Copy, Debug, PartialEq, Eq, Error)]
pub enum RunFault {
    /// The reader failed, or the port's `MOST_READS` reads were used up.
    #[error("read failed")]
    ReadFailed,
    /// The writer failed, or took no byte.
    #[error("write failed")]
    WriteFailed,
    /// Memory was refused before any line was answered.
    #[error("no memory")]
    NoMemory,
}

impl From<ReadFault> for RunFault {
    ghost from_gives = { λ _ fault. fault ≡ ReadFailed };

    fn from(_fault: ReadFault) -> RunFault {
        RunFault::ReadFailed
    }
}

impl From<WriteFault> for RunFault {
    ghost from_gives = { λ _ fault. fault ≡ WriteFailed };

    fn from(_fault: WriteFault) -> RunFault {
        RunFault::WriteFailed
    }
}

impl From<NoMemory> for RunFault {
    ghost from_gives = { λ _ fault. fault ≡ RefusedMemory };

    fn from(_fault: NoMemory) -> RunFault {
        RunFault::NoMemory
    }
}
