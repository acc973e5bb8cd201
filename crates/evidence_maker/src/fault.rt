//! Why no evidence is made.

ghost use Rattle.std.specs.Prelude.{◌≡◌};
ghost use Rattle.evidence_maker.specs.declared.fault.MakeFault.TheVariants.{OutOfMemory};

use goal_cone::ConeFault;
use std::alloc::{AllocError, AllocFailed};
use thiserror::Error;

/// Why no evidence is made.
#[derive(Clone, Copy, Debug, PartialEq, Eq, Error)]
pub enum MakeFault {
    /// The goal outgrows the bounds of the search, or the limit of facts.
    #[error("gave up")]
    GaveUp = 1,
    #[error("out of memory")]
    OutOfMemory = 2,
}

impl From<AllocError> for MakeFault {
    ghost from_gives = { λ _ fault. fault ≡ OutOfMemory };

    fn from(_: AllocError) -> MakeFault {
        MakeFault::OutOfMemory
    }
}

impl<T: Drop> From<AllocFailed<T>> for MakeFault {
    ghost from_gives = { λ _ fault. fault ≡ OutOfMemory };

    fn from(_: AllocFailed<T>) -> MakeFault {
        MakeFault::OutOfMemory
    }
}

impl From<ConeFault> for MakeFault {
    ghost use Rattle.goal_cone.specs.declared.fault.ConeFault.TheVariants.{Outgrown};
    ghost use Rattle.evidence_maker.specs.declared.fault.MakeFault.TheVariants.{GaveUp};

    ghost from_gives = { λ cause fault. fault ≡ GaveUp → cause ≡ Outgrown };

    fn from(fault: ConeFault) -> MakeFault {
        match fault {
            ConeFault::Outgrown => MakeFault::GaveUp,
            ConeFault::OutOfMemory => MakeFault::OutOfMemory,
        }
    }
}
