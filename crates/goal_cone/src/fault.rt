//! Why no cone is found.

ghost use Rattle.std.specs.Prelude.{◌≡◌};
ghost use Rattle.goal_cone.specs.declared.fault.ConeFault.TheVariants.{OutOfMemory};

use std::alloc::{AllocError, AllocFailed};
use thiserror::Error;

/// Why no cone is found.
#[derive(Clone, Copy, Debug, PartialEq, Eq, Error)]
pub enum ConeFault {
    /// Each list that holds the goal and its own premises passes a bound.
    #[error("outgrown")]
    Outgrown,
    #[error("out of memory")]
    OutOfMemory,
}

impl From<AllocError> for ConeFault {
    ghost from_gives = { λ _ fault. fault ≡ OutOfMemory };

    fn from(_: AllocError) -> ConeFault {
        ConeFault::OutOfMemory
    }
}

impl<T: Drop> From<AllocFailed<T>> for ConeFault {
    ghost from_gives = { λ _ fault. fault ≡ OutOfMemory };

    fn from(_: AllocFailed<T>) -> ConeFault {
        ConeFault::OutOfMemory
    }
}
