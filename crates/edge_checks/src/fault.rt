//! Why tuples and rules do not go together.

ghost use Rattle.std.specs.Prelude.{◌≡◌};
ghost use Rattle.edge_checks.specs.declared.fault.EdgeFault.TheVariants.{OutOfMemory};

use std::alloc::AllocError;
use strata::Edge;
use thiserror::Error;

/// Why a tuple or a declaration is refused.
#[derive(Clone, Copy, Debug, PartialEq, Eq, Error)]
pub enum EdgeFault {
    /// The first edge that is broken.
    #[error("{0}")]
    Broken(Edge),
    #[error("out of memory")]
    OutOfMemory,
}

impl From<AllocError> for EdgeFault {
    ghost from_gives = { λ _ e. e ≡ OutOfMemory };

    fn from(_: AllocError) -> EdgeFault {
        EdgeFault::OutOfMemory
    }
}
