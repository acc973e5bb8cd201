//! Why a commit is refused.

ghost use Rattle.std.specs.Prelude.{◌≡◌};
ghost use Rattle.version_chains.specs.declared.fault.AppendFault.TheVariants.{OutOfMemory};

use std::alloc::{AllocError, AllocFailed};
use thiserror::Error;

/// Why a commit is refused. Of the faults that apply the first in this order is answered, but running out of memory
/// may be answered in place of any.
#[derive(Clone, Copy, Debug, PartialEq, Eq, Error)]
pub enum AppendFault {
    /// The timestamp is at or below that of the last commit.
    #[error("commit not later than {last}")]
    NotLater { last: u64 },
    /// The place, from 0 in the adds followed by the removes, of the first tuple that stands earlier too.
    #[error("tuple touched twice, place {place}")]
    TouchedTwice { place: usize },
    /// The touches would exceed the limit.
    #[error("too many changes")]
    Full,
    #[error("out of memory")]
    OutOfMemory,
}

impl From<AllocError> for AppendFault {
    ghost from_gives = { λ _ fault. fault ≡ OutOfMemory };

    fn from(_: AllocError) -> AppendFault {
        AppendFault::OutOfMemory
    }
}

impl<T: Drop> From<AllocFailed<T>> for AppendFault {
    ghost from_gives = { λ _ fault. fault ≡ OutOfMemory };

    fn from(_: AllocFailed<T>) -> AppendFault {
        AppendFault::OutOfMemory
    }
}
