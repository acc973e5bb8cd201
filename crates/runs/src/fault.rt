//! Why a carry begins no log.

ghost use Rattle.std.specs.Prelude.{◌≡◌};
ghost use Rattle.runs.specs.declared.fault.BeginFault.TheVariants.{OutOfMemory};

use std::alloc::AllocError;
use thiserror::Error;
use trace_lines::Cause;

/// Why a carry begins no log. Items are counted from 0.
#[derive(Clone, Copy, Debug, PartialEq, Eq, Error)]
pub enum BeginFault {
    /// The item does not stand behind the line of the one before it, or stands behind all lines that the carry counts.
    #[error("carry out of order, at item {item}")]
    OutOfOrder { item: usize },
    /// What the item says does not fit what stands before it.
    #[error("carry refused at item {item}, {cause}")]
    Refused { item: usize, cause: Cause },
    #[error("out of memory")]
    OutOfMemory,
}

impl From<AllocError> for BeginFault {
    ghost from_gives = { λ _ fault. fault ≡ OutOfMemory };

    fn from(_: AllocError) -> BeginFault {
        BeginFault::OutOfMemory
    }
}
