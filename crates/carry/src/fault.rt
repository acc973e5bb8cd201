//! Why bytes are no carry.

ghost use Rattle.std.specs.Prelude.{◌≡◌};
ghost use Rattle.carry.specs.declared.fault.FieldFault.TheVariants.{OutOfMemory};

use std::alloc::{AllocError, AllocFailed};
use thiserror::Error;

/// Why bytes are no carry. Of the faults that apply, the first one here is answered.
#[derive(Clone, Copy, Debug, PartialEq, Eq, Error)]
pub enum CarryFault {
    /// The first line is not the one that names the format and its version.
    #[error("no carry that this program wrote, by its first line")]
    Foreign,
    /// The bytes end before a last line with a checksum.
    #[error("carry cut, its last line is no checksum")]
    Cut,
    /// The checksum is not that of what stands before it.
    #[error("carry changed, its checksum is another one")]
    Changed,
    /// The checksum is right, and from this byte on, counted from 0, no field is in form.
    #[error("no carry in form, at byte {at}")]
    Malformed { at: usize },
    #[error("out of memory")]
    OutOfMemory,
}

/// Why a field could not be read.
#[derive(Clone, Copy, Debug, PartialEq, Eq)]
pub(crate) enum FieldFault {
    OutOfMemory,
    /// It is not in form; so many bytes are left where it begins.
    Left(usize),
}

impl From<AllocError> for FieldFault {
    ghost from_gives = { λ _ fault. fault ≡ OutOfMemory };

    fn from(_: AllocError) -> FieldFault {
        FieldFault::OutOfMemory
    }
}

impl<T: Drop> From<AllocFailed<T>> for FieldFault {
    ghost from_gives = { λ _ fault. fault ≡ OutOfMemory };

    fn from(_: AllocFailed<T>) -> FieldFault {
        FieldFault::OutOfMemory
    }
}
