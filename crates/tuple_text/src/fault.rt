//! Why a text is refused.

ghost use Rattle.std.specs.Prelude.{◌≡◌};
ghost use Rattle.tuple_text.specs.declared.fault.TupleFault.TheVariants.{OutOfMemory};

use std::alloc::AllocError;
use thiserror::Error;

/// The leftmost part that fails, and the byte of the text at which that part begins, from 0.
#[derive(Clone, Copy, Debug, PartialEq, Eq, Error)]
pub enum TupleFault {
    #[error("bad text, namespace at {at}")]
    Namespace { at: usize },
    #[error("bad text, object id at {at}")]
    ObjectId { at: usize },
    #[error("bad text, relation at {at}")]
    Relation { at: usize },
    /// A fault anywhere in a userset that stands as a user begins where the user begins.
    #[error("bad text, user at {at}")]
    User { at: usize },
    #[error("out of memory")]
    OutOfMemory,
}

impl From<AllocError> for TupleFault {
    ghost from_gives = { λ _ fault. fault ≡ OutOfMemory };

    fn from(_: AllocError) -> TupleFault {
        TupleFault::OutOfMemory
    }
}
