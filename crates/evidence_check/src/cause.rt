//! Why evidence is refused.

ghost use Rattle.std.specs.Prelude.{◌≡◌};
ghost use Rattle.evidence_check.specs.declared.cause.EvidenceCause.TheVariants.{OutOfMemory};

use json_lines::{InputFault, LineCause};
use std::alloc::{AllocError, AllocFailed};
use thiserror::Error;
use tuple_text::TupleFault;

/// Why a line is refused. Of the causes that apply to a line the first one here is answered.
#[derive(Clone, Copy, Debug, PartialEq, Eq, Error)]
pub enum EvidenceCause {
    /// The reader failed.
    #[error("read fault")]
    Read,
    /// A line has more than 2^20 bytes, or the input more than 2^30.
    #[error("too long")]
    TooLong,
    /// The line is no text of JSON.
    #[error("not JSON")]
    NotJson,
    /// A key is missing, or its value is of another shape.
    #[error("wrong shape")]
    Shape,
    /// A fact is no such text.
    #[error("{0}")]
    Text(TupleFault),
    /// A step has not exactly one of the keys that steps have.
    #[error("unknown step")]
    UnknownStep,
    /// No entry stands on the line that the record names.
    #[error("stray line")]
    StrayLine,
    /// An earlier record names the same line.
    #[error("repeated line")]
    RepeatedLine,
    /// A record has more than 100,000 facts.
    #[error("too many facts")]
    TooMany,
    #[error("out of memory")]
    OutOfMemory,
}

impl From<AllocError> for EvidenceCause {
    ghost from_gives = { λ _ e. e ≡ OutOfMemory };

    fn from(_: AllocError) -> EvidenceCause {
        EvidenceCause::OutOfMemory
    }
}

impl<T: Drop> From<AllocFailed<T>> for EvidenceCause {
    ghost from_gives = { λ _ e. e ≡ OutOfMemory };

    fn from(_: AllocFailed<T>) -> EvidenceCause {
        EvidenceCause::OutOfMemory
    }
}

impl LineCause for EvidenceCause {
    ghost use Rattle.evidence_check.specs.Causes.{of_input, is_memory};
    ghost use Rattle.evidence_check.specs.declared.cause.EvidenceCause.TheVariants as causes;

    ghost of_input = { of_input };

    ghost not_json = { causes.NotJson };

    ghost is_memory = { is_memory };

    fn of_input(fault: InputFault) -> EvidenceCause {
        match fault {
            InputFault::Read => EvidenceCause::Read,
            InputFault::TooLong => EvidenceCause::TooLong,
            InputFault::OutOfMemory => EvidenceCause::OutOfMemory,
        }
    }

    fn not_json() -> EvidenceCause {
        EvidenceCause::NotJson
    }

    fn is_memory(&self) -> bool {
        matches!(self, EvidenceCause::OutOfMemory)
    }
}

/// The first line of the evidence that is refused, from 1, and why.
#[derive(Clone, Copy, Debug, PartialEq, Eq, Error)]
#[error("evidence line {line}: {cause}")]
pub struct EvidenceFault {
    pub line: u64,
    pub cause: EvidenceCause,
}
