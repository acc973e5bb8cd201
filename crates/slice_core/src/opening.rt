//! How many lanes and workers there may be.
ghost use Rattle.std.specs.Prelude.{IfSome, IfNone};
ghost use Rattle.slice_core.specs.Opening.{IsAllowed, Refuses};

use thiserror::Error;

/// The most workers that a yard has.
pub const MOST_WORKERS: usize = 16;

/// Why a yard was not opened.
#[derive(Clone, Copy, Debug, PartialEq, Eq, Error)]
pub enum OpenCause {
    /// It would have no lane.
    #[error("no lane")]
    NoLane,
    /// It would have more lanes than workers, or more than 16 workers.
    #[error("too many lanes")]
    TooManyLanes,
    #[error("out of memory")]
    OutOfMemory,
}

/// Why so many lanes for so many workers are refused, unless memory runs out.
pub fn refusal(lanes: usize, workers: usize) -> Option<OpenCause>
    ensures some { IfSome result (Refuses lanes workers) }
    ensures none { IfNone result (IsAllowed lanes workers) }
{
    if lanes == 0 {
        return Some(OpenCause::NoLane);
    }
    if lanes > workers || workers > MOST_WORKERS {
        return Some(OpenCause::TooManyLanes);
    }
    None
}
