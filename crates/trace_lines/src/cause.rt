//! Why a trace is refused.

ghost use Rattle.std.specs.Prelude.{◌≡◌};
ghost use Rattle.trace_lines.specs.EdgeCauses.{edge_cause};
ghost use Rattle.trace_lines.specs.declared.cause.Cause.TheVariants.{OutOfMemory};

use edge_checks::EdgeFault;
use json_lines::{InputFault, LineCause};
use namespaces::RulesFault;
use std::alloc::{AllocError, AllocFailed};
use strata::Edge;
use thiserror::Error;
use tuple_text::TupleFault;
use version_chains::AppendFault;
use zookie::ZookieFault;

/// Why a line is refused. Of the causes that apply to a line the first one here is answered.
#[derive(Clone, Copy, Debug, PartialEq, Eq, Error)]
pub enum Cause {
    /// The reader failed.
    #[error("read fault")]
    Read,
    /// A line has more than 2^20 bytes, or the input more than 2^30.
    #[error("too long")]
    TooLong,
    /// The line is no text of JSON.
    #[error("not JSON")]
    NotJson,
    /// The line is no object, or its `kind` is none of those that a trace has.
    #[error("unknown kind")]
    Kind,
    /// A key is missing, or its value is of another shape.
    #[error("wrong shape")]
    Shape,
    /// A tuple or a goal is no such text.
    #[error("{0}")]
    Text(TupleFault),
    #[error("{0}")]
    Token(ZookieFault),
    #[error("bad namespace, {0}")]
    Namespace(RulesFault),
    /// A namespace stands after other lines.
    #[error("namespace after other lines")]
    Late,
    /// A tuple or a goal has a relation that no earlier line declares.
    #[error("undeclared relation")]
    Unknown,
    /// A rule or a tuple breaks the strata.
    #[error("{0}")]
    Strata(Edge),
    #[error("{0}")]
    Commit(AppendFault),
    /// An object's version was issued before.
    #[error("repeated version")]
    RepeatedVersion,
    #[error("out of memory")]
    OutOfMemory,
}

impl From<AllocError> for Cause {
    ghost from_gives = { λ _ e. e ≡ OutOfMemory };

    fn from(_: AllocError) -> Cause {
        Cause::OutOfMemory
    }
}

impl From<EdgeFault> for Cause {
    ghost from_gives = { λ fault cause. cause ≡ edge_cause fault };

    fn from(fault: EdgeFault) -> Cause {
        match fault {
            EdgeFault::Broken(edge) => Cause::Strata(edge),
            EdgeFault::OutOfMemory => Cause::OutOfMemory,
        }
    }
}

impl<T: Drop> From<AllocFailed<T>> for Cause {
    ghost from_gives = { λ _ e. e ≡ OutOfMemory };

    fn from(_: AllocFailed<T>) -> Cause {
        Cause::OutOfMemory
    }
}

impl LineCause for Cause {
    ghost use Rattle.trace_lines.specs.Causes.{of_input, is_memory};
    ghost use Rattle.trace_lines.specs.declared.cause.Cause.TheVariants as causes;

    ghost of_input = { of_input };

    ghost not_json = { causes.NotJson };

    ghost is_memory = { is_memory };

    fn of_input(fault: InputFault) -> Cause {
        match fault {
            InputFault::Read => Cause::Read,
            InputFault::TooLong => Cause::TooLong,
            InputFault::OutOfMemory => Cause::OutOfMemory,
        }
    }

    fn not_json() -> Cause {
        Cause::NotJson
    }

    fn is_memory(&self) -> bool {
        matches!(self, Cause::OutOfMemory)
    }
}

/// The first line of a trace that is refused, from 1, and why.
#[derive(Clone, Copy, Debug, PartialEq, Eq, Error)]
#[error("trace line {line}: {cause}")]
pub struct TraceFault {
    pub line: u64,
    pub cause: Cause,
}
