//! Why a namespace is refused.
ghost use Rattle.std.specs.Prelude.{◌≡◌};
ghost use Rattle.namespaces.specs.declared.fault.RulesFault.TheVariants.{OutOfMemory};

use std::alloc::{AllocError, AllocFailed};
use thiserror::Error;

/// Why a namespace is refused. Of the faults that apply to a value the first one here is answered, running out of
/// memory apart.
#[derive(Clone, Copy, Debug, PartialEq, Eq, Error)]
pub enum RulesFault {
    /// The value has not the shape of a namespace.
    #[error("shape")]
    Shape,
    /// A name is not one: 1 to 64 bytes, of which the first is `a-z` and the others `a-z`, `0-9` or `_`.
    #[error("name")]
    Name,
    /// The namespace is declared already.
    #[error("repeated namespace")]
    RepeatedNamespace,
    /// Two relations have one name.
    #[error("repeated relation")]
    RepeatedRelation,
    /// A rule reads a relation of its own namespace that the value lacks.
    #[error("undeclared relation")]
    UndeclaredRelation,
    /// A rule nests deeper than 32 levels.
    #[error("too deep")]
    TooDeep,
    /// A count is outside its limit.
    #[error("too many")]
    TooMany,
    /// Memory was refused.
    #[error("out of memory")]
    OutOfMemory,
    /// The first relations are not those declared already, in their order.
    #[error("relations changed")]
    RelationsChanged,
    /// A relation has another stratum than before.
    #[error("stratum changed")]
    StratumChanged,
}

impl From<AllocError> for RulesFault {
    ghost from_gives = { λ _ e. e ≡ OutOfMemory };

    fn from(_e: AllocError) -> RulesFault {
        RulesFault::OutOfMemory
    }
}

impl<T: Drop> From<AllocFailed<T>> for RulesFault {
    ghost from_gives = { λ _ e. e ≡ OutOfMemory };

    fn from(_e: AllocFailed<T>) -> RulesFault {
        RulesFault::OutOfMemory
    }
}
