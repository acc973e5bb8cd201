//! Dependency edges.

use namespaces::RelNo;
use thiserror::Error;

/// One relation reads another. The edge is strict where the place that reads lies under a subtracted side.
#[derive(Clone, Copy, Debug, PartialEq, Eq, Error)]
#[error("strata, relation {} of namespace {} reads relation {} of namespace {}{}", .reader.relation, .reader.namespace, .premise.relation, .premise.namespace, self.manner(),)]
pub struct Edge {
    pub reader: RelNo,
    pub premise: RelNo,
    pub strict: bool,
}

impl Edge {
    fn manner(&self) -> &'static str {
        if self.strict { " strictly" } else { "" }
    }
}
