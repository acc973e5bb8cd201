//! A trace of the lines so far, to which more may come.

ghost use Rattle.std.specs.Prelude.{◌≡◌};
ghost use Rattle.userset_index.specs.Growth.{IsGrowing};

use crate::builder::TraceBuilder;
use crate::trace::Trace;
use crate::versions::Versions;
use edge_checks::{EdgeIndex, Sample};
use std::alloc::Global;
use std::marker::Model;
use userset_index::UsersetIndex;

/// The trace of the lines so far, with what it takes to read further ones, and an index of its usersets that grows with
/// it.
pub struct PausedTrace {
    pub(crate) alloc: Global,
    pub(crate) trace: Trace,
    // of the tuples ever added
    pub(crate) sample: Sample,
    // of the rules and the sample
    pub(crate) index: EdgeIndex,
    pub(crate) versions: Versions,
}

impl Model for PausedTrace {
    ghost use Rattle.trace_lines.specs.Values.{TraceValue};
    ghost use Rattle.trace_lines.specs.TraceCode.{trace_code};

    ghost Value = { TraceValue };

    ghost coded = { trace_code };

    ghost use Rattle.edge_checks.specs.Indexed.{IsIndex};
    ghost use Rattle.trace_lines.specs.Issued.{AreIssued};
    ghost use Rattle.trace_lines.specs.Tuples.{IsOrderly};

    ghost view = { λ t. t.trace };

    ghost invariant = { λ t. IsOrderly t.trace.declarations t.trace.commits t.sample
        × IsIndex t.trace.declarations t.index t.sample × AreIssued t.versions t.trace.entries };
}

// Written out, since one that is derived is a part of each function that lets such a trace go, with all its parts.
impl Drop for PausedTrace {
    fn drop(self) {
        let PausedTrace {
            alloc: _,
            trace,
            sample,
            index,
            versions,
        } = self;
        drop(trace);
        drop(sample);
        drop(index);
        drop(versions);
    }
}

impl PausedTrace {
    /// The trace.
    pub fn trace(&self) -> &Trace
        ensures { result.now ≡ self.now }
    {
        &self.trace
    }

    /// To read further lines, and the index, with which it may be paused again.
    pub fn resume(self) -> (TraceBuilder, UsersetIndex)
        ensures log { result.0 ≡ self }
        ensures usersets { IsGrowing self.declarations self.commits result.1 }
    {
        let PausedTrace {
            alloc,
            trace,
            sample,
            index,
            versions,
        } = self;
        let (rules, chains, commit_lines, recorded, usersets) = trace.into_parts();
        let log = TraceBuilder {
            alloc,
            rules,
            chains,
            sample,
            index,
            commit_lines,
            recorded,
            versions,
        };
        (log, usersets)
    }
}
