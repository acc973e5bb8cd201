//! Who judges the entries.

ghost use Rattle.std.specs.Prelude.{◌≡◌, ◌<◌, IfOk, Some, length, slice_get};
ghost use Rattle.trace_lines.specs.Values.{EntryValue};
ghost use Rattle.monitor.specs.Telling.{IsJudgedBy};

use evidence_check::Judged;
use std::alloc::AllocError;
use trace_lines::Trace;

/// It judges the entries of a trace by evidence that it makes or was given.
pub trait Judge {
    ghost use Rattle.std.specs.Prelude.{List, Option};
    ghost use Rattle.trace_lines.specs.Values.{EntryValue, TraceValue};
    ghost use Rattle.evidence_check.specs.Steps.{StepValue};

    // The trace whose entries it judges.
    ghost of: { Self → TraceValue };

    // What the steps for an entry may be.
    ghost allows: { TraceValue → EntryValue → Option (List StepValue) → Type 0 };

    /// How the evidence for entry `i` judges it. It is refused only where memory runs out.
    fn judge(&mut self, trace: &Trace, i: usize) -> Result<Judged, AllocError>
        requires trace { of self.old ≡ trace.now }
        requires entry { i < length trace.now.entries }
        ensures trace { of self.new ≡ of self.old }
        ensures judged { IfOk result (λ j. (e : EntryValue) → slice_get trace.now.entries i ≡ Some e
            → IsJudgedBy allows trace.now e j) };
}
