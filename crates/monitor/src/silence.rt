//! A monitor that stands behind all lines of a trace, of which nothing is told.

ghost use Rattle.std.specs.Prelude.{IfOk};
ghost use Rattle.monitor.specs.Standing.{IsAtEnd, Stands};

use crate::judge::Judge;
use crate::monitor::Monitor;
use crate::whole::tell_further;
use evidence_check::Judged;
use std::alloc::{AllocError, Global};
use trace_lines::Trace;

/// It judges the entries of a trace without evidence.
#[derive(Drop)]
struct WithoutEvidence<'t> {
    trace: &'t Trace,
}

impl<'t> Judge for WithoutEvidence<'t> {
    ghost use Rattle.std.specs.Prelude.{◌≡◌, None};

    ghost of = { λ j. j.trace.now };

    ghost allows = { λ t e steps. steps ≡ None };

    fn judge(&mut self, _trace: &Trace, _i: usize) -> Result<Judged, AllocError> {
        Ok(Judged::Missing)
    }
}

/// A monitor that took all lines of a trace, of which nothing is told: what was told of them stands elsewhere, and the
/// monitor tells of the lines that come behind them. It is refused only where memory runs out.
pub fn stand_behind(alloc: Global, trace: &Trace) -> Result<Monitor, AllocError>
    ensures { IfOk result (λ m. Stands trace.now m × IsAtEnd trace.now m) }
{
    let mut unsaid = Vec::new(alloc);
    let mut monitor = Monitor::new(alloc);
    tell_further(
        trace,
        &mut monitor,
        &mut WithoutEvidence { trace },
        &mut unsaid,
    )?;
    Ok(monitor)
}
