//! What a monitor tells of all lines that a trace has.

ghost use Rattle.std.specs.Prelude.{◌≡◌, OnOk};
ghost use Rattle.monitor.specs.SoFar.{TellsMore};
ghost use Rattle.monitor.specs.Standing.{IsAtEnd, Stands};
ghost use Rattle.monitor.specs.Whole.{TellsAll};

use crate::judge::Judge;
use crate::monitor::Monitor;
use findings::Finding;
use std::alloc::{AllocError, Global};
use trace_lines::Trace;
use trace_lines::laws::{entries_rise, stand_in_order, valid_strata, versions_issued_once};

/// Takes all lines of a trace that were not taken yet, and adds to the findings what is told there. It is refused only
/// where memory runs out; the monitor is then no longer of use.
pub fn tell_further<J: Judge>(
    trace: &Trace,
    monitor: &mut Monitor,
    judge: &mut J,
    told: &mut Vec<Finding>,
) -> Result<(), AllocError>
    requires stands { Stands trace.now monitor.old }
    requires judge { J.of judge.old ≡ trace.now }
    ensures stands { OnOk result (Stands trace.now monitor.new) }
    ensures all { OnOk result (IsAtEnd trace.now monitor.new) }
    ensures judge { J.of judge.new ≡ J.of judge.old }
    ensures told { OnOk result
        (TellsMore J.allows trace.now monitor.old monitor.new told.old.items told.new.items) }
{
    stand_in_order(trace);
    entries_rise(trace);
    // each turn takes an entry or a commit
    while monitor.take(trace, judge, told)?.is_some() {}
    Ok(())
}

/// Tells of a whole trace, line by line and at its end: that is what is found on it, each finding once. It is refused
/// only where memory runs out.
pub fn tell_all<J: Judge>(
    alloc: Global,
    trace: &Trace,
    judge: &mut J,
    told: &mut Vec<Finding>,
) -> Result<(), AllocError>
    requires { J.of judge.old ≡ trace.now }
    ensures { OnOk result (TellsAll J.allows trace.now told.old.items told.new.items) }
{
    stand_in_order(trace);
    entries_rise(trace);
    versions_issued_once(trace);
    valid_strata(trace);
    let mut monitor = Monitor::new(alloc);
    tell_further(trace, &mut monitor, judge, told)?;
    monitor.end(trace, judge, told)
}
