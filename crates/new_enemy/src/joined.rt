//! The audit of joined input, as the program runs it.

ghost use Rattle.audit.specs.Devices.{reads, writes};
ghost use Rattle.new_enemy.specs.Runs.{RunsJoined};

use crate::status::status_with;
use audit::audit_joined;
use devices::{Sink, Source};
use std::alloc::Global;

/// Audits joined input, writes the report to `out`, and answers the exit status. A fault is told to `err` in one line.
pub fn run_joined<R: Source, W: Sink, E: Sink>(
    alloc: Global,
    input: &mut R,
    out: &mut W,
    err: &mut E,
) -> u8
    ensures { RunsJoined (reads R.given R.ends R.failures R.remaining input.old input.new)
        (writes W.taken W.flushes W.failures W.idle W.contents out.old out.new) result }
{
    let answer = audit_joined(alloc, input, out);
    status_with(answer, err)
}
