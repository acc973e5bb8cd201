//! Reading a trace by several threads.

ghost use Rattle.std.specs.Prelude.{◌<◌, ◌≤◌};
ghost use Rattle.trace_lines.specs.TraceReads.{TraceRead};

use crate::blocks::TraceLines;
use crate::builder::TraceBuilder;
use crate::cause::TraceFault;
use crate::trace::Trace;
use devices::Source;
use line_blocks::read_blocks;
use std::alloc::Global;
use std::thread::Threads;

/// Reads a trace as [`read_trace`](crate::read_trace) does, with so many workers that read the lines of a block each.
pub fn read_trace_by<R: Source, T: Threads + Sync>(
    rt: &T,
    alloc: Global,
    reader: &mut R,
    workers: usize,
) -> Result<Trace, TraceFault>
    requires { (0 < workers) × (workers ≤ 16) }
    ensures { TraceRead R.given R.ends R.failures R.remaining reader.old reader.new result }
{
    let mut builder = TraceBuilder::new(alloc);
    match read_blocks(rt, alloc, reader, &TraceLines, &mut builder, workers) {
        Ok(()) => Ok(builder.finish()),
        Err(fault) => Err(TraceFault {
            line: fault.line,
            cause: fault.cause(),
        }),
    }
}
