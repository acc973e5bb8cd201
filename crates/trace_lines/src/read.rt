//! Reading a whole trace.

ghost use Rattle.trace_lines.specs.TraceReads.{TraceRead};

use crate::builder::TraceBuilder;
use crate::cause::TraceFault;
use crate::trace::Trace;
use devices::Source;
use json_lines::read_lines;
use std::alloc::Global;

/// Reads a trace, or says which line is the first that is refused, and why.
///
/// Lines end in a newline, which the last may lack, and are numbered from 1. One of spaces, tabs and carriage
/// returns alone is skipped and counted. A line has at most 2^20 bytes and the input 2^30; at most 2^30 + 65,536
/// bytes are taken from the reader, also from one that never ends. Any failure of the reader is `Read`. Any other
/// refusal holds of every input that begins with the bytes that the reader gave.
pub fn read_trace<R: Source>(alloc: Global, reader: &mut R) -> Result<Trace, TraceFault>
    ensures { TraceRead R.given R.ends R.failures R.remaining reader.old reader.new result }
{
    let mut builder = TraceBuilder::new(alloc);
    match read_lines(alloc, reader, &mut builder) {
        Ok(()) => Ok(builder.finish()),
        Err(fault) => Err(TraceFault {
            line: fault.line,
            cause: fault.cause(),
        }),
    }
}
