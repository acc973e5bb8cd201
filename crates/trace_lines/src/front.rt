//! Reading the trace in front of the marker of joined input.

ghost use Rattle.std.specs.Prelude.{◌≡◌, ◌≢◌, ◌+◌, ◌≤◌, ◌<◌, length, Option, None, true, Err, IfOk, IfErr, IfSome};
ghost use Rattle.devices.specs.Given.{OfBytes, OfWhole, AreNext};
ghost use Rattle.json_lines.specs.Joined.{joined_of, IsFront, ends_left};
ghost use Rattle.json_lines.specs.declared.lines.TheConstants.{CHUNK};
ghost use Rattle.json_lines.specs.declared.lines.InputFault.TheVariants as input;
ghost use Rattle.json_lines.specs.declared.reading.TheConstants.{MAX_INPUT};
ghost use Rattle.trace_lines.specs.Results.{GivesTrace};
ghost use Rattle.trace_lines.specs.Traces.{trace_of, made_of};
ghost use Rattle.trace_lines.specs.declared.cause.Cause.TheVariants.{Read};

use crate::builder::TraceBuilder;
use crate::cause::{Cause, TraceFault};
use crate::trace::Trace;
use devices::Source;
use json_lines::{InputFault, LineFault, Rest, read_front};
use std::alloc::Global;

/// What stands in front of the marker of joined input, and behind it.
#[derive(Drop)]
pub struct TraceFront {
    /// The trace, or its first line that is refused, and why.
    pub trace: Result<Trace, TraceFault>,
    /// What stands behind the marker; none where the input ended without one.
    pub rest: Option<Rest>,
}

/// The trace that lines made, or which of them is refused.
fn made_of(builder: TraceBuilder, read: Result<(), LineFault<Cause>>) -> Result<Trace, TraceFault>
    ensures { result ≡ made_of builder read }
{
    match read {
        Ok(()) => Ok(builder.finish()),
        Err(fault) => Err(TraceFault {
            line: fault.line,
            cause: fault.cause(),
        }),
    }
}

/// Reads the trace in front of the first line that is exactly `---`, as [`read_trace`](crate::read_trace) reads a
/// whole input.
///
/// An error is of the whole input: the reader failed, there are more than 2^30 bytes, or memory ran out.
pub fn read_trace_front<R: Source>(alloc: Global, reader: &mut R) -> Result<TraceFront, InputFault>
    // Where there is a marker: what stands before it is such a trace, or is refused so.
    ensures front { IfOk result (λ f. IfSome f.rest
        (λ rest. IsFront (R.given reader.old) (R.given reader.new) rest (λ a. GivesTrace f.trace (trace_of true a)))) }
    ensures none { IfOk result (λ f. f.rest ≡ None
        → OfWhole R.given R.ends reader.old reader.new (λ came. joined_of came ≡ None)) }
    ensures refused { IfOk result (λ f. IfErr f.trace (λ e. e.cause ≢ Read)) }
    ensures ended { IfOk result (λ f. IfSome f.rest
        (λ rest. R.ends reader.new + ends_left rest.ended ≡ R.ends reader.old + 1)) }
    ensures long { result ≡ Err input.TooLong
        → OfBytes R.given reader.old reader.new (λ came. MAX_INPUT < length came) }
    // Also of a reader that never ends.
    ensures most { OfBytes R.given reader.old reader.new (λ came. length came ≤ MAX_INPUT + CHUNK) }
    ensures known { AreNext R.given R.ends R.remaining reader.old reader.new }
    // A reader's failure alone gives this error.
    ensures failed { result ≡ Err input.Read → R.failures reader.new ≡ R.failures reader.old + 1 }
    ensures kept { result ≢ Err input.Read → R.failures reader.new ≡ R.failures reader.old }
{
    let mut builder = TraceBuilder::new(alloc);
    let front = read_front(alloc, reader, &mut builder)?;
    Ok(TraceFront {
        trace: made_of(builder, front.read),
        rest: front.rest,
    })
}
