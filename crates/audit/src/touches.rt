//! The history of a tuple.

ghost use Rattle.std.specs.Prelude.{◌≡◌, [], ◌∷◌, ◌++◌, length, IfOk, IfErr, OnOk, string_bytes};
ghost use Rattle.std.specs.List.{flat_map};
ghost use Rattle.version_chains.specs.Commits.{history_of};
ghost use Rattle.audit.specs.Answers.{TellsOfTrace};
ghost use Rattle.audit.specs.Parts.{Told};
ghost use Rattle.audit.specs.Devices.{reads, writes};
ghost use Rattle.audit.specs.History.{touch_text, history_text, TellsHistory, BreaksHistory};
ghost use Rattle.audit.specs.Kinds.{IsOneOf};
ghost use Rattle.audit.specs.Kinds as kind;

use crate::plain::AuditFault;
use crate::reading::trace_from;
use crate::telling::tell;
use devices::{Sink, Source};
use std::alloc::{AllocError, Global};
use trace_lines::Trace;
use tuple_text::Tuple;
use version_chains::History;

fn push_touch(at: u64, adds: bool, text: &mut String) -> Result<(), AllocError>
    ensures { OnOk result (string_bytes text.new ≡ string_bytes text.old ++ touch_text (at, adds)) }
{
    if adds {
        writeln!(text, "{at} add")
    } else {
        writeln!(text, "{at} remove")
    }
}

/// Appends a line for each touch, and answers how many there are.
fn push_touches(touches: History<'_>, text: &mut String) -> Result<u64, AllocError>
    ensures text { OnOk result (string_bytes text.new ≡ string_bytes text.old ++ flat_map touch_text touches.entry) }
    ensures count { IfOk result (λ n. n ≡ length touches.entry) }
{
    let mut count = 0;
    for touch in touches {
        push_touch(touch.0, touch.1, text)?;
        count += 1;
    }
    Ok(count)
}

/// The text of a tuple's history, and how many touches that has.
fn history_in(alloc: Global, trace: &Trace, tuple: &Tuple) -> Result<(String, u64), AllocError>
    ensures { IfOk result (λ r. (string_bytes r.0 ≡ history_text trace.now.commits tuple.now)
        × (r.1 ≡ length (history_of trace.now.commits tuple.now))) }
{
    let mut text = String::new(alloc);
    let count = push_touches(trace.chains().history(tuple), &mut text)?;
    Ok((text, count))
}

/// Writes a tuple's history in a trace.
fn tell_history<W: Sink>(
    alloc: Global,
    trace: &Trace,
    tuple: &Tuple,
    out: &mut W,
) -> Result<u64, AuditFault>
    ensures { Told (λ text n. (text ≡ history_text trace.now.commits tuple.now)
        × (n ≡ length (history_of trace.now.commits tuple.now)))
        (writes W.taken W.flushes W.failures W.idle W.contents out.old out.new) result }
{
    let (text, count) = history_in(alloc, trace, tuple)?;
    tell(text.as_str(), count, out)
}

/// Writes the history of a tuple in a trace, `T add` or `T remove` a line, the newest touch first, and answers how
/// many touches there are.
///
/// With an answer the text went out whole, and one flush was asked for; which of the two came first no clause says.
/// Under `Write` the first bytes of the text went out, and under any other fault nothing did. A trace is refused as by
/// [`audit_plain`](crate::audit_plain).
pub fn history<A: Source, W: Sink>(
    alloc: Global,
    trace: &mut A,
    tuple: &Tuple,
    out: &mut W,
) -> Result<u64, AuditFault>
    ensures told { TellsOfTrace (λ a. TellsHistory a tuple.now) (λ a. BreaksHistory a tuple.now)
        (reads A.given A.ends A.failures A.remaining trace.old trace.new)
        (writes W.taken W.flushes W.failures W.idle W.contents out.old out.new) result }
    ensures kinds { IfErr result (IsOneOf (kind.trace ∷ kind.write ∷ kind.memory ∷ [])) }
{
    let trace = trace_from(alloc, trace)?;
    let answer = tell_history(alloc, &trace, tuple, out);
    drop(trace);
    answer
}
