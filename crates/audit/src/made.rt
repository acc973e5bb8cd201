//! Evidence for a whole trace, as text.

ghost use Rattle.std.specs.Prelude.{◌≡◌, ℕ, ◌<◌, ◌^◌, [], ◌∷◌, ◌++◌, List, length, Some, IfOk, IfErr, OnOk, IfSome, option_map, slice_get, string_bytes};
ghost use Rattle.trace_lines.specs.Values.{EntryValue};
ghost use Rattle.evidence_check.specs.Judged.{judged};
ghost use Rattle.evidence_check.specs.Steps.{step_values};
ghost use Rattle.record_text.specs.ReadBack.{IsTaken};
ghost use Rattle.audit.specs.Answers.{TellsOfTrace};
ghost use Rattle.audit.specs.Parts.{Told};
ghost use Rattle.audit.specs.Devices.{reads, writes};
ghost use Rattle.audit.specs.Kinds.{IsOneOf};
ghost use Rattle.audit.specs.Kinds as kind;
ghost use Rattle.audit.specs.Made.{IsMade, record_line, line_without, AreRecords, MakesRecords, BreaksMaking};

use crate::finds::Finds;
use crate::plain::AuditFault;
use crate::reading::trace_from;
use crate::telling::tell;
use devices::{Sink, Source};
use evidence_maker::{Found, Made, MakeFault, Maker};
use record_text::write_record;
use std::alloc::{AllocError, Global};
use trace_lines::Trace;

/// What is made for entry `i`, by what was found for another or by a search, or none where the maker gave up.
pub(crate) fn made_for(
    maker: &mut Maker<'_>,
    i: usize,
    found: Option<Found<'_>>,
) -> Result<Option<Made>, AllocError>
    requires { i < length maker.old.entries }
    ensures maker { maker.new ≡ maker.old }
    ensures made { IfOk result (λ o. (e : EntryValue) → slice_get maker.old.entries i ≡ Some e
        → IsMade maker.old e (option_map (λ m. step_values m.steps.items) o)) }
    ensures judged { IfOk result (λ o. IfSome o (λ m. (e : EntryValue) → slice_get maker.old.entries i ≡ Some e
        → m.judged ≡ judged maker.old e (Some (step_values m.steps.items)))) }
{
    match maker.make_after(i, found) {
        Ok(made) => Ok(Some(made)),
        Err(MakeFault::GaveUp) => Ok(None),
        Err(MakeFault::OutOfMemory) => Err(AllocError),
    }
}

/// Appends the record of what is made for the entry on a line, or the line to those of entries for which nothing is.
fn push_record(
    line: u64,
    made: Option<&Made>,
    text: &mut String,
    given_up: &mut Vec<u64>,
) -> Result<(), AllocError>
    ensures text { OnOk result (string_bytes text.new ≡ string_bytes text.old
        ++ record_line line (option_map (λ m. step_values m.now.steps.items) made.entry)) }
    ensures given_up { OnOk result (given_up.new.items ≡ given_up.old.items
        ++ line_without line (option_map (λ m. step_values m.now.steps.items) made.entry)) }
    // As a line of evidence it says the same steps.
    ensures taken { OnOk result (IfSome made.entry (λ m. IsTaken line (step_values m.now.steps.items))) }
    ensures fits { line < 2 ^ 64 }
{
    match made {
        Some(made) => {
            write_record(line, &made.steps, text)?;
            Ok(())
        }
        None => {
            given_up.push(line)?;
            Ok(())
        }
    }
}

/// The text of the records for a trace, and the lines of the entries that the maker gave up.
fn records_of(alloc: Global, trace: &Trace) -> Result<(String, Vec<u64>), AllocError>
    ensures { IfOk result (λ r. AreRecords trace.now (string_bytes r.0) r.1.items) }
{
    let mut text = String::new(alloc);
    let mut given_up = Vec::new(alloc);
    let mut maker = Maker::new(alloc, trace);
    let mut finds = Finds::new(alloc);
    // bounded by the lines of the trace, and for each entry by the limits of the search
    for i in 0..trace.len() {
        let entry = trace.entry(i);
        let made = made_for(&mut maker, i, finds.found(trace, entry.goal, entry.reply))?;
        push_record(entry.line, made.as_ref(), &mut text, &mut given_up)?;
        finds.keep(entry.goal, entry.reply, i, made)?;
    }
    Ok((text, given_up))
}

/// Writes the records for a trace, and answers the lines of the entries that the maker gave up.
fn tell_records<W: Sink>(alloc: Global, trace: &Trace, out: &mut W) -> Result<Vec<u64>, AuditFault>
    ensures { Told (λ text v. AreRecords trace.now text v.items)
        (writes W.taken W.flushes W.failures W.idle W.contents out.old out.new) result }
{
    let (text, given_up) = records_of(alloc, trace)?;
    tell(text.as_str(), given_up, out)
}

/// Writes evidence for a trace as [`make_records`] does, and answers the lines of the entries that the maker gave up.
pub fn make_records_listing<A: Source, W: Sink>(
    alloc: Global,
    trace: &mut A,
    out: &mut W,
) -> Result<Vec<u64>, AuditFault>
    ensures told { TellsOfTrace (λ a old new v. MakesRecords a old new v.items) BreaksMaking
        (reads A.given A.ends A.failures A.remaining trace.old trace.new)
        (writes W.taken W.flushes W.failures W.idle W.contents out.old out.new) result }
    ensures kinds { IfErr result (IsOneOf (kind.trace ∷ kind.write ∷ kind.memory ∷ [])) }
{
    let trace = trace_from(alloc, trace)?;
    let answer = tell_records(alloc, &trace, out);
    drop(trace);
    answer
}

/// Writes evidence for a trace: a record for each entry in order, a line each. An entry that the maker gave up has
/// none, and is out of the maker's reach; how many these are is the answer.
///
/// By its record each entry is supported or contradicted, so that an audit with this evidence, where it has at most
/// 2^30 bytes, finds `F7` on the entries that were given up, and `F8` and `F9` nowhere.
///
/// With an answer the text went out whole, and one flush was asked for; which of the two came first no clause says.
/// Under `Write` the first bytes of the text went out, and under any other fault nothing did. A trace is refused as by
/// [`audit_plain`](crate::audit_plain).
pub fn make_records<A: Source, W: Sink>(
    alloc: Global,
    trace: &mut A,
    out: &mut W,
) -> Result<u64, AuditFault>
    ensures told { TellsOfTrace
        (λ a old new n. (lines : List ℕ) × MakesRecords a old new lines × (n ≡ length lines)) BreaksMaking
        (reads A.given A.ends A.failures A.remaining trace.old trace.new)
        (writes W.taken W.flushes W.failures W.idle W.contents out.old out.new) result }
    ensures kinds { IfErr result (IsOneOf (kind.trace ∷ kind.write ∷ kind.memory ∷ [])) }
{
    let given_up = make_records_listing(alloc, trace, out)?;
    Ok(given_up.len() as u64)
}
