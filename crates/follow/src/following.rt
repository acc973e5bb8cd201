//! A log that is followed as it comes.

ghost use Rattle.std.specs.Prelude.{◌≡◌, ◌≤◌, ◌+◌, ◌-◌, ℕ, [], ◌∷◌, List, Option, Some, IfErr, OnOk};
ghost use Rattle.trace_lines.specs.Placed.{AreInPlace};
ghost use Rattle.trace_lines.specs.Values.{TraceValue, next_line};
ghost use Rattle.userset_index.specs.Growth.{IsGrowing};
ghost use Rattle.evidence_check.specs.Steps.{StepValue};
ghost use Rattle.findings.specs.Findings.{findings_of};
ghost use Rattle.findings.specs.Headline.{IsRightAndFresh};
ghost use Rattle.windows.specs.Growth.{GoesOn};
ghost use Rattle.follow_laws.specs.Begun.{IsOfBytes};
ghost use Rattle.monitor.specs.Standing.{IsAtEnd};
ghost use Rattle.audit.specs.Audit.{verdict_of};
ghost use Rattle.audit.specs.Devices.{reads, writes};
ghost use Rattle.audit.specs.Kinds.{IsOneOf};
ghost use Rattle.audit.specs.Kinds as kind;
ghost use Rattle.audit.specs.Parts.{Told};
ghost use Rattle.follow.specs.Following.{Followed};
ghost use Rattle.follow.specs.Reading.{IsSaidBehind};
ghost use Rattle.follow.specs.Running.{Run};
ghost use Rattle.follow.specs.Lines.{IsSoFar, TellsLines};
ghost use Rattle.follow.specs.SoFar.{IsFollowed, TellsFromSame, TellsPiece, TellsRest};
ghost use Rattle.audit.specs.Audit.{Says};

use crate::follower::Follower;
use crate::reading::take_line;
use audit::{AuditFault, Verdict};
use devices::{Sink, Source};
use findings::laws::right_and_fresh_without_findings;
use json_lines::LineReader;
use runs::KeptLog;
use std::alloc::Global;
use std::mem::replace;
use trace_lines::TraceBuilder;
use trace_lines::laws::{entries_rise, stand_in_order, valid_strata, versions_issued_once};
use userset_index::UsersetIndex;

/// Writes what the log so far lets tell, of which the last line is given where a heartbeat is asked for.
fn tell<W: Sink>(
    log: KeptLog,
    usersets: &mut UsersetIndex,
    line: Option<u64>,
    follower: &mut Follower,
    out: &mut W,
) -> Result<KeptLog, AuditFault>
    requires followed { AreInPlace log.log → IsOfBytes log.log → IsFollowed log.log follower.old }
    requires indexed { IsGrowing log.log.declarations log.log.commits usersets.old }
    ensures indexed { OnOk result (IsGrowing log.log.declarations log.log.commits usersets.new) }
    ensures told { Told (λ text k. (k ≡ log) × TellsPiece log.log line follower.old follower.new text)
        (writes W.taken W.flushes W.failures W.idle W.contents out.old out.new) result }
{
    let alloc = follower.alloc;
    let (lines, log, declared) = log.into_parts();
    let paused = log.pause(replace(usersets, UsersetIndex::new(alloc)));
    let trace = paused.trace();
    stand_in_order(trace);
    entries_rise(trace);
    versions_issued_once(trace);
    valid_strata(trace);
    let text = follower.tell(trace, line)?;
    let (log, grown) = paused.resume();
    *usersets = grown;
    let log = KeptLog::from_parts(alloc, lines, log, declared);
    audit::tell(text.as_str(), log, out)
}

/// The line before the next one of a run, behind so many others, where heartbeats are asked for.
fn last_line(before: u64, next: u64, heartbeats: bool) -> Option<u64>
    requires { 1 ≤ next }
    ensures { (n : ℕ) → result ≡ Some n → n ≡ before + (next - 1) }
{
    if heartbeats {
        before.checked_add(next - 1)
    } else {
        None
    }
}

/// Follows the lines of a run behind a log: before the reader is asked for more, all that the lines so far let tell is
/// written and flushed, and at the end what the last lines let tell. It gives the log, the index of its usersets, and how
/// many lines were read.
pub(crate) fn follow_lines<A: Source, W: Sink>(
    mut log: KeptLog,
    follower: &mut Follower,
    trace: &mut A,
    out: &mut W,
    heartbeats: bool,
) -> Result<(KeptLog, UsersetIndex, u64), AuditFault>
    requires fits { next_line log.log ≤ log.lines + 1 }
    requires first { follower.old.first ≤ log.lines + 1 }
    requires none { follower.old.told.items ≡ [] }
    requires followed { (u : TraceValue) → GoesOn log.lines log.log u → AreInPlace u → IsOfBytes u
        → IsFollowed u follower.old }
    ensures run { (says : Says) → IsSaidBehind log says → Run says (TellsLines says follower.new)
        (IsSoFar says follower.old.first follower.old.known)
        (reads A.given A.ends A.failures A.remaining trace.old trace.new)
        (writes W.taken W.flushes W.failures W.idle W.contents out.old out.new) result }
    ensures from { OnOk result (TellsFromSame follower.old follower.new) }
    ensures kinds { IfErr result (IsOneOf (kind.trace ∷ kind.write ∷ kind.memory ∷ [])) }
{
    let before = log.lines();
    let mut lines = LineReader::new(follower.alloc)?;
    let mut usersets = log.usersets();
    // bounded by the room for an input, of which each line takes some
    while take_line(&mut lines, trace, &mut log)? {
        if !lines.holds_line() {
            let line = last_line(before, lines.number, heartbeats);
            log = tell(log, &mut usersets, line, follower, out)?;
        }
    }
    // the last lines of the report say more than a heartbeat
    let log = tell(log, &mut usersets, None, follower, out)?;
    Ok((log, usersets, lines.count()))
}

/// Writes what is left at the end of the log, and the last lines.
fn tell_end<W: Sink>(
    log: TraceBuilder,
    usersets: UsersetIndex,
    follower: &mut Follower,
    out: &mut W,
) -> Result<Verdict, AuditFault>
    requires followed { IsFollowed log follower.old }
    requires all { IsAtEnd log follower.old.monitor }
    requires indexed { IsGrowing log.declarations log.commits usersets }
    ensures told { Told (λ text v. TellsRest log follower.old follower.new text × (v ≡ verdict_of follower.new.told.items))
        (writes W.taken W.flushes W.failures W.idle W.contents out.old out.new) result }
    // Where nothing was found, whoever made the evidence.
    ensures right { (evidence : List (Option (List StepValue))) → findings_of log evidence ≡ [] → IsRightAndFresh log }
{
    let paused = log.pause(usersets);
    right_and_fresh_without_findings(paused.trace());
    let text = follower.tell_end(paused.trace())?;
    drop(paused);
    audit::tell(text.as_str(), follower.verdict(), out)
}

/// Follows a trace as it comes. Before the reader is asked for more, all that the whole lines so far let tell is
/// written and flushed: what rests on an entry and the lines before it when its line has come; and the other findings
/// on it as soon as a commit at or above its snapshot stands in the log, so that nothing can change them. They are the
/// lines of the report of [`audit_made`](audit::audit_made), in another order, and behind the last line come what is
/// left and the report's last lines.
///
/// With heartbeats a line says behind what was told how far all entries are settled, where any was settled; of these
/// nothing is told any more. Behind the last line comes none.
///
/// A trace is refused as by [`audit_made`](audit::audit_made), and what was told before stands. Under `Write` so many
/// bytes of what was to be written last went out.
pub fn follow<A: Source, W: Sink>(
    alloc: Global,
    trace: &mut A,
    out: &mut W,
    heartbeats: bool,
) -> Result<Verdict, AuditFault>
    ensures followed { Followed (reads A.given A.ends A.failures A.remaining trace.old trace.new)
        (writes W.taken W.flushes W.failures W.idle W.contents out.old out.new) result }
    ensures kinds { IfErr result (IsOneOf (kind.trace ∷ kind.write ∷ kind.memory ∷ [])) }
{
    let mut follower = Follower::new(alloc);
    let (log, usersets, _) = follow_lines(
        KeptLog::new(alloc),
        &mut follower,
        trace,
        out,
        heartbeats,
    )?;
    let (_, log, _) = log.into_parts();
    tell_end(log, usersets, &mut follower, out)
}
