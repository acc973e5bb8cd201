//! A run that begins behind a log, and hands on.

ghost use Rattle.std.specs.Prelude.{◌==◌, ◌&&◌, ◌||◌, ◌≡◌, ◌≤◌, ◌<◌, ◌+◌, ◌++◌, ◌∷◌, [], drop, length, slice_get, IfErr, IfOk, IfSome, OnOk, Some, string_bytes};
ghost use Rattle.std.specs.List.{flat_map};
ghost use Rattle.trace_lines.specs.Placed.{AreInPlace};
ghost use Rattle.trace_lines.specs.Values.{EntryValue, TraceValue, next_line};
ghost use Rattle.windows.specs.Growth.{GoesOn};
ghost use Rattle.follow_laws.specs.Begun.{IsOfBytes};
ghost use Rattle.userset_index.specs.Growth.{IsGrowing};
ghost use Rattle.monitor.specs.Standing.{IsAtEnd, Stands};
ghost use Rattle.audit.specs.Devices.{reads, writes};
ghost use Rattle.audit.specs.Kinds.{IsOneOf};
ghost use Rattle.audit.specs.Kinds as kind;
ghost use Rattle.audit.specs.Parts.{Told};
ghost use Rattle.runs.specs.DeclaredTexts.{texts_of};
ghost use Rattle.runs.specs.Handed.{AreDeclarationsOf};
ghost use Rattle.runs.specs.Kept.{log_behind};
ghost use Rattle.follow.specs.Handing.{IsHandedOn, IsRunEnd, RunEnds, RunWentOut, run_lines, run_report, unaudited, unaudited_line, why_unaudited};
ghost use Rattle.follow.specs.Handing as spec;
ghost use Rattle.follow.specs.Pieces.{number_text};
ghost use Rattle.follow.specs.Running.{Run};
ghost use Rattle.follow.specs.SoFar.{IsFollowed};

use crate::follower::Follower;
use crate::following::follow_lines;
use crate::heartbeat::push_number;
use audit::{AuditFault, Verdict};
use carry::write_carry;
use carry_laws::Known;
use devices::{Sink, Source};
use findings::{Finding, push_last_lines};
use runs::{DeclaredLine, KeptLog, Wanted, hand_on, is_audited};
use std::alloc::{AllocError, Global};
use trace_lines::Trace;
use trace_lines::laws::{entries_rise, stand_in_order, valid_strata, versions_issued_once};
use userset_index::UsersetIndex;

/// How a run ended.
#[derive(Drop)]
pub struct RunEnd {
    /// Whether anything was told.
    pub verdict: Verdict,
    /// Whether each entry that came was audited, or waits for a commit and goes on in the carry.
    pub whole: bool,
    /// The text of a carry, with which the next run begins. There is none where none was asked for, or the log has no
    /// base.
    pub carry: Option<String>,
}

/// What a run hands on: the base of its carry is up to `oldest`, or is the one that it began with, or its log's first
/// commit that no change of the rules makes; `versions` says how many of the versions that were issued last are carried
/// at least, all where it is `None`; and `before` is the checksum of the carry that it began with.
#[derive(Clone, Copy)]
pub struct Handing<'a> {
    pub oldest: u64,
    pub versions: Option<u64>,
    pub before: Option<&'a str>,
}

/// Appends why an entry with this snapshot is not audited.
fn push_why(base: u64, snapshot: u64, text: &mut String) -> Result<(), AllocError>
    ensures { OnOk result (string_bytes text.new ≡ string_bytes text.old ++ why_unaudited base snapshot) }
{
    if snapshot >= base {
        return text.push_str("its version was let go\n");
    }
    text.push_str("below ")?;
    push_number(base, "\n", text)
}

/// Appends a line for an entry that is not audited by what is known.
fn push_if_unaudited(
    trace: &Trace,
    known: Known,
    i: usize,
    text: &mut String,
) -> Result<(), AllocError>
    requires { i < length trace.now.entries }
    ensures { (e : EntryValue) → slice_get trace.now.entries i ≡ Some e → OnOk result (string_bytes text.new
        ≡ string_bytes text.old ++ unaudited_line known trace.now.entries e) }
{
    if is_audited(trace, known, i) {
        return Ok(());
    }
    let entry = trace.entry(i);
    text.push_str("line ")?;
    push_number(entry.line, ": not audited, ", text)?;
    push_why(known.base, entry.snapshot, text)
}

/// Appends a line for each entry from number `begun` on that is not audited by what is known.
fn push_unaudited(
    trace: &Trace,
    known: Known,
    begun: usize,
    text: &mut String,
) -> Result<(), AllocError>
    requires { begun ≤ length trace.now.entries }
    ensures { OnOk result (string_bytes text.new
        ≡ string_bytes text.old ++ flat_map (unaudited_line known trace.now.entries) (drop begun trace.now.entries)) }
{
    // each turn looks at an entry that came in this run
    for i in begun..trace.len() {
        push_if_unaudited(trace, known, i, text)?;
    }
    Ok(())
}

/// How many entries from number `begun` on are not audited by what is known.
fn count_unaudited(trace: &Trace, known: Known, begun: usize) -> usize
    requires { begun ≤ length trace.now.entries }
    ensures { result ≡ unaudited known begun trace.now }
{
    let mut count = 0;
    // each turn looks at an entry that came in this run
    for i in begun..trace.len() {
        if !is_audited(trace, known, i) {
            count += 1;
        }
    }
    count
}

/// Whether a run is whole in which so many entries were not audited, so many are open, and a carry is handed on.
fn is_whole(unaudited: usize, waiting: usize, handed: bool) -> bool
    ensures { result ≡ ((unaudited == 0) && (handed || (waiting == 0))) }
{
    unaudited == 0 && (handed || waiting == 0)
}

/// Appends words, a number, and words behind it.
fn push_count(before: &str, number: u64, behind: &str, text: &mut String) -> Result<(), AllocError>
    ensures { OnOk result (string_bytes text.new
        ≡ string_bytes text.old ++ (before.now ++ number_text number behind.now)) }
{
    text.push_str(before)?;
    push_number(number, behind, text)
}

/// Appends the last lines of a report; where nothing was found, and the run is not whole, it is not clean.
fn push_run_report(
    told: &[Finding],
    whole: bool,
    entries: usize,
    text: &mut String,
) -> Result<(), AllocError>
    ensures { OnOk result (string_bytes text.new
        ≡ string_bytes text.old ++ run_report whole told.now entries) }
{
    if whole || !told.is_empty() {
        return push_last_lines(told, entries, text);
    }
    push_count(
        "entries ",
        entries as u64,
        "\nfindings 0\nverdict incomplete\n",
        text,
    )
}

/// The last lines of a run, of whose log so many entries stood there when it began.
fn run_text(
    follower: &Follower,
    trace: &Trace,
    begun: usize,
    unaudited: usize,
    whole: bool,
) -> Result<String, AllocError>
    requires begun { begun ≤ length trace.now.entries }
    requires stands { Stands trace.now follower.now.monitor }
    requires all { IsAtEnd trace.now follower.now.monitor }
    requires unaudited { unaudited ≡ spec.unaudited follower.now.known begun trace.now }
    ensures { IfOk result (λ s. string_bytes s
        ≡ run_lines whole follower.now.known begun trace.now follower.now.told.items) }
{
    let mut text = String::new(follower.alloc);
    push_unaudited(trace, follower.known, begun, &mut text)?;
    push_count("not audited ", unaudited as u64, "\n", &mut text)?;
    let open = follower.monitor.count_open(trace) as u64;
    push_count("open ", open, "\n", &mut text)?;
    push_run_report(&follower.told, whole, trace.len() - begun, &mut text)?;
    Ok(text)
}

/// The first commit that no change of the rules makes.
fn first_store(trace: &Trace, declared: &[DeclaredLine]) -> Option<u64> {
    let times = trace.chains().commits();
    // bounded by the square of the declarations, which are 4,096 at most
    for c in 0..times.len() {
        let line = trace.commit_line(c);
        if !declared.iter().any(|one| one.line == line) {
            return Some(times[c]);
        }
    }
    None
}

/// The text of a carry of a log behind so many lines, of which so much is known, where one is asked for, and the log has a
/// base that is not below the one that is known. It is the last that may be, up to the greatest of that base, the first
/// commit and what is asked for.
fn handed_text(
    alloc: Global,
    trace: &Trace,
    declared: &[DeclaredLine],
    known: Known,
    lines: u64,
    handing: Option<Handing<'_>>,
) -> Result<Option<String>, AllocError>
    requires { AreDeclarationsOf trace.now (texts_of declared.now) }
    ensures { IfOk result (λ o. IfSome o (λ s. IsHandedOn known lines trace.now (string_bytes s))) }
{
    let Some(handing) = handing else {
        return Ok(None);
    };
    let first = first_store(trace, declared).unwrap_or(0);
    let wanted = Wanted {
        lines,
        oldest: handing.oldest.max(known.base).max(first),
        versions: handing.versions,
        before: handing.before,
    };
    let carry = hand_on(alloc, trace, declared, known, wanted)?;
    match carry {
        Some(carry) => Ok(Some(write_carry(alloc, &carry)?)),
        None => Ok(None),
    }
}

/// How much of a log stood there when a run began.
#[derive(Clone, Copy)]
struct Start {
    lines: u64,
    entries: usize,
}

/// Writes the last lines of a run, and hands its log on where that is asked for, of which so many lines were read.
fn end_run<W: Sink>(
    log: KeptLog,
    usersets: UsersetIndex,
    start: Start,
    read: u64,
    handing: Option<Handing<'_>>,
    follower: &Follower,
    out: &mut W,
) -> Result<RunEnd, AuditFault>
    requires begun { start.entries ≤ length log.log.entries }
    requires followed { IsFollowed log.log follower.now }
    requires all { IsAtEnd log.log follower.now.monitor }
    requires indexed { IsGrowing log.log.declarations log.log.commits usersets }
    ensures { Told (IsRunEnd log.log follower.now start.entries (start.lines + read))
        (writes W.taken W.flushes W.failures W.idle W.contents out.old out.new) result }
{
    let alloc = follower.alloc;
    let (_, log, declared) = log.into_parts();
    let paused = log.pause(usersets);
    let trace = paused.trace();
    // no memory holds a log whose lines have no number
    let Some(lines) = start.lines.checked_add(read) else {
        return Err(AuditFault::OutOfMemory);
    };
    let carry = handed_text(alloc, trace, &declared, follower.known, lines, handing)?;
    let unaudited = count_unaudited(trace, follower.known, start.entries);
    let open = follower.monitor.count_open(trace);
    let whole = is_whole(unaudited, open, carry.is_some());
    let text = run_text(follower, trace, start.entries, unaudited, whole)?;
    let end = RunEnd {
        verdict: follower.verdict(),
        whole,
        carry,
    };
    audit::tell(text.as_str(), end, out)
}

/// A follower that stands behind a log, and tells from its next line on of entries that are audited by what is known.
fn stand_behind(
    alloc: Global,
    log: KeptLog,
    known: Known,
) -> Result<(KeptLog, Follower, Start), AllocError>
    requires { next_line log.log ≤ log.lines + 1 }
    ensures log { IfOk result (λ r. r.0 ≡ log) }
    ensures start { IfOk result (λ r. (r.2.lines ≡ log.lines) × (r.2.entries ≡ length log.log.entries)) }
    ensures told { IfOk result (λ r. r.1.told.items ≡ []) }
    ensures from { IfOk result (λ r. (r.1.first ≡ log.lines + 1) × (r.1.known ≡ known)) }
    ensures followed { IfOk result (λ r. (u : TraceValue) → GoesOn log.lines log.log u → AreInPlace u → IsOfBytes u
        → IsFollowed u r.1) }
{
    let usersets = log.usersets();
    let (lines, log, declared) = log.into_parts();
    // no memory holds a log whose lines have no number
    let Some(first) = lines.checked_add(1) else {
        return Err(AllocError);
    };
    let paused = log.pause(usersets);
    let trace = paused.trace();
    stand_in_order(trace);
    entries_rise(trace);
    versions_issued_once(trace);
    valid_strata(trace);
    let entries = trace.len();
    let follower = Follower::behind(alloc, trace, first, known)?;
    let (log, _) = paused.resume();
    let log = KeptLog::from_parts(alloc, lines, log, declared);
    Ok((log, follower, Start { lines, entries }))
}

/// Follows the lines of a run behind a log, as [`follow`](crate::follow) does those of a trace: what was told of the
/// log's own lines is not told again, and of entries that are not audited by what is known nothing is told. At the end of
/// the lines what no commit settles is not told: it goes on to the next run. Then come, for each entry that came and is
/// not audited, `line N: not audited, below B`, where it asks below the base, or `line N: not audited, its version was let
/// go`, where it names a version that is not known to be issued; `not audited K`, for all of these; `open O`, for the entries that are not settled; and the last lines of the report, which count the entries that came
/// and the findings of this run. Where nothing was found, and K is not 0, or O is not and no carry takes these entries
/// on, the last is `verdict incomplete`.
///
/// It gives the verdict of what was told, and what the next run begins with, where that is asked for. A refusal of a line
/// is told by the number of the line in the run; findings are told by those of the whole log.
pub fn follow_run<A: Source, W: Sink>(
    alloc: Global,
    log: KeptLog,
    known: Known,
    handing: Option<Handing<'_>>,
    trace: &mut A,
    out: &mut W,
    heartbeats: bool,
) -> Result<RunEnd, AuditFault>
    requires { next_line log.log ≤ log.lines + 1 }
    ensures run { Run (log_behind log) (RunEnds log known) (RunWentOut log known)
        (reads A.given A.ends A.failures A.remaining trace.old trace.new)
        (writes W.taken W.flushes W.failures W.idle W.contents out.old out.new) result }
    ensures kinds { IfErr result (IsOneOf (kind.trace ∷ kind.write ∷ kind.memory ∷ [])) }
{
    let (log, mut follower, start) = stand_behind(alloc, log, known)?;
    let (log, usersets, read) = follow_lines(log, &mut follower, trace, out, heartbeats)?;
    end_run(log, usersets, start, read, handing, &follower, out)
}
