//! The commands that read files, by what these gave.

ghost use Rattle.std.specs.Prelude.{◌≡◌, ◌↔◌, [], ◌∷◌, codes, false, Err, IfErr};
ghost use Rattle.audit.specs.Answers.{Audited};
ghost use Rattle.audit.specs.Devices.{reads, writes};
ghost use Rattle.audit.specs.Kinds.{IsOneOf};
ghost use Rattle.audit.specs.Kinds as kind;
ghost use Rattle.audit.specs.Shared.{are_within_limits};
ghost use Rattle.audit.specs.declared.plain.AuditFault.TheVariants as faults;
ghost use Rattle.new_enemy.specs.Opened.{IsUnread, path_of};
ghost use Rattle.new_enemy.specs.Run.{IsStatusDone};
ghost use Rattle.new_enemy.specs.Runs.{RunsFiles};
ghost use Rattle.new_enemy.specs.Words.{RanAudit, RanAuditAlone, RanFollow, RanHistoryOf, RanMake};

use crate::opened::Opened;
use crate::run::{Done, Ran};
use crate::status::{fail, status_with, tell_given_up};
use audit::{AuditFault, Verdict, audit, audit_early, audit_made, history, make_records_listing};
use devices::{Sink, Source};
use follow::follow;
use std::alloc::Global;
use std::io::Read;
use std::sync::Wait;
use std::thread::Threads;
use tuple_text::Tuple;

/// How an audit shares its entries, and whether it tells of findings as they come.
#[derive(Clone, Copy)]
pub struct Sharing {
    pub workers: usize,
    pub slice: usize,
    pub early: bool,
}

/// The audit that is asked for. Early alerts go to `err`.
fn audit_sharing<A: Source, B: Source, W: Sink, E: Sink, P: Threads + Wait + Sync>(
    rt: &P,
    alloc: Global,
    trace: &mut A,
    evidence: &mut B,
    sharing: Sharing,
    out: &mut W,
    err: &mut E,
) -> Result<Verdict, AuditFault>
    ensures audited { Audited (reads A.given A.ends A.failures A.remaining trace.old trace.new)
        (reads B.given B.ends B.failures B.remaining evidence.old evidence.new)
        (writes W.taken W.flushes W.failures W.idle W.contents out.old out.new) result }
    ensures kinds { IfErr result (IsOneOf (kind.trace ∷ kind.evidence ∷ kind.write ∷ kind.memory ∷ kind.limits ∷ [])) }
    ensures limits { result ≡ Err faults.Limits ↔ (are_within_limits sharing.workers sharing.slice ≡ false) }
    ensures unread { result ≡ Err faults.Limits → (trace.new ≡ trace.old) × (evidence.new ≡ evidence.old) }
{
    let Sharing {
        workers,
        slice,
        early,
    } = sharing;
    if early {
        audit_early(rt, alloc, trace, evidence, out, err, workers, slice)
    } else {
        audit(rt, alloc, trace, evidence, out, workers, slice)
    }
}

/// Audits a trace by its evidence, writes the report to `out`, and hands the two back with what they gave. Early
/// alerts go to `err`, and a fault is told there in one line.
pub fn run_audit<F: Read, W: Sink, E: Sink, P: Threads + Wait + Sync>(
    rt: &P,
    alloc: Global,
    mut trace: Opened<F>,
    mut evidence: Opened<F>,
    sharing: Sharing,
    out: &mut W,
    err: &mut E,
) -> Done<F>
    requires trace { IsUnread trace }
    requires evidence { IsUnread evidence }
    // Status 0 says that all that the trace's file gave, to its end, is a trace that is right and fresh, all that the
    // evidence's gave is evidence for it, and the report on them went out whole.
    ensures runs { RunsFiles (codes "audit")
        (writes W.taken W.flushes W.failures W.idle W.contents out.old out.new) result.status result.read }
    ensures ran { RanAudit (path_of trace) (path_of evidence) sharing.workers sharing.slice result.status result.read }
{
    let answer = audit_sharing(
        rt,
        alloc,
        &mut trace.file,
        &mut evidence.file,
        sharing,
        out,
        err,
    );
    Done {
        status: status_with(answer, err),
        read: Ran::Audited(trace, evidence),
    }
}

/// Audits a trace by evidence that is made for it, writes the report to `out`, and hands the trace's file back with
/// what it gave. A fault is told to `err` in one line; there are no early alerts.
pub fn run_audit_made<F: Read, W: Sink, E: Sink, P: Threads + Wait + Sync>(
    rt: &P,
    alloc: Global,
    mut trace: Opened<F>,
    sharing: Sharing,
    out: &mut W,
    err: &mut E,
) -> Done<F>
    requires { IsUnread trace }
    // Status 0 says that all that the trace's file gave, to its end, is a trace that is right and fresh, and the report
    // on it and on evidence that was made for it went out whole.
    ensures runs { RunsFiles (codes "audit")
        (writes W.taken W.flushes W.failures W.idle W.contents out.old out.new) result.status result.read }
    ensures ran { RanAuditAlone (path_of trace) sharing.workers sharing.slice result.status result.read }
{
    let answer = audit_made(
        rt,
        alloc,
        &mut trace.file,
        out,
        sharing.workers,
        sharing.slice,
    );
    Done {
        status: status_with(answer, err),
        read: Ran::AuditedAlone(trace),
    }
}

/// Follows a trace as it comes, writes what is found to `out` as soon as it can be told, and hands the trace's file back
/// with what it gave. A fault is told to `err` in one line.
pub fn run_follow<F: Read, W: Sink, E: Sink>(
    alloc: Global,
    mut trace: Opened<F>,
    heartbeats: bool,
    out: &mut W,
    err: &mut E,
) -> Done<F>
    requires { IsUnread trace }
    // Status 0 says that all that the trace's file gave, to its end, is a trace that is right and fresh, and that what
    // went out is what was told of it.
    ensures runs { RunsFiles (codes "follow")
        (writes W.taken W.flushes W.failures W.idle W.contents out.old out.new) result.status result.read }
    ensures ran { RanFollow (path_of trace) result.status result.read }
{
    let answer = follow(alloc, &mut trace.file, out, heartbeats);
    Done {
        status: status_with(answer, err),
        read: Ran::Followed(trace),
    }
}

/// The status of the answer of `make`. How many entries have no evidence is told to `err`, and with `list` before it
/// the line of each; a fault is told there in one line.
fn status_made<E: Sink>(answer: Result<Vec<u64>, AuditFault>, list: bool, err: &mut E) -> u8
    ensures { IsStatusDone answer result }
{
    match answer {
        Ok(given_up) => {
            tell_given_up(err, &given_up, list);
            0
        }
        Err(fault) => fail(err, &fault),
    }
}

/// Writes evidence for a trace to `out`, and hands the trace's file back with what it gave. How many entries have
/// none is told to `err`, and with `list` before it the line of each; a fault is told there in one line.
pub fn run_make<F: Read, W: Sink, E: Sink>(
    alloc: Global,
    mut trace: Opened<F>,
    list: bool,
    out: &mut W,
    err: &mut E,
) -> Done<F>
    requires { IsUnread trace }
    // Status 0 says that all that the file gave, to its end, is a trace, and the records that are made for it went out
    // whole.
    ensures runs { RunsFiles (codes "make")
        (writes W.taken W.flushes W.failures W.idle W.contents out.old out.new) result.status result.read }
    ensures ran { RanMake (path_of trace) result.status result.read }
{
    let answer = make_records_listing(alloc, &mut trace.file, out);
    Done {
        status: status_made(answer, list, err),
        read: Ran::Made(trace),
    }
}

/// The status of the answer of `history`. A fault is told to `err` in one line.
fn status_told<E: Sink>(answer: Result<u64, AuditFault>, err: &mut E) -> u8
    ensures { IsStatusDone answer result }
{
    match answer {
        Ok(_) => 0,
        Err(fault) => fail(err, &fault),
    }
}

/// Writes a tuple's history in a trace to `out`, and hands the trace's file back with what it gave. A fault is told
/// to `err` in one line.
pub fn run_history<F: Read, W: Sink, E: Sink>(
    alloc: Global,
    mut trace: Opened<F>,
    tuple: &Tuple,
    out: &mut W,
    err: &mut E,
) -> Done<F>
    requires { IsUnread trace }
    ensures runs { RunsFiles (codes "history")
        (writes W.taken W.flushes W.failures W.idle W.contents out.old out.new) result.status result.read }
    // All that the file gave, to its end, is a trace, and the tuple's history in it went out whole.
    ensures ran { RanHistoryOf (path_of trace) tuple.now (W.taken out.old) (W.taken out.new) result.status result.read }
{
    let answer = history(alloc, &mut trace.file, tuple, out);
    Done {
        status: status_told(answer, err),
        read: Ran::Told(trace),
    }
}
