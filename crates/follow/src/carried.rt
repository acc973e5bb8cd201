//! A run that begins with the text of a carry.

ghost use Rattle.std.specs.Prelude.{◌≡◌, ◌≢◌, ◌+◌, ◌∷◌, ◌≤◌, [], Err, IfErr, IfOk};
ghost use Rattle.trace_lines.specs.Values.{next_line};
ghost use Rattle.carry_laws.specs.Asked.{all_known};
ghost use Rattle.runs.specs.Kept.{log_behind, nothing_kept};
ghost use Rattle.audit.specs.Devices.{reads, writes};
ghost use Rattle.audit.specs.Kinds.{IsOneOf};
ghost use Rattle.audit.specs.Kinds as kind;
ghost use Rattle.follow.specs.Carried.{IsBegunBy, IsCarryRead, Refuses, RunsBehind};
ghost use Rattle.follow.specs.Handing.{RunEnds, RunWentOut};
ghost use Rattle.follow.specs.declared.carried.CarryRefusal.TheVariants as refusal;
ghost use Rattle.follow.specs.Running.{Run};

use crate::handing::{Handing, RunEnd, follow_run};
use crate::whole::read_up_to;
use audit::AuditFault;
use carry::{CarryFault, read_carry};
use carry_laws::Known;
use devices::{Sink, Source};
use json_lines::{InputFault, MAX_INPUT};
use runs::{BeginFault, KeptLog};
use std::alloc::{AllocError, Global};
use thiserror::Error;

/// Why the bytes of a reader begin no run.
#[derive(Clone, Copy, Debug, PartialEq, Eq, Error)]
pub enum CarryRefusal {
    /// The reader failed.
    #[error("carry, read fault")]
    Read,
    /// It has more than 2^30 bytes.
    #[error("carry too long")]
    TooLong,
    /// They are no carry.
    #[error("{0}")]
    Form(CarryFault),
    /// The carry begins no log.
    #[error("{0}")]
    Log(BeginFault),
    #[error("out of memory")]
    OutOfMemory,
}

/// Why a run that was to begin with a carry gives no verdict.
#[derive(Clone, Copy, Debug, PartialEq, Eq, Error)]
pub enum RunFault {
    /// It did not begin.
    #[error("{0}")]
    Carry(CarryRefusal),
    #[error("{0}")]
    Run(AuditFault),
}

/// The log that the bytes of a carry begin, and what is known of it.
fn begun_log(alloc: Global, bytes: &[u8]) -> Result<(KeptLog, Known), CarryRefusal>
    ensures begun { IfOk result (λ r. IsBegunBy bytes.now r.0 r.1) }
    ensures further { IfOk result (λ r. next_line r.0.log ≤ r.0.lines + 1) }
    ensures refused { IfErr result (Refuses bytes.now) }
    ensures causes { result ≢ Err refusal.Read }
{
    let carry = match read_carry(alloc, bytes) {
        Ok(carry) => carry,
        Err(CarryFault::OutOfMemory) => return Err(CarryRefusal::OutOfMemory),
        Err(fault) => return Err(CarryRefusal::Form(fault)),
    };
    match KeptLog::resume(alloc, &carry) {
        Ok(log) => {
            let known = Known {
                base: carry.base,
                versions: carry.versions,
            };
            Ok((log, known))
        }
        Err(BeginFault::OutOfMemory) => Err(CarryRefusal::OutOfMemory),
        Err(fault) => Err(CarryRefusal::Log(fault)),
    }
}

/// The checksum in the last line of a carry, in hexadecimal.
fn checksum_in(alloc: Global, bytes: &[u8]) -> Result<Option<String>, AllocError> {
    let end = bytes.len().saturating_sub(1);
    let Some(digits) = bytes.get(end.saturating_sub(64)..end) else {
        return Ok(None);
    };
    match std::str::from_utf8(digits) {
        Ok(text) => Ok(Some(String::from_str(alloc, text)?)),
        Err(_) => Ok(None),
    }
}

/// What a carry begins.
#[derive(Drop)]
struct Begun {
    log: KeptLog,
    known: Known,
    checksum: Option<String>,
}

/// Reads a carry to the reader's end, and begins its log.
fn begin_with<C: Source>(alloc: Global, carry: &mut C) -> Result<Begun, CarryRefusal>
    ensures read { IsCarryRead (λ r. (r.log, r.known))
        (reads C.given C.ends C.failures C.remaining carry.old carry.new) result }
    ensures further { IfOk result (λ r. next_line r.log.log ≤ r.log.lines + 1) }
{
    let bytes = match read_up_to(alloc, carry, MAX_INPUT) {
        Ok(bytes) => bytes,
        Err(InputFault::Read) => return Err(CarryRefusal::Read),
        Err(InputFault::TooLong) => return Err(CarryRefusal::TooLong),
        Err(InputFault::OutOfMemory) => return Err(CarryRefusal::OutOfMemory),
    };
    let (log, known) = match begun_log(alloc, &bytes) {
        Ok(begun) => begun,
        Err(refusal) => return Err(refusal),
    };
    match checksum_in(alloc, &bytes) {
        Ok(checksum) => Ok(Begun {
            log,
            known,
            checksum,
        }),
        Err(_) => Err(CarryRefusal::OutOfMemory),
    }
}

/// What a run hands on behind a carry with this checksum, where a timestamp is given.
fn handing_behind(
    oldest: Option<u64>,
    versions: Option<u64>,
    checksum: &Option<String>,
) -> Option<Handing<'_>> {
    let before = match checksum {
        Some(digits) => Some(digits.as_str()),
        None => None,
    };
    match oldest {
        Some(oldest) => Some(Handing {
            oldest,
            versions,
            before,
        }),
        None => None,
    }
}

/// Follows the lines of a run behind the log that a carry begins, as [`follow_run`] does. Where a timestamp is given the
/// run hands on a carry, whose base moves up to it, and which has all versions, or so many of those issued last.
///
/// The carry is read first, to its end. Where it is refused nothing is followed, and nothing told: `Read` where its
/// reader failed; `TooLong` behind 2^30 bytes; `Form` where they are no carry; `Log` where it begins no log.
pub fn follow_behind<C: Source, A: Source, W: Sink>(
    alloc: Global,
    carry: &mut C,
    oldest: Option<u64>,
    versions: Option<u64>,
    trace: &mut A,
    out: &mut W,
    heartbeats: bool,
) -> Result<RunEnd, RunFault>
    ensures { RunsBehind (reads C.given C.ends C.failures C.remaining carry.old carry.new)
        (reads A.given A.ends A.failures A.remaining trace.old trace.new)
        (writes W.taken W.flushes W.failures W.idle W.contents out.old out.new) result }
{
    let Begun {
        log,
        known,
        checksum,
    } = match begin_with(alloc, carry) {
        Ok(begun) => begun,
        Err(refusal) => return Err(RunFault::Carry(refusal)),
    };
    let handing = handing_behind(oldest, versions, &checksum);
    match follow_run(alloc, log, known, handing, trace, out, heartbeats) {
        Ok(end) => Ok(end),
        Err(fault) => Err(RunFault::Run(fault)),
    }
}

/// Follows the lines of the first run of a log, as [`follow_run`] does. Where a timestamp is given the run hands on a
/// carry, whose base moves up to it, and which has all versions, or so many of those issued last.
pub fn follow_first<A: Source, W: Sink>(
    alloc: Global,
    oldest: Option<u64>,
    versions: Option<u64>,
    trace: &mut A,
    out: &mut W,
    heartbeats: bool,
) -> Result<RunEnd, AuditFault>
    ensures run { Run (log_behind nothing_kept) (RunEnds nothing_kept all_known) (RunWentOut nothing_kept all_known)
        (reads A.given A.ends A.failures A.remaining trace.old trace.new)
        (writes W.taken W.flushes W.failures W.idle W.contents out.old out.new) result }
    ensures kinds { IfErr result (IsOneOf (kind.trace ∷ kind.write ∷ kind.memory ∷ [])) }
{
    let handing = handing_behind(oldest, versions, &None);
    let log = KeptLog::new(alloc);
    let known = Known {
        base: 0,
        versions: 0,
    };
    follow_run(alloc, log, known, handing, trace, out, heartbeats)
}
