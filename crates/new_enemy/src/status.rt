//! Exit statuses, and the lines that tell why there is no answer.

ghost use Rattle.std.specs.Prelude.{◌≡◌, ◌≢◌, ◌≤◌};
ghost use Rattle.new_enemy.specs.Carrying.{IsStatusOfRefusal};
ghost use Rattle.new_enemy.specs.Run.{IsStatus, IsStatusOf};

use arrayvec::ArrayString;
use audit::{AuditFault, Verdict};
use devices::{Sink, send};
use evidence_check::{EvidenceCause, EvidenceFault};
use follow::CarryRefusal;
use std::fmt::Write as _;
use std::io::ErrorKind;
use trace_lines::{Cause, TraceFault};
use tuple_text::TupleFault;

/// The exit status of a fault.
fn status_of(fault: &AuditFault) -> u8
    ensures status { IsStatus fault.now result }
    ensures failure { 2 ≤ result }
{
    match fault {
        AuditFault::Trace(
            TraceFault {
                cause: Cause::Read,
                ..
            },
        ) => 5,
        AuditFault::Trace(_) => 2,
        AuditFault::Evidence(
            EvidenceFault {
                cause: EvidenceCause::Read,
                ..
            },
        ) => 5,
        AuditFault::Evidence(_) => 2,
        AuditFault::Write { .. } => 5,
        AuditFault::OutOfMemory => 4,
        AuditFault::Limits => 3,
        AuditFault::Joined => 2,
        AuditFault::Input => 5,
    }
}

/// How many bytes the line of a fault may have: more than any has.
const LINE: usize = 256;

/// Writes the line of a fault, and takes no memory for it; a failure of the writer changes nothing else.
pub fn tell<E: Sink>(err: &mut E, fault: &AuditFault) {
    let mut line = ArrayString::<LINE>::new();
    let _ = writeln!(line, "{fault}");
    let _ = send(err, line.as_str().as_bytes());
}

/// Tells a fault, and answers its exit status.
pub fn fail<E: Sink>(err: &mut E, fault: &AuditFault) -> u8
    ensures { (2 ≤ result) × IsStatus fault.now result }
{
    tell(err, fault);
    status_of(fault)
}

/// The status of an audit's answer; a fault is told to `err`.
pub fn status_with<E: Sink>(answer: Result<Verdict, AuditFault>, err: &mut E) -> u8
    ensures { IsStatusOf answer result }
{
    match answer {
        Ok(Verdict::Clean) => 0,
        Ok(Verdict::Dirty) => 1,
        Err(fault) => fail(err, &fault),
    }
}

/// The exit status of a carry that is refused.
fn status_of_refusal(refusal: &CarryRefusal) -> u8
    ensures { IsStatusOfRefusal refusal.now result }
{
    match refusal {
        CarryRefusal::Read => 5,
        CarryRefusal::OutOfMemory => 4,
        CarryRefusal::TooLong => 2,
        CarryRefusal::Form(_) => 2,
        CarryRefusal::Log(_) => 2,
    }
}

/// Tells why a carry begins no run, and answers the exit status.
pub fn fail_to_begin<E: Sink>(err: &mut E, refusal: &CarryRefusal) -> u8
    ensures { IsStatusOfRefusal refusal.now result }
{
    let mut line = ArrayString::<LINE>::new();
    let _ = writeln!(line, "{refusal}");
    let _ = send(err, line.as_str().as_bytes());
    status_of_refusal(refusal)
}

/// Tells that a run has no carry to hand on.
pub fn tell_without_carry<E: Sink>(err: &mut E) {
    let _ = send(
        err,
        b"no carry: no commit stands in front of all entries that wait for one\n",
    );
}

/// Writes the line of a file that stands where one is to be made.
pub fn tell_there<E: Sink>(err: &mut E, path: &str) {
    let _ = send(err, b"there already: ");
    let _ = send(err, path.as_bytes());
    let _ = send(err, b"\n");
}

/// Tells why the words after the program's name could not be read, and answers the exit status: 4 for want of
/// memory, 3 for a word that is not UTF-8.
pub fn refuse_words<E: Sink>(kind: ErrorKind, err: &mut E) -> u8
    ensures memory { kind ≡ ErrorKind.OutOfMemory → result ≡ 4 }
    ensures usage { kind ≢ ErrorKind.OutOfMemory → result ≡ 3 }
{
    if kind == ErrorKind::OutOfMemory {
        tell(err, &AuditFault::OutOfMemory);
        4
    } else {
        let _ = send(err, b"usage: a word is not UTF-8\n");
        3
    }
}

/// Writes the line of a tuple that is refused.
pub fn tell_tuple<E: Sink>(err: &mut E, fault: &TupleFault) {
    let mut line = ArrayString::<LINE>::new();
    let _ = writeln!(line, "tuple: {fault}");
    let _ = send(err, line.as_str().as_bytes());
}

/// Writes the line of a file that can't be opened.
pub fn tell_path<E: Sink>(err: &mut E, path: &str) {
    let _ = send(err, b"cannot open ");
    let _ = send(err, path.as_bytes());
    let _ = send(err, b"\n");
}

/// Writes how many entries have no evidence, where there are any, and with `list` before it the line of each. A
/// failure of the writer changes nothing else.
pub fn tell_given_up<E: Sink>(err: &mut E, lines: &[u64], list: bool) {
    if list {
        for line in lines {
            tell_number(err, "gave up line ", *line);
        }
    }
    if !lines.is_empty() {
        tell_number(err, "gave up ", lines.len() as u64);
    }
}

/// Writes a line that ends in a number.
fn tell_number<E: Sink>(err: &mut E, what: &str, number: u64) {
    let mut line = ArrayString::<LINE>::new();
    let _ = writeln!(line, "{what}{number}");
    let _ = send(err, line.as_str().as_bytes());
}
