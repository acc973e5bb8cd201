//! The program, over any runtime, reader and writers.

ghost use Rattle.std.specs.Prelude.{ℕ, Option, ◌≡◌, ◌≢◌, ◌↔◌, ◌+◌, ◌<◌, ◌≤◌, [], length, map, None, Some, false, true, codes, IfSome, string_bytes, option_map};
ghost use Rattle.devices.specs.Devices.{moved_by, failures_of, stops_of};
ghost use Rattle.json_lines.specs.declared.lines.TheConstants.{CHUNK};
ghost use Rattle.json_lines.specs.declared.reading.TheConstants.{MAX_INPUT};
ghost use Rattle.command_line.specs.Asked.{asked_by, asked_in, command_of, follows, is_to_show};
ghost use Rattle.audit.specs.Devices.{reads, writes};
ghost use Rattle.audit.specs.Shared.{are_within_limits};
ghost use Rattle.new_enemy.specs.Files.{OfFiles, file_failures};
ghost use Rattle.new_enemy.specs.Opened.{IsUnread, file_of, path_of};
ghost use Rattle.new_enemy.specs.Outcomes.{HasSucceeded, HasFoundDirty, HasRefused, HasLeftOut, HasReadNothing, is_followed, is_opened};
ghost use Rattle.new_enemy.specs.Run.{IsRefused, OfEveryInput, IsCleanRun, IsDirtyRun};
ghost use Rattle.new_enemy.specs.Runs.{RunsFiles, SaysOfRun};
ghost use Rattle.new_enemy.specs.Words.{HasRead, IsAsked, IsOfCommand, is_shown, RanAsked, RanAudit, RanAuditAlone, RanMake, RanHistory};
ghost use Rattle.new_enemy.specs.declared.run.Ran.TheVariants as ran;

use crate::carrying::{Carrying, Handed, run_behind, run_first};
use crate::files::{Sharing, run_audit, run_audit_made, run_follow, run_history, run_make};
use crate::joined::run_joined;
use crate::opened::{Opened, open};
use crate::status::{tell, tell_path, tell_there, tell_tuple};
use audit::AuditFault;
use command_line::{Answer, Request, read_words};
use devices::{Counted, Sink, Source, send};
use std::alloc::Global;
use std::fs;
use std::fs::Files;
use std::io::{Read, Write};
use std::sync::Wait;
use std::thread::Threads;
use tuple_text::{TupleFault, parse_tuple};

/// What a run read.
#[derive(Drop)]
pub enum Ran<F> {
    /// Joined input.
    Joined,
    /// The trace and the evidence of an audit.
    Audited(Opened<F>, Opened<F>),
    /// The trace of an audit by evidence that was made for it.
    AuditedAlone(Opened<F>),
    /// The trace that evidence was made for.
    Made(Opened<F>),
    /// The trace of a tuple's history.
    Told(Opened<F>),
    /// The trace that was followed.
    Followed(Opened<F>),
    /// The trace of a run, the carry that it began with, where there was one, and the file that it handed on to.
    WentOn(Opened<F>, Option<Opened<F>>, Handed<F>),
    /// Nothing: this text of help or of the version went out.
    Shown(String),
    /// No file, or not all that the command names.
    Nothing,
}

/// How a run ended: its exit status, and what it read.
#[derive(Drop)]
pub struct Done<F> {
    pub status: u8,
    pub read: Ran<F>,
}

impl<F> Done<F> {
    fn nothing(status: u8) -> Done<F>
        ensures { result ≡ record { status = status; read = ran.Nothing } }
    {
        Done {
            status,
            read: Ran::Nothing,
        }
    }
}

/// How a run on devices ended, with these and what they gave and took.
#[derive(Drop)]
pub struct Ended<F, R, W, E> {
    pub status: u8,
    pub read: Ran<F>,
    pub input: Counted<R>,
    pub out: Counted<W>,
    pub err: Counted<E>,
}

/// The file of a path, or a line on `err`.
fn open_or_tell<P: Files, E: Sink>(rt: &P, path: &str, err: &mut E) -> Option<Opened<P::File>>
    ensures path { IfSome result (λ o. path_of o ≡ path.now) }
    ensures unread { IfSome result IsUnread }
{
    match open(rt, path) {
        Ok(file) => Some(file),
        Err(_) => {
            tell_path(err, path);
            None
        }
    }
}

/// The audit of the files of two paths, or of the first by evidence that is made.
fn audit_paths<W: Sink, E: Sink, P: Files + Threads + Wait + Sync>(
    rt: &P,
    alloc: Global,
    paths: (&str, Option<&str>),
    sharing: Sharing,
    out: &mut W,
    err: &mut E,
) -> Done<P::File>
    ensures runs { RunsFiles (codes "audit")
        (writes W.taken W.flushes W.failures W.idle W.contents out.old out.new) result.status result.read }
    ensures ran { IfSome paths.entry.1
        (λ e. RanAudit paths.entry.0.now e.now sharing.workers sharing.slice result.status result.read) }
    ensures ran_alone { paths.entry.1 ≡ None
        → RanAuditAlone paths.entry.0.now sharing.workers sharing.slice result.status result.read }
{
    let (trace, evidence) = paths;
    let Some(trace) = open_or_tell(rt, trace, err) else {
        return Done::nothing(5);
    };
    let Some(evidence) = evidence else {
        return run_audit_made(rt, alloc, trace, sharing, out, err);
    };
    let Some(evidence) = open_or_tell(rt, evidence, err) else {
        return Done::nothing(5);
    };
    run_audit(rt, alloc, trace, evidence, sharing, out, err)
}

/// Evidence for the trace of a path.
fn make_for_path<W: Sink, E: Sink, P: Files>(
    rt: &P,
    alloc: Global,
    trace: &str,
    list: bool,
    out: &mut W,
    err: &mut E,
) -> Done<P::File>
    ensures runs { RunsFiles (codes "make")
        (writes W.taken W.flushes W.failures W.idle W.contents out.old out.new) result.status result.read }
    ensures ran { RanMake trace.now result.status result.read }
{
    let Some(trace) = open_or_tell(rt, trace, err) else {
        return Done::nothing(5);
    };
    run_make(alloc, trace, list, out, err)
}

/// The history of a tuple's text in the trace of a path.
fn history_in_path<W: Sink, E: Sink, P: Files>(
    rt: &P,
    alloc: Global,
    trace: &str,
    tuple: &str,
    out: &mut W,
    err: &mut E,
) -> Done<P::File>
    ensures runs { RunsFiles (codes "history")
        (writes W.taken W.flushes W.failures W.idle W.contents out.old out.new) result.status result.read }
    ensures ran { RanHistory trace.now tuple.now (W.taken out.old) (W.taken out.new) result.status result.read }
{
    let tuple = match parse_tuple(alloc, tuple) {
        Ok(tuple) => tuple,
        Err(TupleFault::OutOfMemory) => {
            tell(err, &AuditFault::OutOfMemory);
            return Done::nothing(4);
        }
        Err(fault) => {
            tell_tuple(err, &fault);
            return Done::nothing(2);
        }
    };
    let Some(trace) = open_or_tell(rt, trace, err) else {
        return Done::nothing(5);
    };
    run_history(alloc, trace, &tuple, out, err)
}

/// Whether a file stands where one is to be made, which is told then.
fn is_there<P: Files, E: Sink>(rt: &P, carrying: Option<Carrying<'_>>, err: &mut E) -> bool {
    let Some(carrying) = carrying else {
        return false;
    };
    match fs::exists(rt, carrying.path) {
        Ok(true) => {
            tell_there(err, carrying.path);
            true
        }
        _ => false,
    }
}

/// The trace of a path, as it comes; behind the carry of another path, where there is one.
fn follow_paths<W: Sink, E: Sink, P: Files>(
    rt: &P,
    alloc: Global,
    paths: (&str, Option<&str>),
    carrying: Option<Carrying<'_>>,
    heartbeats: bool,
    out: &mut W,
    err: &mut E,
) -> Done<P::File>
    ensures runs { RunsFiles (codes "follow")
        (writes W.taken W.flushes W.failures W.idle W.contents out.old out.new) result.status result.read }
    ensures ran { (oldest versions : Option ℕ) → RanAsked (follows paths.entry.0.now (option_map (λ s. s.now) paths.entry.1)
        (option_map (λ c. c.path.now) carrying.entry) oldest versions heartbeats)
        (W.taken out.old) (W.taken out.new) result.status result.read }
{
    let (trace, from) = paths;
    if is_there(rt, carrying, err) {
        return Done::nothing(5);
    }
    let Some(trace) = open_or_tell(rt, trace, err) else {
        return Done::nothing(5);
    };
    let Some(from) = from else {
        return match carrying {
            Some(carrying) => run_first(rt, alloc, trace, carrying, heartbeats, out, err),
            None => run_follow(alloc, trace, heartbeats, out, err),
        };
    };
    let Some(from) = open_or_tell(rt, from, err) else {
        return Done::nothing(5);
    };
    run_behind(rt, alloc, trace, from, carrying, heartbeats, out, err)
}

/// What a run is to hand on: its base stays where no timestamp is given, and it has all versions where no number is.
fn carrying_of(
    carry: Option<&str>,
    oldest: Option<u64>,
    versions: Option<u64>,
) -> Option<Carrying<'_>>
    ensures { option_map (λ c. c.path.now) result ≡ option_map (λ s. s.now) carry.entry }
{
    match carry {
        Some(path) => Some(Carrying {
            path,
            oldest: oldest.unwrap_or(0),
            versions,
        }),
        None => None,
    }
}

/// Runs what is asked for.
fn run_request<R: Source, W: Sink, E: Sink, P: Files + Threads + Wait + Sync>(
    rt: &P,
    alloc: Global,
    request: Request<'_>,
    input: &mut R,
    out: &mut W,
    err: &mut E,
) -> Done<P::File>
    ensures says { SaysOfRun (reads R.given R.ends R.failures R.remaining input.old input.new)
        (writes W.taken W.flushes W.failures W.idle W.contents out.old out.new) result.status result.read }
    ensures asked { RanAsked (asked_by request.entry) (W.taken out.old) (W.taken out.new) result.status result.read }
    ensures command { IsOfCommand (command_of (asked_by request.entry)) result.read }
    ensures unread { result.read ≢ ran.Joined → input.new ≡ input.old }
{
    match request {
        Request::Joined => Done {
            status: run_joined(alloc, input, out, err),
            read: Ran::Joined,
        },
        Request::Audit {
            trace,
            evidence,
            workers,
            slice,
            early,
        } => {
            let sharing = Sharing {
                workers: workers as usize,
                slice: slice as usize,
                early,
            };
            audit_paths(rt, alloc, (trace, evidence), sharing, out, err)
        }
        Request::Make { trace, list } => make_for_path(rt, alloc, trace, list, out, err),
        Request::History { trace, tuple } => history_in_path(rt, alloc, trace, tuple, out, err),
        Request::Follow {
            trace,
            from,
            carry,
            oldest,
            versions,
            heartbeat,
        } => {
            let carrying = carrying_of(carry, oldest, versions);
            follow_paths(rt, alloc, (trace, from), carrying, heartbeat, out, err)
        }
    }
}

/// Runs what is asked for, or shows what is shown in its place.
fn run_answer<R: Source, W: Sink, E: Sink, P: Files + Threads + Wait + Sync>(
    rt: &P,
    alloc: Global,
    answer: Answer<'_>,
    input: &mut R,
    out: &mut W,
    err: &mut E,
) -> Done<P::File>
    ensures says { SaysOfRun (reads R.given R.ends R.failures R.remaining input.old input.new)
        (writes W.taken W.flushes W.failures W.idle W.contents out.old out.new) result.status result.read }
    ensures asked { IfSome (asked_in answer.entry)
        (λ a. RanAsked a (W.taken out.old) (W.taken out.new) result.status result.read) }
    ensures command { IfSome (asked_in answer.entry) (λ a. IsOfCommand (command_of a) result.read) }
    // Nothing is read where nothing is asked for, and a text goes out only where it is to be shown.
    ensures none { asked_in answer.entry ≡ None → ¬ HasRead result.read }
    ensures shown { is_shown result.read ≡ true → is_to_show answer.entry ≡ true }
    ensures unread { result.read ≢ ran.Joined → input.new ≡ input.old }
{
    match answer {
        Answer::Asks(request) => run_request(rt, alloc, request, input, out, err),
        Answer::Shows(text) => match send(out, text.as_bytes()) {
            Ok(()) => Done {
                status: 0,
                read: Ran::Shown(text),
            },
            Err(unsent) => {
                let fault = AuditFault::Write {
                    written: unsent.written,
                };
                tell(err, &fault);
                Done::nothing(5)
            }
        },
        Answer::Refuses(text) => {
            let _ = send(err, text.as_bytes());
            Done::nothing(3)
        }
    }
}

/// Runs the program on the words after its name, and answers its exit status and what it read: 0 for clean, for
/// evidence that is made, for a history that is told and for help that went out, 1 for dirty, 2 for refused input, 3
/// for usage, 4 for out of memory, 5 for a device that failed and a file that could not be opened, 6 for a run in which
/// nothing was found and not all was audited.
///
/// Without words it audits joined input. A report, evidence, a history or the text of help goes to `out`; a fault is
/// told to `err` in one line, and a failure of `err` changes nothing else.
pub fn run_words<R: Source, W: Sink, E: Sink, P: Files + Threads + Wait + Sync>(
    rt: &P,
    alloc: Global,
    words: &[String],
    input: &mut R,
    out: &mut W,
    err: &mut E,
) -> Done<P::File>
    ensures joined { result.read ≡ ran.Joined ↔ words.now ≡ [] }
    // Words that clap takes, and that write a whole request, are run as what they ask for, over the files of their
    // paths. A text is shown in place of an answer only where help or the version is asked for.
    ensures asked { IsAsked (map string_bytes words.now) (W.taken out.old) (W.taken out.new) result.status result.read }
    // What the status says of what was read and written.
    ensures says { SaysOfRun (reads R.given R.ends R.failures R.remaining input.old input.new)
        (writes W.taken W.flushes W.failures W.idle W.contents out.old out.new) result.status result.read }
    // A command reads its files alone.
    ensures unread { result.read ≢ ran.Joined → input.new ≡ input.old }
{
    match read_words(alloc, words) {
        Ok(answer) => run_answer(rt, alloc, answer, input, out, err),
        Err(_) => {
            tell(err, &AuditFault::OutOfMemory);
            Done::nothing(4)
        }
    }
}

/// Runs the program on its devices, and hands them back with what they gave and took.
pub fn run_on<R: Read, W: Write, E: Write, P: Files + Threads + Wait + Sync>(
    rt: &P,
    alloc: Global,
    words: &[String],
    input: R,
    out: W,
    err: E,
) -> Ended<P::File, R, W, E>
    ensures joined { result.read ≡ ran.Joined ↔ words.now ≡ [] }
    // Words that clap takes, and that write a whole request, are run as what they ask for, over the files of their
    // paths. A text is shown in place of an answer only where help or the version is asked for.
    ensures asked { IsAsked (map string_bytes words.now) [] (moved_by result.out) result.status result.read }
    // All that was read, to its end, is a trace and evidence for it, all that was written is the report on them, and
    // the trace is right and fresh.
    ensures clean { result.status ≡ 0
        → HasSucceeded (IsCleanRun result.input result.out) [] (moved_by result.out) result.read }
    ensures dirty { result.status ≡ 1
        → HasFoundDirty (IsDirtyRun result.input result.out) [] (moved_by result.out) result.read }
    ensures refused { result.status ≡ 2 → HasRefused (OfEveryInput result.input IsRefused) result.read }
    ensures used { result.status ≡ 3 → HasReadNothing result.read }
    ensures device { result.status ≡ 5 → is_opened result.read ≡ true
        → 0 < (failures_of result.input + file_failures result.read) + (failures_of result.out + stops_of result.out) }
    ensures kept { result.status ≢ 5 → (failures_of result.input ≡ 0) × (file_failures result.read ≡ 0)
        × (failures_of result.out ≡ 0) × (stops_of result.out ≡ 0) }
    ensures unread { result.read ≢ ran.Joined → (moved_by result.input ≡ []) × (failures_of result.input ≡ 0) }
    // Of what is followed what was told before stands.
    ensures unwritten { 2 ≤ result.status → result.status ≤ 4 → is_followed result.read ≡ false
        → moved_by result.out ≡ [] }
    ensures most { (length (moved_by result.input) ≤ MAX_INPUT + CHUNK)
        × OfFiles result.read (λ file. length (moved_by file) ≤ MAX_INPUT + CHUNK) }
    ensures left_out { result.status ≡ 6 → HasLeftOut [] (moved_by result.out) result.read }
    ensures statuses { result.status ≤ 6 }
{
    let mut input = Counted::new(input);
    let mut out = Counted::new(out);
    let mut err = Counted::new(err);
    let Done { status, read } = run_words(rt, alloc, words, &mut input, &mut out, &mut err);
    Ended {
        status,
        read,
        input,
        out,
        err,
    }
}
