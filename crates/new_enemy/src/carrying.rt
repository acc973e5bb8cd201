//! Runs that begin with a carry, or hand one on.

ghost use Rattle.std.specs.Prelude.{◌≡◌, codes, option_map, Some, None};
ghost use Rattle.audit.specs.Devices.{writes};
ghost use Rattle.new_enemy.specs.Carrying.{HandsOn, IsHandedOn, status_of_end};
ghost use Rattle.new_enemy.specs.Opened.{IsUnread, path_of};
ghost use Rattle.new_enemy.specs.Runs.{RunsFiles};
ghost use Rattle.new_enemy.specs.Words.{RanOn};

use crate::opened::{Opened, create};
use crate::run::{Done, Ran};
use crate::status::{fail, fail_to_begin, tell, tell_path, tell_without_carry};
use audit::{AuditFault, Verdict};
use devices::{Sink, send};
use follow::{RunEnd, RunFault, follow_behind, follow_first};
use std::alloc::Global;
use std::fs::Files;
use std::io::Read;

/// The file that a run hands its carry on to.
#[derive(Drop)]
pub enum Handed<F> {
    /// No carry was asked for, or none was given.
    Nothing,
    /// It could not be made.
    NotMade,
    Made(Opened<F>),
}

/// What a run hands on: a carry in the file of this path, whose base moves up to the timestamp, and which has so many of
/// the versions that were issued last, or all.
#[derive(Clone, Copy)]
pub struct Carrying<'a> {
    pub path: &'a str,
    pub oldest: u64,
    pub versions: Option<u64>,
}

/// The exit status of a run that ended: 6 where nothing was found, and it is not whole.
fn status_of_end(end: &RunEnd) -> u8
    ensures { result ≡ status_of_end end.now.verdict end.now.whole }
{
    match end.verdict {
        Verdict::Dirty => 1,
        Verdict::Clean if end.whole => 0,
        Verdict::Clean => 6,
    }
}

/// Writes what a run hands on to a file that is made for it, and answers the exit status. A fault is told to `err` in one
/// line.
fn hand_on_to<E: Sink, P: Files>(
    rt: &P,
    path: &str,
    end: &RunEnd,
    err: &mut E,
) -> (u8, Handed<P::File>)
    ensures { HandsOn path.now end.now result.0 result.1 }
{
    let Some(text) = &end.carry else {
        tell_without_carry(err);
        return (2, Handed::Nothing);
    };
    let mut made = match create(rt, path) {
        Ok(made) => made,
        Err(_) => {
            tell_path(err, path);
            return (5, Handed::NotMade);
        }
    };
    match send(&mut made.file, text.as_bytes()) {
        Ok(()) => (status_of_end(end), Handed::Made(made)),
        Err(unsent) => {
            let fault = AuditFault::Write {
                written: unsent.written,
            };
            tell(err, &fault);
            (5, Handed::Made(made))
        }
    }
}

/// The exit status of a run's answer, and the file that its carry went to. A fault is told to `err` in one line.
fn finish_run<E: Sink, P: Files>(
    rt: &P,
    carrying: Option<Carrying<'_>>,
    answer: Result<RunEnd, RunFault>,
    err: &mut E,
) -> (u8, Handed<P::File>)
    ensures { IsHandedOn (option_map (λ c. c.path.now) carrying.entry) answer result.0 result.1 }
{
    match answer {
        Ok(end) => match carrying {
            Some(carrying) => hand_on_to(rt, carrying.path, &end, err),
            None => (status_of_end(&end), Handed::Nothing),
        },
        Err(RunFault::Carry(refusal)) => (fail_to_begin(err, &refusal), Handed::Nothing),
        Err(RunFault::Run(fault)) => (fail(err, &fault), Handed::Nothing),
    }
}

fn oldest_of(carrying: &Option<Carrying<'_>>) -> Option<u64> {
    match carrying {
        Some(carrying) => Some(carrying.oldest),
        None => None,
    }
}

fn versions_of(carrying: &Option<Carrying<'_>>) -> Option<u64> {
    match carrying {
        Some(carrying) => carrying.versions,
        None => None,
    }
}

/// Follows the trace of a file behind the carry of another, and hands the two back with what they gave, and the file that
/// a carry went to where one is asked for.
pub fn run_behind<W: Sink, E: Sink, P: Files>(
    rt: &P,
    alloc: Global,
    mut trace: Opened<P::File>,
    mut from: Opened<P::File>,
    carrying: Option<Carrying<'_>>,
    heartbeats: bool,
    out: &mut W,
    err: &mut E,
) -> Done<P::File>
    requires trace { IsUnread trace }
    requires from { IsUnread from }
    ensures runs { RunsFiles (codes "follow")
        (writes W.taken W.flushes W.failures W.idle W.contents out.old out.new) result.status result.read }
    ensures ran { RanOn (path_of trace) (Some (path_of from)) (option_map (λ c. c.path.now) carrying.entry)
        result.status result.read }
{
    let answer = follow_behind(
        alloc,
        &mut from.file,
        oldest_of(&carrying),
        versions_of(&carrying),
        &mut trace.file,
        out,
        heartbeats,
    );
    let (status, handed) = finish_run(rt, carrying, answer, err);
    Done {
        status,
        read: Ran::WentOn(trace, Some(from), handed),
    }
}

/// Follows the trace of a file as the first run of a log, and hands it back with what it gave, and the file that the carry
/// went to.
pub fn run_first<W: Sink, E: Sink, P: Files>(
    rt: &P,
    alloc: Global,
    mut trace: Opened<P::File>,
    carrying: Carrying<'_>,
    heartbeats: bool,
    out: &mut W,
    err: &mut E,
) -> Done<P::File>
    requires { IsUnread trace }
    ensures runs { RunsFiles (codes "follow")
        (writes W.taken W.flushes W.failures W.idle W.contents out.old out.new) result.status result.read }
    ensures ran { RanOn (path_of trace) None (Some carrying.entry.path.now) result.status result.read }
{
    let oldest = Some(carrying.oldest);
    let versions = carrying.versions;
    let answer = match follow_first(alloc, oldest, versions, &mut trace.file, out, heartbeats) {
        Ok(end) => Ok(end),
        Err(fault) => Err(RunFault::Run(fault)),
    };
    let (status, handed) = finish_run(rt, Some(carrying), answer, err);
    Done {
        status,
        read: Ran::WentOn(trace, None, handed),
    }
}
