//! What is told of a log, line by line.

ghost use Rattle.std.specs.Prelude.{◌≡◌, ◌<◌, ◌≤◌, ◌+◌, ◌^◌, true, false, length, slice_get, is_none, [], ◌∷◌, None, Some, IfOk, IfSome, OnOk};
ghost use Rattle.trace_lines.specs.Values.{EntryValue, TraceValue};
ghost use Rattle.monitor.specs.Standing.{AreToBeTold, IsAtEnd, IsCommitNext, IsEntryNext, IsReached, Stands, Takes, TakesCommit, TakesEntry, line_of, open_entries, time_of};
ghost use Rattle.follow_laws.specs.Told.{is_at};
ghost use Rattle.monitor.specs.Telling.{IsJudgedIf, Tells, TellsLeft, TellsOf, TellsOfEach, if_names, moment_of, told_at_commit, told_at_end, told_at_once};

use crate::judge::Judge;
use crate::waiting::{due, left};
use evidence_check::Judged;
use findings::{Finding, What, found_where, push_found};
use std::alloc::{AllocError, Global};
use std::collections::BTreeSet;
use trace_lines::Trace;
use trace_lines::laws::{entries_rise, stand_in_order};

/// How much of a trace was taken, and which of its entries wait for a commit.
#[derive(Drop)]
pub struct Monitor {
    pub alloc: Global,
    /// How many entries were taken, and how many commits.
    pub entries: usize,
    pub commits: usize,
    /// From which entry on they stand behind the last of these commits.
    pub fresh: usize,
    /// The entries that none of these commits reaches, by snapshot and number.
    pub waiting: BTreeSet<(u64, usize)>,
}

/// What is found on an entry and told at its own line: all but an open snapshot, which a later commit makes.
fn at_once(found: [Option<What>; 7]) -> [Option<What>; 7]
    ensures { result ≡ told_at_once found }
{
    [
        found[0], found[1], found[2], None, found[4], found[5], found[6],
    ]
}

/// An open snapshot, where it names the line.
fn if_names(opened: Option<What>, line: u64) -> Option<What>
    ensures { result ≡ if_names line opened }
{
    match opened {
        Some(What::OpenSnapshot(l)) if l == line => opened,
        _ => None,
    }
}

/// What is found on an entry and told at the line of a commit: that its snapshot is open, where that names the line,
/// and what the judgement finds.
fn at_commit(found: [Option<What>; 7], line: u64) -> [Option<What>; 7]
    ensures { result ≡ told_at_commit found line }
{
    [
        None,
        None,
        None,
        if_names(found[3], line),
        None,
        None,
        found[6],
    ]
}

/// What is found on an entry and told at the end of the log.
fn at_end(found: [Option<What>; 7]) -> [Option<What>; 7]
    ensures { result ≡ told_at_end found }
{
    [None, None, None, None, None, None, found[6]]
}

/// As many entries and commits as a trace has are numbers of 64 bits. That is a law: it computes nothing.
fn counts_fit(trace: &Trace)
    ensures entries { length trace.now.entries < 2 ^ 64 }
    ensures commits { length trace.now.commits < 2 ^ 64 }
{
    let _ = trace.len();
    let _ = trace.chains().commits().len();
}

/// Whether commit `c` is the first at or above the timestamp.
fn settles(trace: &Trace, c: usize, at: u64) -> bool
    requires { c < length trace.now.commits }
    ensures reaches { result ≡ true → (at ≤ time_of trace.now c) × ¬ IsReached trace.now c at }
    ensures not { result ≡ false → ¬ ((at ≤ time_of trace.now c) × ¬ IsReached trace.now c at) }
{
    let times = trace.chains().commits();
    at <= times[c] && (c == 0 || times[c - 1] < at)
}

/// How evidence that is made for entry `i` judges it, where it is to be judged now. What is not is taken for supported,
/// of which nothing is told.
fn judge_now<J: Judge>(
    trace: &Trace,
    judge: &mut J,
    i: usize,
    now: bool,
) -> Result<Judged, AllocError>
    requires judge { J.of judge.old ≡ trace.now }
    requires entry { i < length trace.now.entries }
    ensures judge { J.of judge.new ≡ J.of judge.old }
    ensures judged { IfOk result (λ j. (e : EntryValue) → slice_get trace.now.entries i ≡ Some e
        → IsJudgedIf J.allows now trace.now e j) }
{
    if now {
        judge.judge(trace, i)
    } else {
        Ok(Judged::Supported)
    }
}

/// Tells what is found on entry `i` and told at its own line, where it is reached by a commit before it or is not.
fn tell_at_once<J: Judge>(
    trace: &Trace,
    judge: &mut J,
    i: usize,
    reached: bool,
    told: &mut Vec<Finding>,
) -> Result<(), AllocError>
    requires judge { J.of judge.old ≡ trace.now }
    requires entry { i < length trace.now.entries }
    requires yes { reached ≡ true → (e : EntryValue) → slice_get trace.now.entries i ≡ Some e
        → IsReached trace.now e.before e.snapshot }
    requires no { reached ≡ false → (e : EntryValue) → slice_get trace.now.entries i ≡ Some e
        → ¬ IsReached trace.now e.before e.snapshot }
    ensures judge { J.of judge.new ≡ J.of judge.old }
    ensures told { OnOk result ((e : EntryValue) → slice_get trace.now.entries i ≡ Some e
        → TellsOf J.allows trace.now (is_at e.line) i e told.old.items told.new.items) }
{
    stand_in_order(trace);
    entries_rise(trace);
    let judged = judge_now(trace, judge, i, reached)?;
    let found = found_where(trace, i, judged);
    push_found(trace.entry(i).line, &at_once(found), told)
}

/// Tells what is found on entry `i`, which stands before commit `c`, and told at the line of that.
fn tell_at_commit<J: Judge>(
    trace: &Trace,
    judge: &mut J,
    i: usize,
    c: usize,
    told: &mut Vec<Finding>,
) -> Result<(), AllocError>
    requires judge { J.of judge.old ≡ trace.now }
    requires commit { c < length trace.now.commits }
    requires entry { (e : EntryValue) × (slice_get trace.now.entries i ≡ Some e) × (e.before ≤ c) }
    ensures judge { J.of judge.new ≡ J.of judge.old }
    ensures told { OnOk result ((e : EntryValue) → slice_get trace.now.entries i ≡ Some e
        → TellsOf J.allows trace.now (is_at (line_of trace.now c)) i e told.old.items told.new.items) }
{
    stand_in_order(trace);
    entries_rise(trace);
    let entry = trace.entry(i);
    let now = settles(trace, c, entry.snapshot);
    let judged = judge_now(trace, judge, i, now)?;
    let found = found_where(trace, i, judged);
    push_found(entry.line, &at_commit(found, trace.commit_line(c)), told)
}

/// Tells what the judgement finds of entry `i`, which no commit reaches.
fn tell_at_end<J: Judge>(
    trace: &Trace,
    judge: &mut J,
    i: usize,
    told: &mut Vec<Finding>,
) -> Result<(), AllocError>
    requires judge { J.of judge.old ≡ trace.now }
    requires entry { (e : EntryValue) × (slice_get trace.now.entries i ≡ Some e)
        × ¬ IsReached trace.now (length trace.now.commits) e.snapshot }
    ensures judge { J.of judge.new ≡ J.of judge.old }
    ensures told { OnOk result ((e : EntryValue) → slice_get trace.now.entries i ≡ Some e
        → TellsOf J.allows trace.now is_none i e told.old.items told.new.items) }
{
    stand_in_order(trace);
    let judged = judge.judge(trace, i)?;
    let found = found_where(trace, i, judged);
    push_found(trace.entry(i).line, &at_end(found), told)
}

/// Tells what is found on entry `i` and told at the line of a commit, or at the end of the log.
fn tell_at<J: Judge>(
    trace: &Trace,
    judge: &mut J,
    i: usize,
    commit: Option<usize>,
    told: &mut Vec<Finding>,
) -> Result<(), AllocError>
    requires judge { J.of judge.old ≡ trace.now }
    requires entry { AreToBeTold trace.now commit (i ∷ []) }
    ensures judge { J.of judge.new ≡ J.of judge.old }
    ensures told { OnOk result ((e : EntryValue) → slice_get trace.now.entries i ≡ Some e
        → TellsOf J.allows trace.now (moment_of trace.now commit) i e told.old.items told.new.items) }
{
    match commit {
        Some(c) => tell_at_commit(trace, judge, i, c, told),
        None => tell_at_end(trace, judge, i, told),
    }
}

/// Tells what is found on these entries and told at the line of a commit, or at the end of the log.
fn tell_each<J: Judge>(
    trace: &Trace,
    judge: &mut J,
    mut due: BTreeSet<usize>,
    commit: Option<usize>,
    told: &mut Vec<Finding>,
) -> Result<(), AllocError>
    requires judge { J.of judge.old ≡ trace.now }
    requires due { AreToBeTold trace.now commit due.keys }
    ensures judge { J.of judge.new ≡ J.of judge.old }
    ensures told { OnOk result
        (TellsOfEach J.allows trace.now (moment_of trace.now commit) due.keys told.old.items told.new.items) }
{
    // an entry is due at most twice: at the first commit behind it, and at the one that settles it or at the end
    while let Some(i) = due.pop_first() {
        tell_at(trace, judge, i, commit, told)?;
    }
    Ok(())
}

impl Monitor {
    /// Nothing was taken.
    pub fn new(alloc: Global) -> Monitor
        ensures stands { (t : TraceValue) → Stands t result }
        ensures entries { result.entries ≡ 0 }
        ensures commits { result.commits ≡ 0 }
    {
        Monitor {
            alloc,
            entries: 0,
            commits: 0,
            fresh: 0,
            waiting: BTreeSet::new(alloc),
        }
    }

    /// How many entries of a trace, of which all lines were taken, are not settled.
    pub fn count_open(&self, trace: &Trace) -> usize
        requires stands { Stands trace.now self.now }
        requires all { IsAtEnd trace.now self.now }
        ensures { result ≡ length (open_entries trace.now) }
    {
        let _ = trace.len();
        self.waiting.len()
    }

    /// Whether some commit that was taken is at or above the timestamp.
    fn is_reached(&self, trace: &Trace, at: u64) -> bool
        requires { self.now.commits ≤ length trace.now.commits }
        ensures yes { result ≡ true → IsReached trace.now self.now.commits at }
        ensures no { result ≡ false → ¬ IsReached trace.now self.now.commits at }
    {
        if self.commits == 0 {
            return false;
        }
        at <= trace.chains().commits()[self.commits - 1]
    }

    /// Whether the next line that says something is that of an entry.
    fn is_entry_next(&self, trace: &Trace) -> bool
        requires stands { Stands trace.now self.now }
        ensures entry { result ≡ true → (e : EntryValue) × IsEntryNext trace.now self.now e }
        ensures commit { result ≡ false → self.now.commits < length trace.now.commits
            → IsCommitNext trace.now self.now }
        ensures all { result ≡ false → self.now.commits ≡ length trace.now.commits
            → self.now.entries ≡ length trace.now.entries }
    {
        stand_in_order(trace);
        entries_rise(trace);
        self.entries < trace.len() && trace.entry(self.entries).before <= self.commits
    }

    /// Takes the next entry, and tells what is told at its line, which it gives.
    fn take_entry<J: Judge>(
        &mut self,
        trace: &Trace,
        judge: &mut J,
        told: &mut Vec<Finding>,
    ) -> Result<u64, AllocError>
        requires stands { Stands trace.now self.old }
        requires next { (e : EntryValue) × IsEntryNext trace.now self.old e }
        requires judge { J.of judge.old ≡ trace.now }
        ensures takes { IfOk result (TakesEntry trace.now self.old self.new) }
        ensures stands { OnOk result (Stands trace.now self.new) }
        ensures judge { J.of judge.new ≡ J.of judge.old }
        ensures told { IfOk result (λ k. Tells J.allows trace.now k told.old.items told.new.items) }
    {
        stand_in_order(trace);
        entries_rise(trace);
        counts_fit(trace);
        let i = self.entries;
        let entry = trace.entry(i);
        let reached = self.is_reached(trace, entry.snapshot);
        if !reached {
            self.waiting.insert((entry.snapshot, i))?;
        }
        tell_at_once(trace, judge, i, reached, told)?;
        self.entries = i + 1;
        Ok(entry.line)
    }

    /// Takes the next commit, and tells what is told at its line, which it gives.
    fn take_commit<J: Judge>(
        &mut self,
        trace: &Trace,
        judge: &mut J,
        told: &mut Vec<Finding>,
    ) -> Result<u64, AllocError>
        requires stands { Stands trace.now self.old }
        requires next { IsCommitNext trace.now self.old }
        requires judge { J.of judge.old ≡ trace.now }
        ensures takes { IfOk result (TakesCommit trace.now self.old self.new) }
        ensures stands { OnOk result (Stands trace.now self.new) }
        ensures judge { J.of judge.new ≡ J.of judge.old }
        ensures told { IfOk result (λ k. Tells J.allows trace.now k told.old.items told.new.items) }
    {
        stand_in_order(trace);
        entries_rise(trace);
        counts_fit(trace);
        let c = self.commits;
        let at = trace.chains().commits()[c];
        let due = due(self.alloc, &mut self.waiting, at, self.fresh, self.entries)?;
        tell_each(trace, judge, due, Some(c), told)?;
        self.fresh = self.entries;
        self.commits = c + 1;
        Ok(trace.commit_line(c))
    }

    /// Takes the next line of a trace that is a commit or an entry, and adds to the findings what is told there: on an
    /// entry's line what rests on the lines before it, and its judgement where a commit before it settles it; on a
    /// commit's line the open snapshots that it shows, and the judgements of the entries that it settles. It gives
    /// that line, or `None` where all lines are taken. It is refused only where memory runs out; the monitor is then no
    /// longer of use.
    pub fn take<J: Judge>(
        &mut self,
        trace: &Trace,
        judge: &mut J,
        told: &mut Vec<Finding>,
    ) -> Result<Option<u64>, AllocError>
        requires stands { Stands trace.now self.old }
        requires judge { J.of judge.old ≡ trace.now }
        ensures takes { IfOk result (λ line. IfSome line (Takes trace.now self.old self.new)) }
        ensures stands { OnOk result (Stands trace.now self.new) }
        ensures judge { J.of judge.new ≡ J.of judge.old }
        ensures told { IfOk result
            (λ line. IfSome line (λ k. Tells J.allows trace.now k told.old.items told.new.items)) }
        ensures all { IfOk result (λ line. line ≡ None → IsAtEnd trace.now self.new
            × (self.new ≡ self.old) × (told.new.items ≡ told.old.items)) }
    {
        if self.is_entry_next(trace) {
            return Ok(Some(self.take_entry(trace, judge, told)?));
        }
        if self.commits < trace.chains().commits().len() {
            return Ok(Some(self.take_commit(trace, judge, told)?));
        }
        Ok(None)
    }

    /// Tells what is left at the end of a trace whose lines are all taken: how the entries are judged that no commit
    /// reaches. It is refused only where memory runs out.
    pub fn end<J: Judge>(
        &mut self,
        trace: &Trace,
        judge: &mut J,
        told: &mut Vec<Finding>,
    ) -> Result<(), AllocError>
        requires stands { Stands trace.now self.old }
        requires all { IsAtEnd trace.now self.old }
        requires judge { J.of judge.old ≡ trace.now }
        ensures judge { J.of judge.new ≡ J.of judge.old }
        ensures told { OnOk result (TellsLeft J.allows trace.now told.old.items told.new.items) }
    {
        stand_in_order(trace);
        entries_rise(trace);
        let left = left(self.alloc, &mut self.waiting)?;
        tell_each(trace, judge, left, None, told)
    }
}
