//! What is told of a log that grows, as the lines of the report.

ghost use Rattle.std.specs.Prelude.{◌≡◌, ◌≤◌, [], length, IfOk, IfSome, string_bytes};
ghost use Rattle.trace_lines.specs.Values.{TraceValue, next_line};
ghost use Rattle.audit.specs.Audit.{verdict_of};
ghost use Rattle.monitor.specs.Standing.{IsAtEnd};
ghost use Rattle.carry_laws.specs.Asked.{all_known};
ghost use Rattle.follow.specs.Heartbeats.{AreSettledTo, Beats, IsThrough};
ghost use Rattle.follow.specs.SoFar.{IsFollowed, TellsFromSame, TellsPiece, TellsRest};

use crate::asking::push_asked;
use crate::heartbeat::{Heartbeat, push_heartbeat, settled_from};
use audit::{MakingJudge, PausedJudge, Verdict};
use carry_laws::Known;
use findings::{Finding, push_last_lines, push_lines};
use monitor::{Monitor, stand_behind, tell_further};
use std::alloc::{AllocError, Global};
use std::mem::replace;
use trace_lines::Trace;
use trace_lines::laws::{entries_rise, stand_in_order, valid_strata, versions_issued_once};

/// How much of a log was taken, and what was told of it.
#[derive(Drop)]
pub struct Follower {
    pub alloc: Global,
    pub monitor: Monitor,
    /// The line from which on it tells: of earlier ones another follower told.
    pub first: u64,
    /// It tells of entries that are audited by what the log knows.
    pub known: Known,
    /// What was told, in the order of telling.
    pub told: Vec<Finding>,
    /// How many of the first entries are known to be settled.
    pub settled: usize,
    /// How many entries were settled at the last heartbeat.
    pub beaten: usize,
    // what was found of rules, and made for entries, to be tried for others
    pub judge: PausedJudge,
}

impl Follower {
    /// Nothing was taken.
    pub fn new(alloc: Global) -> Follower
        ensures followed { (t : TraceValue) → IsFollowed t result }
        ensures told { result.told.items ≡ [] }
        ensures all { (result.first ≡ 0) × (result.known ≡ all_known) }
    {
        Follower {
            alloc,
            monitor: Monitor::new(alloc),
            first: 0,
            known: Known {
                base: 0,
                versions: 0,
            },
            told: Vec::new(alloc),
            settled: 0,
            beaten: 0,
            judge: PausedJudge::new(alloc),
        }
    }

    /// All lines of a log were taken, and nothing was told: it tells from a line behind them on, of entries that are
    /// audited by what is known. It is refused only where memory runs out.
    pub fn behind(
        alloc: Global,
        trace: &Trace,
        first: u64,
        known: Known,
    ) -> Result<Follower, AllocError>
        requires { next_line trace.now ≤ first }
        ensures followed { IfOk result (IsFollowed trace.now) }
        ensures all { IfOk result (λ f. IsAtEnd trace.now f.monitor) }
        ensures told { IfOk result (λ f. f.told.items ≡ []) }
        ensures from { IfOk result (λ f. (f.first ≡ first) × (f.known ≡ known)) }
    {
        stand_in_order(trace);
        entries_rise(trace);
        versions_issued_once(trace);
        valid_strata(trace);
        let monitor = stand_behind(alloc, trace)?;
        let beaten = trace.len().saturating_sub(monitor.waiting.len());
        Ok(Follower {
            alloc,
            monitor,
            first,
            known,
            told: Vec::new(alloc),
            settled: 0,
            beaten,
            judge: PausedJudge::new(alloc),
        })
    }

    /// The judge, who is to be put back.
    fn judge<'t>(&mut self, trace: &'t Trace) -> MakingJudge<'t>
        ensures trace { result.maker ≡ trace.entry.now }
        ensures same { (self.new.monitor ≡ self.old.monitor) × (self.new.told ≡ self.old.told)
            × (self.new.settled ≡ self.old.settled) × (self.new.beaten ≡ self.old.beaten) }
        ensures from { TellsFromSame self.old self.new }
    {
        let judge = replace(&mut self.judge, PausedJudge::new(self.alloc));
        judge.resume(self.alloc, trace)
    }

    /// How far the log is settled, where the number of its last line is given, up to which all was taken, and any entry
    /// was settled since the last heartbeat.
    fn heartbeat(&mut self, trace: &Trace, line: Option<u64>) -> Option<Heartbeat>
        requires followed { IsFollowed trace.now self.old }
        requires all { IsAtEnd trace.now self.old.monitor }
        ensures followed { IsFollowed trace.now self.new }
        ensures same { (self.new.monitor ≡ self.old.monitor) × (self.new.told ≡ self.old.told) }
        ensures from { TellsFromSame self.old self.new }
        ensures beats { IfSome result (Beats trace.now self.old.told.items line) }
    {
        let line = line?;
        let judged = trace.len().saturating_sub(self.monitor.waiting.len());
        if judged <= self.beaten {
            return None;
        }
        self.beaten = judged;
        self.settled = settled_from(trace, self.settled);
        Some(Heartbeat {
            line: last_settled_line(trace, self.settled, line)?,
            entries: self.settled as u64,
            findings: self.told.len() as u64,
            open: self.monitor.count_open(trace) as u64,
        })
    }

    /// Takes all lines of the log that were not taken yet, and gives the lines of the report on what is told there; and
    /// behind them a heartbeat, where the number of the last line is given and any entry was settled. It is refused
    /// only where memory runs out; the follower is then no longer of use.
    pub fn tell(&mut self, trace: &Trace, line: Option<u64>) -> Result<String, AllocError>
        requires { IsFollowed trace.now self.old }
        ensures { IfOk result (λ s. TellsPiece trace.now line self.old self.new (string_bytes s)) }
    {
        stand_in_order(trace);
        entries_rise(trace);
        versions_issued_once(trace);
        valid_strata(trace);
        let before = self.told.len();
        let mut found = Vec::new(self.alloc);
        let mut judge = self.judge(trace);
        tell_further(trace, &mut self.monitor, &mut judge, &mut found)?;
        self.judge = judge.pause();
        push_asked(trace, self.known, &found, &mut self.told)?;
        let mut text = String::new(self.alloc);
        push_lines(&self.told[before..], &mut text)?;
        push_heartbeat(self.heartbeat(trace, line), &mut text)?;
        Ok(text)
    }

    /// What is left at the end of the log, of which all lines were taken, as the lines of the report; and its last
    /// lines.
    pub fn tell_end(&mut self, trace: &Trace) -> Result<String, AllocError>
        requires followed { IsFollowed trace.now self.old }
        requires all { IsAtEnd trace.now self.old.monitor }
        ensures text { IfOk result (λ s. TellsRest trace.now self.old self.new (string_bytes s)) }
    {
        stand_in_order(trace);
        entries_rise(trace);
        versions_issued_once(trace);
        valid_strata(trace);
        let before = self.told.len();
        let mut found = Vec::new(self.alloc);
        let mut judge = self.judge(trace);
        self.monitor.end(trace, &mut judge, &mut found)?;
        push_asked(trace, self.known, &found, &mut self.told)?;
        let mut text = String::new(self.alloc);
        push_lines(&self.told[before..], &mut text)?;
        push_last_lines(&self.told, trace.len(), &mut text)?;
        Ok(text)
    }

    /// Whether anything was told.
    pub fn verdict(&self) -> Verdict
        ensures { result ≡ verdict_of self.now.told.items }
    {
        match self.told.as_slice() {
            [] => Verdict::Clean,
            [_, ..] => Verdict::Dirty,
        }
    }
}

/// The last line up to which all entries are settled, where so many are, and this is the last line.
fn last_settled_line(trace: &Trace, settled: usize, line: u64) -> Option<u64>
    requires settled { AreSettledTo trace.now settled }
    requires within { settled ≤ length trace.now.entries }
    ensures through { IfSome result (λ l. IsThrough trace.now l settled) }
    ensures within { IfSome result (λ l. l ≤ line) }
{
    if settled >= trace.len() {
        return Some(line);
    }
    match trace.entry(settled).line {
        0 => None,
        next => Some(line.min(next - 1)),
    }
}
