//! Runs of the pool: its reports stand in order, two workers are at work at once, and an alert is shown once.

ghost use Rattle.std.specs.Prelude.{◌<◌, ◌≤◌};

use crate::five::{FiveBoard, FiveChecks, FiveNamed, finding};
use audit_slices::{Alert, Blind, Free, Gate, SliceReport, Watch, cut, run_pool};
use std::alloc::{AllocError, Global};
use std::sync::Wait;
use std::sync::atomic::{AtomicUsize, Ordering};
use std::test::*;
use std::thread::Threads;

// It counts how often it was shown the alert of the first entry, that of the last, and others.
#[derive(Clone, Copy)]
struct Shown {
    first: usize,
    last: usize,
    others: usize,
}

impl Shown {
    fn new() -> Shown {
        Shown {
            first: 0,
            last: 0,
            others: 0,
        }
    }

    fn is_each_once(&self) -> bool {
        self.first == 1 && self.last == 1 && self.others == 0
    }
}

impl Watch<Option<u8>, FiveNamed> for Shown {
    ghost mark = { λ _. 0 };

    fn seen(&mut self, alert: &Alert<Option<u8>>) {
        match (alert.entry, alert.report) {
            (0, Some(7)) => self.first = self.first.wrapping_add(1),
            (4, Some(9)) => self.last = self.last.wrapping_add(1),
            _ => self.others = self.others.wrapping_add(1),
        }
    }
}

// The first call waits until the others were made.
#[derive(Drop)]
struct Holds {
    calls: AtomicUsize,
    late: AtomicUsize,
}

impl Gate for Holds {
    fn before(&self, _worker: usize, _slice: usize) {
        if self.calls.fetch_add(1, Ordering::SeqCst) != 0 {
            return;
        }
        for _ in 0..1_000_000_000u64 {
            if self.calls.load(Ordering::SeqCst) == 5 {
                return;
            }
        }
        self.late.store(1, Ordering::SeqCst);
    }
}

// Whether the reports are those of so many entries, in order, slice by slice.
fn are_in_order(done: &[SliceReport<Option<u8>>], entries: usize) -> bool {
    let mut entry = 0usize;
    for (k, report) in done.iter().enumerate() {
        if report.number() != k {
            return false;
        }
        for found in report.reports() {
            if *found != finding(entry) {
                return false;
            }
            entry = entry.wrapping_add(1);
        }
    }
    entry == entries
}

// Whether each slice has one report, that of its entry.
fn are_single(done: &[SliceReport<Option<u8>>]) -> bool {
    done.iter()
        .enumerate()
        .all(|(k, report)| report.reports() == [finding(k)].as_slice())
}

// The reports on so many entries in slices of this size, by so many workers.
fn reports<G: Gate + Sync, W: Watch<Option<u8>, FiveNamed>, R: Threads + Wait + Sync>(
    rt: &R,
    alloc: Global,
    gate: &G,
    board: Option<&FiveBoard>,
    watch: &mut W,
    entries: usize,
    size: usize,
    workers: usize,
) -> Result<Vec<SliceReport<Option<u8>>>, AllocError>
    requires workers { (0 < workers) × (workers ≤ 16) }
    requires size { 0 < size }
    requires entries { entries ≤ 1000 }
{
    let slices = cut(alloc, entries, size)?;
    run_pool(rt, alloc, &FiveChecks, gate, board, watch, slices, workers)
}

fn is_in_order<R: Threads + Wait + Sync>(
    rt: &R,
    alloc: Global,
    entries: usize,
    size: usize,
    workers: usize,
) -> bool
    requires workers { (0 < workers) × (workers ≤ 16) }
    requires size { 0 < size }
    requires entries { entries ≤ 1000 }
{
    match reports(rt, alloc, &Free, None, &mut Blind, entries, size, workers) {
        Ok(done) => done.len() == entries.div_ceil(size) && are_in_order(&done, entries),
        Err(_) => false,
    }
}

#[test]
fn pool_answers_in_order(rt: HostRuntime) {
    for workers in [1usize, 2, 3, 16] {
        assert!(rt;
            is_in_order(&rt, rt.alloc(), 5, 2, workers),
            "5 by {workers}"
        );
        assert!(rt;
            is_in_order(&rt, rt.alloc(), 1000, 7, workers),
            "1000 by {workers}"
        );
    }
}

#[test]
fn two_workers_are_at_work_at_once(rt: HostRuntime) {
    let gate = Holds {
        calls: AtomicUsize::new(0),
        late: AtomicUsize::new(0),
    };
    let is_whole = match reports(&rt, rt.alloc(), &gate, None, &mut Blind, 5, 1, 2) {
        Ok(done) => done.len() == 5 && are_single(&done),
        Err(_) => false,
    };
    assert!(rt; is_whole && gate.late.load(Ordering::SeqCst) == 0);
}

// Lets a board go here, so that no test has its parts on its way out.
fn let_go(_board: FiveBoard) {}

// Whether each alert of five entries is shown once.
fn are_shown_once<R: Threads + Wait + Sync>(
    rt: &R,
    alloc: Global,
    board: &FiveBoard,
    size: usize,
    workers: usize,
) -> bool
    requires workers { (0 < workers) × (workers ≤ 16) }
    requires size { 0 < size }
{
    let mut watch = Shown::new();
    match reports(rt, alloc, &Free, Some(board), &mut watch, 5, size, workers) {
        Ok(done) => done.len() == 5usize.div_ceil(size) && watch.is_each_once(),
        Err(_) => false,
    }
}

#[test]
fn alerts_are_shown_once(rt: HostRuntime) -> Result<(), Fail> {
    for workers in [1usize, 2, 3, 16] {
        for size in [1usize, 2] {
            let board = FiveBoard::new(rt.alloc())?;
            let is_right = are_shown_once(&rt, rt.alloc(), &board, size, workers);
            assert!(rt; is_right, "{size} by {workers}");
            let_go(board);
        }
    }
    Ok(())
}

// Whether the board has one alert, that of the last entry.
fn has_the_last_alone(board: &FiveBoard) -> bool {
    let mut alerts = board.alerts();
    match alerts.next() {
        Some(alert) => alert.entry == 4 && alert.report == Some(9) && alerts.next().is_none(),
        None => false,
    }
}

// Whether an alert of the last entry is posted, and is the one that the board has.
fn is_posted<R: Wait>(rt: &R, board: &FiveBoard) -> bool {
    let alert = Alert {
        entry: 4,
        report: Some(9),
    };
    match board.post(rt, alert) {
        Ok(posted) => board.of(&posted).entry == 4 && has_the_last_alone(board),
        Err(_) => false,
    }
}

#[test]
fn one_alert_is_posted(rt: HostRuntime) -> Result<(), Fail> {
    let board = FiveBoard::new(rt.alloc())?;
    assert!(rt; is_posted(&rt, &board));
    let_go(board);
    Ok(())
}
