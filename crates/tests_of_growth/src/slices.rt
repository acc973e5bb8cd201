//! Slices, a yard, a board and the pool.

ghost use Rattle.std.specs.Prelude.{◌<◌, ◌≤◌, IfOk, All};
ghost use Rattle.slice_yard.specs.Cut.{IsNumbered, IsWithin};

use audit_slices::{
    Alert, Blind, Board, Check, Core, Free, Names, OpenCause, Slice, SliceReport, Yard,
    check_slice, cut, run_pool,
};
use std::alloc::{AllocError, Global};
use std::sync::Wait;
use std::test::*;
use std::thread::Threads;

/// The report of an entry is its number, and raises an alert.
struct Numbers;

impl Check for Numbers {
    type Report = usize;

    ghost use Rattle.std.specs.Prelude.{◌≡◌, true};
    ghost use Rattle.std.proofs.Common.{rules};

    ghost entries = { λ _. 1000 };

    ghost gives = { λ _ entry report. report ≡ entry };

    ghost raises = { λ _ _. true };

    ghost entries_fit = { Prim.search rules };

    fn check(&self, entry: usize) -> Result<usize, AllocError> {
        Ok(entry)
    }

    fn alerts(&self, _report: &usize) -> bool {
        true
    }
}

struct Numbered;

impl Names<usize> for Numbered {
    ghost use Rattle.std.specs.Prelude.{◌≡◌, true};

    ghost gives = { λ entry report. report ≡ entry };

    ghost alerts = { λ _. true };
}

/// Whether these are all slices of five entries, in order.
fn are_all(slices: &[Slice]) -> bool {
    slices.len() == 5
        && slices
            .iter()
            .enumerate()
            .all(|(k, slice)| slice.number() == k && slice.len() == 1)
}

fn slices(alloc: Global) -> Result<Vec<Slice>, AllocError>
    ensures numbered { IfOk result (λ v. IsNumbered v.items) }
    ensures within { IfOk result (λ v. All (IsWithin 1000) v.items) }
{
    match cut(alloc, 5, 1) {
        Err(_) => cut(alloc, 5, 1),
        answer => answer,
    }
}

/// Whether a yard opens in the end, where running out of memory gives all slices back in order.
fn opens(alloc: Global, slices: Vec<Slice>) -> bool
    requires { IsNumbered slices.items }
{
    match Yard::open(alloc, slices, 2, 3) {
        Ok(_) => true,
        Err(fault) => {
            fault.cause == OpenCause::OutOfMemory
                && are_all(&fault.slices)
                && Yard::open(alloc, fault.slices, 2, 3).is_ok()
        }
    }
}

fn is_report(report: &SliceReport<usize>, number: usize) -> bool {
    report.number() == number && report.reports() == [number].as_slice()
}

/// Whether the slice is checked in the end, where running out of memory gives it back.
fn is_checked(alloc: Global, slice: Slice) -> bool
    requires { IsWithin 1000 slice }
{
    let number = slice.number();
    match check_slice(alloc, &Numbers, slice) {
        Ok(report) => is_report(&report, number),
        Err(slice) => {
            slice.number() == number
                && match check_slice(alloc, &Numbers, slice) {
                    Ok(report) => is_report(&report, number),
                    Err(_) => false,
                }
        }
    }
}

/// Whether the core is started in the end.
fn starts(alloc: Global) -> bool {
    match Core::start(alloc, 5, 2, 3) {
        Err(OpenCause::OutOfMemory) => Core::start(alloc, 5, 2, 3).is_ok(),
        answer => answer.is_ok(),
    }
}

fn board(alloc: Global) -> Result<Board<usize, Numbered>, AllocError> {
    match Board::new(alloc) {
        Err(_) => Board::new(alloc),
        answer => answer,
    }
}

/// Whether an alert is posted in the end, where running out of memory gives it back.
fn is_posted<R: Wait>(rt: &R, board: &Board<usize, Numbered>) -> bool {
    let alert = Alert {
        entry: 4,
        report: 4usize,
    };
    match board.post(rt, alert) {
        Ok(_) => true,
        Err(alert) => alert.entry == 4 && alert.report == 4 && board.post(rt, alert).is_ok(),
    }
}

/// The reports of so many workers, with no board.
fn reports<R: Threads + Wait + Sync>(
    rt: &R,
    alloc: Global,
    workers: usize,
) -> Result<Vec<SliceReport<usize>>, AllocError>
    requires { (0 < workers) × (workers ≤ 16) }
{
    run_pool(
        rt,
        alloc,
        &Numbers,
        &Free,
        None::<&Board<usize, Numbered>>,
        &mut Blind,
        cut(alloc, 5, 1)?,
        workers,
    )
}

/// Whether the pool answers all reports in the end.
fn is_run<R: Threads + Wait + Sync>(rt: &R, alloc: Global, workers: usize) -> bool
    requires { (0 < workers) × (workers ≤ 16) }
{
    let answer = match reports(rt, alloc, workers) {
        Err(_) => reports(rt, alloc, workers),
        answer => answer,
    };
    match answer {
        Ok(done) => {
            done.len() == 5
                && done
                    .iter()
                    .enumerate()
                    .all(|(k, report)| is_report(report, k))
        }
        Err(_) => false,
    }
}

#[test]
fn yards_are_opened(rt: HostRuntime) -> Result<(), Fail> {
    let slices = slices(rt.alloc())?;
    assert!(rt; are_all(&slices));
    assert!(rt; opens(rt.alloc(), slices));
    assert!(rt; starts(rt.alloc()));
    Ok(())
}

/// Whether the last slice is checked in the end.
fn is_last_checked(alloc: Global) -> Result<bool, AllocError> {
    let mut slices = slices(alloc)?;
    match slices.pop() {
        Some(last) => Ok(is_checked(alloc, last)),
        None => Ok(false),
    }
}

#[test]
fn slices_are_checked(rt: HostRuntime) {
    assert!(rt; is_last_checked(rt.alloc()) == Ok(true));
}

#[test]
fn alerts_are_posted(rt: HostRuntime) -> Result<(), Fail> {
    let board = board(rt.alloc())?;
    assert!(rt; is_posted(&rt, &board));
    assert!(rt; board.alerts().count() == 1);
    Ok(())
}

#[test]
fn pools_are_run(rt: HostRuntime) {
    for workers in [1usize, 3] {
        assert!(rt; is_run(&rt, rt.alloc(), workers), "by {workers}");
    }
}
