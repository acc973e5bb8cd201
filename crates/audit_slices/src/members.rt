//! A worker of the pool.
ghost use Rattle.std.specs.Prelude.{◌≡◌, ◌+◌, ◌<◌, ◌≤◌, ◌^◌, ℕ, map, IfSome, MatchOption};

use crate::board::{Alert, Desk, Names, Watch};
use crate::checks::{Check, Gate, SliceReport, check_slice};
use slice_yard::{Lane, Slice, Thief};
use std::alloc::Global;
use std::sync::Wait;

/// A worker: its lane, its thieves, and the reports of the slices that it checked.
#[derive(Drop)]
pub struct Member<X> {
    pub(crate) number: usize,
    pub(crate) lane: Lane,
    pub(crate) thieves: Vec<Thief>,
    pub(crate) done: Vec<SliceReport<X>>,
    pub(crate) lost: bool,
    // How many places of the board it has shown.
    pub(crate) shown: usize,
}

ghost use Rattle.slice_yard.specs.Cut.{first_entry, slice_len, IsWithin};
ghost use Rattle.slice_yard.specs.Lane.{thief_place};
ghost use Rattle.slice_yard.specs.Shared.{thieves_sum};
ghost use Rattle.audit_slices.specs.Members.{IsIn, member_places, openings, thief_openings, IsOneShort, MayWork, HasWorked};
ghost use Rattle.audit_slices.specs.Board.{IsNamedBy};
ghost use Rattle.audit_slices.specs.Reports.{IsReported};

// A slice by the first thief that finds one.
fn steal_from(thieves: &mut [Thief]) -> Option<Slice>
    ensures places { map thief_place thieves.new ≡ map thief_place thieves.old }
    ensures sums { MatchOption result
        ((h : Slice → ℕ) → thieves_sum h thieves.new ≡ thieves_sum h thieves.old)
        (λ x. (h : Slice → ℕ) → thieves_sum h thieves.new ≡ thieves_sum h thieves.old + h x) }
    ensures inside { IfSome result (IsIn (thief_openings (map thief_place thieves.old))) }
{
    for thief in thieves.iter_mut() {
        match thief.steal() {
            Some(slice) => return Some(slice),
            None => {}
        }
    }
    None
}

impl<X> Member<X> {
    ghost use Rattle.audit_slices.specs.Members.{member_sum};

    // A slice from its own lane, or else one that it steals.
    fn take(&mut self) -> Option<Slice>
        ensures places { member_places self.new ≡ member_places self.old }
        ensures sums { MatchOption result
            ((h : Slice → ℕ) → member_sum h self.new ≡ member_sum h self.old)
            (λ x. (h : Slice → ℕ) → member_sum h self.new ≡ member_sum h self.old + h x) }
        ensures inside { IfSome result (IsIn (openings (member_places self.old))) }
        ensures done { (self.new.done ≡ self.old.done) × (self.new.lost ≡ self.old.lost) }
    {
        match self.lane.next() {
            Some(slice) => Some(slice),
            None => steal_from(self.thieves.as_mut_slice()),
        }
    }
}

// Puts up an alert if the report of the entry raises one.
fn raise_one<X: Copy, C: Check<Report = X>, N: Names<X>, B: Desk<X, N>, R: Wait>(
    rt: &R,
    check: &C,
    board: &B,
    entry: usize,
    report: &X,
)
    requires report { C.gives check.now entry report.now }
    requires names { IsNamedBy (C.gives check.now) (C.raises check.now) N.gives N.alerts }
{
    if check.alerts(report) {
        let report = *report;
        board.put(rt, Alert { entry, report });
    }
}

// Puts up an alert for each report of the slice that raises one.
fn raise<X: Copy, C: Check<Report = X>, N: Names<X>, B: Desk<X, N>, R: Wait>(
    rt: &R,
    check: &C,
    board: &B,
    report: &SliceReport<X>,
)
    requires fits { first_entry report.now.slice + slice_len report.now.slice < 2 ^ 64 }
    requires reports { IsReported (C.gives check.now) report.now }
    requires names { IsNamedBy (C.gives check.now) (C.raises check.now) N.gives N.alerts }
{
    for k in 0..report.reports.len() {
        raise_one(
            rt,
            check,
            board,
            report.slice.first() + k,
            &report.reports[k],
        );
    }
}

// Checks one slice, and keeps its reports, or marks that it was lost.
fn settle<X: Copy, C: Check<Report = X>, N: Names<X>, B: Desk<X, N>, R: Wait>(
    rt: &R,
    alloc: Global,
    check: &C,
    board: &B,
    slice: Slice,
    member: &mut Member<X>,
)
    requires slice { IsWithin (C.entries check.now) slice }
    requires names { IsNamedBy (C.gives check.now) (C.raises check.now) N.gives N.alerts }
    requires before { IsOneShort (C.gives check.now) slice member.old }
    ensures worked { HasWorked (C.gives check.now) member.old member.new }
{
    match check_slice(alloc, check, slice) {
        Ok(report) => {
            if board.is_there() {
                raise(rt, check, board, &report);
            }
            if member.done.push(report).is_err() {
                member.lost = true;
            }
        }
        Err(_) => member.lost = true,
    }
}

// Takes a slice and checks it. False where none of its lanes gave one, and where a slice was lost.
fn step<X: Copy, C: Check<Report = X>, N: Names<X>, B: Desk<X, N>, G: Gate, R: Wait>(
    rt: &R,
    alloc: Global,
    check: &C,
    gate: &G,
    board: &B,
    member: &mut Member<X>,
) -> bool
    requires may { MayWork (C.entries check.now) (C.gives check.now) member.old }
    requires names { IsNamedBy (C.gives check.now) (C.raises check.now) N.gives N.alerts }
    ensures worked { HasWorked (C.gives check.now) member.old member.new }
{
    let Some(slice) = member.take() else {
        return false;
    };
    gate.before(member.number, slice.number());
    settle(rt, alloc, check, board, slice, member);
    !member.lost
}

/// Takes slices and checks them until none of its lanes gives one.
pub(crate) fn work<X: Copy, C: Check<Report = X>, N: Names<X>, B: Desk<X, N>, G: Gate, R: Wait>(
    rt: &R,
    alloc: Global,
    check: &C,
    gate: &G,
    board: &B,
    member: &mut Member<X>,
)
    requires may { MayWork (C.entries check.now) (C.gives check.now) member.old }
    requires names { IsNamedBy (C.gives check.now) (C.raises check.now) N.gives N.alerts }
    ensures worked { HasWorked (C.gives check.now) member.old member.new }
{
    for _ in rt.forever() {
        if !step(rt, alloc, check, gate, board, member) {
            break;
        }
    }
}

/// The same, and shows the watch the new alerts after each slice.
pub(crate) fn work_watched<
    X: Copy,
    C: Check<Report = X>,
    N: Names<X>,
    B: Desk<X, N>,
    G: Gate,
    W: Watch<X, N>,
    R: Wait,
>(rt: &R, alloc: Global, check: &C, gate: &G, board: &B, watch: &mut W, member: &mut Member<X>)
    requires may { MayWork (C.entries check.now) (C.gives check.now) member.old }
    requires names { IsNamedBy (C.gives check.now) (C.raises check.now) N.gives N.alerts }
    ensures worked { HasWorked (C.gives check.now) member.old member.new }
    ensures mark { W.mark watch.new ≡ W.mark watch.old }
{
    let mut shown = 0;
    for _ in rt.forever() {
        let more = step(rt, alloc, check, gate, board, member);
        shown = board.show_new(shown, watch);
        if !more {
            break;
        }
    }
    member.shown = shown;
}
