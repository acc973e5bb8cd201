//! The pool from its slices to its reports.
ghost use Rattle.std.specs.Prelude.{◌≡◌, ◌+◌, ◌<◌, ◌≤◌, ◌∷◌, [], ℕ, List, false, All, IfOk, OnOk, ◌++◌, map, length, sum_by};
ghost use Rattle.std.specs.List.{flat_map, AllZip};
ghost use Rattle.std.specs.List.Sorted.{IsNonDecreasingBy, IsPermutation};
ghost use Rattle.audit_slices.specs.Board.{IsNamedBy};
ghost use Rattle.slice_yard.specs.Cut.{IsNumbered, IsWithin, entries_of};
ghost use Rattle.slice_yard.specs.Lane.{lane_hand, lane_place, thief_place, thief_hand_of};
ghost use Rattle.audit_slices.specs.Members.{member_places, IsNew};
ghost use Rattle.slice_yard.specs.Receipts.{receipt_hands};
ghost use Rattle.audit_slices.specs.Reports.{report_slice, report_items, IsReported};
ghost use Rattle.audit_slices.specs.Run.{IsWhole, IsFinished, unspent, rest_sum};
ghost use Rattle.slice_yard.specs.Shared.{IsSpent};

use crate::board::{Board, Names, Nowhere, Watch};
use crate::checks::{Check, Gate, SliceReport, check_slice};
use crate::members::Member;
use crate::pool::run_watched;
use slice_yard::{Lane, Receipts, Slice, Thief, Yard, close};
use std::alloc::{AllocError, Global};
use std::sync::Wait;
use std::thread::Threads;

// A worker with the ends that are its own.
fn member<X: Drop>(alloc: Global, number: usize, lane: Lane, thieves: Vec<Thief>) -> Member<X>
    requires lane { (lane_hand lane).handed ≡ [] }
    requires thieves { All (λ t. (thief_hand_of t).handed ≡ []) thieves.items }
    ensures places { member_places result ≡ (lane_place lane, map thief_place thieves.items) }
    ensures new { IsNew result }
{
    Member {
        number,
        lane,
        thieves,
        done: Vec::new(alloc),
        lost: false,
        shown: 0,
    }
}

fn staff<X: Drop>(
    alloc: Global,
    lanes: Vec<Lane>,
    thieves: Vec<Vec<Thief>>,
) -> Result<Vec<Member<X>>, AllocError>
    requires count { length thieves.items ≡ length lanes.items }
    requires lanes { All (λ l. (lane_hand l).handed ≡ []) lanes.items }
    requires thieves { All (λ v. All (λ t. (thief_hand_of t).handed ≡ []) v.items) thieves.items }
    ensures lanes { IfOk result (λ v. map (λ m. (member_places m).0) v.items ≡ map lane_place lanes.items) }
    ensures thieves { IfOk result (λ v. map (λ m. (member_places m).1) v.items
        ≡ map (λ v. map thief_place v.items) thieves.items) }
    ensures new { IfOk result (λ v. All IsNew v.items) }
{
    let mut members = Vec::new(alloc);
    let mut others = thieves.into_iter();
    for lane in lanes {
        let Some(ends) = others.next() else {
            unreachable!()
        };
        let next = member(alloc, members.len(), lane, ends);
        members.push(next)?;
    }
    Ok(members)
}

// The workers of a yard with these slices, one lane for each.
fn hire<X: Drop>(
    alloc: Global,
    slices: Vec<Slice>,
    workers: usize,
) -> Result<Vec<Member<X>>, AllocError>
    requires { IsNumbered slices.items }
    ensures new { IfOk result (λ v. All IsNew v.items) }
    ensures whole { IfOk result (λ v. IsWhole slices.items v.items) }
{
    match Yard::open(alloc, slices, workers, workers) {
        Ok((lanes, thieves)) => Ok(staff(alloc, lanes, thieves)?),
        Err(_) => Err(AllocError),
    }
}

fn gather<X: Drop>(
    alloc: Global,
    members: Vec<Member<X>>,
) -> Result<(Vec<Lane>, Vec<Vec<Thief>>, Vec<SliceReport<X>>), AllocError>
    ensures lanes { IfOk result (λ r. r.0.items ≡ map (λ m. m.lane) members.items) }
    ensures thieves { IfOk result (λ r. r.1.items ≡ map (λ m. m.thieves) members.items) }
    ensures done { IfOk result (λ r. r.2.items ≡ flat_map (λ m. m.done.items) members.items) }
    ensures kept { IfOk result (λ r. All (λ m. m.lost ≡ false) members.items) }
{
    let mut lanes = Vec::new(alloc);
    let mut thieves = Vec::new(alloc);
    let mut done = Vec::new(alloc);
    for member in members {
        let Member {
            number: _,
            lane,
            thieves: ends,
            done: mut reports,
            lost,
            shown: _,
        } = member;
        if lost {
            return Err(AllocError);
        }
        lanes.push(lane)?;
        thieves.push(ends)?;
        done.append(&mut reports)?;
    }
    Ok((lanes, thieves, done))
}

// After the join: the yard is closed, and the reports are put together.
fn finish<X: Drop>(
    alloc: Global,
    members: Vec<Member<X>>,
) -> Result<(Receipts, Vec<SliceReport<X>>), AllocError>
    requires { (xs : List Slice) × IsWhole xs members.items }
    ensures { IfOk result (λ r. (xs : List Slice) → IsWhole xs members.items
        → IsFinished xs members.items (receipt_hands r.0) r.1.items) }
{
    let (lanes, thieves, done) = gather(alloc, members)?;
    Ok((close(lanes, thieves), done))
}

fn drain<X: Drop, C: Check<Report = X>, R: Wait>(
    rt: &R,
    alloc: Global,
    check: &C,
    mut receipts: Receipts,
    mut done: Vec<SliceReport<X>>,
) -> Result<(Receipts, Vec<SliceReport<X>>), AllocError>
    requires covered { All (λ v. All (IsWithin (C.entries check.now)) v.opening)
        (receipt_hands receipts) }
    requires given { All (IsReported (C.gives check.now)) done.items }
    ensures same { IfOk result (λ r. map unspent (receipt_hands r.0) ≡ map unspent (receipt_hands receipts)) }
    ensures all { IfOk result (λ r. All IsSpent (receipt_hands r.0)) }
    ensures given { IfOk result (λ r. All (IsReported (C.gives check.now)) r.1.items) }
    ensures sums { IfOk result (λ r. (h : Slice → ℕ)
        → sum_by (λ r. h r.slice) r.1.items + rest_sum h (receipt_hands receipts)
        ≡ sum_by (λ r. h r.slice) done.items + rest_sum h (receipt_hands r.0)) }
{
    for _ in rt.forever() {
        let Some(slice) = receipts.next() else {
            break;
        };
        let Ok(report) = check_slice(alloc, check, slice) else {
            return Err(AllocError);
        };
        done.push(report)?;
    }
    Ok((receipts, done))
}

// The reports in the order of their slices.
fn in_order<X>(mut done: Vec<SliceReport<X>>) -> Vec<SliceReport<X>>
    ensures moved { IsPermutation done.items result.items }
    ensures rising { IsNonDecreasingBy (λ r. (report_slice r).number) result.items }
{
    done.sort_unstable_by_key(|r| r.number());
    done
}

/// A report for each entry of the slices of one `cut`, in their order, by 1 to 16 workers with a lane for each. Worker 0 is the
/// calling thread: after each of its slices and after the join it shows the watch the alerts that are new on the board.
/// An alert that finds no memory is dropped. Refused where memory runs out, whatever the others did, where a slice could
/// not be checked.
pub fn run_pool<
    X: Send + Sync + Copy,
    C: Check<Report = X> + Sync,
    N: Names<X> + Sync,
    G: Gate + Sync,
    W: Watch<X, N>,
    R: Threads + Wait + Sync,
>(
    rt: &R,
    alloc: Global,
    check: &C,
    gate: &G,
    board: Option<&Board<X, N>>,
    watch: &mut W,
    slices: Vec<Slice>,
    workers: usize,
) -> Result<Vec<SliceReport<X>>, AllocError>
    requires workers { (0 < workers) × (workers ≤ 16) }
    requires numbered { IsNumbered slices.items }
    requires covered { All (IsWithin (C.entries check.now)) slices.items }
    requires names { IsNamedBy (C.gives check.now) (C.raises check.now) N.gives N.alerts }
    ensures slices { IfOk result (λ v. map report_slice v.items ≡ slices.items) }
    ensures given { IfOk result (λ v. All (IsReported (C.gives check.now)) v.items) }
    ensures all { IfOk result (λ v. AllZip (C.gives check.now) (entries_of slices.items) (flat_map report_items v.items)) }
    ensures mark { W.mark watch.new ≡ W.mark watch.old }
{
    let mut members = hire(alloc, slices, workers)?;
    let all = members.as_mut_slice();
    match board {
        Some(board) => run_watched(rt, alloc, check, gate, board, watch, all),
        None => run_watched(rt, alloc, check, gate, &Nowhere, watch, all),
    }
    let (receipts, done) = finish(alloc, members)?;
    let (_spent, done) = drain(rt, alloc, check, receipts, done)?;
    Ok(in_order(done))
}
