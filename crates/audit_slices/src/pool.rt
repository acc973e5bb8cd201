//! The pool: each worker in a thread of its own.
ghost use Rattle.std.specs.Prelude.{◌≡◌, ◌<◌, length, All};
ghost use Rattle.std.specs.Thread.{IsSync, IsSend};
ghost use Rattle.audit_slices.specs.Board.{IsNamedBy};
ghost use Rattle.audit_slices.specs.Members.{MayWork, HasWorked, HaveWorked};

use crate::board::{Desk, Names, Watch};
use crate::checks::{Check, Gate};
use crate::members::{Member, work, work_watched};
use std::alloc::Global;
use std::sync::Wait;
use std::thread::{Threads, for_each_mut, join_mut};

/// Each worker takes slices and checks them. A thread starts those of one half of the workers, and goes on with the other.
fn run_all<
    X: Send + Sync + Copy,
    C: Check<Report = X> + Sync,
    N: Names<X> + Sync,
    B: Desk<X, N> + Sync,
    G: Gate + Sync,
    R: Threads + Wait + Sync,
>(rt: &R, alloc: Global, check: &C, gate: &G, board: &B, members: &mut [Member<X>])
    requires some { 0 < length members.old }
    requires may { All (MayWork (C.entries check.now) (C.gives check.now)) members.old }
    requires names { IsNamedBy (C.gives check.now) (C.raises check.now) N.gives N.alerts }
    ensures worked { HaveWorked (C.gives check.now) members.old members.new }
{
    let threads = members.len();
    let each = |_place: usize, member: &mut Member<X>|
        requires { IsNamedBy (C.gives check.now) (C.raises check.now) N.gives N.alerts
            × MayWork (C.entries check.now) (C.gives check.now) member.now }
        ensures { HasWorked (C.gives check.entry.now) member.entry.now member.exit.now }
    { work(rt, alloc, check, gate, board, member) };
    for_each_mut(rt, members, threads, &each);
}

/// The same, where the first worker runs in this thread and shows the watch the new alerts: after each of its slices, and
/// after the join those that it has not shown.
pub(crate) fn run_watched<
    X: Send + Sync + Copy,
    C: Check<Report = X> + Sync,
    N: Names<X> + Sync,
    B: Desk<X, N> + Sync,
    G: Gate + Sync,
    W: Watch<X, N>,
    R: Threads + Wait + Sync,
>(rt: &R, alloc: Global, check: &C, gate: &G, board: &B, watch: &mut W, members: &mut [Member<X>])
    requires may { All (MayWork (C.entries check.now) (C.gives check.now)) members.old }
    requires names { IsNamedBy (C.gives check.now) (C.raises check.now) N.gives N.alerts }
    ensures worked { HaveWorked (C.gives check.now) members.old members.new }
    ensures mark { W.mark watch.new ≡ W.mark watch.old }
{
    let Some((first, others)) = members.split_first_mut() else {
        return;
    };
    if others.is_empty() {
        work_watched(rt, alloc, check, gate, board, watch, first);
        board.show_rest(first.shown, watch);
        return;
    }
    let mut theirs = ||
        requires { IsSync R.row × IsSync C.row × IsSync N.row × IsSync B.row × IsSync G.row × IsSync X.row × IsSend X.row
            × IsNamedBy (C.gives check.now) (C.raises check.now) N.gives N.alerts × (0 < length others.now)
            × All (MayWork (C.entries check.now) (C.gives check.now)) others.now }
        ensures { HaveWorked (C.gives check.entry.now) others.entry.now others.exit.now }
    { run_all(rt, alloc, check, gate, board, others) };
    let mut ours = ||
        requires { IsNamedBy (C.gives check.now) (C.raises check.now) N.gives N.alerts
            × MayWork (C.entries check.now) (C.gives check.now) first.now }
        ensures { HasWorked (C.gives check.entry.now) first.entry.now first.exit.now
            × (W.mark watch.exit.now ≡ W.mark watch.entry.now) }
    { work_watched(rt, alloc, check, gate, board, watch, first) };
    join_mut(rt, &mut theirs, &mut ours);
    board.show_rest(first.shown, watch);
}
