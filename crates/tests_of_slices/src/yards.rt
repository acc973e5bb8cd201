//! What owners and thieves of a yard are handed, and what is left when it is closed.

ghost use Rattle.std.specs.Prelude.{◌≡◌, map};
ghost use Rattle.slice_yard.specs.Cut.{IsNumbered};
ghost use Rattle.slice_yard.specs.Lane.{lane_place, thief_place};

use audit_slices::{Lane, Receipts, Slice, Thief, Yard, close, cut};
use std::alloc::Global;
use std::test::Fail;

fn number_of(slice: Option<Slice>) -> Option<usize> {
    match slice {
        Some(slice) => Some(slice.number()),
        None => None,
    }
}

// The owner of a lane takes.
fn next_of(lanes: &mut Vec<Lane>, l: usize) -> Option<usize>
    ensures { map lane_place lanes.new.items ≡ map lane_place lanes.old.items }
{
    if l >= lanes.len() {
        return None;
    }
    number_of(lanes[l].next())
}

fn steal_at(thieves: &mut Vec<Thief>, place: usize) -> Option<usize>
    ensures { map thief_place thieves.new.items ≡ map thief_place thieves.old.items }
{
    if place >= thieves.len() {
        return None;
    }
    number_of(thieves[place].steal())
}

// The thief at this place of a worker steals.
fn steal_of(thieves: &mut Vec<Vec<Thief>>, worker: usize, place: usize) -> Option<usize>
    ensures { map (λ v. map thief_place v.items) thieves.new.items
        ≡ map (λ v. map thief_place v.items) thieves.old.items }
{
    if worker >= thieves.len() {
        return None;
    }
    steal_at(&mut thieves[worker], place)
}

#[derive(Clone, Copy)]
enum Move {
    // The owner of this lane takes.
    Next(usize),
    // Of this worker, the thief at this place steals.
    Steal(usize, usize),
}

// Whether these moves, one after another, give slices of these numbers.
fn are_given(
    owners: &mut Vec<Lane>,
    thieves: &mut Vec<Vec<Thief>>,
    moves: &[(Move, Option<usize>)],
) -> bool
    ensures owners { map lane_place owners.new.items ≡ map lane_place owners.old.items }
    ensures thieves { map (λ v. map thief_place v.items) thieves.new.items
        ≡ map (λ v. map thief_place v.items) thieves.old.items }
{
    for (step, number) in moves {
        let given = match *step {
            Move::Next(l) => next_of(owners, l),
            Move::Steal(worker, place) => steal_of(thieves, worker, place),
        };
        if given != *number {
            return false;
        }
    }
    true
}

fn are_left(mut receipts: Receipts, left: &[usize]) -> bool {
    for number in left {
        if number_of(receipts.next()) != Some(*number) {
            return false;
        }
    }
    receipts.next().is_none()
}

// A yard whose moves give slices of these numbers, and which has these left when it is closed.
fn is_walked(
    alloc: Global,
    slices: Vec<Slice>,
    lanes: usize,
    workers: usize,
    moves: &[(Move, Option<usize>)],
    left: &[usize],
) -> bool
    requires { IsNumbered slices.items }
{
    match Yard::open(alloc, slices, lanes, workers) {
        Ok((mut owners, mut thieves)) => {
            let given = are_given(&mut owners, &mut thieves, moves);
            let whole = are_left(close(owners, thieves), left);
            given && whole
        }
        Err(_) => false,
    }
}

#[test]
fn yard_of_one_lane(rt: HostRuntime) -> Result<(), Fail> {
    let slices = cut(rt.alloc(), 5, 2)?;
    let moves = [(Move::Next(0), Some(0usize)), (Move::Steal(1, 0), Some(1))];
    assert!(rt; is_walked(rt.alloc(), slices, 1, 2, &moves, &[2]));
    Ok(())
}

#[test]
fn yard_of_two_lanes(rt: HostRuntime) -> Result<(), Fail> {
    let slices = cut(rt.alloc(), 5, 1)?;
    let moves = [
        (Move::Next(0), Some(0usize)),
        (Move::Steal(0, 0), Some(1)),
        (Move::Next(1), Some(3)),
        (Move::Steal(1, 0), Some(2)),
        (Move::Next(1), None),
    ];
    assert!(rt; is_walked(rt.alloc(), slices, 2, 2, &moves, &[4]));
    Ok(())
}

// The thieves of a worker go upwards and round.
#[test]
fn yard_of_three_lanes(rt: HostRuntime) -> Result<(), Fail> {
    let slices = cut(rt.alloc(), 3, 1)?;
    let moves = [
        (Move::Steal(1, 0), Some(2usize)),
        (Move::Steal(1, 1), Some(0)),
    ];
    assert!(rt; is_walked(rt.alloc(), slices, 3, 3, &moves, &[1]));
    Ok(())
}
