//! The yard: lanes and the thieves of each worker, opened and closed together.
ghost use Rattle.std.specs.Prelude.{◌≡◌, ◌+◌, ◌<◌, ◌≤◌, ◌==◌, ℕ, List, [], All, IfOk, IfErr, IfSome, IfNone, vec_len, vec_capacity, map, length, sum_by};
ghost use Rattle.std.specs.Int.{div_ceil};
ghost use Rattle.std.specs.List.{flat_map};
ghost use Rattle.slice_yard.specs.Hands.{thief_hand};
ghost use Rattle.slice_core.specs.Opening.{IsAllowed, Refuses};
ghost use Rattle.slice_yard.specs.Lane.{Deque, LanePlace, lane_hand, lane_deque, lane_state, lane_place, thief_state, thief_place, IsOpen};
ghost use Rattle.slice_core.specs.Named.{named_from};
ghost use Rattle.slice_yard.specs.Cut.{IsNumbered};
ghost use Rattle.slice_yard.specs.Receipts.{receipt_hands};
ghost use Rattle.slice_yard.specs.ClosedRuns.{WereOpened};
ghost use Rattle.slice_yard.specs.Shared.{closed_hands, lists_sum, thieves_sum};
ghost use Rattle.slice_yard.specs.Yard.{filled, dealt, thief_lanes, IsOpened, IsEmptyLane, IsPostOf, post_lanes, lanes_at_first, thieves_at_first, more_seats, times, thieves_of, lists_of, with_lists, IsNextOf, AreOfOneYard};

use crate::lane::{Lane, Taker, Thief};
use crate::receipts::Receipts;
use crate::slices::Slice;
use slice_core::{OpenCause, refusal};
use std::alloc::{AllocError, Global};
use thiserror::Error;

/// A refused opening hands its slices back, in their order.
#[derive(Debug, Drop, Error)]
#[error("{cause}")]
pub struct OpenFault {
    pub cause: OpenCause,
    pub slices: Vec<Slice>,
}

// A lane's number, and what a thief of it is made of.
#[derive(Drop)]
pub(crate) struct Seat {
    lane: usize,
    taker: Taker,
}

// All that the thieves of one worker take in memory.
#[derive(Drop)]
pub(crate) struct Post {
    seats: Vec<Seat>,
    thieves: Vec<Thief>,
}

/// Lanes of slices, which their owners and thieves share.
pub struct Yard;

impl Yard {
    /// So many lanes for so many workers. Slice number k goes to lane k modulo `lanes`, and worker w below `lanes`
    /// owns lane w. The thieves of each worker come in the order in which it is to try them: from the lane after its
    /// number, modulo `lanes`, upwards and round, without its own.
    ///
    /// Slice number k stands at place k. Refused for no lane, for more lanes than workers, for more than 16 workers,
    /// and where memory runs out: the slices come back.
    pub fn open(
        alloc: Global,
        slices: Vec<Slice>,
        lanes: usize,
        workers: usize,
    ) -> Result<(Vec<Lane>, Vec<Vec<Thief>>), OpenFault>
        requires { IsNumbered slices.items }
        ensures allowed { IfOk result (λ _. IsAllowed lanes workers) }
        ensures opened { IfOk result (λ r. IsOpened slices.items lanes workers r.0.items r.1.items) }
        ensures refused { IfErr result (λ f. Refuses lanes workers f.cause) }
        ensures back { IfErr result (λ f. f.slices.items ≡ slices.items) }
    {
        if let Some(cause) = refusal(lanes, workers) {
            return Err(OpenFault { cause, slices });
        }
        match prepare(alloc, slices.len().div_ceil(lanes), lanes, workers) {
            Ok((mut owners, posts, thieves)) => {
                deal(owners.as_mut_slice(), slices);
                Ok(seat_all(owners, posts, thieves))
            }
            Err(_) => Err(OpenFault {
                cause: OpenCause::OutOfMemory,
                slices,
            }),
        }
    }
}

// Empty lanes with room for so many slices each, and all that the thieves take in memory.
fn prepare(
    alloc: Global,
    room: usize,
    lanes: usize,
    workers: usize,
) -> Result<(Vec<Lane>, Vec<Post>, Vec<Vec<Thief>>), AllocError>
    requires { IsAllowed lanes workers }
    ensures lanes { IfOk result (λ r. (vec_len r.0 ≡ lanes) × All (IsEmptyLane room) r.0.items) }
    ensures posts { IfOk result (λ r. (map post_lanes r.1.items ≡ named_from (thief_lanes lanes) 0 workers)
        × All (IsPostOf (map lane_deque r.0.items)) r.1.items) }
    ensures thieves { IfOk result (λ r. (r.2.items ≡ []) × (workers ≤ vec_capacity r.2)) }
{
    let owners = empty_lanes(alloc, lanes, room)?;
    let mut posts = Vec::new(alloc);
    for worker in 0..workers {
        posts.push(new_post(alloc, owners.as_slice(), worker)?)?;
    }
    let thieves = Vec::with_capacity(alloc, workers)?;
    Ok((owners, posts, thieves))
}

fn empty_lanes(alloc: Global, count: usize, room: usize) -> Result<Vec<Lane>, AllocError>
    ensures { IfOk result (λ v. (vec_len v ≡ count) × All (IsEmptyLane room) v.items) }
{
    let mut lanes = Vec::new(alloc);
    for _ in 0..count {
        lanes.push(Lane::with_room(alloc, room)?)?;
    }
    Ok(lanes)
}

fn new_post(alloc: Global, lanes: &[Lane], worker: usize) -> Result<Post, AllocError>
    requires some { 0 < length lanes.now }
    requires few { (length lanes.now ≤ 16) × (worker < 16) }
    requires still { All IsOpen lanes.now }
    ensures lanes { IfOk result (λ p. post_lanes p ≡ thief_lanes (length lanes.now) worker) }
    ensures fits { IfOk result (IsPostOf (map lane_deque lanes.now)) }
{
    let count = if worker < lanes.len() {
        lanes.len() - 1
    } else {
        lanes.len()
    };
    let mut seats = Vec::new(alloc);
    for i in 0..count {
        let lane = (worker + 1 + i) % lanes.len();
        let taker = lanes[lane].taker()?;
        seats.push(Seat { lane, taker })?;
    }
    let thieves = Vec::with_capacity(alloc, count)?;
    Ok(Post { seats, thieves })
}

fn deal(lanes: &mut [Lane], slices: Vec<Slice>)
    requires some { 0 < length lanes.old }
    requires numbered { IsNumbered slices.items }
    requires empty { All (IsEmptyLane (div_ceil (length slices.items) (length lanes.old))) lanes.old }
    ensures hands { map lane_hand lanes.new
        ≡ named_from (λ l. filled (dealt slices.items (length lanes.old) l) 1) 0 (length lanes.old) }
    ensures same { map lane_deque lanes.new ≡ map lane_deque lanes.old }
{
    for slice in slices {
        let l = slice.number % lanes.len();
        lanes[l].put(slice);
    }
}

// The thieves take their seats, worker by worker.
fn seat_all(
    mut lanes: Vec<Lane>,
    posts: Vec<Post>,
    mut thieves: Vec<Vec<Thief>>,
) -> (Vec<Lane>, Vec<Vec<Thief>>)
    requires lanes { length lanes.items ≤ length posts.items }
    requires posts { map post_lanes posts.items
        ≡ named_from (thief_lanes (length lanes.items)) 0 (length posts.items) }
    requires fits { All (IsPostOf (map lane_deque lanes.items)) posts.items }
    requires room { (thieves.items ≡ []) × (vec_len posts ≤ vec_capacity thieves) }
    ensures { (xs : List Slice) (deques : ℕ → Deque)
        → map lane_state lanes.items ≡ lanes_at_first deques xs (length lanes.items) 1
        → (map lane_state result.0.items ≡ lanes_at_first deques xs (length lanes.items) (length posts.items))
        × (map (λ v. map thief_state v.items) result.1.items
        ≡ thieves_at_first deques xs (length lanes.items) (length posts.items)) }
{
    for post in posts {
        thieves.push_reserved(seat_worker(lanes.as_mut_slice(), post));
    }
    (lanes, thieves)
}

fn seat_worker(lanes: &mut [Lane], post: Post) -> Vec<Thief>
    requires fits { IsPostOf (map lane_deque lanes.old) post }
    requires once { (l : ℕ) → l < length lanes.old → times l (post_lanes post) ≤ 1 }
    ensures lanes { (f : ℕ → LanePlace) (n : ℕ) → map lane_state lanes.old ≡ named_from f 0 n
        → map lane_state lanes.new
        ≡ named_from (λ l. ((f l).0, more_seats (times l (post_lanes post)) (f l).1)) 0 n }
    ensures thieves { (f : ℕ → LanePlace) (n : ℕ) → map lane_state lanes.old ≡ named_from f 0 n
        → map thief_state result.items ≡ map (λ l. (l, (f l).0.0, thief_hand (f l).1)) (post_lanes post) }
    ensures same { map lane_deque lanes.new ≡ map lane_deque lanes.old }
{
    let Post { seats, mut thieves } = post;
    for seat in seats {
        let Seat { lane, taker } = seat;
        thieves.push_reserved(lanes[lane].thief(lane, taker));
    }
    thieves
}

/// Takes in all lists that the ends of one opening were handed. The lanes and the workers' thieves come in the order
/// in which the opening gave them.
pub fn close(mut lanes: Vec<Lane>, thieves: Vec<Vec<Thief>>) -> Receipts
    requires { AreOfOneYard (map lane_place lanes.items) (map (λ v. map thief_place v.items) thieves.items) }
    ensures hands { receipt_hands result
        ≡ closed_hands (map lane_hand lanes.items) (flat_map (λ v. v.items) thieves.items) }
    ensures opened { (yard : AreOfOneYard (map lane_place lanes.items) (map (λ v. map thief_place v.items) thieves.items))
        → IsNumbered yard.slices
        → WereOpened (length yard.slices) yard.lane_count yard.workers (receipt_hands result) }
    ensures joined { All (λ v. v.seats ≡ length v.closed + 1) (receipt_hands result) }
    ensures sums { (h : Slice → ℕ)
        → sum_by (lists_sum h) (receipt_hands result)
        ≡ sum_by (λ l. lists_sum h (lane_hand l)) lanes.items
        + sum_by (λ v. thieves_sum h v.items) thieves.items }
{
    for ends in thieves {
        absorb_all(lanes.as_mut_slice(), ends);
    }
    Receipts::of(lanes)
}

// Takes in the thieves of one worker.
fn absorb_all(lanes: &mut [Lane], thieves: Vec<Thief>)
    requires next { All (IsNextOf (map lane_state lanes.old)) thieves.items }
    requires once { (l : ℕ) → l < length lanes.old → length (thieves_of l thieves.items) ≤ 1 }
    ensures lanes { (f : ℕ → LanePlace) (n : ℕ) → map lane_state lanes.old ≡ named_from f 0 n
        → map lane_state lanes.new
        ≡ named_from (λ l. ((f l).0, with_lists (lists_of l thieves.items) (f l).1)) 0 n }
    ensures sums { (h : Slice → ℕ)
        → sum_by (λ l. lists_sum h (lane_hand l)) lanes.new
        ≡ sum_by (λ l. lists_sum h (lane_hand l)) lanes.old + thieves_sum h thieves.items }
{
    for thief in thieves {
        lanes[thief.lane].absorb(thief);
    }
}
