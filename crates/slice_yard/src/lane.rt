//! The owner's end of a lane, and a thief's.
ghost use Rattle.std.specs.Prelude.{◌≡◌, ◌+◌, ◌<◌, ◌++◌, [], ◌∷◌, length, true, false, ◌≤◌, Contains, IfSome, IfNone, IfOk};
ghost use Rattle.crossbeam_deque.specs.Handles.{worker_view, worker_flavor, worker_deque, stealer_flavor, stealer_deque, view, IsPassOf};
ghost use Rattle.slice_yard.specs.Hands.{owner_hand, opened, took, handed_rest, one_more, thief_hand, with_list, IsShared};

use crate::rule::{Drains, Hand, InLane, Opens, Seats, Steals, Takes};
use crate::slices::Slice;
use crossbeam_deque::{Pass, Steal, Stealer, Worker};
use std::alloc::{AllocError, Global};

type Deque = Worker<Slice, Global, Hand, InLane>;

pub(crate) type Taker = Stealer<Slice, Global, Hand, InLane>;

const TRIES: usize = 1024;

/// The owner's end of a lane.
#[derive(Drop)]
pub struct Lane {
    deque: Deque,
    // Set by `close`, which takes no memory and so leaves the lane where it is.
    ended: bool,
    ghost in_order: { worker_flavor deque ≡ 0 },
    ghost live: { (worker_view deque).live ≡ true },
    ghost owner: { 0 < (worker_view deque).seats },
    ghost nothing_left_over: { ended ≡ false → (worker_view deque).rest ≡ [] },
    ghost all_joined: { ended ≡ true → (worker_view deque).seats ≡ length (worker_view deque).closed + 1 },
}

/// A thief's end of a lane.
#[derive(Drop)]
pub struct Thief {
    pub(crate) lane: usize,
    deque: Taker,
    pass: Pass<Slice, Hand>,
    ghost seated: { IsPassOf (stealer_deque deque) pass },
    ghost in_order: { stealer_flavor deque ≡ 0 },
    ghost live: { (view pass).live ≡ true },
    ghost nothing_left_over: { (view pass).rest ≡ [] },
}

impl Lane {
    ghost use Rattle.slice_yard.specs.Lane.{lane_hand, lane_deque, lane_room, lane_index, thief_hand_of, thief_state, lane_place, IsThiefOf, IsTakerOf, IsOpen, IsEnded};

    // An empty lane with room for so many slices.
    pub(crate) fn with_room(alloc: Global, room: usize) -> Result<Lane, AllocError>
        ensures { IfOk result (λ l. (lane_hand l ≡ owner_hand) × (room ≤ lane_room l)
            × (lane_index l ≡ 0) × IsOpen l) }
    {
        Ok(Lane {
            deque: Deque::fifo_as(alloc, room)?,
            ended: false,
        })
    }

    pub(crate) fn put(&mut self, slice: Slice)
        requires room { lane_index self.old < lane_room self.old }
        requires alone { (lane_hand self.old).seats ≡ 1 }
        ensures same { (lane_deque self.new ≡ lane_deque self.old) × (lane_room self.old ≤ lane_room self.new)
            × (lane_index self.new ≡ lane_index self.old + 1) }
        ensures put { lane_hand self.new ≡ opened (lane_hand self.old) (slice ∷ []) }
    {
        let Ok(()) = self.deque.push_as::<Opens>(slice) else {
            unreachable!()
        };
    }

    pub(crate) fn taker(&self) -> Result<Taker, AllocError>
        ensures { IfOk result (IsTakerOf self.now) }
    {
        self.deque.stealer()
    }

    // A new thief of the lane, whose number is given. Its seat is the next.
    pub(crate) fn thief(&mut self, number: usize, taker: Taker) -> Thief
        requires taker { IsTakerOf self.old taker }
        requires open { IsOpen self.old }
        ensures same { lane_deque self.new ≡ lane_deque self.old }
        ensures owner { lane_hand self.new ≡ one_more (lane_hand self.old) }
        ensures thief { thief_state result ≡ (number, (lane_deque self.old).0, thief_hand (lane_hand self.old)) }
    {
        let pass = self.deque.another::<Seats>();
        Thief {
            lane: number,
            deque: taker,
            pass,
        }
    }

    // Takes in a thief's list.
    pub(crate) fn absorb(&mut self, thief: Thief)
        requires lane { IsThiefOf self.old thief }
        requires open { IsOpen self.old }
        requires seat { (thief_hand_of thief).seat ≡ length (lane_hand self.old).closed + 1 }
        ensures same { lane_deque self.new ≡ lane_deque self.old }
        ensures list { lane_hand self.new ≡ with_list (lane_hand self.old) (thief_hand_of thief) }
    {
        let Thief {
            lane: _,
            deque,
            pass,
        } = thief;
        drop(deque);
        self.deque.absorb::<Seats>(pass);
    }

    // From now on it hands out what is left.
    pub(crate) fn end(&mut self)
        requires { (lane_hand self.old).seats ≡ length (lane_hand self.old).closed + 1 }
        ensures hand { lane_hand self.new ≡ lane_hand self.old }
        ensures ended { IsEnded self.new }
    {
        self.ended = true;
    }

    /// The slice at the front, which now stands last in the lane's list. `None` where the lane was empty at one
    /// moment; if it has no thief, its list is then the whole opening list.
    pub fn next(&mut self) -> Option<Slice>
        ensures same { lane_place self.new ≡ lane_place self.old }
        ensures some { IfSome result (λ x. (lane_hand self.new ≡ took (lane_hand self.old) (x ∷ []))
            × Contains (lane_hand self.old).opening x) }
        ensures none { IfNone result (lane_hand self.new ≡ lane_hand self.old) }
        ensures alone { IfNone result (IsOpen self.old → (lane_hand self.old).seats ≡ 1
            → (lane_hand self.old).handed ≡ (lane_hand self.old).opening) }
    {
        if self.ended {
            return None;
        }
        self.deque.pop_as::<Takes>()
    }

    // The next slice that nobody took. `None` only where nothing is left.
    pub(crate) fn left(&mut self) -> Option<Slice>
        requires { IsEnded self.old }
        ensures ended { IsEnded self.new }
        ensures some { IfSome result (λ x. (lane_hand self.new ≡ handed_rest (lane_hand self.old) (x ∷ []))
            × Contains (lane_hand self.old).opening x) }
        ensures none { IfNone result (lane_hand self.new ≡ lane_hand self.old) }
        ensures all { IfNone result (IsShared (lane_hand self.old) (lane_hand self.old).opening) }
    {
        self.deque.pop_as::<Drains>()
    }
}

impl Thief {
    ghost use Rattle.slice_yard.specs.Lane.{thief_hand_of, thief_place};

    /// A slice from the front. `None` where the lane was empty at one moment, or where every attempt lost a race.
    pub fn steal(&mut self) -> Option<Slice>
        ensures same { thief_place self.new ≡ thief_place self.old }
        ensures some { IfSome result (λ x. (thief_hand_of self.new ≡ took (thief_hand_of self.old) (x ∷ []))
            × Contains (thief_hand_of self.old).opening x) }
        ensures none { IfNone result (thief_hand_of self.new ≡ thief_hand_of self.old) }
    {
        for _ in 0..TRIES {
            match self.deque.steal_as::<Steals>(&mut self.pass) {
                Steal::Success(slice) => return Some(slice),
                Steal::Empty => return None,
                Steal::Retry => {}
            }
        }
        None
    }
}
