//! The machine: the slices in their lanes, in the workers' hands, done or lost.
ghost use Rattle.std.specs.Prelude.{◌≡◌, ◌+◌, ◌<◌, ◌≤◌, ◌==◌, ℕ, Some, None, map, length, IfOk, IfErr, OnOk, OnErr, slice_get, slice_set, vec_len, vec_capacity};
ghost use Rattle.slice_core.specs.Named.{named_from};
ghost use Rattle.slice_core.specs.Places.{count_all, numbers_of};
ghost use Rattle.slice_core.specs.Opening.{IsAllowed, Refuses};

use crate::opening::{OpenCause, refusal};
use std::alloc::{AllocError, Global};
use std::collections::VecDeque;
use thiserror::Error;

/// A step of one worker.
#[derive(Clone, Copy, Debug, PartialEq, Eq)]
pub enum Event {
    /// The first slice of the worker's own lane goes to its empty hand.
    Take(usize),
    /// The first slice of another lane, whose number is the second, goes to the worker's empty hand.
    Steal(usize, usize),
    /// The slice in the worker's hand goes to the end of those that are done.
    Finish(usize),
    /// The slice in the worker's hand goes to the end of those that are lost.
    Fail(usize),
}

/// The worker, the lane, the hand or the slice of the event is not there.
#[derive(Clone, Copy, Debug, PartialEq, Eq, Error)]
#[error("no such worker, lane, hand or slice")]
pub struct NotEnabled;

/// Slice numbers, and where each of them stands.
#[derive(Drop)]
pub struct Core {
    lanes: Vec<VecDeque<usize>>,
    hands: Vec<Option<usize>>,
    done: Vec<usize>,
    lost: Vec<usize>,
    ghost done_fits: { count_all (map (λ d. d.items) lanes.items) hands.items done.items lost.items
        ≤ vec_capacity done },
    ghost lost_fits: { count_all (map (λ d. d.items) lanes.items) hands.items done.items lost.items
        ≤ vec_capacity lost },
}

impl Core {
    ghost use Rattle.slice_core.specs.Machine.{state_of, IsIdle, WithoutHand};
    ghost use Rattle.slice_core.specs.Places.{after, moved, start_state};

    /// Slice number k stands in lane k modulo `lanes`, and every hand is empty. Refused for no lane, for more lanes
    /// than workers, for more than 16 workers, and where memory runs out.
    pub fn start(
        alloc: Global,
        slices: usize,
        lanes: usize,
        workers: usize,
    ) -> Result<Core, OpenCause>
        ensures allowed { IfOk result (λ _. IsAllowed lanes workers) }
        ensures state { IfOk result (λ c. state_of c ≡ start_state slices lanes workers) }
        ensures refused { IfErr result (Refuses lanes workers) }
    {
        if let Some(cause) = refusal(lanes, workers) {
            return Err(cause);
        }
        match Core::opening(alloc, slices, lanes, workers) {
            Ok(core) => Ok(core),
            Err(_) => Err(OpenCause::OutOfMemory),
        }
    }

    fn opening(
        alloc: Global,
        slices: usize,
        lanes: usize,
        workers: usize,
    ) -> Result<Core, AllocError>
        requires { 0 < lanes }
        ensures { IfOk result (λ c. state_of c ≡ start_state slices lanes workers) }
    {
        let lanes = opening_lanes(alloc, slices, lanes)?;
        let hands = empty_hands(alloc, workers)?;
        let done = Vec::with_capacity(alloc, slices)?;
        let lost = Vec::with_capacity(alloc, slices)?;
        Ok(Core {
            lanes,
            hands,
            done,
            lost,
        })
    }

    /// Does the event where it is enabled. Where it is not, nothing changes.
    pub fn step(&mut self, event: Event) -> Result<(), NotEnabled>
        ensures ok { OnOk result (after (state_of self.old) event ≡ Some (state_of self.new)) }
        ensures err { OnErr result ((after (state_of self.old) event ≡ None)
            × (state_of self.new ≡ state_of self.old)) }
    {
        match event {
            Event::Take(w) => self.hand_out(w, w),
            Event::Steal(w, l) => {
                if w == l {
                    return Err(NotEnabled);
                }
                self.hand_out(w, l)
            }
            Event::Finish(w) => {
                let x = self.give_up(w)?;
                self.done.push_reserved(x);
                Ok(())
            }
            Event::Fail(w) => {
                let x = self.give_up(w)?;
                self.lost.push_reserved(x);
                Ok(())
            }
        }
    }

    fn hand_out(&mut self, w: usize, l: usize) -> Result<(), NotEnabled>
        ensures ok { OnOk result (moved (state_of self.old) w l
            (slice_get self.old.hands.items w) (slice_get (state_of self.old).lanes l) ≡ Some (state_of self.new)) }
        ensures err { OnErr result ((moved (state_of self.old) w l
            (slice_get self.old.hands.items w) (slice_get (state_of self.old).lanes l) ≡ None)
            × (state_of self.new ≡ state_of self.old)) }
    {
        if w >= self.hands.len() || l >= self.lanes.len() {
            return Err(NotEnabled);
        }
        if self.hands[w].is_some() {
            return Err(NotEnabled);
        }
        let Some(x) = self.lanes[l].pop_front() else {
            return Err(NotEnabled);
        };
        self.hands[w] = Some(x);
        Ok(())
    }

    fn give_up(&mut self, w: usize) -> Result<usize, NotEnabled>
        ensures ok { IfOk result (λ x. (slice_get self.old.hands.items w ≡ Some (Some x))
            × WithoutHand w self.old self.new) }
        ensures err { OnErr result (IsIdle (slice_get self.old.hands.items w) × (self.new ≡ self.old)) }
    {
        let Some(Some(x)) = self.hands.get(w).copied() else {
            return Err(NotEnabled);
        };
        self.hands[w] = None;
        Ok(x)
    }

    /// The slices that stand in a lane, in their order.
    pub fn lane(&self, l: usize) -> &VecDeque<usize>
        requires { l < length (state_of self.now).lanes }
        ensures { slice_get (state_of self.now).lanes l ≡ Some result.now.items }
    {
        &self.lanes[l]
    }

    /// The slice in the hand of a worker.
    pub fn hand(&self, worker: usize) -> Option<usize>
        requires { worker < length (state_of self.now).hands }
        ensures { slice_get (state_of self.now).hands worker ≡ Some result }
    {
        self.hands[worker]
    }

    /// The slices that were finished, in their order.
    pub fn done(&self) -> &[usize]
        ensures { result.now ≡ (state_of self.now).done }
    {
        self.done.as_slice()
    }

    /// The slices that failed, in their order.
    pub fn lost(&self) -> &[usize]
        ensures { result.now ≡ (state_of self.now).lost }
    {
        self.lost.as_slice()
    }
}

fn opening_lanes(
    alloc: Global,
    slices: usize,
    count: usize,
) -> Result<Vec<VecDeque<usize>>, AllocError>
    requires { 0 < count }
    ensures { IfOk result (λ v. map (λ d. d.items) v.items ≡ named_from (numbers_of slices count) 0 count) }
{
    let mut lanes = Vec::with_capacity(alloc, count)?;
    for _ in 0..count {
        lanes.push(VecDeque::new(alloc))?;
    }
    for k in 0..slices {
        let l = k % count;
        lanes[l].push_back(k)?;
    }
    Ok(lanes)
}

fn empty_hands(alloc: Global, workers: usize) -> Result<Vec<Option<usize>>, AllocError>
    ensures { IfOk result (λ v. v.items ≡ named_from (λ _. None) 0 workers) }
{
    let mut hands = Vec::with_capacity(alloc, workers)?;
    for _ in 0..workers {
        hands.push(None)?;
    }
    Ok(hands)
}
