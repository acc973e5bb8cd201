//! The rule of a lane, and what each of its steps tells.
ghost use Rattle.std.specs.Prelude.{◌≡◌, ◌++◌};
ghost use Rattle.slice_yard.specs.Hands.{opened};

use crate::slices::Slice;
use crossbeam_deque::protocol::{Join, Lesson, Outcome, Protocol, Split};
use std::collections::LinkedList;

/// What a pass of a lane knows. No value of it is made.
pub struct Hand {
    /// False once the pass was joined with the owner's: it has no list any more.
    pub live: bool,
    /// 0 is the owner's, and each thief has the next.
    pub seat: u64,
    /// The passes that were made so far, in the owner's pass. 0 in a thief's.
    pub seats: u64,
    /// The slices that were put in.
    pub opening: LinkedList<Slice>,
    /// What the pass was handed.
    pub handed: LinkedList<Slice>,
    /// In the owner's pass, what the thieves were handed whose passes were joined with it, by seat.
    pub closed: LinkedList<LinkedList<Slice>>,
    /// In the owner's pass, what was handed out after all passes were joined.
    pub rest: LinkedList<Slice>,
}

pub struct InLane;

impl Protocol<Slice, Hand> for InLane {
    ghost use Rattle.slice_yard.specs.Hands.{IsHeld, owner_hand, spent_hand};

    ghost holds = { IsHeld };

    ghost first = { owner_hand };

    ghost guest = { spent_hand };
}

/// A slice is put in.
pub struct Opens;

impl Outcome<Slice, Hand> for Opens {
    ghost then = { λ v xs w. w ≡ opened v xs };
}

/// A slice is handed to the owner.
pub struct Takes;

impl Outcome<Slice, Hand> for Takes {
    ghost use Rattle.slice_yard.specs.Hands.{took, AllOneOf, HasAll};

    ghost then = { λ v xs w. (w ≡ took v xs) × AllOneOf v.opening xs };

    ghost empty = { HasAll };
}

/// A slice is handed to a thief.
pub struct Steals;

impl Outcome<Slice, Hand> for Steals {
    ghost use Rattle.slice_yard.specs.Hands.{took, AllOneOf};

    ghost then = { λ v xs w. (w ≡ took v xs) × AllOneOf v.opening xs };
}

/// A slice is handed out after all passes were joined.
pub struct Drains;

impl Outcome<Slice, Hand> for Drains {
    ghost use Rattle.slice_yard.specs.Hands.{handed_rest, AllOneOf, IsShared};

    ghost then = { λ v xs w. (w ≡ handed_rest v xs) × AllOneOf v.opening xs };

    ghost empty = { λ v. IsShared v v.opening };
}

/// A new thief's pass.
pub struct Seats;

impl Split<Hand> for Seats {
    ghost use Rattle.slice_yard.specs.Hands.{one_more, thief_hand};

    ghost left = { one_more };

    ghost right = { thief_hand };
}

impl Join<Hand> for Seats {
    ghost use Rattle.slice_yard.specs.Hands.{with_list, spent_hand};

    ghost both = { with_list };

    ghost spent = { spent_hand };
}
