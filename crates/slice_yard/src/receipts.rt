//! What is left in a yard that was closed.
ghost use Rattle.std.specs.Prelude.{◌≡◌, ◌+◌, ◌<◌, ℕ, All, map, length, slice_index_or, IfSome, IfNone};
ghost use Rattle.slice_yard.specs.Lane.{lane_hand, IsEnded};
ghost use Rattle.slice_yard.specs.Hands.{owner_hand};
ghost use Rattle.slice_yard.specs.ClosedRuns.{WereOpened, ListsAreRun};
ghost use Rattle.slice_yard.specs.Shared.{IsSpent, HasEachOnce, HandedLeft};

use crate::lane::Lane;
use crate::slices::Slice;

/// What is left in the lanes of a yard after all its ends were handed in.
#[derive(Drop)]
pub struct Receipts {
    lanes: Vec<Lane>,
    ghost ended: { All IsEnded lanes.items },
}

impl Receipts {
    ghost use Rattle.slice_yard.specs.Receipts.{receipt_hands};

    pub(crate) fn of(mut lanes: Vec<Lane>) -> Receipts
        requires { All (λ l. (lane_hand l).seats ≡ length (lane_hand l).closed + 1) lanes.items }
        ensures { receipt_hands result ≡ map lane_hand lanes.items }
    {
        end_all(lanes.as_mut_slice());
        Receipts { lanes }
    }

    /// A slice that nobody took, which now stands last in what was handed out of its lane. `None` only where nothing is
    /// left in any lane: then the lists of each lane and what was handed out of it hold each slice of its opening list
    /// once, and the lists are a run of the core.
    pub fn next(&mut self) -> Option<Slice>
        ensures some { IfSome result (HandedLeft (receipt_hands self.old) (receipt_hands self.new)) }
        ensures none { IfNone result (receipt_hands self.new ≡ receipt_hands self.old) }
        ensures all { IfNone result (All IsSpent (receipt_hands self.old)) }
        ensures once { IfNone result (All HasEachOnce (receipt_hands self.old)) }
        ensures runs { IfNone result ((slices lanes workers : ℕ)
            → WereOpened slices lanes workers (receipt_hands self.old)
            → (l : ℕ) → l < lanes
            → ListsAreRun slices lanes workers l (slice_index_or (receipt_hands self.old) l owner_hand)) }
    {
        next_of(self.lanes.as_mut_slice())
    }
}

// From the first lane that gives one.
fn next_of(lanes: &mut [Lane]) -> Option<Slice>
    requires { All IsEnded lanes.old }
    ensures ended { All IsEnded lanes.new }
    ensures some { IfSome result (HandedLeft (map lane_hand lanes.old) (map lane_hand lanes.new)) }
    ensures none { IfNone result (map lane_hand lanes.new ≡ map lane_hand lanes.old) }
    ensures all { IfNone result (All IsSpent (map lane_hand lanes.old)) }
{
    for lane in lanes.iter_mut() {
        match lane.left() {
            Some(slice) => return Some(slice),
            None => {}
        }
    }
    None
}

fn end_all(lanes: &mut [Lane])
    requires { All (λ l. (lane_hand l).seats ≡ length (lane_hand l).closed + 1) lanes.old }
    ensures hands { map lane_hand lanes.new ≡ map lane_hand lanes.old }
    ensures ended { All IsEnded lanes.new }
{
    for lane in lanes.iter_mut() {
        lane.end();
    }
}
