//! Laws of the store. A function computes nothing: what it ensures is the law.

ghost use Rattle.std.specs.Prelude.{ℕ};
ghost use Rattle.tuple_text.specs.Tuples.{TupleValue};
ghost use Rattle.version_chains.specs.Commits.{history_of};
ghost use Rattle.version_chains.specs.Walks.{IsJump, PassesNone};

use crate::chains::Chains;

/// A jump from a touch of a tuple back to an earlier one, taken on the way to a timestamp, passes no touch at or
/// below that timestamp where the touch that it leads to is above it; so it finds what a walk from touch to touch
/// finds.
pub fn jump_is_walk(chains: &Chains)
    ensures { (t : TupleValue) (s from to : ℕ) → IsJump s (history_of chains.now.commits t) from to
        → PassesNone s (history_of chains.now.commits t) from to }
{
    let _ = chains.commits();
}
