//! The cone of a goal.

ghost use Rattle.std.specs.Prelude.{◌≡◌, IfOk, Err, Some, slice_get};
ghost use Rattle.snapshots.specs.Snapshots.{rules_in, tuples_in};
ghost use Rattle.goal_cone.specs.Bounds.{IsOutgrown};
ghost use Rattle.goal_cone.specs.Cone.{IsCone, AreDistinct};

use crate::fault::ConeFault;
use crate::leaves::Leaves;
use crate::premises::{MAX_LINKS, MAX_USERSETS, see_read};
use crate::seen::Seen;
use snapshots::Snapshot;
use std::alloc::Global;
use tuple_text::Fact;

/// The cone of a goal, as [`explore`] gives it, where the leaves of rules are kept for other goals of the same rules.
///
/// Refusals are those of [`explore`].
pub fn explore_by(
    alloc: Global,
    leaves: &mut Leaves<'_>,
    snapshot: &Snapshot<'_>,
    goal: &Fact,
) -> Result<Vec<Fact>, ConeFault>
    requires { leaves.old.declarations ≡ snapshot.now.timeline.declarations }
    ensures rules { leaves.new.declarations ≡ leaves.old.declarations }
    ensures cone { IfOk result (λ v. IsCone (rules_in snapshot.now) (tuples_in snapshot.now) goal.now v.items) }
    ensures distinct { IfOk result (λ v. AreDistinct v.items) }
    ensures first { IfOk result (λ v. slice_get v.items 0 ≡ Some goal.now) }
    ensures outgrown { result ≡ Err ConeFault.Outgrown →
        IsOutgrown MAX_USERSETS MAX_LINKS (rules_in snapshot.now) (tuples_in snapshot.now) goal.now }
{
    let first = goal.clone()?;
    let mut seen = Seen::new(alloc);
    seen.add(first)?;
    let mut room = MAX_LINKS;
    for next in 0..MAX_USERSETS + 1 {
        let Some(fact) = seen.get(next) else {
            return Ok(seen.into_facts());
        };
        let fact = fact.clone()?;
        see_read(alloc, snapshot, &fact, leaves, &mut seen, &mut room)?;
    }
    Err(ConeFault::Outgrown)
}

/// The cone of a goal, each fact once, and the goal first.
///
/// Refusals: Outgrown, only where every list of facts that holds the goal and its own premises has more than
/// [`MAX_USERSETS`] facts or reads more than [`MAX_LINKS`] stored usersets; OutOfMemory.
pub fn explore(alloc: Global, snapshot: &Snapshot<'_>, goal: &Fact) -> Result<Vec<Fact>, ConeFault>
    ensures cone { IfOk result (λ v. IsCone (rules_in snapshot.now) (tuples_in snapshot.now) goal.now v.items) }
    ensures distinct { IfOk result (λ v. AreDistinct v.items) }
    ensures first { IfOk result (λ v. slice_get v.items 0 ≡ Some goal.now) }
    ensures outgrown { result ≡ Err ConeFault.Outgrown →
        IsOutgrown MAX_USERSETS MAX_LINKS (rules_in snapshot.now) (tuples_in snapshot.now) goal.now }
{
    let mut leaves = Leaves::new(alloc, snapshot.timeline.rules());
    explore_by(alloc, &mut leaves, snapshot, goal)
}
