//! Of which namespaces something matters that is stored in a tupleset.

ghost use Rattle.std.specs.Prelude.{◌≡◌, ◌≤◌, ◌&&◌, length, true, false, Some, IsTrue, IfOk, IfSome, IsSomeAnd};
ghost use Rattle.tuple_text.specs.Refs.{set_value};
ghost use Rattle.tuple_text.specs.Sets.{SetValue};
ghost use Rattle.tuple_text.specs.declared.users.User.TheVariants.{Set};
ghost use Rattle.namespaces.specs.Lookup.{namespace_names, place_of};
ghost use Rattle.rewrites.specs.Parts.{computed_names};
ghost use Rattle.strata.specs.Meaning.{IsStored};
ghost use Rattle.snapshots.specs.Snapshots.{rules_in, tuples_in};
ghost use Rattle.marks.specs.Marks.{set_mark};
ghost use Rattle.userset_index.specs.Index.{IsUsersetIndex, is_crowded};
ghost use Rattle.namespaces.specs.Numbers.{Has};
ghost use Rattle.wide_rules.specs.Declaring.{AreDeclaring, DeclaresNone};
ghost use Rattle.wide_rules.specs.Kept.{AreLive};
ghost use Rattle.judgement.specs.StoredIn.{HaveStored};
ghost use Rattle.judgement.specs.Passes.{EachSet};

use crate::declaring::{declares_some, is_among};
use judgement::{is_absent, stored_in};
use marks::MarkedSet;
use namespaces::Numbers;
use rewrites::Through;
use snapshots::Snapshot;
use std::alloc::{AllocError, Global};
use userset_index::UsersetIndex;
use version_chains::Usersets;

/// Whether something may matter that is stored in a crowded set, of the namespace of a number.
fn is_live(
    snapshot: &Snapshot<'_>,
    index: &UsersetIndex,
    through: &Through,
    set: MarkedSet<'_>,
    stored: Option<Numbers>,
    number: u16,
) -> bool
    requires few { length (namespace_names snapshot.now.timeline.declarations) ≤ 256 }
    requires stored { IfSome stored (HaveStored snapshot.now (set_value set.set)) }
    requires index { IsUsersetIndex snapshot.now.timeline.declarations snapshot.now.timeline.commits index.now }
    requires crowded { (index.now.is_whole && is_crowded index.now.crowds (set_mark (set_value set.set))) ≡ true }
    ensures { result ≡ false → (g : SetValue) → IsStored (tuples_in snapshot.now) (set_value set.entry.set) (Set g)
        → place_of g.namespace (namespace_names snapshot.now.timeline.declarations) ≡ Some number
        → DeclaresNone (rules_in snapshot.now) (computed_names through.now) g.namespace }
{
    if is_absent(stored, number) {
        return false;
    }
    let mut touches = index.through(set, number, snapshot.at);
    if touches.next().is_none() {
        return false;
    }
    match snapshot.timeline.rules().namespace(number) {
        Some(namespace) => declares_some(
            snapshot.timeline.rules(),
            through,
            namespace,
            snapshot.at,
        ),
        None => true,
    }
}

/// The numbers of those of which something may matter that is stored in a crowded set. There are 256 namespaces at
/// most.
fn live_in_crowd(
    alloc: Global,
    snapshot: &Snapshot<'_>,
    index: &UsersetIndex,
    through: &Through,
    set: MarkedSet<'_>,
    declaring: &[u16],
) -> Result<Vec<u16>, AllocError>
    requires index { IsUsersetIndex snapshot.now.timeline.declarations snapshot.now.timeline.commits index.now }
    requires crowded { (index.now.is_whole && is_crowded index.now.crowds (set_mark (set_value set.set))) ≡ true }
    requires declaring { AreDeclaring snapshot.now.timeline.declarations (computed_names through.now) declaring.now }
    ensures { IfOk result (λ live. AreLive snapshot.now (set_value set.entry.set) (computed_names through.now)
        live.items) }
{
    snapshot.fits();
    let stored = stored_in(snapshot, set);
    let mut live = Vec::new(alloc);
    for number in declaring {
        if is_live(snapshot, index, through, set, stored, *number) {
            live.push(*number)?;
        }
    }
    Ok(live)
}

/// Whether the namespace of a userset declares no relation that is read.
fn is_quiet(snapshot: &Snapshot<'_>, through: &Through, namespace: &str, declaring: &[u16]) -> bool
    requires { AreDeclaring snapshot.now.timeline.declarations (computed_names through.now) declaring.now }
    ensures { IsTrue result → DeclaresNone (rules_in snapshot.now) (computed_names through.now) namespace.now }
{
    snapshot.fits();
    let rules = snapshot.timeline.rules();
    !is_among(rules, namespace, declaring) || !declares_some(rules, through, namespace, snapshot.at)
}

/// Whether that is so of each of some usersets. A set that is not crowded has 16 at most.
fn are_quiet(
    snapshot: &Snapshot<'_>,
    through: &Through,
    sets: Usersets<'_>,
    declaring: &[u16],
) -> bool
    requires { AreDeclaring snapshot.now.timeline.declarations (computed_names through.now) declaring.now }
    ensures { IsTrue result → EachSet
        (λ g. DeclaresNone (rules_in snapshot.now) (computed_names through.now) g.namespace) sets.entry }
{
    for set in sets {
        if !is_quiet(snapshot, through, set.set.namespace, declaring) {
            return false;
        }
    }
    true
}

/// The numbers of the namespaces of which something may matter that is stored in a set. It does not depend on a user.
pub(crate) fn live_in(
    alloc: Global,
    snapshot: &Snapshot<'_>,
    through: &Through,
    set: MarkedSet<'_>,
    declaring: &[u16],
) -> Result<Vec<u16>, AllocError>
    requires { AreDeclaring snapshot.now.timeline.declarations (computed_names through.now) declaring.now }
    ensures { IfOk result (λ live. AreLive snapshot.now (set_value set.entry.set) (computed_names through.now)
        live.items) }
{
    snapshot.fits();
    let index = snapshot.timeline.usersets();
    if index.is_crowded(set) {
        return live_in_crowd(alloc, snapshot, index, through, set, declaring);
    }
    let sets = snapshot.usersets(set);
    if are_quiet(snapshot, through, sets, declaring) {
        return Ok(Vec::new(alloc));
    }
    Vec::from_slice(alloc, declaring)
}
