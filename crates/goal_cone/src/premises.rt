//! The premises of one fact, as its rule names them.

ghost use Rattle.std.specs.Prelude.{◌≡◌, Contains, OnOk, Err, false, length, map};
ghost use Rattle.tuple_text.specs.Faults.{is_memory};
ghost use Rattle.tuple_text.specs.Refs.{set_value};
ghost use Rattle.tuple_text.specs.Tuples.{fact_of};
ghost use Rattle.rewrites.specs.Expression.{this, children};
ghost use Rattle.rewrites.specs.Parts.{computed_names, part_expression, through_expression};
ghost use Rattle.rewrites.specs.View.{expression_of, expressions_of};
ghost use Rattle.snapshots.specs.Snapshots.{rules_in, tuples_in};
ghost use Rattle.wide_rules.specs.Declaring.{HaveDeclaring};
ghost use Rattle.goal_cone.specs.Bounds.{links_of};
ghost use Rattle.goal_cone.specs.Leaves.{IsNoted, read_shown};
ghost use Rattle.goal_cone.specs.Pass.{AmongSets, IsRead, Passes, PassesOver, PassesOverAll};
ghost use Rattle.goal_cone.specs.Seen.{Sees, IsStuck};

use crate::fault::ConeFault;
use crate::leaves::{Leaves, ReadPart};
use crate::seen::Seen;
use crate::through::targets;
use judgement::under;
use marks::MarkedSet;
use namespaces::Numbers;
use rewrites::{Part, Rewrite, Through};
use snapshots::Snapshot;
use std::alloc::Global;
use tuple_text::{Fact, SetRef, TupleFault};
use wide_rules::namespaces_declaring;

/// How many facts a cone may have.
pub const MAX_USERSETS: usize = 131072;

/// How many stored usersets the rules of a cone may read, place by place.
pub const MAX_LINKS: usize = 4194304;

/// A fact whose rule is read, over a snapshot.
#[derive(Drop)]
struct ReadFact<'a> {
    alloc: Global,
    snapshot: &'a Snapshot<'a>,
    set: SetRef<'a>,
    user: u64,
}

/// A fact that has no text is in no record.
pub(crate) fn told(fault: TupleFault) -> ConeFault
    ensures { result ≡ ConeFault.Outgrown → is_memory fault ≡ false }
{
    match fault {
        TupleFault::OutOfMemory => ConeFault::OutOfMemory,
        _ => ConeFault::Outgrown,
    }
}

/// Sees a premise, unless its userset is undeclared.
fn see(
    alloc: Global,
    snapshot: &Snapshot<'_>,
    set: SetRef<'_>,
    user: u64,
    seen: &mut Seen,
) -> Result<(), ConeFault>
    ensures seen { OnOk result (Sees (rules_in snapshot.now) (λ q. fact_of (set_value set.entry) user ≡ q) seen.old
        seen.new) }
    ensures stuck { result ≡ Err ConeFault.Outgrown
        → IsStuck MAX_USERSETS MAX_LINKS (rules_in snapshot.now) (tuples_in snapshot.now)
        (λ q. fact_of (set_value set.entry) user ≡ q) seen.old }
{
    if snapshot.rule(set).is_none() || seen.has(set, user) {
        return Ok(());
    }
    if seen.len() >= MAX_USERSETS {
        return Err(ConeFault::Outgrown);
    }
    match Fact::of(alloc, set, user) {
        Ok(fact) => {
            seen.add(fact)?;
            Ok(())
        }
        Err(fault) => Err(told(fault)),
    }
}

/// Sees the facts of the user in usersets, each of which takes a link from the room.
fn see_each(
    fact: &ReadFact<'_>,
    sets: Vec<SetRef<'_>>,
    seen: &mut Seen,
    room: &mut usize,
) -> Result<(), ConeFault>
    ensures { Passes MAX_USERSETS MAX_LINKS fact.now.snapshot.now
        (AmongSets fact.now.user (map set_value sets.entry.items)) (length (map set_value sets.entry.items))
        result seen.old seen.new room.old room.new }
{
    for set in sets {
        if *room == 0 {
            return Err(ConeFault::Outgrown);
        }
        *room -= 1;
        see(fact.alloc, fact.snapshot, set, fact.user, seen)?;
    }
    Ok(())
}

/// Sees what a rule `this` reads.
fn see_own(fact: &ReadFact<'_>, seen: &mut Seen, room: &mut usize) -> Result<(), ConeFault>
    ensures { PassesOver MAX_USERSETS MAX_LINKS fact.now this
        result seen.old seen.new room.old room.new }
{
    let sets = fact.snapshot.leading(fact.alloc, MarkedSet::of(fact.set))?;
    see_each(fact, sets, seen, room)
}

/// Sees what some relations give through a tupleset, where these namespaces declare them.
fn see_through(
    fact: &ReadFact<'_>,
    through: &Through,
    declaring: Numbers,
    seen: &mut Seen,
    room: &mut usize,
) -> Result<(), ConeFault>
    requires { HaveDeclaring fact.now.snapshot.now.timeline.declarations (computed_names through.now) declaring }
    ensures { PassesOver MAX_USERSETS MAX_LINKS fact.now (through_expression through.now)
        result seen.old seen.new room.old room.new }
{
    let sets = targets(fact.alloc, fact.snapshot, fact.set, through, declaring)?;
    see_each(fact, sets, seen, room)
}

/// Sees what a rule reads for a user in a userset.
#[cycle(see_premises)]
fn see_premises(
    fact: &ReadFact<'_>,
    rewrite: &Rewrite,
    seen: &mut Seen,
    room: &mut usize,
) -> Result<(), ConeFault>
    ensures { PassesOver MAX_USERSETS MAX_LINKS fact.now (expression_of rewrite.now)
        result seen.old seen.new room.old room.new }
{
    match rewrite {
        Rewrite::This => see_own(fact, seen, room),
        Rewrite::Computed(relation) => {
            let set = under(fact.set, relation.as_str());
            see(fact.alloc, fact.snapshot, set, fact.user, seen)
        }
        Rewrite::TupleTo { tupleset, computed } => {
            let through = Through::of(fact.alloc, tupleset, computed)?;
            let rules = fact.snapshot.timeline.rules();
            let declaring = namespaces_declaring(fact.alloc, rules, &through)?;
            see_through(fact, &through, declaring, seen, room)
        }
        Rewrite::Union(children) | Rewrite::Inter(children) => {
            see_children(fact, children, seen, room)
        }
        Rewrite::Minus(base, subtract) => {
            see_premises(fact, base, seen, room)?;
            see_premises(fact, subtract, seen, room)
        }
    }
}

#[cycle(see_premises)]
fn see_children(
    fact: &ReadFact<'_>,
    children: &Vec<Rewrite>,
    seen: &mut Seen,
    room: &mut usize,
) -> Result<(), ConeFault>
    ensures { PassesOverAll MAX_USERSETS MAX_LINKS fact.now (expressions_of children.now.items)
        result seen.old seen.new room.old room.new }
{
    for child in children {
        see_premises(fact, child, seen, room)?;
    }
    Ok(())
}

/// Sees what a part of a rule reads.
fn see_part(
    fact: &ReadFact<'_>,
    part: &ReadPart,
    seen: &mut Seen,
    room: &mut usize,
) -> Result<(), ConeFault>
    requires { IsNoted fact.now.snapshot.now.timeline.declarations part.now }
    ensures { PassesOver MAX_USERSETS MAX_LINKS fact.now (part_expression part.now.part)
        result seen.old seen.new room.old room.new }
{
    match &part.part {
        Part::Leaf(leaf) => see_premises(fact, leaf, seen, room),
        Part::Through(through) => see_through(fact, through, part.declaring, seen, room),
    }
}

/// Sees what the parts of a rule read.
fn see_parts(
    fact: &ReadFact<'_>,
    parts: &[ReadPart],
    seen: &mut Seen,
    room: &mut usize,
) -> Result<(), ConeFault>
    requires { (r : ReadPart) → Contains parts.now r → IsNoted fact.now.snapshot.now.timeline.declarations r }
    ensures { PassesOverAll MAX_USERSETS MAX_LINKS fact.now (children (read_shown parts.now))
        result seen.old seen.new room.old room.new }
{
    for part in parts {
        see_part(fact, part, seen, room)?;
    }
    Ok(())
}

/// Sees what a fact's rule reads, by the leaves of it.
pub(crate) fn see_read(
    alloc: Global,
    snapshot: &Snapshot<'_>,
    fact: &Fact,
    leaves: &mut Leaves<'_>,
    seen: &mut Seen,
    room: &mut usize,
) -> Result<(), ConeFault>
    requires { leaves.old.declarations ≡ snapshot.now.timeline.declarations }
    ensures rules { leaves.new.declarations ≡ leaves.old.declarations }
    ensures passes { Passes MAX_USERSETS MAX_LINKS snapshot.now
        (IsRead (rules_in snapshot.now) (tuples_in snapshot.now) fact.now)
        (links_of (rules_in snapshot.now) (tuples_in snapshot.now) fact.now)
        result seen.old seen.new room.old room.new }
{
    let rules = snapshot.timeline.rules();
    let Some(place) = rules.body_place(fact.set(), snapshot.at) else {
        return Ok(());
    };
    let number = leaves.number(place)?;
    let parts = leaves.parts(number);
    let read = ReadFact {
        alloc,
        snapshot,
        set: fact.set(),
        user: fact.user(),
    };
    see_parts(&read, parts, seen, room)
}
