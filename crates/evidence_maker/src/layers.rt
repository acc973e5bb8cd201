//! Facts by strata.

ghost use Rattle.std.specs.Prelude.{◌≡◌, ◌↔◌, ◌≤◌, ◌<◌, ℕ, IsTrue, IfOk, Some, length, map, option_map, slice_get};
ghost use Rattle.tuple_text.specs.Refs.{set_value};
ghost use Rattle.namespaces.specs.Lookup.{Lookup, rule_of};
ghost use Rattle.namespaces.specs.WellFormed.{IsWellFormed};
ghost use Rattle.snapshots.specs.Snapshots.{rules_in};
ghost use Rattle.evidence_maker.specs.Making.{AreThose, HasStratum, stratum_of};

use namespaces::Rules;
use snapshots::Snapshot;
use std::alloc::{AllocError, Global};
use tuple_text::{Fact, SetRef};

/// Declarations are well formed.
pub(crate) fn well_formed(rules: &Rules)
    ensures { IsWellFormed rules.now }
{
    let _ = rules.namespace(1);
}

/// The stratum of the rule that is in force.
fn stratum_at(snapshot: &Snapshot<'_>, set: SetRef<'_>) -> Option<u8>
    ensures { result ≡ option_map (λ r. r.stratum) (rule_of (rules_in snapshot.now) (set_value set.entry)) }
{
    let rules = snapshot.timeline.rules();
    well_formed(rules);
    match rules.body(set, snapshot.at) {
        Some(_) => rules.stratum(set),
        None => None,
    }
}

/// The stratum of each fact, or None where its relation is undeclared.
pub(crate) fn strata_of(
    alloc: Global,
    snapshot: &Snapshot<'_>,
    facts: &[Fact],
) -> Result<Vec<Option<u8>>, AllocError>
    ensures { IfOk result (λ v. v.items ≡ map (stratum_of (rules_in snapshot.now)) facts.now) }
{
    let mut strata = Vec::with_capacity(alloc, facts.len())?;
    // a cone has 131,072 facts at most, here and below
    for fact in facts {
        strata.push(stratum_at(snapshot, fact.set()))?;
    }
    Ok(strata)
}

/// Whether the stratum at a place is this one.
fn is_at(strata: &[Option<u8>], place: usize, stratum: u16) -> bool
    ensures { IsTrue result ↔ slice_get strata.now place ≡ Some (Some stratum) }
{
    match strata.get(place).copied() {
        Some(Some(found)) => found as u16 == stratum,
        _ => false,
    }
}

/// The facts of a stratum, where these are the strata of all.
pub(crate) fn layer_of(
    alloc: Global,
    facts: &[Fact],
    strata: &[Option<u8>],
    stratum: u16,
) -> Result<Vec<Fact>, AllocError>
    ensures { IfOk result (λ v. (rules : Lookup) → strata.now ≡ map (stratum_of rules) facts.now
        → AreThose (HasStratum rules stratum) facts.now v.items) }
{
    let mut layer = Vec::new(alloc);
    for place in 0..facts.len() {
        let fact = &facts[place];
        if is_at(strata, place, stratum) {
            layer.push(fact.clone()?)?;
        }
    }
    Ok(layer)
}

/// Those of some places that are of a stratum.
pub(crate) fn places_of(
    alloc: Global,
    strata: &[Option<u8>],
    stratum: u16,
    order: &[usize],
) -> Result<Vec<usize>, AllocError> {
    let mut places = Vec::new(alloc);
    for place in order {
        if is_at(strata, *place, stratum) {
            places.push(*place)?;
        }
    }
    Ok(places)
}

/// The higher of a stratum and of that at a place.
fn higher_at(strata: &[Option<u8>], place: usize, top: u8) -> u8
    ensures top { top ≤ result }
    ensures there { (s : ℕ) → slice_get strata.now place ≡ Some (Some s) → s ≤ result }
{
    match strata.get(place).copied() {
        Some(Some(found)) if top < found => found,
        _ => top,
    }
}

/// The highest of some strata.
pub(crate) fn top_of(strata: &[Option<u8>]) -> u8
    ensures { (k s : ℕ) → k < length strata.now → slice_get strata.now k ≡ Some (Some s) → s ≤ result }
{
    let mut top = 0;
    for place in 0..strata.len() {
        top = higher_at(strata, place, top);
    }
    top
}
