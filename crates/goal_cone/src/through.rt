//! What relations give through a tupleset.

ghost use Rattle.std.specs.Prelude.{◌≡◌, ◌<◌, ◌≤◌, ◌++◌, ◌^◌, ℕ, List, None, Some, Contains, IfOk, IfSome, IsSomeAnd, OnOk, true, false, length, map, option_map, slice_get, string_bytes};
ghost use Rattle.tuple_text.specs.Refs.{set_value};
ghost use Rattle.namespaces.specs.InForce.{names_in_force};
ghost use Rattle.namespaces.specs.Lookup.{rule_at};
ghost use Rattle.rewrites.specs.Parts.{computed_names};
ghost use Rattle.strata.specs.Meaning.{with_relation};
ghost use Rattle.judgement.specs.StoredIn.{HaveStored};
ghost use Rattle.namespaces.specs.Numbers.{Has};
ghost use Rattle.wide_rules.specs.Declaring.{DeclaresNone, HaveDeclaring};
ghost use Rattle.goal_cone.specs.Targets.{AreObjects, AreRead, AreTargets, AreWanted, IsUnwanted, targets_under};

use judgement::{is_absent, stored_in, under};
use marks::MarkedSet;
use namespaces::{MAX_NUMBER, Numbers, Rules};
use rewrites::Through;
use snapshots::Snapshot;
use std::alloc::{AllocError, Global};
use tuple_text::SetRef;

/// The relation that is read at a place, where a namespace declares it at a timestamp.
pub(crate) fn declared_at<'s>(
    rules: &Rules,
    through: &'s Through,
    namespace: &str,
    at: u64,
    k: usize,
) -> Option<&'s str>
    ensures some { IfSome result (λ s. slice_get (computed_names through.now) k ≡ Some s.now) }
    ensures none { result ≡ None → (c : List ℕ) → slice_get (computed_names through.now) k ≡ Some c
        → rule_at rules.now at namespace.now c ≡ None }
{
    let relation = through.name(k)?;
    let set = SetRef {
        namespace,
        id: "",
        relation,
    };
    if rules.body(set, at).is_some() {
        Some(relation)
    } else {
        None
    }
}

/// Relation number `k` of a namespace at a timestamp, where it is read.
fn read_at<'s>(
    rules: &'s Rules,
    through: &Through,
    namespace: &str,
    at: u64,
    k: usize,
) -> Option<&'s str>
    ensures some { IfSome result (λ s. (slice_get (names_in_force at namespace.now rules.now) k ≡ Some s.now)
        × Contains (computed_names through.now) s.now) }
    ensures none { result ≡ None → (c : List ℕ) → slice_get (names_in_force at namespace.now rules.now) k ≡ Some c
        → ¬ Contains (computed_names through.now) c }
{
    let name = rules.name_in_force(namespace, at, k)?;
    if through.reads(name) {
        Some(name)
    } else {
        None
    }
}

/// The relations that are read and that a namespace declares at a timestamp, of those that are read.
fn declared_of<'s>(
    alloc: Global,
    rules: &Rules,
    through: &'s Through,
    namespace: &str,
    at: u64,
) -> Result<Vec<&'s str>, AllocError>
    ensures { IfOk result (λ v. AreRead (rule_at rules.now at namespace.now) (computed_names through.now)
        (map (λ s. s.now) v.items)) }
{
    let mut names = Vec::new(alloc);
    for k in 0..through.computed.len() {
        if let Some(name) = declared_at(rules, through, namespace, at, k) {
            names.push(name)?;
        }
    }
    Ok(names)
}

/// The same, of those that are declared, of which there are 256 at most.
fn read_of<'s>(
    alloc: Global,
    rules: &'s Rules,
    through: &Through,
    namespace: &str,
    at: u64,
) -> Result<Vec<&'s str>, AllocError>
    requires { length (names_in_force at namespace.now rules.now) ≤ length (computed_names through.now) }
    ensures { IfOk result (λ v. AreRead (rule_at rules.now at namespace.now) (computed_names through.now)
        (map (λ s. s.now) v.items)) }
{
    let mut names = Vec::new(alloc);
    for k in 0..rules.count_in_force(namespace, at) {
        if let Some(name) = read_at(rules, through, namespace, at, k) {
            names.push(name)?;
        }
    }
    Ok(names)
}

/// Whether a namespace may declare a relation that is read, where those that do are among some.
pub(crate) fn may_declare(rules: &Rules, namespace: &str, declaring: Numbers) -> bool
    ensures { result ≡ false → (names : List (List ℕ)) (at : ℕ) → HaveDeclaring rules.now names declaring → at < 2 ^ 64
        → DeclaresNone (rule_at rules.now at) names namespace.now }
{
    match rules.namespace_number(namespace) {
        Some(number) => declaring.has(number),
        None => false,
    }
}

/// The same, of the shorter of both lists, and of none where it is known that the namespace declares none.
fn names_read<'s>(
    alloc: Global,
    rules: &'s Rules,
    through: &'s Through,
    declaring: Numbers,
    namespace: &str,
    at: u64,
) -> Result<Vec<&'s str>, AllocError>
    ensures { HaveDeclaring rules.now (computed_names through.now) declaring
        → IfOk result (λ v. AreRead (rule_at rules.now at namespace.now) (computed_names through.now)
        (map (λ s. s.now) v.items)) }
{
    if !may_declare(rules, namespace, declaring) {
        return Ok(Vec::new(alloc));
    }
    if through.computed.len() < rules.count_in_force(namespace, at) {
        declared_of(alloc, rules, through, namespace, at)
    } else {
        read_of(alloc, rules, through, namespace, at)
    }
}

/// Whether something is stored in a crowded tupleset, of the namespace of a number, that declares a relation that is
/// read.
fn is_wanted(
    alloc: Global,
    snapshot: &Snapshot<'_>,
    tupleset: MarkedSet<'_>,
    through: &Through,
    declaring: Numbers,
    stored: Option<Numbers>,
    number: u16,
) -> Result<bool, AllocError>
    requires { IfSome stored (HaveStored snapshot.now (set_value tupleset.set)) }
    ensures { HaveDeclaring snapshot.now.timeline.declarations (computed_names through.now) declaring
        → IfOk result (λ r. r ≡ false
        → IsUnwanted snapshot.now (set_value tupleset.entry.set) (computed_names through.now) number) }
{
    snapshot.fits();
    if !declaring.has(number)
        || is_absent(stored, number)
        || snapshot.stores_none(tupleset, number)
    {
        return Ok(false);
    }
    let rules = snapshot.timeline.rules();
    match rules.namespace(number) {
        Some(namespace) => {
            let names = names_read(alloc, rules, through, declaring, namespace, snapshot.at)?;
            Ok(!names.is_empty())
        }
        None => Ok(true),
    }
}

/// The namespaces of which something matters that is stored in a crowded tupleset, of 256.
fn wanted(
    alloc: Global,
    snapshot: &Snapshot<'_>,
    tupleset: MarkedSet<'_>,
    through: &Through,
    declaring: Numbers,
    stored: Option<Numbers>,
) -> Result<Numbers, AllocError>
    requires { IfSome stored (HaveStored snapshot.now (set_value tupleset.set)) }
    ensures { HaveDeclaring snapshot.now.timeline.declarations (computed_names through.now) declaring
        → IfOk result (λ w. AreWanted snapshot.now (set_value tupleset.entry.set) (computed_names through.now) 256 w) }
{
    let mut wanted = Numbers::none();
    for before in 0..MAX_NUMBER {
        if is_wanted(
            alloc,
            snapshot,
            tupleset,
            through,
            declaring,
            stored,
            before + 1,
        )? {
            wanted = wanted.with(before + 1);
        }
    }
    Ok(wanted)
}

/// Whether it is known at one look that nothing is stored of namespaces.
fn are_apart(stored: Option<Numbers>, declaring: Numbers) -> bool
    ensures { result ≡ true → IsSomeAnd stored (λ s. (n : ℕ) → Has s n → Has declaring n → ⊥) }
{
    match stored {
        Some(stored) => !stored.meets(declaring),
        None => false,
    }
}

/// Usersets that are stored in a tupleset, each once, among them one of the object of each whose namespace declares a
/// relation that is read.
pub(crate) fn objects<'s>(
    alloc: Global,
    snapshot: &'s Snapshot<'_>,
    tupleset: MarkedSet<'s>,
    through: &Through,
    declaring: Numbers,
) -> Result<Vec<SetRef<'s>>, AllocError>
    ensures { HaveDeclaring snapshot.now.timeline.declarations (computed_names through.now) declaring
        → IfOk result (λ v. AreObjects snapshot.now (set_value tupleset.entry.set) (computed_names through.now)
        (map set_value v.items)) }
{
    snapshot.fits();
    let stored = stored_in(snapshot, tupleset);
    if are_apart(stored, declaring) {
        return Ok(Vec::new(alloc));
    }
    match snapshot.few(alloc, tupleset)? {
        Some(sets) => Ok(sets),
        None => {
            snapshot.is_well_formed();
            let wanted = wanted(alloc, snapshot, tupleset, through, declaring, stored)?;
            snapshot.leading_through(alloc, tupleset, wanted)
        }
    }
}

/// Whether two usersets are of one namespace.
fn are_of_one(set: SetRef<'_>, other: SetRef<'_>) -> bool
    ensures { result ≡ true → (set_value set.entry).namespace ≡ (set_value other.entry).namespace }
{
    set.namespace == other.namespace
}

/// Puts the object of a userset under some relations behind other usersets.
fn push_under<'s>(
    targets: &mut Vec<SetRef<'s>>,
    set: SetRef<'s>,
    names: &[&'s str],
) -> Result<(), AllocError>
    ensures { OnOk result (map set_value targets.new.items ≡ map set_value targets.old.items ++ targets_under
        (set_value set.entry) (map (λ s. s.now) names.now)) }
{
    for relation in names {
        targets.push(SetRef {
            relation: *relation,
            ..set
        })?;
    }
    Ok(())
}

/// What relations give through a tupleset of the object of a userset: the objects of what is stored there, each under
/// those of the relations that it declares then. What is stored is gone over once for all of the relations.
///
/// `declaring` says of which namespaces that may be: what is stored of others is passed over, unread where much is
/// stored. So all that is declared is given where each namespace that ever declares one of the relations is there.
///
/// Refusals: OutOfMemory.
pub fn targets<'s>(
    alloc: Global,
    snapshot: &'s Snapshot<'_>,
    set: SetRef<'s>,
    through: &'s Through,
    declaring: Numbers,
) -> Result<Vec<SetRef<'s>>, AllocError>
    ensures { HaveDeclaring snapshot.now.timeline.declarations (computed_names through.now) declaring
        → IfOk result (λ v. AreTargets snapshot.now
        (with_relation (set_value set.entry) (string_bytes through.now.tupleset))
        (computed_names through.now) (map set_value v.items)) }
{
    let rules = snapshot.timeline.rules();
    let at = snapshot.at;
    let tupleset = MarkedSet::of(under(set, through.tupleset.as_str()));
    let objects = objects(alloc, snapshot, tupleset, through, declaring)?;
    let mut targets = Vec::new(alloc);
    if objects.is_empty() {
        return Ok(targets);
    }
    let mut of = objects[0];
    let mut names = names_read(alloc, rules, through, declaring, of.namespace, at)?;
    // those of one namespace mostly follow one another
    for stored in objects {
        if !are_of_one(of, stored) {
            of = stored;
            names = names_read(alloc, rules, through, declaring, of.namespace, at)?;
        }
        push_under(&mut targets, stored, &names)?;
    }
    Ok(targets)
}
