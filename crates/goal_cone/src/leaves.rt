//! The leaves of rules, each once; those that go through one tupleset together.

ghost use Rattle.std.specs.Prelude.{◌≡◌, ◌∷◌, [], true, false, Contains, IfOk, OnOk, map, string_bytes};
ghost use Rattle.namespaces.specs.Lookup.{expression_in};
ghost use Rattle.rewrites.specs.Expression.{tuple_to};
ghost use Rattle.rewrites.specs.Joints.{IsPut};
ghost use Rattle.rewrites.specs.Leaves.{Collects, leaves_in};
ghost use Rattle.rewrites.specs.Parts.{each_shown, parts_shown};
ghost use Rattle.rewrites.specs.Plain.{leaves};
ghost use Rattle.rewrites.specs.View.{expression_of};
ghost use Rattle.goal_cone.specs.Leaves.{Grows, HaveLeavesOf, IsNoted, numbered, read_shown};

use namespaces::{Numbers, RulePlace, Rules};
use rewrites::{Part, Rewrite, Through};
use std::alloc::{AllocError, Global};
use std::collections::BTreeMap;
use std::marker::Model;
use wide_rules::namespaces_declaring;

/// A part of a rule, and, where it reads through a tupleset, the namespaces that ever declare a relation that it reads
/// there.
#[derive(Drop)]
pub struct ReadPart {
    pub part: Part,
    pub declaring: Numbers,
}

/// The leaves of a rule, and where it stands.
#[derive(Drop)]
pub(crate) struct PlacedLeaves {
    pub(crate) place: RulePlace,
    pub(crate) parts: Vec<ReadPart>,
}

/// The leaves of the rules that were asked for, each of which is gone over once, however many facts have it. Contracts
/// see the rules that it is of, and what was found.
#[derive(Drop)]
pub struct Leaves<'r> {
    alloc: Global,
    rules: &'r Rules,
    placed: Vec<PlacedLeaves>,
    // by its place, where those of a rule may be found: they are its own only where their place says so
    numbers: BTreeMap<(usize, usize), usize>,
}

impl<'r> Model for Leaves<'r> {
    ghost use Rattle.std.specs.Prelude.{map};
    ghost use Rattle.goal_cone.specs.Leaves.{ArePlaced, LeavesValue, read_shown};
    ghost use Rattle.goal_cone.specs.LeavesCode.{leaves_code};

    ghost Value = { LeavesValue };

    ghost coded = { leaves_code };

    ghost view = { λ l. record {
      declarations = l.rules.now;
      found = map (λ p. read_shown p.parts.items) l.placed.items;
    } };

    ghost invariant = { λ l. ArePlaced l.rules.now l.placed.items };
}

/// Reads one more relation through a tupleset, if it is this one. Whether it is.
fn read_if(through: &mut Through, tupleset: &String, computed: &String) -> Result<bool, AllocError>
    ensures read { IfOk result (λ r. r ≡ true → IsPut (each_shown through.old) (each_shown through.new)
        (tuple_to (string_bytes tupleset.now) (string_bytes computed.now))) }
    ensures same { IfOk result (λ r. r ≡ false → through.new ≡ through.old) }
{
    if through.tupleset != *tupleset {
        return Ok(false);
    }
    let _ = through.read_more(computed)?;
    Ok(true)
}

/// The same of a part. Whether it goes through this tupleset.
fn read_in(part: &mut Part, tupleset: &String, computed: &String) -> Result<bool, AllocError>
    ensures read { IfOk result (λ r. r ≡ true
        → Grows part.old part.new (tuple_to (string_bytes tupleset.now) (string_bytes computed.now))) }
    ensures same { IfOk result (λ r. r ≡ false → part.new ≡ part.old) }
{
    match part {
        Part::Leaf(_) => Ok(false),
        Part::Through(through) => read_if(through, tupleset, computed),
    }
}

/// Reads one more relation through a tupleset, by the part that goes through that.
fn put_through(
    alloc: Global,
    parts: &mut Vec<Part>,
    tupleset: &String,
    computed: &String,
) -> Result<(), AllocError>
    ensures { OnOk result (Collects (parts_shown parts.old.items) (parts_shown parts.new.items)
        (tuple_to (string_bytes tupleset.now) (string_bytes computed.now) ∷ [])) }
{
    // 256 tuplesets and 256 computed relations at most: a rule names those of its namespace
    for i in 0..parts.len() {
        if read_in(&mut parts[i], tupleset, computed)? {
            return Ok(());
        }
    }
    let through = Through::of(alloc, tupleset, computed)?;
    parts.push(Part::Through(through))?;
    Ok(())
}

/// Puts a leaf of a rule behind others, or to those that go through its tupleset.
fn put(alloc: Global, parts: &mut Vec<Part>, leaf: Rewrite) -> Result<(), AllocError>
    ensures { OnOk result (Collects (parts_shown parts.old.items) (parts_shown parts.new.items)
        (leaves (expression_of leaf))) }
{
    match leaf {
        Rewrite::TupleTo { tupleset, computed } => put_through(alloc, parts, &tupleset, &computed),
        leaf => {
            parts.push(Part::Leaf(leaf))?;
            Ok(())
        }
    }
}

/// Leaves of a rule, those that go through one tupleset together.
fn parts_of(alloc: Global, leaves: Vec<Rewrite>) -> Result<Vec<Part>, AllocError>
    ensures { IfOk result (λ v. Collects [] (parts_shown v.items) (leaves_in (map expression_of leaves.items))) }
{
    let mut parts = Vec::new(alloc);
    for leaf in leaves {
        put(alloc, &mut parts, leaf)?;
    }
    Ok(parts)
}

/// A part with what is noted of it.
fn noted(alloc: Global, rules: &Rules, part: Part) -> Result<ReadPart, AllocError>
    ensures part { IfOk result (λ r. r.part ≡ part) }
    ensures noted { IfOk result (IsNoted rules.now) }
{
    let declaring = match &part {
        Part::Leaf(_) => Numbers::none(),
        Part::Through(through) => namespaces_declaring(alloc, rules, through)?,
    };
    Ok(ReadPart { part, declaring })
}

/// Parts of a rule with what is noted of each.
fn each_noted(alloc: Global, rules: &Rules, parts: Vec<Part>) -> Result<Vec<ReadPart>, AllocError>
    ensures shown { IfOk result (λ v. read_shown v.items ≡ parts_shown parts.items) }
    ensures noted { IfOk result (λ v. (r : ReadPart) → Contains v.items r → IsNoted rules.now r) }
{
    let mut read = Vec::new(alloc);
    for part in parts {
        let part = noted(alloc, rules, part)?;
        read.push(part)?;
    }
    Ok(read)
}

/// The leaves of the rule at a place, each once; those that go through one tupleset are one part.
pub(crate) fn leaves_at(
    alloc: Global,
    rules: &Rules,
    place: RulePlace,
) -> Result<Vec<ReadPart>, AllocError>
    ensures leaves { IfOk result (λ v. HaveLeavesOf (read_shown v.items) (expression_in place rules.now)) }
    ensures noted { IfOk result (λ v. (r : ReadPart) → Contains v.items r → IsNoted rules.now r) }
{
    let leaves = rules.leaves_in(alloc, place)?;
    let parts = parts_of(alloc, leaves)?;
    each_noted(alloc, rules, parts)
}

impl<'r> Leaves<'r> {
    /// Of these rules nothing was asked.
    pub fn new(alloc: Global, rules: &'r Rules) -> Leaves<'r>
        ensures { result ≡ record { declarations = rules.now; found = [] } }
    {
        Leaves {
            alloc,
            rules,
            placed: Vec::new(alloc),
            numbers: BTreeMap::new(alloc),
        }
    }

    /// The number of the leaves of the rule at a place, which are found where they were not yet.
    ///
    /// Refusals: OutOfMemory.
    pub fn number(&mut self, place: RulePlace) -> Result<usize, AllocError>
        ensures rules { self.new.declarations ≡ self.old.declarations }
        ensures found { IfOk result (λ n. HaveLeavesOf (numbered n self.new.found)
            (expression_in place self.old.declarations)) }
    {
        let key = (place.line, place.relation);
        let number = self.numbers.get(&key).copied().unwrap_or(self.placed.len());
        if number < self.placed.len() && self.placed[number].place == place {
            return Ok(number);
        }
        let parts = leaves_at(self.alloc, self.rules, place)?;
        let number = self.placed.len();
        self.placed.push(PlacedLeaves { place, parts })?;
        let _ = self.numbers.insert(key, number)?;
        Ok(number)
    }

    /// The leaves of a number, each once; those that go through one tupleset are one part. None where the number is not
    /// given yet.
    pub fn parts(&self, number: usize) -> &[ReadPart]
        ensures shown { read_shown result.now ≡ numbered number self.now.found }
        ensures noted { (r : ReadPart) → Contains result.now r → IsNoted self.now.declarations r }
    {
        match self.placed.get(number) {
            Some(placed) => placed.parts.as_slice(),
            None => &[],
        }
    }
}
