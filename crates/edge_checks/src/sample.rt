//! Tuples that stand for all those ever added.

ghost use Rattle.std.specs.Prelude.{◌≡◌, ◌≤◌, ◌∷◌, ◌++◌, [], Ok, length, take, true, OnErr, OnOk};
ghost use Rattle.tuple_text.specs.Refs.{set_value, user_value};
ghost use Rattle.tuple_text.specs.TupleRefs.{tuple_value, tuple_values};
ghost use Rattle.strata.specs.Edges.{first_broken, edges_of_tuples, tuple_edges};
ghost use Rattle.edge_checks.specs.Faults.{Answers};
ghost use Rattle.edge_checks.specs.Indexed.{IsIndex};
ghost use Rattle.edge_checks.specs.Sampled.{is_of_kind, is_of_relation, is_user_of_kind, IsSomeOfKind};
ghost use Rattle.edge_checks.specs.Sampled.{IsDeclaredOver, Represents};

use crate::edge_index::EdgeIndex;
use crate::fault::EdgeFault;
use marks::{MarkedSet, fact_mark};
use namespaces::{RelNo, Rules};
use std::alloc::{AllocError, Global};
use std::collections::BTreeMap;
use std::marker::Model;
use strata::{Edge, check_tuple, check_tuple_by, reads_tuplesets};
use tuple_text::{SetRef, Tuple, TupleRef, UserRef};

/// Of all tuples that were ever added the first of each kind, in order, where a kind is the relations of a tuple's
/// userset and of its user. Their edges are those of all. Now and then a kind has more than one.
#[derive(Drop)]
pub struct Sample {
    tuples: Vec<Tuple>,
    // where a tuple of a kind stands, by the numbers of its relations; who looks here makes sure that it does
    places: BTreeMap<u64, usize>,
    // where one stands that was looked for last, since the next tuple is mostly of its kind
    last: usize,
}

impl Model for Sample {
    ghost use Rattle.std.specs.Prelude.{List};
    ghost use Rattle.tuple_text.specs.Tuples.{TupleValue};

    ghost Value = { List TupleValue };

    ghost view = { λ s. s.tuples.items };
}

/// Whether two usersets are of one relation.
pub fn is_of_relation(one: SetRef<'_>, other: SetRef<'_>) -> bool
    ensures { result ≡ is_of_relation (set_value one.entry) (set_value other.entry) }
{
    one.namespace == other.namespace && one.relation == other.relation
}

fn is_user_of_kind(one: UserRef<'_>, other: UserRef<'_>) -> bool
    ensures { result ≡ is_user_of_kind (user_value one.entry) (user_value other.entry) }
{
    match (one, other) {
        (UserRef::Set(one), UserRef::Set(other)) => is_of_relation(one, other),
        _ => false,
    }
}

fn is_of_kind(one: &Tuple, other: TupleRef<'_>) -> bool
    ensures { result ≡ is_of_kind one.now (tuple_value other.entry) }
{
    is_of_relation(one.set(), other.set()) && is_user_of_kind(one.user(), other.user())
}

fn pack(number: RelNo) -> u64 {
    u64::from(number.namespace) << 16 | u64::from(number.relation)
}

/// A number that tuples of one kind share. Where the user's relation is not declared it is a mark of its names.
fn kind_number(rules: &Rules, set: SetRef<'_>, user: SetRef<'_>) -> u64 {
    let undeclared = RelNo {
        namespace: 0,
        relation: 0,
    };
    let set = pack(rules.number(set).unwrap_or(undeclared));
    match rules.number(user) {
        Some(user) => set << 32 | pack(user),
        None => fact_mark(MarkedSet::of(SetRef { id: "", ..user }), set),
    }
}

/// Looks for the first broken edge of a tuple that is put behind others. The rules are walked over for that only where
/// the index does not know.
fn look(
    rules: &Rules,
    index: &mut EdgeIndex,
    tuples: &[Tuple],
    tuple: &Tuple,
) -> Result<(), EdgeFault>
    requires { IsIndex rules.now index.old tuples.now }
    ensures answer { Answers result (first_broken rules.now (tuple_edges rules.now tuple.now)) }
    ensures index { OnOk result (IsIndex rules.now index.new (tuples.now ++ tuple.now ∷ [])) }
{
    if !index.admit(rules, tuples, tuple)? {
        index.give_up();
        if let Err(edge) = check_tuple(rules, tuple) {
            return Err(EdgeFault::Broken(edge));
        }
    }
    Ok(())
}

fn put(
    tuples: &mut Vec<Tuple>,
    places: &mut BTreeMap<u64, usize>,
    kind: u64,
    tuple: Tuple,
) -> Result<(), AllocError>
    ensures put { OnOk result (tuples.new.items ≡ tuples.old.items ++ tuple ∷ []) }
    ensures kept { OnErr result (tuples.new.items ≡ tuples.old.items) }
{
    places.insert(kind, tuples.len())?;
    tuples.push(tuple)?;
    Ok(())
}

impl Sample {
    pub fn new(alloc: Global) -> Sample
        ensures { result ≡ [] }
    {
        Sample {
            tuples: Vec::new(alloc),
            places: BTreeMap::new(alloc),
            last: 0,
        }
    }

    pub fn len(&self) -> usize
        ensures { result ≡ length self.now }
    {
        self.tuples.len()
    }

    pub fn tuples(&self) -> &[Tuple]
        ensures { result.now ≡ self.now }
    {
        &self.tuples
    }

    /// Drops all but the first tuples.
    pub fn truncate(&mut self, len: usize)
        ensures { self.new ≡ take len self.old }
    {
        self.tuples.truncate(len);
    }

    /// Whether a tuple of this one's kind stands where one was looked for last.
    fn has_last(&self, tuple: TupleRef<'_>) -> bool
        ensures { result ≡ true → IsSomeOfKind (tuple_value tuple.entry) self.now }
    {
        match self.tuples.get(self.last) {
            Some(one) => is_of_kind(one, tuple),
            None => false,
        }
    }

    /// Whether a tuple of this one's kind is there.
    fn has(&mut self, rules: &Rules, tuple: TupleRef<'_>, user: SetRef<'_>) -> bool
        ensures found { result ≡ true → IsSomeOfKind (tuple_value tuple.entry) self.old }
        ensures same { self.new ≡ self.old }
    {
        if self.has_last(tuple) {
            return true;
        }
        let kind = kind_number(rules, tuple.set(), user);
        let Some(place) = self.places.get(&kind) else {
            return false;
        };
        self.last = *place;
        self.has_last(tuple)
    }

    /// Takes one more tuple, or refuses the first of its edges that is broken.
    fn admit(
        &mut self,
        rules: &Rules,
        index: &mut EdgeIndex,
        tuple: TupleRef<'_>,
    ) -> Result<(), EdgeFault>
        requires unbroken { first_broken rules.now (edges_of_tuples rules.now self.old) ≡ Ok (tt {0}) }
        requires index { IsIndex rules.now index.old self.old }
        ensures answer { Answers result (first_broken rules.now (tuple_edges rules.now (tuple_value tuple.entry))) }
        ensures taken { OnOk result (Represents self.new (self.old ++ tuple_value tuple.entry ∷ [])) }
        ensures kept { take (length self.old) self.new ≡ self.old }
        ensures index { OnOk result (IsIndex rules.now index.new self.new) }
    {
        let UserRef::Set(user) = tuple.user() else {
            return Ok(());
        };
        if self.has(rules, tuple, user) {
            return Ok(());
        }
        let kind = kind_number(rules, tuple.set(), user);
        let tuple = tuple.to_tuple(*self.tuples.allocator())?;
        look(rules, index, &self.tuples, &tuple)?;
        put(&mut self.tuples, &mut self.places, kind, tuple)?;
        Ok(())
    }

    /// Takes more tuples, or refuses the first of their edges that is broken. The tuples that were there stay in front.
    pub fn admit_all(
        &mut self,
        rules: &Rules,
        index: &mut EdgeIndex,
        tuples: &[TupleRef<'_>],
    ) -> Result<(), EdgeFault>
        requires unbroken { first_broken rules.now (edges_of_tuples rules.now self.old) ≡ Ok (tt {0}) }
        requires index { IsIndex rules.now index.old self.old }
        ensures answer { Answers result (first_broken rules.now (edges_of_tuples rules.now (tuple_values tuples.now))) }
        ensures taken { OnOk result (Represents self.new (self.old ++ tuple_values tuples.now)) }
        ensures kept { take (length self.old) self.new ≡ self.old }
        ensures index { OnOk result (IsIndex rules.now index.new self.new) }
    {
        for tuple in tuples {
            self.admit(rules, index, *tuple)?;
        }
        Ok(())
    }

    /// The first of the tuples' edges that the last declaration broke, which is of this namespace.
    pub fn check(&self, rules: &Rules, namespace: &str, has_more: bool) -> Result<(), Edge>
        requires { IsDeclaredOver rules.now namespace.now has_more self.now }
        ensures { result ≡ first_broken rules.now (edges_of_tuples rules.now self.now) }
    {
        check_all(rules, namespace, has_more, &self.tuples)
    }
}

fn check_all(rules: &Rules, namespace: &str, has_more: bool, tuples: &[Tuple]) -> Result<(), Edge>
    requires { IsDeclaredOver rules.now namespace.now has_more tuples.now }
    ensures { result ≡ first_broken rules.now (edges_of_tuples rules.now tuples.now) }
{
    let through = reads_tuplesets(rules, namespace);
    for tuple in tuples {
        check_tuple_by(rules, tuple, namespace, has_more, through)?;
    }
    Ok(())
}
