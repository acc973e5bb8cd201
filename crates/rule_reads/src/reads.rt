//! What the rules ever declared read of the tuples' users.

ghost use Rattle.std.specs.Prelude.{◌≡◌, ◌∷◌, ◌++◌, List, ◌<◌, ◌≤◌, [], ℕ, None, Some, Ok, true, false, Contains, IfOk, OnOk, length, not, slice_get};
ghost use Rattle.tuple_text.specs.Refs.{set_value};
ghost use Rattle.tuple_text.specs.Tuples.{TupleValue};
ghost use Rattle.namespaces.specs.Declaration.{Relation};
ghost use Rattle.namespaces.specs.Lookup.{namespace_numbered, relation_numbered};
ghost use Rattle.namespaces.specs.WellFormed.{IsWellFormed};
ghost use Rattle.rewrites.specs.View.{expression_of, expressions_of};
ghost use Rattle.strata.specs.Edges.{at_this, at_tuple_to, places, all_places};
ghost use Rattle.rule_reads.specs.Reads as reads;
ghost use Rattle.rule_reads.specs.Reads.{AreKinds, AreMarked, EachMarked, FitsOwn, FitsThrough, HasMark, IsFittingAt, IsLowAt, IsReadThrough};
ghost use Rattle.rule_reads.specs.Reads.{IsSound, TakesAllAt, TakesAt, Widens, mark_of_pair, own, relation_number, tupleset_mark};

use crate::kinds::{Kinds, has_mark, relation_mark, take_mark};
use marks::{MarkedSet, Places};
use namespaces::{MAX_NUMBER, RelNo, Rules};
use rewrites::Rewrite;
use std::alloc::{AllocError, Global};
use std::collections::BTreeMap;
use tuple_text::{SetRef, Tuple, TupleFault, UserRef, Userset};

/// Namespaces have numbers from 1 on and below this, and so have the relations of one.
const PAST_NUMBERS: u16 = MAX_NUMBER + 1;

/// The rules, and the tuples of a sample with their kinds.
#[derive(Clone, Copy)]
pub struct Scope<'a> {
    pub rules: &'a Rules,
    pub kinds: &'a Kinds,
    pub tuples: &'a [Tuple],
}

/// A relation whose rule reads.
#[derive(Clone, Copy)]
pub struct Reader<'a> {
    namespace: &'a str,
    relation: &'a str,
    stratum: u8,
}

/// A `tuple_to`, and below which stratum that has to stand which it reads.
#[derive(Drop)]
pub struct Through {
    // its namespace, in place of an id the relation that it computes, and its tupleset
    names: Userset,
    ceiling: u16,
}

/// What the rules ever declared read of the tuples' users, each place once.
#[derive(Drop)]
pub struct Reads {
    // the marks of the relations with a `this`, and with one under a subtracted side
    plain: Places,
    strict: Places,
    through: Vec<Through>,
    // the marks of their tuplesets, and of the relations that they compute
    tuplesets: Places,
    computed: Places,
    // where a `tuple_to` stands last, by the mark of its names; who looks here makes sure that it does
    places: BTreeMap<u64, usize>,
}

fn ceiling(stratum: u8, strict: bool) -> u16
    ensures { result ≡ reads.ceiling stratum strict }
{
    if strict {
        u16::from(stratum)
    } else {
        u16::from(stratum) + 1
    }
}

impl Through {
    fn of(alloc: Global, names: SetRef<'_>, ceiling: u16) -> Result<Option<Through>, AllocError>
        ensures names { (through : Through) → result ≡ Ok (Some through) → through.names ≡ set_value names.entry }
        ensures ceiling { (through : Through) → result ≡ Ok (Some through) → through.ceiling ≡ ceiling }
    {
        match Userset::of(alloc, names) {
            Ok(names) => Ok(Some(Through { names, ceiling })),
            Err(TupleFault::OutOfMemory) => Err(AllocError),
            Err(_) => Ok(None),
        }
    }

    /// Whether what it computes is low enough in a namespace of users, if there are such tuples.
    fn fits(&self, scope: Scope<'_>, users: &str) -> bool
        ensures { result ≡ true → IsLowAt scope.entry users.now self.now }
    {
        let names = self.names.as_ref();
        let read = SetRef {
            namespace: users,
            id: "",
            relation: names.id,
        };
        match scope.rules.stratum(read) {
            Some(stratum) => {
                u16::from(stratum) < self.ceiling || !scope.kinds.has_pair(names, users)
            }
            None => true,
        }
    }

    /// The same of each namespace that is declared, of which there are 256 at most. Without a tuple of its tupleset
    /// there is nothing to look at.
    fn fits_everywhere(&self, scope: Scope<'_>) -> bool
        requires { IsWellFormed scope.rules.now }
        ensures { result ≡ true → Contains scope.entry.kinds.now.sets (tupleset_mark self.now)
            → (users : List ℕ) → IsLowAt scope.entry users self.now }
    {
        let names = self.names.as_ref();
        if !has_mark(
            &scope.kinds.sets,
            relation_mark(names.namespace, names.relation),
        ) {
            return true;
        }
        for number in 1..PAST_NUMBERS {
            if let Some(users) = scope.rules.namespace(number) {
                if !self.fits(scope, users) {
                    return false;
                }
            }
        }
        true
    }
}

impl Reads {
    pub fn new(alloc: Global) -> Reads
        ensures plain { result.plain ≡ [] }
        ensures strict { result.strict ≡ [] }
        ensures through { result.through.items ≡ [] }
        ensures tuplesets { result.tuplesets ≡ [] }
        ensures computed { result.computed ≡ [] }
    {
        Reads {
            plain: Places::new(alloc),
            strict: Places::new(alloc),
            through: Vec::new(alloc),
            tuplesets: Places::new(alloc),
            computed: Places::new(alloc),
            places: BTreeMap::new(alloc),
        }
    }

    /// Whether no `this` reads the tuple's user too high.
    pub fn own_fits(&self, rules: &Rules, tuple: &Tuple) -> bool
        ensures { result ≡ true → FitsOwn rules.now self.now tuple.now }
    {
        let UserRef::Set(user) = tuple.user() else {
            return true;
        };
        let set = tuple.set();
        let Some(reader) = rules.stratum(set) else {
            return false;
        };
        let Some(premise) = rules.stratum(user) else {
            return true;
        };
        let mark = relation_mark(set.namespace, set.relation);
        (premise <= reader || !has_mark(&self.plain, mark))
            && (premise < reader || !has_mark(&self.strict, mark))
    }

    /// The same of the tuples that have a mark.
    fn own_fits_along(&self, scope: Scope<'_>, marks: &Places, mark: u64) -> bool
        ensures { result ≡ true →
            EachMarked marks.now mark scope.entry.tuples.now (FitsOwn scope.entry.rules.now self.now) }
    {
        for index in marks.with(mark) {
            let Some(tuple) = scope.tuples.get(index) else {
                return false;
            };
            if !self.own_fits(scope.rules, tuple) {
                return false;
            }
        }
        true
    }

    /// Whether what a `tuple_to` computes is low enough in a namespace of users, for each that has a mark.
    fn through_fits_along(&self, scope: Scope<'_>, marks: &Places, mark: u64, users: &str) -> bool
        ensures { result ≡ true → EachMarked marks.now mark self.now.through.items (IsLowAt scope.entry users.now) }
    {
        for index in marks.with(mark) {
            let Some(through) = self.through.get(index) else {
                return false;
            };
            if !through.fits(scope, users) {
                return false;
            }
        }
        true
    }

    /// Whether no `tuple_to` reads the user of a tuple too high. In a namespace without relations there is nothing to
    /// read.
    pub fn through_fits(&self, scope: Scope<'_>, tuple: &Tuple) -> bool
        requires marked { AreMarked self.now }
        requires stored { Contains scope.kinds.now.pairs (mark_of_pair tuple.now) }
        ensures { result ≡ true → FitsThrough scope.entry.rules.now self.now.through.items tuple.now }
    {
        let UserRef::Set(user) = tuple.user() else {
            return true;
        };
        if scope.rules.relation_count(user.namespace) == 0 {
            return true;
        }
        let set = tuple.set();
        let mark = relation_mark(set.namespace, set.relation);
        self.through_fits_along(scope, &self.tuplesets, mark, user.namespace)
    }

    /// Whether a relation is read nowhere too high.
    fn relation_fits(&self, scope: Scope<'_>, namespace: &str, relation: &str) -> bool
        requires kinds { AreKinds scope.kinds.now scope.tuples.now }
        requires marked { AreMarked self.now }
        ensures { result ≡ true → IsFittingAt scope.entry self.now namespace.now relation.now }
    {
        let user = relation_mark(namespace, relation);
        let computed = relation_mark("", relation);
        self.own_fits_along(scope, &scope.kinds.users, user)
            && self.through_fits_along(scope, &self.computed, computed, namespace)
    }

    /// Whether the relations of a namespace behind the first `known` are read nowhere too high. A namespace has 256 at
    /// most.
    pub fn relations_fit(
        &self,
        scope: Scope<'_>,
        namespace: &str,
        number: u16,
        known: usize,
    ) -> bool
        requires scope { IsSound scope }
        requires marked { AreMarked self.now }
        requires named { namespace_numbered number scope.rules.now ≡ Some namespace.now }
        ensures { result ≡ true → (r : ℕ) (x : Relation) → known < r
            → relation_numbered (relation_number number r) scope.entry.rules.now ≡ Some x
            → IsFittingAt scope.entry self.now namespace.now x.name }
    {
        let count = scope.rules.relation_count(namespace);
        for relation in 1..PAST_NUMBERS {
            if usize::from(relation) <= known {
                continue;
            }
            if usize::from(relation) > count {
                return true;
            }
            let number = RelNo {
                namespace: number,
                relation,
            };
            if let Some(relation) = scope.rules.relation(number) {
                if !self.relation_fits(scope, namespace, relation) {
                    return false;
                }
            }
        }
        true
    }

    /// Whether a `tuple_to` of these names stands here that wants as low a stratum.
    fn has_through(&self, mark: u64, names: SetRef<'_>, ceiling: u16) -> bool
        ensures { result ≡ true → IsReadThrough self.now.through.items (set_value names.entry) ceiling }
    {
        let Some(place) = self.places.get(&mark) else {
            return false;
        };
        match self.through.get(*place) {
            Some(through) => {
                let one = through.names.as_ref();
                through.ceiling <= ceiling
                    && one.namespace == names.namespace
                    && one.id == names.id
                    && one.relation == names.relation
            }
            None => false,
        }
    }

    fn push_through(&mut self, mark: u64, through: Through) -> Result<(), AllocError>
        ensures plain { self.new.plain ≡ self.old.plain }
        ensures strict { self.new.strict ≡ self.old.strict }
        ensures through { OnOk result (self.new.through.items ≡ self.old.through.items ++ through ∷ []) }
        ensures marked { OnOk result (AreMarked self.old → AreMarked self.new) }
    {
        let names = through.names.as_ref();
        self.tuplesets
            .push(relation_mark(names.namespace, names.relation))?;
        self.computed.push(relation_mark("", names.id))?;
        self.places.insert(mark, self.through.len())?;
        self.through.push(through)?;
        Ok(())
    }

    /// Takes the mark of a relation with a `this`, unless it is there. Answers whether it is new.
    fn take_mark(&mut self, mark: u64, strict: bool) -> Result<bool, AllocError>
        ensures marks { IfOk result (λ is_new. HasMark mark is_new (own strict self.old) (own strict self.new)) }
        ensures others { own (not strict) self.new ≡ own (not strict) self.old }
        ensures through { self.new.through ≡ self.old.through }
        ensures tuplesets { self.new.tuplesets ≡ self.old.tuplesets }
        ensures computed { self.new.computed ≡ self.old.computed }
    {
        if strict {
            take_mark(&mut self.strict, mark)
        } else {
            take_mark(&mut self.plain, mark)
        }
    }

    /// Takes a `this`. Answers whether all tuples fit.
    fn take_own(
        &mut self,
        scope: Scope<'_>,
        reader: Reader<'_>,
        strict: bool,
    ) -> Result<bool, AllocError>
        requires { AreKinds scope.kinds.now scope.tuples.now }
        ensures { IfOk result (λ fits. fits ≡ true →
            Widens scope.entry reader.entry ((strict, at_this) ∷ []) self.old self.new) }
    {
        let mark = relation_mark(reader.namespace, reader.relation);
        if !self.take_mark(mark, strict)? {
            return Ok(true);
        }
        Ok(self.own_fits_along(scope, &scope.kinds.sets, mark))
    }

    /// Takes a `tuple_to`. Answers whether all tuples fit.
    fn take_through(
        &mut self,
        scope: Scope<'_>,
        reader: Reader<'_>,
        tupleset: &str,
        computed: &str,
        strict: bool,
    ) -> Result<bool, AllocError>
        requires { IsSound scope }
        ensures { IfOk result (λ fits. fits ≡ true →
            Widens scope.entry reader.entry ((strict, at_tuple_to tupleset.now computed.now) ∷ [])
            self.old self.new) }
    {
        let names = SetRef {
            namespace: reader.namespace,
            id: computed,
            relation: tupleset,
        };
        let mark = MarkedSet::of(names).mark;
        let ceiling = ceiling(reader.stratum, strict);
        if self.has_through(mark, names, ceiling) {
            return Ok(true);
        }
        let Some(through) = Through::of(*self.through.allocator(), names, ceiling)? else {
            return Ok(false);
        };
        if !through.fits_everywhere(scope) {
            return Ok(false);
        }
        self.push_through(mark, through)?;
        Ok(true)
    }

    /// Takes what a rule reads. Answers whether all tuples fit.
    #[cycle(take_rewrite)]
    fn take_rewrite(
        &mut self,
        scope: Scope<'_>,
        reader: Reader<'_>,
        rewrite: &Rewrite,
        strict: bool,
    ) -> Result<bool, AllocError>
        requires { IsSound scope }
        ensures { IfOk result (λ fits. fits ≡ true →
            Widens scope.entry reader.entry (places strict (expression_of rewrite.now)) self.old self.new) }
    {
        match rewrite {
            Rewrite::This => self.take_own(scope, reader, strict),
            Rewrite::Computed(_) => Ok(true),
            Rewrite::TupleTo { tupleset, computed } => {
                self.take_through(scope, reader, tupleset, computed, strict)
            }
            Rewrite::Union(children) | Rewrite::Inter(children) => {
                self.take_children(scope, reader, children, strict)
            }
            Rewrite::Minus(base, subtract) => {
                if !self.take_rewrite(scope, reader, base, strict)? {
                    return Ok(false);
                }
                self.take_rewrite(scope, reader, subtract, true)
            }
        }
    }

    #[cycle(take_rewrite)]
    fn take_children(
        &mut self,
        scope: Scope<'_>,
        reader: Reader<'_>,
        children: &Vec<Rewrite>,
        strict: bool,
    ) -> Result<bool, AllocError>
        requires { IsSound scope }
        ensures { IfOk result (λ fits. fits ≡ true →
            Widens scope.entry reader.entry (all_places strict (expressions_of children.now.items))
            self.old self.new) }
    {
        for child in children {
            if !self.take_rewrite(scope, reader, child, strict)? {
                return Ok(false);
            }
        }
        Ok(true)
    }

    /// Takes what the last rule of a relation reads, if there is one. Answers whether all tuples fit.
    fn take_relation(
        &mut self,
        scope: Scope<'_>,
        namespace: &str,
        number: RelNo,
    ) -> Result<bool, AllocError>
        requires named { namespace_numbered number.namespace scope.rules.now ≡ Some namespace.now }
        requires scope { IsSound scope }
        ensures { IfOk result (λ fits. fits ≡ true → TakesAt scope.entry namespace.now number self.old self.new) }
    {
        let Some(relation) = scope.rules.relation(number) else {
            return Ok(true);
        };
        let Some(rewrite) = scope.rules.last_rule(number) else {
            return Ok(true);
        };
        let set = SetRef {
            namespace,
            id: "",
            relation,
        };
        let Some(stratum) = scope.rules.stratum(set) else {
            return Ok(false);
        };
        let reader = Reader {
            namespace,
            relation,
            stratum,
        };
        self.take_rewrite(scope, reader, rewrite, false)
    }

    /// Takes what the last rules of a namespace read. Answers whether all tuples fit.
    pub fn take_namespace(
        &mut self,
        scope: Scope<'_>,
        namespace: &str,
        number: u16,
    ) -> Result<bool, AllocError>
        requires named { namespace_numbered number scope.rules.now ≡ Some namespace.now }
        requires scope { IsSound scope }
        ensures { IfOk result (λ fits. fits ≡ true → TakesAllAt scope.entry namespace.now number self.old self.new) }
    {
        let count = scope.rules.relation_count(namespace);
        for relation in 1..PAST_NUMBERS {
            if usize::from(relation) > count {
                return Ok(true);
            }
            let number = RelNo {
                namespace: number,
                relation,
            };
            if !self.take_relation(scope, namespace, number)? {
                return Ok(false);
            }
        }
        Ok(true)
    }
}
