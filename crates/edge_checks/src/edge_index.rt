//! Where tuples and rules meet: what tells without a walk over them that no edge is broken.

ghost use Rattle.std.specs.Prelude.{◌≡◌, ◌∷◌, ◌++◌, [], Ok, true, false, IfOk, OnOk};
ghost use Rattle.strata.specs.Edges.{edges_of_tuples, first_broken, tuple_edges};
ghost use Rattle.edge_checks.specs.Faults.{Answers};
ghost use Rattle.edge_checks.specs.Indexed.{IsIndex, IsIndexBefore};
ghost use Rattle.edge_checks.specs.Sampled.{IsDeclaredOver};

use crate::fault::EdgeFault;
use crate::sample::Sample;
use namespaces::Rules;
use rule_reads::{Kinds, Reads, Scope};
use std::alloc::{AllocError, Global};
use tuple_text::Tuple;

/// Of the rules ever declared what they read of tuples' users, and of a sample the kinds of its tuples. Whatever is
/// new, a rule, a tuple or a relation, is looked at once against the rest that it concerns.
#[derive(Drop)]
pub struct EdgeIndex {
    reads: Reads,
    kinds: Kinds,
    // until a line is refused
    is_whole: bool,
}

impl EdgeIndex {
    pub fn new(alloc: Global) -> EdgeIndex
        ensures { IsIndex [] result [] }
    {
        EdgeIndex {
            reads: Reads::new(alloc),
            kinds: Kinds::new(alloc),
            is_whole: true,
        }
    }

    /// Leaves it that this is an index. From then on all edges are walked over.
    pub fn give_up(&mut self)
        ensures { self.new.is_whole ≡ false }
    {
        self.is_whole = false;
    }

    /// Takes a tuple that is put behind a sample. Answers whether it is known that no edge of it is broken.
    pub(crate) fn admit(
        &mut self,
        rules: &Rules,
        tuples: &[Tuple],
        tuple: &Tuple,
    ) -> Result<bool, AllocError>
        requires { IsIndex rules.now self.old tuples.now }
        ensures unbroken { IfOk result (λ fits. fits ≡ true →
            first_broken rules.now (tuple_edges rules.now tuple.now) ≡ Ok (tt {0})) }
        ensures index { IfOk result (λ fits. fits ≡ true → IsIndex rules.now self.new (tuples.now ++ tuple.now ∷ [])) }
    {
        if !self.is_whole {
            return Ok(false);
        }
        let is_known = self.kinds.knows_pair(tuples, tuple);
        self.kinds.push(tuple)?;
        let scope = Scope {
            rules,
            kinds: &self.kinds,
            tuples,
        };
        Ok(self.reads.own_fits(rules, tuple) && (is_known || self.reads.through_fits(scope, tuple)))
    }

    /// Takes the last declaration, of a namespace of which `known` relations were there before. Answers whether it is
    /// known that no edge of a tuple is broken.
    fn take(
        &mut self,
        rules: &Rules,
        tuples: &[Tuple],
        namespace: &str,
        known: usize,
    ) -> Result<bool, AllocError>
        requires { IsIndexBefore rules.now namespace.now known self.old tuples.now }
        ensures unbroken { IfOk result (λ fits. fits ≡ true →
            first_broken rules.now (edges_of_tuples rules.now tuples.now) ≡ Ok (tt {0})) }
        ensures index { IfOk result (λ fits. fits ≡ true → IsIndex rules.now self.new tuples.now) }
    {
        if !self.is_whole {
            return Ok(false);
        }
        let Some(number) = rules.namespace_number(namespace) else {
            return Ok(false);
        };
        let scope = Scope {
            rules,
            kinds: &self.kinds,
            tuples,
        };
        if !self.reads.relations_fit(scope, namespace, number, known) {
            return Ok(false);
        }
        self.reads.take_namespace(scope, namespace, number)
    }

    /// Takes the last declaration, before which no tuple was added.
    pub fn begin(
        &mut self,
        rules: &Rules,
        sample: &Sample,
        namespace: &str,
        known: usize,
    ) -> Result<(), AllocError>
        requires { IsIndexBefore rules.now namespace.now known self.old sample.now }
        ensures { OnOk result (IsIndex rules.now self.new sample.now) }
    {
        if !self.take(rules, sample.tuples(), namespace, known)? {
            self.give_up();
        }
        Ok(())
    }

    /// Looks for the first broken edge of a sample after a declaration, and takes that where there is none. The sample
    /// is walked over only where something does not fit.
    pub fn follow(
        &mut self,
        rules: &Rules,
        sample: &Sample,
        namespace: &str,
        known: usize,
        has_more: bool,
    ) -> Result<(), EdgeFault>
        requires over { IsDeclaredOver rules.now namespace.now has_more sample.now }
        requires index { IsIndexBefore rules.now namespace.now known self.old sample.now }
        ensures answer { Answers result (first_broken rules.now (edges_of_tuples rules.now sample.now)) }
        ensures index { OnOk result (IsIndex rules.now self.new sample.now) }
    {
        if self.take(rules, sample.tuples(), namespace, known)? {
            return Ok(());
        }
        self.give_up();
        sample
            .check(rules, namespace, has_more)
            .map_err(EdgeFault::Broken)
    }
}
