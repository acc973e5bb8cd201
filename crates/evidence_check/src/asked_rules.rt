//! Rules of many places that facts were asked for.

ghost use Rattle.std.specs.Prelude.{◌≡◌, ◌↔◌, IsTrue, Some, IfOk};
ghost use Rattle.rewrites.specs.Alike.{AreAlike};
ghost use Rattle.rewrites.specs.Expression.{Expression};
ghost use Rattle.namespaces.specs.Lookup.{expression_in};
ghost use Rattle.rewrites.specs.Parts.{rule_shown};
ghost use Rattle.trace_lines.specs.Timelines.{snapshot_of};
ghost use Rattle.wide_rules.specs.Asked.{Does};
ghost use Rattle.judgement.specs.Facts.{marked_fact};

use judgement::{Known, KnownFact, MarkedFact};
use namespaces::RulePlace;
use rewrites::PartedRule;
use std::alloc::{AllocError, Global};
use std::collections::BTreeMap;
use std::marker::Model;
use trace_lines::Trace;
use wide_rules::AskedRule;

/// A rule, and where it stands.
pub(crate) struct PlacedRule<'t> {
    place: RulePlace,
    rule: AskedRule<'t>,
}

// Written out, as those below: one that is derived is a part of each function that lets the value go, with all its
// parts.
impl<'t> Drop for PlacedRule<'t> {
    fn drop(self) {
        let PlacedRule { place: _, rule } = self;
        drop(rule);
    }
}

/// Rules of many places, each with what was asked of it in all records so far. Contracts see the trace over which
/// they are asked.
pub struct AskedRules<'t> {
    alloc: Global,
    trace: &'t Trace,
    asked: Vec<PlacedRule<'t>>,
    // by its place, where a rule may be found: it is the one only where its place says so
    numbers: BTreeMap<u64, usize>,
}

impl<'t> Drop for AskedRules<'t> {
    fn drop(self) {
        let AskedRules {
            alloc: _,
            trace: _,
            asked,
            numbers,
        } = self;
        drop(asked);
        drop(numbers);
    }
}

impl<'t> Model for AskedRules<'t> {
    ghost use Rattle.trace_lines.specs.TraceCode.{trace_code};
    ghost use Rattle.trace_lines.specs.Values.{TraceValue};
    ghost use Rattle.evidence_check.specs.Rules.{ArePlaced};

    ghost Value = { TraceValue };

    ghost coded = { trace_code };

    ghost view = { λ s. s.trace.now };

    ghost invariant = { λ s. ArePlaced s.trace.now s.asked.items };
}

/// A number for a place: there are 256 relations at most in a declaration.
fn key(place: RulePlace) -> u64 {
    (place.line as u64)
        .wrapping_mul(256)
        .wrapping_add(place.relation as u64)
}

impl<'t> AskedRules<'t> {
    /// Nothing was asked.
    pub fn new(alloc: Global, trace: &'t Trace) -> AskedRules<'t>
        ensures { result ≡ trace.now }
    {
        AskedRules {
            alloc,
            trace,
            asked: Vec::new(alloc),
            numbers: BTreeMap::new(alloc),
        }
    }

    /// The trace over which they are asked.
    pub fn trace(&self) -> &'t Trace
        ensures { result.now ≡ self.now }
    {
        self.trace
    }

    /// Whether the rule at a place gives a fact, or whether it rules the fact out.
    pub(crate) fn does<F: KnownFact>(
        &mut self,
        place: RulePlace,
        parted: &'t PartedRule,
        is_given: bool,
        at: u64,
        known: &Known<F>,
        fact: MarkedFact<'_>,
    ) -> Result<bool, AllocError>
        requires { AreAlike (Some (rule_shown parted.now)) (expression_in place self.old.declarations) }
        ensures rules { self.new ≡ self.old }
        ensures does { IfOk result (λ r. IsTrue r
            ↔ Does (snapshot_of self.old at) known.now (marked_fact fact.entry) is_given (rule_shown parted.now)) }
    {
        let number = self
            .numbers
            .get(&key(place))
            .copied()
            .unwrap_or(self.asked.len());
        if number < self.asked.len() && self.asked[number].place == place {
            return self.asked[number]
                .rule
                .does(is_given, fact.set, fact.user, at, known);
        }
        let rule = AskedRule::new(self.alloc, self.trace.timeline(), parted)?;
        let mut placed = PlacedRule { place, rule };
        let does = placed.rule.does(is_given, fact.set, fact.user, at, known)?;
        let number = self.asked.len();
        self.asked.push(placed)?;
        let _ = self.numbers.insert(key(place), number)?;
        Ok(does)
    }
}
