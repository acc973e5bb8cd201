//! A rule, and what was asked of its parts for facts before.

ghost use Rattle.std.specs.Prelude.{◌≡◌, ◌↔◌, IsTrue, IfOk};
ghost use Rattle.tuple_text.specs.Refs.{set_value};
ghost use Rattle.tuple_text.specs.Tuples.{fact_of};
ghost use Rattle.rewrites.specs.Parts.{rule_shown};
ghost use Rattle.snapshots.specs.Snapshots.{snapshot_at};
ghost use Rattle.wide_rules.specs.Asked.{Does};
ghost use Rattle.wide_rules.specs.AskedFact.{AreRight, DoesFor};

use crate::answers::Answers;
use crate::asking::{Parts, node_does};
use crate::paths::{Paths, Reached};
use judgement::{AskedFact, Known, KnownFact};
use marks::MarkedSet;
use rewrites::{Node, PartedRule};
use snapshots::Timeline;
use std::alloc::{AllocError, Global};
use std::marker::Model;

/// A rule that many facts are asked for, one after the other. Contracts see its expression.
///
/// Each part is asked for once for a fact, where no cover answers for it, first those that were asked for facts before,
/// in their order, as far as the answers are those of one of them. Where all of its answers are, the rule's answer is
/// that fact's, and nothing else is asked.
#[derive(Drop)]
pub struct AskedRule<'r> {
    rule: &'r PartedRule,
    parts: Parts<'r>,
    answers: Answers,
    paths: Paths,
}

impl<'r> Model for AskedRule<'r> {
    ghost use Rattle.rewrites.specs.Parts.{parts_shown, rule_shown};
    ghost use Rattle.wide_rules.specs.Asked.{AreRightPaths, RuleValue};
    ghost use Rattle.wide_rules.specs.AskedCode.{rule_code};
    ghost use Rattle.std.specs.Prelude.{◌≡◌};

    ghost Value = { RuleValue };

    ghost coded = { rule_code };

    ghost view = { λ r. record { timeline = r.parts.timeline; expression = rule_shown r.rule.now } };

    ghost invariant = { λ r. (r.parts.questions.parts ≡ parts_shown r.rule.now.parts.items)
        × AreRightPaths r.parts.questions (rule_shown r.rule.now) r.paths };
}

/// How many places some nodes have.
#[cycle(places)]
fn places_of(nodes: &Vec<Node>) -> usize {
    let mut places = 0usize;
    for node in nodes {
        places = places.saturating_add(places_below(node));
    }
    places
}

/// How many places of parts stand at a node and below it.
#[cycle(places)]
fn places_below(node: &Node) -> usize {
    match node {
        Node::Part(_) => 1,
        Node::Union(nodes) => places_of(nodes),
        Node::Inter(nodes) => places_of(nodes),
        Node::Minus(base, subtract) => places_below(base).saturating_add(places_below(subtract)),
    }
}

/// Asks what was asked for facts before, as far as the answers lead. A path asks each question once at most.
fn ask_again<F: KnownFact>(
    paths: &Paths,
    parts: &mut Parts<'_>,
    fact: &AskedFact<'_, F>,
    is_given: bool,
    answers: &mut Answers,
) -> Result<Reached, AllocError>
    requires { fact.now.snapshot.now.timeline ≡ parts.old.timeline }
    ensures same { parts.new ≡ parts.old }
    ensures right { IfOk result (λ _. AreRight fact.now parts.old.questions answers.old
        → AreRight fact.now parts.old.questions answers.new) }
{
    let mut reached = paths.first(is_given);
    for _ in 0..paths.most() {
        let Some((part, is_cover, gives)) = paths.question(reached) else {
            return Ok(reached);
        };
        let answer = parts.ask_once(fact, part, is_cover, gives, answers)?;
        reached = paths.after(reached, answer);
    }
    Ok(reached)
}

impl<'r> AskedRule<'r> {
    /// A rule that is asked over a timeline, and of which nothing was asked.
    pub fn new(
        alloc: Global,
        timeline: Timeline<'r>,
        rule: &'r PartedRule,
    ) -> Result<AskedRule<'r>, AllocError>
        ensures { IfOk result (λ r. r ≡ record { timeline = timeline.entry; expression = rule_shown rule.now }) }
    {
        let parts = Parts::of(alloc, timeline, &rule.parts)?;
        let covers = parts.covers();
        Ok(AskedRule {
            rule,
            parts,
            answers: Answers::new(alloc, rule.parts.len(), covers)?,
            paths: Paths::new(alloc, places_below(&rule.top)),
        })
    }

    /// Whether the rule gives a fact, or whether it rules the fact out.
    fn does_for<F: KnownFact>(
        &mut self,
        fact: &AskedFact<'_, F>,
        is_given: bool,
    ) -> Result<bool, AllocError>
        requires { fact.now.snapshot.now.timeline ≡ self.old.timeline }
        ensures rule { self.new ≡ self.old }
        ensures does { IfOk result (λ r. IsTrue r ↔ DoesFor fact.now is_given self.old.expression) }
    {
        self.answers.clear();
        let parts = &mut self.parts;
        let answers = &mut self.answers;
        let reached = ask_again(&self.paths, parts, fact, is_given, answers)?;
        if let Some(answer) = self.paths.answer(reached, is_given, answers) {
            return Ok(answer);
        }
        let depth = answers.as_slice().len();
        let answer = node_does(parts, fact, &self.rule.top, is_given, answers)?;
        self.paths
            .keep(reached, depth, answers.as_slice(), is_given, answer)?;
        Ok(answer)
    }

    /// Whether what is known gives by the rule that a user is in a userset, or whether it rules that out, over the
    /// tuples that are stored at a timestamp.
    pub fn does<F: KnownFact>(
        &mut self,
        is_given: bool,
        set: MarkedSet<'_>,
        user: u64,
        at: u64,
        known: &Known<F>,
    ) -> Result<bool, AllocError>
        ensures rule { self.new ≡ self.old }
        ensures does { IfOk result (λ r. IsTrue r
            ↔ Does (snapshot_at self.old.timeline at) known.now (fact_of (set_value set.entry.set) user) is_given
            self.old.expression) }
    {
        let snapshot = self.parts.at(at);
        let fact = AskedFact {
            snapshot: &snapshot,
            known,
            set,
            user,
        };
        self.does_for(&fact, is_given)
    }
}
