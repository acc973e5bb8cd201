//! Rules that are judged by their parts, each of which is asked for once for a fact.

ghost use Rattle.std.specs.Prelude.{◌≡◌, ◌↔◌, IsTrue, not, IfOk, IfSome};
ghost use Rattle.rewrites.specs.Parts.{part_at, parts_shown, node_expression, nodes_shown};
ghost use Rattle.rewrites.specs.View.{expression_of};
ghost use Rattle.snapshots.specs.Snapshots.{snapshot_at};
ghost use Rattle.snapshots.specs.Timelines.{TimelineValue};
ghost use Rattle.wide_rules.specs.Asked.{Follows, IsCoveredBy, Questions, asked_at, joined_of};
ghost use Rattle.wide_rules.specs.AskedFact.{DoesFor, Tells};
ghost use Rattle.wide_rules.specs.Kept.{AreKeptByPart};

use crate::answers::{Answers, Asked};
use crate::covers::{Covers, MOST_COVERS, covers_of};
use crate::kept::{Kept, through_bars};
use crate::through::through_gives;
use judgement::{AskedFact, KnownFact, established, refuted};
use rewrites::{Node, Part, Rewrite};
use snapshots::{Snapshot, Timeline};
use std::alloc::{AllocError, Global};
use std::marker::Model;

/// The parts of a rule and their covers, asked for facts over a timeline, as contracts see them.
#[derive(Drop)]
pub(crate) struct Parts<'r> {
    alloc: Global,
    timeline: Timeline<'r>,
    parts: &'r [Part],
    // of each part by its number
    kept: Vec<Option<Box<Kept>>>,
    covers: Covers,
    // of each cover by its number
    covers_kept: Vec<Option<Box<Kept>>>,
}

impl<'r> Model for Parts<'r> {
    ghost use Rattle.rewrites.specs.Parts.{parts_shown};
    ghost use Rattle.wide_rules.specs.Asked.{AreCoversByPart, PartsValue};
    ghost use Rattle.wide_rules.specs.Kept.{AreKeptByPart};
    ghost use Rattle.wide_rules.specs.AskedCode.{parts_code};

    ghost Value = { PartsValue };

    ghost coded = { parts_code };

    ghost view = { λ p. record {
      timeline = p.timeline;
      questions = record { parts = parts_shown p.parts.now; covers = parts_shown p.covers.covers.items };
    } };

    ghost invariant = { λ p. AreKeptByPart p.timeline p.parts.now p.kept.items
        × AreKeptByPart p.timeline p.covers.covers.items p.covers_kept.items
        × AreCoversByPart (record { parts = parts_shown p.parts.now; covers = parts_shown p.covers.covers.items })
        p.covers.by_part.items };
}

/// Whether a part without children gives a fact, or whether it rules the fact out.
fn leaf_does<F: KnownFact>(leaf: &Rewrite, fact: &AskedFact<'_, F>, is_given: bool) -> bool
    ensures { IsTrue result ↔ DoesFor fact.now is_given (expression_of leaf.now) }
{
    if is_given {
        established(leaf, fact)
    } else {
        refuted(leaf, fact)
    }
}

fn nothing_kept(alloc: Global, parts: &[Part]) -> Result<Vec<Option<Box<Kept>>>, AllocError>
    ensures { (timeline : TimelineValue) → IfOk result (λ v. AreKeptByPart timeline parts.now v.items) }
{
    let mut kept = Vec::with_capacity(alloc, parts.len())?;
    while kept.len() < parts.len() {
        kept.push(None)?;
    }
    Ok(kept)
}

/// Whether the part of a number gives a fact, or whether it rules the fact out. Where there is no such part, it is as a
/// union of nothing.
fn part_does<F: KnownFact>(
    alloc: Global,
    parts: &[Part],
    kept: &mut Vec<Option<Box<Kept>>>,
    part: usize,
    fact: &AskedFact<'_, F>,
    is_given: bool,
) -> Result<bool, AllocError>
    requires { AreKeptByPart fact.now.snapshot.now.timeline parts.now kept.old.items }
    ensures kept { AreKeptByPart fact.now.snapshot.now.timeline parts.now kept.new.items }
    ensures does { IfOk result (λ r. IsTrue r ↔ DoesFor fact.now is_given (part_at (parts_shown parts.now) part)) }
{
    match parts.get(part) {
        Some(Part::Leaf(leaf)) => Ok(leaf_does(leaf, fact, is_given)),
        Some(Part::Through(through)) => {
            if is_given {
                return Ok(through_gives(through, fact));
            }
            through_bars(alloc, through, fact, &mut kept[part])
        }
        None => Ok(!is_given),
    }
}

impl<'r> Parts<'r> {
    pub(crate) fn of(
        alloc: Global,
        timeline: Timeline<'r>,
        parts: &'r [Part],
    ) -> Result<Parts<'r>, AllocError>
        ensures timeline { IfOk result (λ p. p.timeline ≡ timeline.entry) }
        ensures parts { IfOk result (λ p. p.questions.parts ≡ parts_shown parts.now) }
    {
        let covers = covers_of(alloc, parts)?;
        let covers_kept = nothing_kept(alloc, &covers.covers)?;
        Ok(Parts {
            alloc,
            timeline,
            parts,
            kept: nothing_kept(alloc, parts)?,
            covers,
            covers_kept,
        })
    }

    /// How many covers there are.
    pub(crate) fn covers(&self) -> usize {
        self.covers.covers.len()
    }

    /// What is declared and stored at a timestamp.
    pub(crate) fn at(&self, at: u64) -> Snapshot<'r>
        ensures { result ≡ snapshot_at self.now.timeline at }
    {
        self.timeline.at(at)
    }

    /// One of the covers of a part, from the widest on.
    fn cover(&self, part: usize, k: usize) -> Option<usize>
        ensures { IfSome result (λ cover. IsCoveredBy (part_at self.now.questions.parts part)
            (part_at self.now.questions.covers cover)) }
    {
        self.covers.by_part.get(part)?.get(k).copied()
    }

    /// Whether the part or the cover of a number gives a fact, or whether it rules the fact out.
    fn does<F: KnownFact>(
        &mut self,
        part: usize,
        is_cover: bool,
        fact: &AskedFact<'_, F>,
        is_given: bool,
    ) -> Result<bool, AllocError>
        requires { fact.now.snapshot.now.timeline ≡ self.old.timeline }
        ensures same { self.new ≡ self.old }
        ensures does { IfOk result (λ r. IsTrue r
            ↔ DoesFor fact.now is_given (asked_at self.old.questions is_cover part)) }
    {
        let alloc = self.alloc;
        if is_cover {
            let covers = &self.covers.covers;
            let kept = &mut self.covers_kept;
            return part_does(alloc, covers, kept, part, fact, is_given);
        }
        let kept = &mut self.kept;
        part_does(alloc, self.parts, kept, part, fact, is_given)
    }

    /// The same, asked for once.
    pub(crate) fn ask_once<F: KnownFact>(
        &mut self,
        fact: &AskedFact<'_, F>,
        part: usize,
        is_cover: bool,
        is_given: bool,
        answers: &mut Answers,
    ) -> Result<bool, AllocError>
        requires { fact.now.snapshot.now.timeline ≡ self.old.timeline }
        ensures same { self.new ≡ self.old }
        ensures tells { IfOk result (Tells fact.now self.old.questions is_given
            (asked_at self.old.questions is_cover part) answers.old answers.new) }
    {
        if let Some(answer) = answers.find(part, is_cover, is_given) {
            return Ok(answer);
        }
        let answer = self.does(part, is_cover, fact, is_given)?;
        answers.note(Asked {
            part,
            is_cover,
            is_given,
            answer,
        })?;
        Ok(answer)
    }
}

/// Whether the part of a number gives a fact, or whether it rules the fact out, asked for once, and only where no cover
/// answers for it: what a cover does not give, its part does not, and what it rules out, its part does.
fn ask<F: KnownFact>(
    parts: &mut Parts<'_>,
    fact: &AskedFact<'_, F>,
    part: usize,
    is_given: bool,
    answers: &mut Answers,
) -> Result<bool, AllocError>
    requires { fact.now.snapshot.now.timeline ≡ parts.old.timeline }
    ensures same { parts.new ≡ parts.old }
    ensures tells { IfOk result (Tells fact.now parts.old.questions is_given (part_at parts.old.questions.parts part)
        answers.old answers.new) }
{
    for k in 0..MOST_COVERS {
        let Some(cover) = parts.cover(part, k) else {
            break;
        };
        let does = parts.ask_once(fact, cover, true, is_given, answers)?;
        if does != is_given {
            return Ok(!is_given);
        }
    }
    parts.ask_once(fact, part, false, is_given, answers)
}

/// Whether one of the nodes is a part that was asked for, and its answer is the one that decides.
fn is_decided(nodes: &Vec<Node>, stop: bool, is_given: bool, answers: &Answers) -> bool
    ensures { IsTrue result → (q : Questions)
        → Follows q answers.now is_given (joined_of stop is_given (nodes_shown q.parts nodes.now.items)) stop }
{
    for node in nodes {
        if let Node::Part(part) = node {
            if let Some(answer) = answers.find(*part, false, is_given) {
                if answer == stop {
                    return true;
                }
            }
        }
    }
    false
}

/// Whether some of the nodes gives a fact, or rules it out; or where `stop` is false, whether each does. It looks no
/// further than is needed, and asks for nothing where what was asked for decides.
#[cycle(node)]
fn nodes_do<F: KnownFact>(
    parts: &mut Parts<'_>,
    fact: &AskedFact<'_, F>,
    nodes: &Vec<Node>,
    stop: bool,
    is_given: bool,
    answers: &mut Answers,
) -> Result<bool, AllocError>
    requires { fact.now.snapshot.now.timeline ≡ parts.old.timeline }
    ensures same { parts.new ≡ parts.old }
    ensures tells { IfOk result (Tells fact.now parts.old.questions is_given (joined_of stop is_given
        (nodes_shown parts.old.questions.parts nodes.now.items)) answers.old answers.new) }
{
    if is_decided(nodes, stop, is_given, answers) {
        return Ok(stop);
    }
    for node in nodes {
        let does = node_does(parts, fact, node, is_given, answers)?;
        if does == stop {
            return Ok(stop);
        }
    }
    Ok(!stop)
}

/// Whether a node of a rule gives a fact, or whether it rules the fact out.
#[cycle(node)]
pub(crate) fn node_does<F: KnownFact>(
    parts: &mut Parts<'_>,
    fact: &AskedFact<'_, F>,
    node: &Node,
    is_given: bool,
    answers: &mut Answers,
) -> Result<bool, AllocError>
    requires { fact.now.snapshot.now.timeline ≡ parts.old.timeline }
    ensures same { parts.new ≡ parts.old }
    ensures tells { IfOk result (Tells fact.now parts.old.questions is_given
        (node_expression parts.old.questions.parts node.now) answers.old answers.new) }
{
    match node {
        Node::Part(part) => ask(parts, fact, *part, is_given, answers),
        Node::Union(nodes) => nodes_do(parts, fact, nodes, is_given, is_given, answers),
        Node::Inter(nodes) => nodes_do(parts, fact, nodes, !is_given, is_given, answers),
        Node::Minus(base, subtract) => {
            let does = node_does(parts, fact, base, is_given, answers)?;
            if does != is_given {
                return Ok(does);
            }
            node_does(parts, fact, subtract, !is_given, answers)
        }
    }
}
