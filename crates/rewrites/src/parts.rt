//! Rules by their parts, each of which is asked for once, wherever it stands in the rule.

ghost use Rattle.std.specs.Prelude.{◌≡◌, ◌↔◌, IsTrue, Contains, ◌∷◌, ◌++◌, [], List, Some, true, false, if◌then◌else◌, map, slice_get, option_map, string_bytes, IfOk, OnOk};
ghost use Rattle.rewrites.specs.Alike.{IsAlike};
ghost use Rattle.rewrites.specs.Expression.{Expression, tuple_to, minus};
ghost use Rattle.rewrites.specs.Joints.{IsPut, JoinAlike};
ghost use Rattle.rewrites.specs.Parts.{computed_names, each_shown, throughs_shown, parts_shown, part_expression, nodes_shown, node_expression, rule_shown, HasPart, IsGrown, Says, AllSay};
ghost use Rattle.rewrites.specs.View.{expression_of};
ghost use Rattle.rewrites.specs.declared.plain.Joint.TheVariants.{Union, Inter};

use crate::plain::{is_same, text_of};
use crate::rewrite::{Rewrite, copy_of};
use names::Names;
use std::alloc::{AllocError, Global};
use std::collections::BTreeMap;

/// What some relations give through one tupleset: the union of it.
#[derive(Drop)]
pub struct Through {
    pub tupleset: String,
    pub computed: Names<()>,
}

impl Through {
    /// A tupleset through which one relation is read.
    pub fn of(alloc: Global, tupleset: &String, computed: &String) -> Result<Through, AllocError>
        ensures { IfOk result (λ t. each_shown t
            ≡ tuple_to (string_bytes tupleset.now) (string_bytes computed.now) ∷ []) }
    {
        let mut names = Names::new(alloc);
        let _ = names.put(computed.clone()?, ())?;
        Ok(Through {
            tupleset: tupleset.clone()?,
            computed: names,
        })
    }

    /// The name at a place, from 0, of those that are read through the tupleset. `None` past the last.
    pub fn name(&self, place: usize) -> Option<&str>
        ensures { option_map (λ s. s.now) result ≡ slice_get (computed_names self.now) place }
    {
        let (name, _) = self.computed.at(place)?;
        Some(name.as_str())
    }

    /// Whether a relation of this name is read through the tupleset.
    pub fn reads(&self, name: &str) -> bool
        ensures { IsTrue result ↔ Contains (computed_names self.now) name.now }
    {
        self.computed.contains(name)
    }

    /// Reads one more relation through the tupleset, unless it is read there already. Whether it was not.
    pub fn read_more(&mut self, computed: &String) -> Result<bool, AllocError>
        ensures put { OnOk result (IsPut (each_shown self.old) (each_shown self.new)
            (tuple_to (string_bytes self.old.tupleset) (string_bytes computed.now))) }
        ensures more { IfOk result (λ r. each_shown self.new
            ≡ (if r then each_shown self.old
            ++ tuple_to (string_bytes self.old.tupleset) (string_bytes computed.now) ∷ []
            else each_shown self.old)) }
    {
        self.computed.put(computed.clone()?, ())
    }
}

/// A part of a rule.
#[derive(Drop)]
pub enum Part {
    /// A rule without children.
    Leaf(Rewrite),
    Through(Through),
}

/// Where the parts of a rule stand.
#[derive(Drop)]
pub enum Node {
    /// The part of this number, from 0.
    Part(usize),
    Union(Vec<Node>),
    Inter(Vec<Node>),
    Minus(Box<Node>, Box<Node>),
}

/// A rule by its parts. A leaf that stands at many places is one part, and so are those of a union that go through
/// one tupleset.
#[derive(Drop)]
pub struct PartedRule {
    pub parts: Vec<Part>,
    pub top: Node,
}

/// The parts that are numbered so far, and by the texts of leaves where these stand.
#[derive(Drop)]
struct Numbering {
    alloc: Global,
    parts: Vec<Part>,
    places: BTreeMap<String, usize>,
}

/// Whether a leaf is the part of a number.
fn is_part(parts: &[Part], number: usize, leaf: &Rewrite) -> bool
    ensures { result ≡ true → (p : Part) × (slice_get parts.now number ≡ Some p)
        × (part_expression p ≡ expression_of leaf.now) }
{
    match parts.get(number) {
        Some(Part::Leaf(one)) => is_same(one, leaf),
        Some(Part::Through(_)) => false,
        None => false,
    }
}

impl Numbering {
    /// Adds a part, and gives its number.
    fn push(&mut self, part: Part) -> Result<usize, AllocError>
        ensures { IfOk result
            (λ n. HasPart (parts_shown self.old.parts.items) (parts_shown self.new.parts.items) n (part_expression part)) }
    {
        let number = self.parts.len();
        self.parts.push(part)?;
        Ok(number)
    }

    /// The number of a leaf, which stands once among the parts.
    fn leaf(&mut self, leaf: &Rewrite) -> Result<usize, AllocError>
        ensures { IfOk result
            (λ n. HasPart (parts_shown self.old.parts.items) (parts_shown self.new.parts.items) n (expression_of leaf.now)) }
    {
        let text = text_of(self.alloc, leaf)?;
        if let Some(number) = self.places.get(text.as_str()).copied() {
            if is_part(&self.parts, number, leaf) {
                return Ok(number);
            }
        }
        let number = self.push(Part::Leaf(copy_of(self.alloc, leaf)?))?;
        let _ = self.places.insert(text, number)?;
        Ok(number)
    }
}

/// Whether it is this tupleset.
fn is_of(through: &Through, tupleset: &String) -> bool
    ensures { result ≡ true → string_bytes through.now.tupleset ≡ string_bytes tupleset.now }
{
    through.tupleset == *tupleset
}

/// The children of a union that go through tuplesets, one tupleset after the other, and by their names where these
/// stand.
#[derive(Drop)]
struct Throughs {
    alloc: Global,
    each: Vec<Through>,
    places: BTreeMap<String, usize>,
}

impl Throughs {
    /// Puts a child to those of its tupleset. Whether it was put: one that is there already is not.
    fn put(&mut self, tupleset: &String, computed: &String) -> Result<bool, AllocError>
        ensures put { IfOk result (λ r. r ≡ true → JoinAlike Union (throughs_shown self.new.each.items)
            (throughs_shown self.old.each.items ++ tuple_to (string_bytes tupleset.now) (string_bytes computed.now) ∷ [])) }
        ensures same { IfOk result (λ r. r ≡ false
            → throughs_shown self.new.each.items ≡ throughs_shown self.old.each.items) }
    {
        let place = self
            .places
            .get(tupleset.as_str())
            .copied()
            .unwrap_or(self.each.len());
        if place < self.each.len() && is_of(&self.each[place], tupleset) {
            let is_read = self.each[place].read_more(computed)?;
            return Ok(is_read);
        }
        let through = Through::of(self.alloc, tupleset, computed)?;
        let place = self.each.len();
        self.each.push(through)?;
        let _ = self.places.insert(tupleset.clone()?, place)?;
        Ok(true)
    }
}

/// Puts a child of a union to those that go through its tupleset. Whether it was put.
fn put_through(throughs: &mut Throughs, child: &Rewrite) -> Result<bool, AllocError>
    ensures put { IfOk result (λ r. r ≡ true → JoinAlike Union (throughs_shown throughs.new.each.items)
        (throughs_shown throughs.old.each.items ++ expression_of child.now ∷ [])) }
    ensures same { IfOk result (λ r. r ≡ false
        → throughs_shown throughs.new.each.items ≡ throughs_shown throughs.old.each.items) }
{
    match child {
        Rewrite::TupleTo { tupleset, computed } => throughs.put(tupleset, computed),
        _ => Ok(false),
    }
}

/// Puts parts that go through tuplesets behind the other children of a union.
fn put_throughs(
    numbering: &mut Numbering,
    nodes: &mut Vec<Node>,
    throughs: Vec<Through>,
) -> Result<(), AllocError>
    ensures grown { OnOk result (IsGrown (parts_shown numbering.old.parts.items) (parts_shown numbering.new.parts.items)) }
    ensures joined { OnOk result ((more : List Expression) →
        JoinAlike Union (nodes_shown (parts_shown numbering.new.parts.items ++ more) nodes.new.items)
        (nodes_shown (parts_shown numbering.new.parts.items ++ more) nodes.old.items ++ throughs_shown throughs.items)) }
{
    let mut left = throughs;
    while let Some(through) = left.pop() {
        let part = numbering.push(Part::Through(through))?;
        nodes.push(Node::Part(part))?;
    }
    Ok(())
}

/// The nodes of the children of a union. Those that go through one tupleset are one part.
#[cycle(node)]
fn union_of(numbering: &mut Numbering, children: &Vec<Rewrite>) -> Result<Vec<Node>, AllocError>
    ensures { IfOk result
        (λ ns. AllSay Union (parts_shown numbering.old.parts.items) (parts_shown numbering.new.parts.items) ns.items
        (map expression_of children.now.items)) }
{
    let alloc = numbering.alloc;
    let mut nodes = Vec::new(alloc);
    let mut throughs = Throughs {
        alloc,
        each: Vec::new(alloc),
        places: BTreeMap::new(alloc),
    };
    for child in children {
        if put_through(&mut throughs, child)? {
            continue;
        }
        nodes.push(node_of(numbering, child)?)?;
    }
    put_throughs(numbering, &mut nodes, throughs.each)?;
    Ok(nodes)
}

/// The nodes of the children of an intersection.
#[cycle(node)]
fn inter_of(numbering: &mut Numbering, children: &Vec<Rewrite>) -> Result<Vec<Node>, AllocError>
    ensures { IfOk result
        (λ ns. AllSay Inter (parts_shown numbering.old.parts.items) (parts_shown numbering.new.parts.items) ns.items
        (map expression_of children.now.items)) }
{
    let mut nodes = Vec::new(numbering.alloc);
    for child in children {
        nodes.push(node_of(numbering, child)?)?;
    }
    Ok(nodes)
}

fn minus_node(alloc: Global, base: Node, subtract: Node) -> Result<Node, AllocError>
    ensures { IfOk result (λ n. (parts : List Expression)
        → node_expression parts n ≡ minus (node_expression parts base) (node_expression parts subtract)) }
{
    Ok(Node::Minus(Box::new(alloc, base)?, Box::new(alloc, subtract)?))
}

/// The node of a rule, whose parts are numbered where they were not yet.
#[cycle(node)]
fn node_of(numbering: &mut Numbering, rewrite: &Rewrite) -> Result<Node, AllocError>
    ensures { IfOk result
        (λ n. Says (parts_shown numbering.old.parts.items) (parts_shown numbering.new.parts.items) n (expression_of rewrite.now)) }
{
    match rewrite {
        Rewrite::Union(children) => Ok(Node::Union(union_of(numbering, children)?)),
        Rewrite::Inter(children) => Ok(Node::Inter(inter_of(numbering, children)?)),
        Rewrite::Minus(base, subtract) => {
            let base = node_of(numbering, base)?;
            let subtract = node_of(numbering, subtract)?;
            minus_node(numbering.alloc, base, subtract)
        }
        _ => Ok(Node::Part(numbering.leaf(rewrite)?)),
    }
}

/// A rule by its parts, each of which it has once but for those that go through a tupleset. It takes some steps for
/// each place of the rule.
pub fn parts_of(alloc: Global, rewrite: &Rewrite) -> Result<PartedRule, AllocError>
    ensures { IfOk result (λ r. IsAlike (rule_shown r) (expression_of rewrite.now)) }
{
    let mut numbering = Numbering {
        alloc,
        parts: Vec::new(alloc),
        places: BTreeMap::new(alloc),
    };
    let top = node_of(&mut numbering, rewrite)?;
    Ok(PartedRule {
        parts: numbering.parts,
        top,
    })
}
