//! Rules in a plain form, which say what is nested or repeated without need once.

ghost use Rattle.std.specs.Prelude.{◌≡◌, ◌∷◌, ◌++◌, [], map, true, Contains, IfOk, IfSome, OnOk};
ghost use Rattle.rewrites.specs.Joints.{joined, IsPut, JoinPlain};
ghost use Rattle.rewrites.specs.Plain.{IsPlainOf};
ghost use Rattle.rewrites.specs.View.{expression_of, expressions_of};

use crate::rewrite::{Rewrite, copy_of, minus, tuple_to_of};
use std::alloc::{AllocError, Global};
use std::collections::BTreeMap;

/// How children are joined.
#[derive(Clone, Copy)]
pub(crate) enum Joint {
    Union,
    Inter,
}

/// Whether two rules are the same, place by place.
#[cycle(is_same)]
pub(crate) fn is_same(one: &Rewrite, other: &Rewrite) -> bool
    ensures { result ≡ true → expression_of one.now ≡ expression_of other.now }
{
    match (one, other) {
        (Rewrite::This, Rewrite::This) => true,
        (Rewrite::Computed(one), Rewrite::Computed(other)) => one == other,
        (
            Rewrite::TupleTo { tupleset, computed },
            Rewrite::TupleTo {
                tupleset: other_tupleset,
                computed: other_computed,
            },
        ) => tupleset == other_tupleset && computed == other_computed,
        (Rewrite::Union(one), Rewrite::Union(other)) => are_same(one, other),
        (Rewrite::Inter(one), Rewrite::Inter(other)) => are_same(one, other),
        (Rewrite::Minus(base, subtract), Rewrite::Minus(other_base, other_subtract)) => {
            is_same(base, other_base) && is_same(subtract, other_subtract)
        }
        _ => false,
    }
}

#[cycle(is_same)]
fn are_same(some: &Vec<Rewrite>, others: &Vec<Rewrite>) -> bool
    ensures { result ≡ true → map expression_of some.now.items ≡ map expression_of others.now.items }
{
    if some.len() != others.len() {
        return false;
    }
    for k in 0..some.len() {
        if !is_same(&some[k], &others[k]) {
            return false;
        }
    }
    true
}

/// Writes a rule behind a text, each name followed by a sign that no name has. So rules that differ have texts that
/// differ.
#[cycle(write)]
fn write(text: &mut String, rewrite: &Rewrite) -> Result<(), AllocError> {
    match rewrite {
        Rewrite::This => text.push('.'),
        Rewrite::Computed(relation) => {
            text.push_str(relation.as_str())?;
            text.push(';')
        }
        Rewrite::TupleTo { tupleset, computed } => {
            text.push_str(tupleset.as_str())?;
            text.push('>')?;
            text.push_str(computed.as_str())?;
            text.push(';')
        }
        Rewrite::Union(children) => write_all(text, '|', children),
        Rewrite::Inter(children) => write_all(text, '&', children),
        Rewrite::Minus(base, subtract) => {
            text.push('-')?;
            write(text, base)?;
            write(text, subtract)
        }
    }
}

#[cycle(write)]
fn write_all(text: &mut String, sign: char, children: &Vec<Rewrite>) -> Result<(), AllocError> {
    text.push(sign)?;
    for child in children {
        write(text, child)?;
    }
    text.push(')')
}

/// A rule as a text, by which the same rule is found. A stranger names the relations: so rules are told apart by their
/// texts, in a tree, and by no number that is made of them.
pub(crate) fn text_of(alloc: Global, rewrite: &Rewrite) -> Result<String, AllocError> {
    let mut text = String::new(alloc);
    write(&mut text, rewrite)?;
    Ok(text)
}

/// Whether the same rule stands at a place.
fn stands_at(kept: &[Rewrite], place: usize, child: &Rewrite) -> bool
    ensures { result ≡ true → Contains (map expression_of kept.now) (expression_of child.now) }
{
    match kept.get(place) {
        Some(one) => is_same(one, child),
        None => false,
    }
}

/// Whether the same rule stands at the place of its text, if there is one.
fn stands(kept: &[Rewrite], place: Option<usize>, child: &Rewrite) -> bool
    ensures { result ≡ true → Contains (map expression_of kept.now) (expression_of child.now) }
{
    match place {
        Some(place) => stands_at(kept, place, child),
        None => false,
    }
}

/// Puts a child last, unless the same stands there.
pub(crate) fn put(
    kept: &mut Vec<Rewrite>,
    places: &mut BTreeMap<String, usize>,
    child: Rewrite,
) -> Result<(), AllocError>
    ensures { OnOk result (IsPut (map expression_of kept.old.items) (map expression_of kept.new.items) (expression_of child)) }
{
    let text = text_of(*kept.allocator(), &child)?;
    if stands(kept.as_slice(), places.get(text.as_str()).copied(), &child) {
        return Ok(());
    }
    let place = kept.len();
    kept.push(child)?;
    let _ = places.insert(text, place)?;
    Ok(())
}

fn put_copies(
    alloc: Global,
    joint: Joint,
    kept: &mut Vec<Rewrite>,
    places: &mut BTreeMap<String, usize>,
    children: &Vec<Rewrite>,
) -> Result<(), AllocError>
    ensures { OnOk result (JoinPlain joint (map expression_of kept.new.items)
        (map expression_of kept.old.items ++ map expression_of children.now.items)) }
{
    for child in children {
        let copy = copy_of(alloc, child)?;
        put(kept, places, copy)?;
    }
    Ok(())
}

/// The children of a child that is joined as its parent is.
fn nested_children(joint: Joint, child: &Rewrite) -> Option<&Vec<Rewrite>>
    ensures { IfSome result (λ es. expression_of child.now ≡ joined joint (map expression_of es.now.items)) }
{
    match joint {
        Joint::Union => match child {
            Rewrite::Union(children) => Some(children),
            _ => None,
        },
        Joint::Inter => match child {
            Rewrite::Inter(children) => Some(children),
            _ => None,
        },
    }
}

/// Puts a child, or where it is joined as its parent is, its children.
fn put_child(
    alloc: Global,
    joint: Joint,
    kept: &mut Vec<Rewrite>,
    places: &mut BTreeMap<String, usize>,
    child: Rewrite,
) -> Result<(), AllocError>
    ensures { OnOk result (JoinPlain joint (map expression_of kept.new.items)
        (map expression_of kept.old.items ++ expression_of child ∷ [])) }
{
    match nested_children(joint, &child) {
        Some(children) => put_copies(alloc, joint, kept, places, children),
        None => put(kept, places, child),
    }
}

/// Children joined, or the only one.
fn join_kept(joint: Joint, mut kept: Vec<Rewrite>) -> Rewrite
    ensures { IsPlainOf (expression_of result) (joined joint (map expression_of kept.items)) }
{
    if kept.len() == 1 {
        if let Some(only) = kept.pop() {
            return only;
        }
    }
    match joint {
        Joint::Union => Rewrite::Union(kept),
        Joint::Inter => Rewrite::Inter(kept),
    }
}

#[cycle(plain_of)]
fn plain_joined(alloc: Global, joint: Joint, children: &Vec<Rewrite>) -> Result<Rewrite, AllocError>
    ensures { IfOk result (λ r. IsPlainOf (expression_of r) (joined joint (map expression_of children.now.items))) }
{
    let mut kept = Vec::new(alloc);
    let mut places = BTreeMap::new(alloc);
    for child in children {
        put_child(
            alloc,
            joint,
            &mut kept,
            &mut places,
            plain_of(alloc, child)?,
        )?;
    }
    Ok(join_kept(joint, kept))
}

/// A rule that says the same: a union in a union is one with it, and an intersection in an intersection; no child
/// stands twice; and one child stands alone. Each place is written once for each level above it, of which a rule that
/// is declared has at most 32.
#[cycle(plain_of)]
pub fn plain_of(alloc: Global, rewrite: &Rewrite) -> Result<Rewrite, AllocError>
    ensures { IfOk result (λ r. IsPlainOf (expression_of r) (expression_of rewrite.now)) }
{
    match rewrite {
        Rewrite::This => Ok(Rewrite::This),
        Rewrite::Computed(relation) => Ok(Rewrite::Computed(relation.clone()?)),
        Rewrite::TupleTo { tupleset, computed } => tuple_to_of(tupleset, computed),
        Rewrite::Union(children) => plain_joined(alloc, Joint::Union, children),
        Rewrite::Inter(children) => plain_joined(alloc, Joint::Inter, children),
        Rewrite::Minus(base, subtract) => {
            let base = plain_of(alloc, base)?;
            let subtract = plain_of(alloc, subtract)?;
            minus(alloc, base, subtract)
        }
    }
}
