//! The rules for the members of a relation.
ghost use Rattle.std.specs.Prelude.{◌≡◌, ◌≤◌, nat_lt, string_bytes, IfOk};
ghost use Rattle.std.specs.List.{list_all};
ghost use Rattle.tuple_text.specs.Forms.{is_name};
ghost use Rattle.rewrites.specs.Expression as expression;
ghost use Rattle.rewrites.specs.View.{expression_of, expressions_of};

use std::alloc::{AllocError, Global};
use tuple_text::is_name;

/// How many children a union or an intersection may have.
const MAX_CHILDREN: usize = 64;

/// A rule that says who the members of a relation are (Zanzibar, section 2.3.1).
#[derive(Drop)]
pub enum Rewrite {
    /// The users of the relation's stored tuples, and the members of the usersets in them.
    This,
    /// The members of another relation of the same object.
    Computed(String),
    /// For each userset stored in the relation `tupleset` of the object, the members of that userset's object under
    /// `computed`.
    TupleTo { tupleset: String, computed: String },
    /// The members of at least one child.
    Union(Vec<Rewrite>),
    /// The members of every child.
    Inter(Vec<Rewrite>),
    /// The members of the first rule that are not members of the second.
    Minus(Box<Rewrite>, Box<Rewrite>),
}

/// As how many places one that goes through a tupleset counts: what is stored there may be of all namespaces.
const PLACES_THROUGH: usize = 6;

/// How many places a rule has, as far as it has no more than some.
#[cycle(places_up_to)]
fn places_up_to(rewrite: &Rewrite, most: usize) -> usize
    ensures { result ≤ most }
{
    if most == 0 {
        return 0;
    }
    match rewrite {
        Rewrite::This | Rewrite::Computed(_) => 1,
        Rewrite::TupleTo { .. } => most.min(PLACES_THROUGH),
        Rewrite::Union(children) | Rewrite::Inter(children) => {
            let mut places = 1;
            for child in children {
                places += places_up_to(child, most - places);
            }
            places
        }
        Rewrite::Minus(base, subtract) => {
            let places = 1 + places_up_to(base, most - 1);
            places + places_up_to(subtract, most - places)
        }
    }
}

/// Whether a rule has more places than some.
pub fn has_more_places(rewrite: &Rewrite, places: usize) -> bool {
    places_up_to(rewrite, places.saturating_add(1)) > places
}

/// A rule that follows a tupleset, of copies of its names.
pub(crate) fn tuple_to_of(tupleset: &String, computed: &String) -> Result<Rewrite, AllocError>
    ensures { IfOk result (λ r. expression_of r
        ≡ expression.tuple_to (string_bytes tupleset.now) (string_bytes computed.now)) }
{
    Ok(Rewrite::TupleTo {
        tupleset: tupleset.clone()?,
        computed: computed.clone()?,
    })
}

/// The members of one rule that are not members of another.
pub fn minus(alloc: Global, base: Rewrite, subtract: Rewrite) -> Result<Rewrite, AllocError>
    ensures { IfOk result (λ r. expression_of r ≡ expression.minus (expression_of base) (expression_of subtract)) }
{
    Ok(Rewrite::Minus(Box::new(alloc, base)?, Box::new(alloc, subtract)?))
}

/// A copy of a rule.
#[cycle(copy_of)]
pub fn copy_of(alloc: Global, rewrite: &Rewrite) -> Result<Rewrite, AllocError>
    ensures { IfOk result (λ r. expression_of r ≡ expression_of rewrite.now) }
{
    match rewrite {
        Rewrite::This => Ok(Rewrite::This),
        Rewrite::Computed(relation) => Ok(Rewrite::Computed(relation.clone()?)),
        Rewrite::TupleTo { tupleset, computed } => tuple_to_of(tupleset, computed),
        Rewrite::Union(children) => Ok(Rewrite::Union(copies_of(alloc, children)?)),
        Rewrite::Inter(children) => Ok(Rewrite::Inter(copies_of(alloc, children)?)),
        Rewrite::Minus(base, subtract) => {
            let base = copy_of(alloc, base)?;
            let subtract = copy_of(alloc, subtract)?;
            minus(alloc, base, subtract)
        }
    }
}

#[cycle(copy_of)]
fn copies_of(alloc: Global, children: &Vec<Rewrite>) -> Result<Vec<Rewrite>, AllocError>
    ensures { IfOk result (λ v. expressions_of v.items ≡ expressions_of children.now.items) }
{
    let mut copies = Vec::new(alloc);
    for child in children {
        copies.push(copy_of(alloc, child)?)?;
    }
    Ok(copies)
}

/// Whether a rule nests deeper than `limit`.
#[cycle(is_deeper)]
#[tactic(auto, using(crate::proofs::Walks::depth_positive))]
pub fn is_deeper(rewrite: &Rewrite, limit: u8) -> bool
    ensures { result ≡ nat_lt limit (expression.depth (expression_of rewrite.now)) }
{
    if limit == 0 {
        return true;
    }
    match rewrite {
        Rewrite::This | Rewrite::Computed(_) | Rewrite::TupleTo { .. } => false,
        Rewrite::Union(children) | Rewrite::Inter(children) => is_any_deeper(children, limit - 1),
        Rewrite::Minus(base, subtract) => {
            is_deeper(base, limit - 1) || is_deeper(subtract, limit - 1)
        }
    }
}

#[cycle(is_deeper)]
#[tactic(auto, using(crate::proofs::Walks::children_step))]
fn is_any_deeper(children: &Vec<Rewrite>, limit: u8) -> bool
    ensures { result ≡ nat_lt limit (expression.greatest_depth (expressions_of children.now.items)) }
{
    for child in children {
        if is_deeper(child, limit) {
            return true;
        }
    }
    false
}

/// Whether each union and each intersection has 1 to 64 children.
#[cycle(counts_fit)]
pub fn counts_fit(rewrite: &Rewrite) -> bool
    ensures { result ≡ expression.counts_fit (expression_of rewrite.now) }
{
    match rewrite {
        Rewrite::This | Rewrite::Computed(_) | Rewrite::TupleTo { .. } => true,
        Rewrite::Union(children) | Rewrite::Inter(children) => {
            has_good_count(children) && all_counts_fit(children)
        }
        Rewrite::Minus(base, subtract) => counts_fit(base) && counts_fit(subtract),
    }
}

#[cycle(counts_fit)]
#[tactic(auto, using(crate::proofs::Walks::children_step))]
fn all_counts_fit(children: &Vec<Rewrite>) -> bool
    ensures { result ≡ expression.counts_fit_all (expressions_of children.now.items) }
{
    for child in children {
        if !counts_fit(child) {
            return false;
        }
    }
    true
}

#[tactic(auto, using(crate::proofs::Walks::children_counted))]
fn has_good_count(children: &Vec<Rewrite>) -> bool
    ensures { result ≡ expression.is_child_count (expression.child_count (expressions_of children.now.items)) }
{
    1 <= children.len() && children.len() <= MAX_CHILDREN
}

/// Whether each name in a rule is one.
#[cycle(has_good_names)]
pub fn has_good_names(rewrite: &Rewrite) -> bool
    ensures { result ≡ list_all is_name (expression.names_in (expression_of rewrite.now)) }
{
    match rewrite {
        Rewrite::This => true,
        Rewrite::Computed(relation) => is_name(relation.as_str()),
        Rewrite::TupleTo { tupleset, computed } => {
            is_name(tupleset.as_str()) && is_name(computed.as_str())
        }
        Rewrite::Union(children) | Rewrite::Inter(children) => all_have_good_names(children),
        Rewrite::Minus(base, subtract) => has_good_names(base) && has_good_names(subtract),
    }
}

#[cycle(has_good_names)]
#[tactic(auto, using(crate::proofs::Walks::children_step))]
fn all_have_good_names(children: &Vec<Rewrite>) -> bool
    ensures { result ≡ list_all is_name (expression.names_in_all (expressions_of children.now.items)) }
{
    for child in children {
        if !has_good_names(child) {
            return false;
        }
    }
    true
}
