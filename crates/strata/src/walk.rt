//! The first broken edge of a rule.

ghost use Rattle.std.specs.Prelude.{◌≡◌, [], option_map, option_and_then, false};
ghost use Rattle.std.specs.List.{cons_option, filter_map, flat_map};
ghost use Rattle.namespaces.specs.Lookup.{history_numbered};
ghost use Rattle.rewrites.specs.View.{expression_of, expressions_of};
ghost use Rattle.strata.specs.Edges as edges;
ghost use Rattle.strata.specs.Sights.{reads, name_of, leaf_read, reads_tupleset, some_reads_tupleset};

use crate::edge::Edge;
use namespaces::{RelNo, Rules};
use rewrites::Rewrite;
use tuple_text::SetRef;

/// What is looked for in the rules of a relation.
#[derive(Clone, Copy)]
pub(crate) enum Sight<'a> {
    /// What they read by themselves, in this namespace.
    Rule(&'a str),
    /// What they read where a tuple of the relation has this userset as its user.
    Userset(SetRef<'a>),
    /// What they read where a tuple of this relation of the object has this userset as its user.
    Through(&'a str, SetRef<'a>),
}

/// The stratum of the relation that has this number.
fn stratum_numbered(rules: &Rules, number: RelNo) -> Option<u8>
    ensures { result ≡ edges.stratum_numbered rules.now number }
{
    let namespace = rules.namespace(number.namespace)?;
    let relation = rules.relation(number)?;
    rules.stratum(SetRef {
        namespace,
        id: "",
        relation,
    })
}

fn is_broken(rules: &Rules, edge: Edge) -> bool
    ensures { result ≡ edges.is_broken rules.now edge }
{
    let Some(reader) = stratum_numbered(rules, edge.reader) else {
        return false;
    };
    let Some(premise) = stratum_numbered(rules, edge.premise) else {
        return false;
    };
    if edge.strict {
        reader <= premise
    } else {
        reader < premise
    }
}

/// Refuses the edge to what a place reads, if it is broken.
fn check_premise(
    rules: &Rules,
    reader: RelNo,
    premise: Option<SetRef<'_>>,
    strict: bool,
) -> Result<(), Edge>
    ensures { result ≡ edges.first_broken rules.now (cons_option (option_and_then (edges.edge_to rules.now reader strict) (option_map name_of premise.entry)) []) }
{
    let Some(premise) = premise else {
        return Ok(());
    };
    let Some(premise) = rules.number(premise) else {
        return Ok(());
    };
    let edge = Edge {
        reader,
        premise,
        strict,
    };
    if is_broken(rules, edge) {
        return Err(edge);
    }
    Ok(())
}

/// What a rule that is a leaf reads.
fn premise<'a>(sight: Sight<'a>, rewrite: &'a Rewrite) -> Option<SetRef<'a>>
    ensures { option_map name_of result ≡ leaf_read (reads sight.entry) (expression_of rewrite.now) }
{
    match (sight, rewrite) {
        (Sight::Rule(namespace), Rewrite::Computed(relation)) => Some(SetRef {
            namespace,
            id: "",
            relation,
        }),
        (Sight::Userset(set), Rewrite::This) => Some(set),
        (Sight::Through(relation, set), Rewrite::TupleTo { tupleset, computed })
            if tupleset.as_str() == relation => {
            Some(SetRef {
                relation: computed,
                ..set
            })
        }
        _ => None,
    }
}

/// The first place, in pre-order, that has a broken edge.
#[cycle(check_rewrite)]
pub(crate) fn check_rewrite(
    rules: &Rules,
    reader: RelNo,
    sight: Sight<'_>,
    rewrite: &Rewrite,
    strict: bool,
) -> Result<(), Edge>
    ensures { result ≡ edges.first_broken rules.now (filter_map (edges.edge_at rules.now reader (reads sight.entry)) (edges.places strict (expression_of rewrite.now))) }
{
    match rewrite {
        Rewrite::This | Rewrite::Computed(_) | Rewrite::TupleTo { .. } => {
            check_premise(rules, reader, premise(sight, rewrite), strict)
        }
        Rewrite::Union(children) | Rewrite::Inter(children) => {
            check_children(rules, reader, sight, children, strict)
        }
        Rewrite::Minus(base, subtract) => {
            check_rewrite(rules, reader, sight, base, strict)?;
            check_rewrite(rules, reader, sight, subtract, true)
        }
    }
}

#[cycle(check_rewrite)]
#[tactic(auto, using(crate::proofs::Walks::children_step, crate::proofs::Walks::places_joined))]
fn check_children(
    rules: &Rules,
    reader: RelNo,
    sight: Sight<'_>,
    children: &Vec<Rewrite>,
    strict: bool,
) -> Result<(), Edge>
    ensures { result ≡ edges.first_broken rules.now (filter_map (edges.edge_at rules.now reader (reads sight.entry)) (edges.all_places strict (expressions_of children.now.items))) }
{
    for child in children {
        check_rewrite(rules, reader, sight, child, strict)?;
    }
    Ok(())
}

/// Whether a rule reads a tupleset.
#[cycle(reads_tupleset)]
pub(crate) fn reads_tupleset(rewrite: &Rewrite) -> bool
    ensures { result ≡ reads_tupleset (expression_of rewrite.now) }
{
    match rewrite {
        Rewrite::This | Rewrite::Computed(_) => false,
        Rewrite::TupleTo { .. } => true,
        Rewrite::Union(children) | Rewrite::Inter(children) => some_reads_tupleset(children),
        Rewrite::Minus(base, subtract) => reads_tupleset(base) || reads_tupleset(subtract),
    }
}

#[cycle(reads_tupleset)]
#[tactic(auto, using(crate::proofs::Walks::children_step))]
fn some_reads_tupleset(children: &Vec<Rewrite>) -> bool
    ensures { result ≡ some_reads_tupleset (expressions_of children.now.items) }
{
    for child in children {
        if reads_tupleset(child) {
            return true;
        }
    }
    false
}

/// The first broken edge of all rules that a relation ever had.
pub(crate) fn check_relation(rules: &Rules, reader: RelNo, sight: Sight<'_>) -> Result<(), Edge>
    ensures { result ≡ edges.first_broken rules.now (edges.relation_edges rules.now (reads sight.entry) reader) }
{
    for k in 0..rules.len() {
        let Some(rewrite) = rules.rule(reader, k) else {
            return Ok(());
        };
        check_rewrite(rules, reader, sight, rewrite, false)?;
    }
    Ok(())
}
