//! Rules from JSON values.
ghost use Rattle.std.specs.Prelude.{◌≡◌, map, option_map, string_bytes, codes};
ghost use Rattle.std.specs.List.{list_any, list_all};
ghost use Rattle.std.specs.Str.{bytes_eq};
ghost use Rattle.serde_json.specs.View.{view, items_view};
ghost use Rattle.serde_json.specs.Find.{get, as_array};
ghost use Rattle.namespaces.specs.Fault.{Gives, needed};
ghost use Rattle.refusals.specs.Refusals as steps;
ghost use Rattle.namespaces.specs.Shape as shape;
ghost use Rattle.namespaces.specs.Adding as adding;
ghost use Rattle.namespaces.specs.Shown.{show_relation, show_relations};
ghost use Rattle.namespaces.specs.Drafts.{show_draft};
ghost use Rattle.rewrites.specs.Expression as form;
ghost use Rattle.rewrites.specs.View.{expression_of, expressions_of};

use crate::fault::RulesFault;
use crate::relation::{Relation, relation_of};
use names::Names;
use rewrites::{Rewrite, minus};
use serde_json::Value;
use std::alloc::Global;

fn text(alloc: Global, value: &Value) -> Result<String, RulesFault>
    ensures { Gives string_bytes result (shape.text (view value.now)) }
{
    let text = value.as_str().ok_or(RulesFault::Shape)?;
    Ok(String::from_str(alloc, text)?)
}

/// The member at a key.
fn member<'v>(value: &'v Value, key: &str) -> Result<&'v Value, RulesFault>
    ensures { Gives (λ v. view v.now) result (needed (get key.now (view value.now))) }
{
    value.get(key).ok_or(RulesFault::Shape)
}

/// The items of a list.
fn items(value: &Value) -> Result<&Vec<Value>, RulesFault>
    ensures { Gives (λ v. items_view v.now.items) result (needed (as_array (view value.now))) }
{
    value.as_array().ok_or(RulesFault::Shape)
}

fn text_at(alloc: Global, value: &Value, key: &str) -> Result<String, RulesFault>
    ensures { Gives string_bytes result (shape.text_at key.now (view value.now)) }
{
    text(alloc, member(value, key)?)
}

fn has(value: &Value, key: &str) -> bool
    ensures { result ≡ shape.has key.now (view value.now) }
{
    value.get(key).is_some()
}

/// One if the value has the key.
fn one_at(value: &Value, key: &str) -> u32
    ensures { result ≡ shape.one_if (shape.has key.now (view value.now)) }
{
    u32::from(has(value, key))
}

/// How many of the six keys an expression has.
#[tactic(auto, unfolding(crate::specs::Shape::forms_in))]
fn count_forms(value: &Value) -> u32
    ensures { result ≡ shape.forms_in (view value.now) }
{
    one_at(value, "this")
        + one_at(value, "computed")
        + one_at(value, "tuple_to")
        + one_at(value, "union")
        + one_at(value, "intersection")
        + one_at(value, "exclusion")
}

fn tuple_to(alloc: Global, value: &Value) -> Result<Rewrite, RulesFault>
    ensures { Gives expression_of result (shape.pair_of_names (view value.now)) }
{
    let tupleset = text_at(alloc, value, "tupleset")?;
    let computed = text_at(alloc, value, "computed")?;
    Ok(Rewrite::TupleTo { tupleset, computed })
}

/// The rule of an expression.
#[cycle(reading)]
#[tactic(auto, using(crate::proofs::Shapes::expression_get), unfolding(crate::specs::Shape::only_form))]
fn expression(alloc: Global, value: &Value) -> Result<Rewrite, RulesFault>
    ensures { Gives expression_of result (shape.expression (view value.now)) }
{
    if count_forms(value) != 1 {
        return Err(RulesFault::Shape);
    }
    if has(value, "this") {
        return Ok(Rewrite::This);
    }
    if has(value, "computed") {
        return Ok(Rewrite::Computed(text_at(alloc, value, "computed")?));
    }
    if let Some(pair) = value.get("tuple_to") {
        return tuple_to(alloc, pair);
    }
    if let Some(list) = value.get("union") {
        return Ok(Rewrite::Union(child_list(alloc, list)?));
    }
    if let Some(list) = value.get("intersection") {
        return Ok(Rewrite::Inter(child_list(alloc, list)?));
    }
    exclusion(alloc, member(value, "exclusion")?)
}

/// The rule of the object at `exclusion`.
#[cycle(reading)]
#[tactic(auto, using(crate::proofs::Shapes::exclusion_get))]
fn exclusion(alloc: Global, value: &Value) -> Result<Rewrite, RulesFault>
    ensures { Gives expression_of result (shape.exclusion (view value.now)) }
{
    let base = expression_at(alloc, value, "base")?;
    let subtract = expression_at(alloc, value, "subtract")?;
    Ok(minus(alloc, base, subtract)?)
}

/// The rule of the expression at a key.
#[cycle(reading)]
fn expression_at(alloc: Global, value: &Value, key: &str) -> Result<Rewrite, RulesFault>
    ensures { Gives expression_of result (steps.◌>>=◌ (needed (get key.now (view value.now))) shape.expression) }
{
    expression(alloc, member(value, key)?)
}

/// The rules of a list of expressions.
#[cycle(reading)]
fn child_list(alloc: Global, value: &Value) -> Result<Vec<Rewrite>, RulesFault>
    ensures { Gives (λ v. map expression_of v.items) result (shape.child_list (view value.now)) }
{
    let values = items(value)?;
    let mut rules = Vec::new(alloc);
    for value in values {
        rules.push(expression(alloc, value)?)?;
    }
    Ok(rules)
}

/// A namespace as it was read, before any test of its names and counts.
#[derive(Drop)]
pub(crate) struct Draft {
    pub(crate) name: String,
    pub(crate) relations: Vec<(String, Relation)>,
}

/// The member at a key that may be absent or null.
fn optional<'v>(value: &'v Value, key: &str) -> Option<&'v Value>
    ensures { option_map (λ v. view v.now) result ≡ adding.optional key.now (view value.now) }
{
    let member = value.get(key)?;
    if member.is_null() {
        return None;
    }
    Some(member)
}

fn stratum(value: &Value) -> Result<u8, RulesFault>
    ensures { Gives (λ n. n) result (adding.stratum_or_0 (adding.optional (codes "stratum") (view value.now))) }
{
    let Some(number) = optional(value, "stratum") else {
        return Ok(0);
    };
    let number = number.as_u64().ok_or(RulesFault::Shape)?;
    u8::try_from(number).map_err(|_| RulesFault::Shape)
}

fn rewrite(alloc: Global, value: &Value) -> Result<Rewrite, RulesFault>
    ensures { Gives expression_of result
        (adding.expression_or_this (adding.optional (codes "rewrite") (view value.now))) }
{
    match optional(value, "rewrite") {
        Some(rewrite) => expression(alloc, rewrite),
        None => Ok(Rewrite::This),
    }
}

fn read_relation(alloc: Global, value: &Value) -> Result<(String, Relation), RulesFault>
    ensures { Gives show_relation result (adding.relation (view value.now)) }
{
    let name = text_at(alloc, value, "name")?;
    let stratum = stratum(value)?;
    let rewrite = rewrite(alloc, value)?;
    Ok((name, relation_of(alloc, stratum, rewrite)?))
}

fn read_relations(alloc: Global, values: &Vec<Value>) -> Result<Vec<(String, Relation)>, RulesFault>
    ensures { Gives (λ v. show_relations v.items) result (adding.relations (items_view values.now.items)) }
{
    let mut relations = Vec::new(alloc);
    for value in values {
        relations.push(read_relation(alloc, value)?)?;
    }
    Ok(relations)
}

/// The namespace that a value declares, if the value has the shape of one.
pub(crate) fn read_draft(alloc: Global, value: &Value) -> Result<Draft, RulesFault>
    ensures { Gives show_draft result (adding.namespace (view value.now)) }
{
    let name = text_at(alloc, value, "name")?;
    let values = items(member(value, "relations")?)?;
    let relations = read_relations(alloc, values)?;
    Ok(Draft { name, relations })
}

/// Whether each relation that a rule names is declared.
#[cycle(reads_declared)]
pub(crate) fn reads_declared(rewrite: &Rewrite, relations: &Names<Relation>) -> bool
    ensures { result ≡ list_all (λ q. list_any (λ e. bytes_eq q e.name) (show_relations relations.now.entries))
        (form.own_relations (expression_of rewrite.now)) }
{
    match rewrite {
        Rewrite::This => true,
        Rewrite::Computed(relation) => is_declared(relation.as_str(), relations),
        Rewrite::TupleTo { tupleset, .. } => is_declared(tupleset.as_str(), relations),
        Rewrite::Union(children) | Rewrite::Inter(children) => all_read_declared(
            children, relations,
        ),
        Rewrite::Minus(base, subtract) => {
            reads_declared(base, relations) && reads_declared(subtract, relations)
        }
    }
}

#[cycle(reads_declared)]
#[tactic(auto, using(crate::proofs::Walks::children_step))]
fn all_read_declared(children: &Vec<Rewrite>, relations: &Names<Relation>) -> bool
    ensures { result ≡ list_all (λ q. list_any (λ e. bytes_eq q e.name) (show_relations relations.now.entries))
        (form.own_relations_all (expressions_of children.now.items)) }
{
    for child in children {
        if !reads_declared(child, relations) {
            return false;
        }
    }
    true
}

fn is_declared(relation: &str, relations: &Names<Relation>) -> bool
    ensures { result ≡ list_any (λ e. bytes_eq relation.now e.name) (show_relations relations.now.entries) }
{
    relations.contains(relation)
}
