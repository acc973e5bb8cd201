//! Tables of relations, and the tests of a namespace that are made on one.
ghost use Rattle.std.specs.Prelude.{◌≡◌, ◌&&◌, not, ◌∷◌, ◌++◌, [], if◌then◌else◌, is_some, false, string_bytes, OnOk};
ghost use Rattle.std.specs.List.{list_any, list_all};
ghost use Rattle.tuple_text.specs.Forms.{is_name};
ghost use Rattle.names.specs.Names.{value_of};
ghost use Rattle.namespaces.specs.Adding as adding;
ghost use Rattle.namespaces.specs.Changing as changing;
ghost use Rattle.namespaces.specs.Drafts.{show_draft};
ghost use Rattle.rewrites.specs.Expression as form;
ghost use Rattle.namespaces.specs.Fault.{Gives};
ghost use Rattle.namespaces.specs.Kept.{keeps_name_at, keeps_stratum_at};
ghost use Rattle.namespaces.specs.Lookup.{relation_names};
ghost use Rattle.namespaces.specs.Shown.{show_relation, show_relations, show_namespace};
ghost use Rattle.rewrites.specs.View.{expression_of};

use crate::fault::RulesFault;
use crate::number::MAX_NUMBER;
use crate::reading::{Draft, reads_declared};
use crate::relation::{Relation, relation_of};
use names::Names;
use rewrites::{Rewrite, copy_of, counts_fit, has_good_names, is_deeper};
use std::alloc::Global;
use tuple_text::is_name;

/// How deep the rule of a relation may nest.
const MAX_DEPTH: u8 = 32;

/// A namespace that passed every test of its own value.
pub(crate) struct Namespace {
    pub(crate) name: String,
    pub(crate) relations: Names<Relation>,
}

impl Drop for Namespace {
    fn drop(self) {
        let Namespace { name, relations } = self;
        drop(name);
        drop(relations);
    }
}

/// The namespace of a draft, or the first fault that applies, where `repeated` says that the namespace may not be
/// declared again, and `full` that there is no room for it.
pub(crate) fn check_declaration(
    alloc: Global,
    draft: Draft,
    repeated: bool,
    full: bool,
) -> Result<Namespace, RulesFault>
    ensures { Gives show_namespace result (adding.tested repeated full (show_draft draft)) }
{
    check_names(&draft, repeated)?;
    let Draft { name, relations } = draft;
    let relations = table_of(alloc, relations)?;
    check_relations(full, &relations)?;
    Ok(Namespace { name, relations })
}

/// Refuses names that are none, and then a namespace that may not be declared again.
fn check_names(draft: &Draft, repeated: bool) -> Result<(), RulesFault>
    ensures { Gives (λ u. u) result
        (if not (is_name (string_bytes draft.now.name) && list_all adding.is_well_named (show_relations draft.now.relations.items))
        then Err RulesFault.Name else (if repeated then Err RulesFault.RepeatedNamespace else Ok (tt {0}))) }
{
    if !is_name(draft.name.as_str()) || !are_well_named(&draft.relations) {
        return Err(RulesFault::Name);
    }
    if repeated {
        return Err(RulesFault::RepeatedNamespace);
    }
    Ok(())
}

/// Refuses relations that read what is not declared, nest too deep or are beyond a limit.
fn check_relations(full: bool, relations: &Names<Relation>) -> Result<(), RulesFault>
    ensures { Gives (λ u. u) result
        (if not (list_all (adding.reads_declared (show_relations relations.now.entries)) (show_relations relations.now.entries))
        then Err RulesFault.UndeclaredRelation
        else (if list_any adding.is_too_deep (show_relations relations.now.entries) then Err RulesFault.TooDeep
        else (if adding.is_over_limits full (show_relations relations.now.entries) then Err RulesFault.TooMany else Ok (tt {0})))) }
{
    if !all_read_declared(relations) {
        return Err(RulesFault::UndeclaredRelation);
    }
    if is_any_too_deep(relations) {
        return Err(RulesFault::TooDeep);
    }
    if is_over_limits(full, relations) {
        return Err(RulesFault::TooMany);
    }
    Ok(())
}

/// A copy of a namespace.
pub(crate) fn copied_namespace(
    alloc: Global,
    namespace: &Namespace,
) -> Result<Namespace, RulesFault>
    requires { adding.has_repeats (relation_names (show_relations namespace.now.relations.entries)) ≡ false }
    ensures { Gives show_namespace result (Ok (show_namespace namespace.now)) }
{
    let name = namespace.name.clone()?;
    let copies = copied_relations(alloc, &namespace.relations)?;
    let relations = table_of(alloc, copies)?;
    Ok(Namespace { name, relations })
}

fn copied_relations(
    alloc: Global,
    relations: &Names<Relation>,
) -> Result<Vec<(String, Relation)>, RulesFault>
    ensures { Gives (λ v. show_relations v.items) result (Ok (show_relations relations.now.entries)) }
{
    let mut copies = Vec::new(alloc);
    for (name, relation) in relations.entries() {
        let copy = copied_relation(alloc, name.as_str(), relation)?;
        copies.push(copy)?;
    }
    Ok(copies)
}

fn copied_relation(
    alloc: Global,
    name: &str,
    relation: &Relation,
) -> Result<(String, Relation), RulesFault>
    ensures { Gives show_relation result
        (Ok (record { name = name.now; stratum = relation.now.stratum; expression = expression_of relation.now.rewrite })) }
{
    let name = String::from_str(alloc, name)?;
    let rewrite = copy_of(alloc, &relation.rewrite)?;
    Ok((name, relation_of(alloc, relation.stratum, rewrite)?))
}

/// Whether each relation has a name that is one, and a rule of such names.
#[tactic(auto, using(crate::proofs::Tables::relations_step))]
fn are_well_named(relations: &Vec<(String, Relation)>) -> bool
    ensures { result ≡ list_all adding.is_well_named (show_relations relations.now.items) }
{
    for (name, relation) in relations {
        if !is_name(name.as_str()) || !has_good_names(&relation.rewrite) {
            return false;
        }
    }
    true
}

/// The relations by name, in order.
fn table_of(
    alloc: Global,
    relations: Vec<(String, Relation)>,
) -> Result<Names<Relation>, RulesFault>
    ensures { Gives (λ m. show_relations m.entries) result
        (if adding.has_repeats (relation_names (show_relations relations.items))
        then Err RulesFault.RepeatedRelation else Ok (show_relations relations.items)) }
{
    let mut table = Names::new(alloc);
    for (name, relation) in relations {
        put_new(&mut table, name, relation)?;
    }
    Ok(table)
}

/// Puts a relation last, if no relation has its name.
fn put_new(table: &mut Names<Relation>, name: String, relation: Relation) -> Result<(), RulesFault>
    ensures refused { Gives (λ u. u) result
        (if is_some (value_of (string_bytes name) table.old.entries) then Err RulesFault.RepeatedRelation else Ok (tt {0})) }
    ensures put { OnOk result (table.new.entries ≡ table.old.entries ++ (name, relation) ∷ []) }
{
    if !table.put(name, relation)? {
        return Err(RulesFault::RepeatedRelation);
    }
    Ok(())
}

/// Whether each rule reads declared relations of its own namespace alone.
fn all_read_declared(relations: &Names<Relation>) -> bool
    ensures { result ≡ list_all (adding.reads_declared (show_relations relations.now.entries))
        (show_relations relations.now.entries) }
{
    for (_, relation) in relations.entries() {
        if !reads_declared(&relation.rewrite, relations) {
            return false;
        }
    }
    true
}

/// Whether some rule nests too deep.
fn is_any_too_deep(relations: &Names<Relation>) -> bool
    ensures { result ≡ list_any adding.is_too_deep (show_relations relations.now.entries) }
{
    for (_, relation) in relations.entries() {
        if is_deeper(&relation.rewrite, MAX_DEPTH) {
            return true;
        }
    }
    false
}

/// Whether each union and each intersection has as many children as it may have.
fn all_counts_fit(relations: &Names<Relation>) -> bool
    ensures { result ≡ list_all (λ r. form.counts_fit r.expression) (show_relations relations.now.entries) }
{
    for (_, relation) in relations.entries() {
        if !counts_fit(&relation.rewrite) {
            return false;
        }
    }
    true
}

/// Whether a count is outside its limit, or `full`.
#[tactic(auto, unfolding(crate::specs::Adding::is_over_limits))]
fn is_over_limits(full: bool, relations: &Names<Relation>) -> bool
    ensures { result ≡ adding.is_over_limits full (show_relations relations.now.entries) }
{
    full || relations.len() > MAX_NUMBER as usize || !all_counts_fit(relations)
}

/// Whether the new relations begin with the names of the old ones.
#[tactic(auto, using(crate::proofs::Kept::names_step))]
pub(crate) fn keeps_names(old: &Names<Relation>, new: &Names<Relation>) -> bool
    ensures { result ≡ changing.keeps_names (show_relations old.now.entries) (show_relations new.now.entries) }
{
    for index in 0..old.len() {
        if !keeps_name(old, new, index) {
            return false;
        }
    }
    true
}

/// Whether the relation at a place keeps its name.
#[tactic(auto, using(crate::proofs::Tables::shown_there))]
fn keeps_name(old: &Names<Relation>, new: &Names<Relation>, index: usize) -> bool
    ensures { result ≡ keeps_name_at (show_relations old.now.entries) (show_relations new.now.entries) index }
{
    match (old.at(index), new.at(index)) {
        (Some((was, _)), Some((is, _))) => was == is,
        _ => false,
    }
}

/// Whether each old relation has the stratum of the new one in its place.
#[tactic(auto, using(crate::proofs::Kept::strata_step))]
pub(crate) fn keeps_strata(old: &Names<Relation>, new: &Names<Relation>) -> bool
    ensures { result ≡ changing.keeps_strata (show_relations old.now.entries) (show_relations new.now.entries) }
{
    for index in 0..old.len() {
        if !keeps_stratum(old, new, index) {
            return false;
        }
    }
    true
}

/// Whether the relation at a place keeps its stratum, where it still is.
#[tactic(auto, using(crate::proofs::Tables::shown_there))]
fn keeps_stratum(old: &Names<Relation>, new: &Names<Relation>, index: usize) -> bool
    ensures { result ≡ keeps_stratum_at (show_relations old.now.entries) (show_relations new.now.entries) index }
{
    match (old.at(index), new.at(index)) {
        (Some((_, was)), Some((_, is))) => was.stratum == is.stratum,
        _ => true,
    }
}
