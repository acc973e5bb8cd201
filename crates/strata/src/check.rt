//! The first broken edge of rules and of tuples.

ghost use Rattle.std.specs.Prelude.{◌≡◌, ◌∷◌, ◌++◌, [], List, ℕ, Ok, false};
ghost use Rattle.strata.specs.Edges as edges;
ghost use Rattle.namespaces.specs.Declaration.{Declaration};
ghost use Rattle.namespaces.specs.WellFormed.{IsWellFormed};
ghost use Rattle.strata.specs.Changes.{IsDeclaredAgain};
ghost use Rattle.strata.specs.Edges.{HasNoneThrough, first_broken, last_edges, last_edges_of_namespace, last_relation_edges, last_userset_edges, read_through, rule_edges, tuple_edges};
ghost use Rattle.strata.specs.Sights.{reads};
ghost use Rattle.tuple_text.specs.Refs.{set_value};
ghost use Rattle.tuple_text.specs.Sets.{SetValue};

use crate::edge::Edge;
use crate::walk::{Sight, check_relation, check_rewrite, reads_tupleset};
use namespaces::{RelNo, Rules};
use tuple_text::{SetRef, Tuple, UserRef};

/// The first broken edge of the namespace that has this number.
fn check_namespace(rules: &Rules, namespace: u16, sight: Sight<'_>) -> Result<(), Edge>
    ensures { result ≡ first_broken rules.now (edges.namespace_edges rules.now (reads sight.entry) namespace) }
{
    let mut number = RelNo {
        namespace,
        relation: 1,
    };
    while rules.relation(number).is_some() {
        check_relation(rules, number, sight)?;
        number.relation += 1;
    }
    Ok(())
}

/// Looks at the edges of every rule ever declared: namespace by namespace, relation by relation, a relation's rules
/// by time, and the places of a rule in pre-order.
///
/// An edge leads from a relation to another that its rule reads (Zanzibar, section 2.3.2). It is broken where the
/// other's stratum is above the relation's own, or, under a subtracted side, not below it. Answers the first that is
/// broken.
pub fn check_rules(rules: &Rules) -> Result<(), Edge>
    ensures { result ≡ first_broken rules.now (rule_edges rules.now) }
{
    let mut number = 1;
    while let Some(namespace) = rules.namespace(number) {
        check_namespace(rules, number, Sight::Rule(namespace))?;
        number += 1;
    }
    Ok(())
}

/// The first broken edge of the rules that the last declaration gives the namespace with this number.
fn check_last_rules(rules: &Rules, namespace: u16, sight: Sight<'_>) -> Result<(), Edge>
    ensures edges { result ≡ first_broken rules.now (last_edges rules.now (reads sight.entry) namespace) }
    ensures well_formed { IsWellFormed rules.now }
{
    let mut number = RelNo {
        namespace,
        relation: 1,
    };
    while let Some(rewrite) = rules.last_rule(number) {
        check_rewrite(rules, number, sight, rewrite, false)?;
        number.relation += 1;
    }
    Ok(())
}

/// Looks at the edges of the rules of this namespace's last declaration alone, in the order of [`check_rules`]. A
/// namespace that is not declared has none.
///
/// Where that is the last declaration of all, and the rules before it had no broken edge, the answer is that of
/// [`check_rules`]: a rule that was declared before reads relations that later declarations keep with their strata,
/// so none of its edges has changed.
pub fn check_declared(rules: &Rules, namespace: &str) -> Result<(), Edge>
    ensures exact { result ≡ first_broken rules.now (last_edges_of_namespace rules.now namespace.now) }
    ensures first { (ds : List Declaration) (d : Declaration) → rules.now ≡ ds ++ d ∷ [] → d.name ≡ namespace.now
        → first_broken ds (rule_edges ds) ≡ Ok (tt {0}) → result ≡ first_broken rules.now (rule_edges rules.now) }
{
    match rules.namespace_number(namespace) {
        Some(number) => check_last_rules(rules, number, Sight::Rule(namespace)),
        None => Ok(()),
    }
}

/// Looks at the edges of a tuple with every rule ever declared.
///
/// Where the tuple's user is a userset, each `this` in a rule of the tuple's relation reads it; and each `tuple_to`
/// of the tuple's namespace that reads the tuple's relation reads the userset's object under its computed relation.
/// Those of `this` come first, then those of `tuple_to` relation by relation, both by time and in pre-order. Answers
/// the first that is broken.
pub fn check_tuple(rules: &Rules, tuple: &Tuple) -> Result<(), Edge>
    ensures { result ≡ first_broken rules.now (tuple_edges rules.now tuple.now) }
{
    let UserRef::Set(user) = tuple.user() else {
        return Ok(());
    };
    check_user(rules, tuple.set(), user)
}

#[tactic(auto, using(crate::proofs::Walks::edges_joined))]
fn check_user(rules: &Rules, set: SetRef<'_>, user: SetRef<'_>) -> Result<(), Edge>
    ensures { result ≡ first_broken rules.now (edges.userset_edges rules.now (set_value set.entry) (set_value user.entry)) }
{
    if let Some(number) = rules.number(set) {
        check_relation(rules, number, Sight::Userset(user))?;
    }
    if let Some(namespace) = rules.namespace_number(set.namespace) {
        check_namespace(rules, namespace, Sight::Through(set.relation, user))?;
    }
    Ok(())
}

/// Whether a rule of the last declaration of the namespace with this number reads a tupleset.
fn last_rules_read(rules: &Rules, namespace: u16) -> bool
    ensures { result ≡ false → (r : List ℕ) (g : SetValue)
        → first_broken rules.now (last_edges rules.now (read_through r g) namespace) ≡ Ok (tt {0}) }
{
    let mut number = RelNo {
        namespace,
        relation: 1,
    };
    while let Some(rewrite) = rules.last_rule(number) {
        if reads_tupleset(rewrite) {
            return true;
        }
        number.relation += 1;
    }
    false
}

/// Whether a rule of this namespace's last declaration reads a tupleset. Where none does, [`check_tuple_by`] need not
/// look for one.
pub fn reads_tuplesets(rules: &Rules, namespace: &str) -> bool
    ensures { result ≡ false → HasNoneThrough rules.now namespace.now }
{
    match rules.namespace_number(namespace) {
        Some(number) => last_rules_read(rules, number),
        None => false,
    }
}

/// The first broken edge that the rules of the last declaration of the set's namespace give, where some of them may
/// read a tupleset or none does.
#[tactic(auto, using(crate::proofs::Walks::edges_joined))]
fn check_user_last(
    rules: &Rules,
    set: SetRef<'_>,
    user: SetRef<'_>,
    through: bool,
) -> Result<(), Edge>
    requires { through ≡ false → HasNoneThrough rules.now set.namespace.now }
    ensures edges { result
        ≡ first_broken rules.now (last_userset_edges rules.now (set_value set.entry) (set_value user.entry)) }
{
    if let Some(number) = rules.number(set) {
        check_last_rule(rules, number, Sight::Userset(user))?;
    }
    if !through {
        return Ok(());
    }
    if let Some(namespace) = rules.namespace_number(set.namespace) {
        check_last_rules(rules, namespace, Sight::Through(set.relation, user))?;
    }
    Ok(())
}

/// The first broken edge of the last rule of a relation.
fn check_last_rule(rules: &Rules, reader: RelNo, sight: Sight<'_>) -> Result<(), Edge>
    ensures { result ≡ first_broken rules.now (last_relation_edges rules.now (reads sight.entry) reader) }
{
    match rules.last_rule(reader) {
        Some(rewrite) => check_rewrite(rules, reader, sight, rewrite, false),
        None => Ok(()),
    }
}

/// Looks at the edges of a tuple that the last declaration of all, one of this namespace, may have broken: those of
/// its rules, where the tuple is of that namespace; and all of the tuple's, where the declaration made a relation
/// more, and the tuple's user is a userset of that namespace.
///
/// Where the tuple had no broken edge before that declaration, the answer is that of [`check_tuple`].
pub fn check_tuple_again(
    rules: &Rules,
    tuple: &Tuple,
    namespace: &str,
    has_more: bool,
) -> Result<(), Edge>
    requires { IsWellFormed rules.now }
    ensures { (before : List Declaration) → IsDeclaredAgain before rules.now namespace.now has_more
        → first_broken before (tuple_edges before tuple.now) ≡ Ok (tt {0})
        → result ≡ first_broken rules.now (tuple_edges rules.now tuple.now) }
{
    check_tuple_by(rules, tuple, namespace, has_more, true)
}

/// Does what [`check_tuple_again`] does. Where `through` is false, the namespace's rules are not searched for those
/// that read a tupleset.
pub fn check_tuple_by(
    rules: &Rules,
    tuple: &Tuple,
    namespace: &str,
    has_more: bool,
    through: bool,
) -> Result<(), Edge>
    requires well_formed { IsWellFormed rules.now }
    requires through { through ≡ false → HasNoneThrough rules.now namespace.now }
    ensures { (before : List Declaration) → IsDeclaredAgain before rules.now namespace.now has_more
        → first_broken before (tuple_edges before tuple.now) ≡ Ok (tt {0})
        → result ≡ first_broken rules.now (tuple_edges rules.now tuple.now) }
{
    let UserRef::Set(user) = tuple.user() else {
        return Ok(());
    };
    let set = tuple.set();
    if has_more && user.namespace == namespace {
        return check_user(rules, set, user);
    }
    if set.namespace == namespace {
        return check_user_last(rules, set, user, through);
    }
    Ok(())
}
