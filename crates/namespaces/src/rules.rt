//! The declared namespaces, by name, by number and at a timestamp.
ghost use Rattle.std.specs.Prelude.{◌≡◌, ℕ, List, None, Some, Contains, ◌<◌, ◌≤◌, [], ◌∷◌, ◌++◌, length, option_map, option_and_then, slice_get, map, string_bytes, IfSome, IfOk, OnOk, OnErr, IfErr};
ghost use Rattle.tuple_text.specs.Refs.{set_value};
ghost use Rattle.namespaces.specs.Declaration.{declared};
ghost use Rattle.namespaces.specs.Declaring.{AreDeclarers};
ghost use Rattle.namespaces.specs.InForce.{IsDeclaredFrom, names_in_force};
ghost use Rattle.rewrites.specs.Leaves.{AreLeavesOf};
ghost use Rattle.namespaces.specs.Lookup.{expression_in, rule_of, rule_at, relation_of, relation_count, relations_of, number_of, place_of, namespace_names, namespace_numbered, relation_numbered, history_numbered, with_name};
ghost use Rattle.rewrites.specs.Plain.{ArePlain};
ghost use Rattle.rewrites.specs.View.{expression_of};
ghost use Rattle.namespaces.specs.WellFormed.{IsWellFormed};

use crate::declaring::{make_places, note_declarers};
use crate::fault::RulesFault;
use crate::index::{Revision, note, revision_at, revision_with};
use crate::number::{MAX_NUMBER, RelNo, RulePlace};
use crate::number_set::Numbers;
use crate::reading::{Draft, read_draft};
use crate::relation::{PlainRule, Relation};
use crate::table::{Namespace, check_declaration, copied_namespace, keeps_names, keeps_strata};
use names::Names;
use rewrites::{Rewrite, leaves_of};
use serde_json::Value;
use std::alloc::{AllocError, Global};
use std::marker::Model;
use tuple_text::SetRef;

/// How many changes may be made.
const MAX_CHANGES: u16 = 4096;

/// The timestamp than which there is no later one.
const LAST_TIMESTAMP: u64 = u64::MAX;

/// A declaration.
#[derive(Drop)]
pub(crate) struct Line {
    at: u64,
    is_change: bool,
    namespace: Namespace,
}

/// The declared namespaces with their rules, which contracts see as the list of their declarations in order.
pub struct Rules {
    // every declaration, in order
    lines: Vec<Line>,
    // each namespace in order of its first declaration, and where its declarations stand
    namespaces: Names<Vec<Revision>>,
    // which namespaces declare a relation, by its name
    declaring: Names<Numbers>,
    // how many of the declarations are changes
    changes: u16,
}

impl Drop for Rules {
    fn drop(self) {
        let Rules {
            lines,
            namespaces,
            declaring,
            changes: _,
        } = self;
        drop(lines);
        drop(namespaces);
        drop(declaring);
    }
}

impl Model for Rules {
    ghost use Rattle.std.specs.Prelude.{List};
    ghost use Rattle.std.specs.Coded.{coded_list};
    ghost use Rattle.namespaces.specs.Declaration.{Declaration};
    ghost use Rattle.namespaces.specs.DeclarationCode.{declaration_code};

    ghost Value = { List Declaration };

    ghost coded = { coded_list declaration_code };

    ghost use Rattle.namespaces.specs.Shown.{show_lines};
    ghost use Rattle.namespaces.specs.Consistent.{AreConsistent};
    ghost use Rattle.namespaces.specs.Declaring.{AreAllDeclarers};

    ghost view = { λ r. show_lines r.lines.items };

    ghost invariant = { λ r. AreConsistent r.lines.items r.namespaces.entries r.changes
        × AreAllDeclarers r.declaring.entries (show_lines r.lines.items) };
}

impl Rules {
    ghost use Rattle.serde_json.specs.View.{view};
    ghost use Rattle.namespaces.specs.Adding as adding;
    ghost use Rattle.namespaces.specs.Adding.{rules_add};
    ghost use Rattle.namespaces.specs.Changing as changing;
    ghost use Rattle.namespaces.specs.Changing.{rules_change, change_answer, IsLater};
    ghost use Rattle.namespaces.specs.Fault.{Gives};
    ghost use Rattle.namespaces.specs.Shown.{show_relation, show_namespace, show_relations};
    ghost use Rattle.namespaces.specs.Index.{revisions_of, relations_at};

    /// No namespaces. Nothing is allocated before the first is declared.
    pub fn new(alloc: Global) -> Rules
        ensures { result ≡ [] }
    {
        Rules {
            lines: Vec::new(alloc),
            namespaces: Names::new(alloc),
            declaring: Names::new(alloc),
            changes: 0,
        }
    }

    /// Declares the namespace that a JSON value describes, in force from 0 (Zanzibar, section 2.3.1). Its `kind` is
    /// not looked at.
    ///
    /// Of the refusals that apply the one with the least number is answered: 1 Shape, 2 Name, 3 RepeatedNamespace, 4
    /// RepeatedRelation, 5 UndeclaredRelation, 6 TooDeep, 7 TooMany. OutOfMemory comes where memory was refused,
    /// whatever else applies. After a refusal the rules hold what they held before.
    pub fn add(&mut self, value: &Value) -> Result<(), RulesFault>
        ensures exact { Gives (λ _. self.new) result (rules_add self.old (view value.now)) }
        ensures unchanged { OnErr result (self.new ≡ self.old) }
        ensures later { (at : ℕ) → IsLater at self.old → IsLater at self.new }
    {
        let alloc = *self.lines.allocator();
        let namespace = self.read_addition(alloc, value)?;
        self.push(alloc, 0, false, namespace)
    }

    /// Declares a new namespace, or gives a declared one a new list of relations, in force from a timestamp on
    /// (Zanzibar, section 3.2.2). What was declared before stays in force for earlier timestamps.
    ///
    /// Of the refusals that apply the one with the least number is answered: those of `add` without
    /// RepeatedNamespace, where the 4,097th change is TooMany, then 9 RelationsChanged (the list does not begin with
    /// the relations declared already, in their order) and 10 StratumChanged. OutOfMemory comes where memory was
    /// refused, whatever else applies. After a refusal the rules hold what they held before.
    pub fn change(&mut self, at: u64, value: &Value) -> Result<(), RulesFault>
        requires { IsLater at self.old }
        ensures exact { Gives (λ _. self.new) result (rules_change self.old at (view value.now)) }
        ensures unchanged { OnErr result (self.new ≡ self.old) }
        ensures later { (next : ℕ) → at < next → IsLater next self.new }
    {
        let alloc = *self.lines.allocator();
        let namespace = self.read_change(alloc, value)?;
        self.push(alloc, at, true, namespace)
    }

    /// Whether `change` would accept a value, or which refusal it would answer. Memory may be refused here and not
    /// there.
    pub fn try_change(&self, value: &Value) -> Result<(), RulesFault>
        ensures { Gives (λ u. u) result (change_answer self.now (view value.now)) }
    {
        let alloc = *self.lines.allocator();
        let _ = self.read_change(alloc, value)?;
        Ok(())
    }

    /// The rules as they would be if `change` took a value after all others, to be looked at before it is taken. They
    /// are a copy, so this is for once in a while.
    ///
    /// Refusals are those of `change`. Memory may be refused here and not there.
    pub fn with_change(&self, value: &Value) -> Result<Rules, RulesFault>
        ensures { Gives (λ rules. rules) result (rules_change self.now LAST_TIMESTAMP (view value.now)) }
    {
        let alloc = *self.lines.allocator();
        let namespace = self.read_change(alloc, value)?;
        let mut rules = self.copy(alloc)?;
        rules.push(alloc, LAST_TIMESTAMP, true, namespace)?;
        Ok(rules)
    }

    /// The rule of a relation that is in force at a timestamp: that of the last declaration of its namespace by then
    /// (Zanzibar, section 3.2.2). `None` where the relation is not declared by then. The object id of the userset is
    /// not looked at.
    pub fn body(&self, set: SetRef<'_>, at: u64) -> Option<&Rewrite>
        ensures { option_map (λ r. expression_of r.now) result
            ≡ option_map (λ r. r.expression) (rule_of (rule_at self.now at) (set_value set.entry)) }
    {
        let relation = self.declared_at(set, at)?;
        Some(&relation.rewrite)
    }

    /// Where the rule stands that `body` gives, or `None` where it gives none. A place is that of one rule for good.
    pub fn body_place(&self, set: SetRef<'_>, at: u64) -> Option<RulePlace>
        ensures { option_and_then (λ p. expression_in p self.now) result
            ≡ option_map (λ r. r.expression) (rule_of (rule_at self.now at) (set_value set.entry)) }
    {
        let revision = self.revision_in_force(set.namespace, at)?;
        let relation = self.relations_in(revision.line)?.place(set.relation)?;
        Some(RulePlace {
            line: revision.line,
            relation,
        })
    }

    /// A plain form of the rule that stands at a place: it gives and rules out what that rule does, whatever its
    /// leaves do, and it has the leaves of that rule, none at more places. Where it has many places, its parts stand
    /// beside it. `None` where no rule stands there.
    pub fn plain_in(&self, place: RulePlace) -> Option<&PlainRule>
        ensures { ArePlain (option_map (λ r. expression_of r.now.rewrite) result) (expression_in place self.now) }
    {
        let (_, relation) = self.relation_in(place)?;
        Some(&relation.plain)
    }

    /// The leaves of the rule that stands at a place, each once: what it computes, what it reads through a tupleset,
    /// and `this`. None where no rule stands there.
    ///
    /// Refusals: OutOfMemory.
    pub fn leaves_in(&self, alloc: Global, place: RulePlace) -> Result<Vec<Rewrite>, AllocError>
        ensures { IfOk result (λ v. AreLeavesOf (map expression_of v.items) (expression_in place self.now)) }
    {
        match self.plain_in(place) {
            Some(rule) => leaves_of(alloc, &rule.rewrite),
            None => Ok(Vec::new(alloc)),
        }
    }

    /// How many relations a namespace has at a timestamp, by its last declaration in force; 0 where it is not
    /// declared by then.
    pub fn count_in_force(&self, namespace: &str, at: u64) -> usize
        ensures count { result ≡ length (names_in_force at namespace.now self.now) }
        ensures whole { (relation : List ℕ) → ¬ (rule_at self.now at namespace.now relation ≡ None)
            → Contains (names_in_force at namespace.now self.now) relation }
    {
        match self.in_force(namespace, at) {
            Some(relations) => relations.len(),
            None => 0,
        }
    }

    /// The name of relation number `k` of a namespace at a timestamp, counted from 0 in order of declaration, or
    /// `None` where there is none.
    pub fn name_in_force(&self, namespace: &str, at: u64, k: usize) -> Option<&str>
        ensures { option_map (λ s. s.now) result ≡ slice_get (names_in_force at namespace.now self.now) k }
    {
        let (name, _) = self.in_force(namespace, at)?.at(k)?;
        Some(name.as_str())
    }

    /// Rule number `k` of a relation, counted from 0 in order of declaration, or `None` where there is none.
    pub fn rule(&self, number: RelNo, k: usize) -> Option<&Rewrite>
        ensures { option_map (λ r. expression_of r.now) result
            ≡ option_map (λ r. r.expression) (slice_get (history_numbered number self.now) k) }
    {
        let (_, revisions) = self.by_number(number.namespace)?;
        let index = number.relation.checked_sub(1)? as usize;
        let revision = revision_with(revisions.as_slice(), index, k)?;
        let (_, relation) = self.relation_in(RulePlace {
            line: revision.line,
            relation: index,
        })?;
        Some(&relation.rewrite)
    }

    /// How many declarations were made.
    pub fn len(&self) -> usize
        ensures { result ≡ length self.now }
    {
        self.lines.len()
    }

    /// The stratum of a relation, from 0 to 255, or `None` where it is not declared so far. It is the same in each of
    /// its declarations.
    pub fn stratum(&self, set: SetRef<'_>) -> Option<u8>
        ensures { result
            ≡ option_map (λ r. r.stratum) (relation_of set.entry.namespace.now set.entry.relation.now self.now) }
    {
        let relations = self.newest(set.namespace)?;
        let relation = relations.get(set.relation)?;
        Some(relation.stratum)
    }

    /// The number of a relation, or `None` where it is not declared so far.
    pub fn number(&self, set: SetRef<'_>) -> Option<RelNo>
        ensures { result ≡ number_of set.entry.namespace.now set.entry.relation.now self.now }
    {
        let namespace = self.namespace_number(set.namespace)?;
        let relation = self.newest(set.namespace)?.place(set.relation)?;
        Some(RelNo {
            namespace,
            relation: relation as u16 + 1,
        })
    }

    /// How many relations a namespace has by its last declaration, or 0 where it is not declared so far.
    pub fn relation_count(&self, namespace: &str) -> usize
        ensures value { result ≡ relation_count namespace.now self.now }
        ensures well_formed { IsWellFormed self.now }
    {
        match self.newest(namespace) {
            Some(relations) => relations.len(),
            None => 0,
        }
    }

    /// The number of a namespace, counted from 1 in order of first declaration, or `None` where it is not declared so
    /// far.
    pub fn namespace_number(&self, namespace: &str) -> Option<u16>
        ensures { result ≡ place_of namespace.now (namespace_names self.now) }
    {
        let index = self.namespaces.place(namespace)?;
        Some(index as u16 + 1)
    }

    /// The name of the namespace that has this number, or `None` where there is none.
    pub fn namespace(&self, number: u16) -> Option<&str>
        ensures value { option_map (λ s. s.now) result ≡ namespace_numbered number self.now }
        ensures well_formed { IsWellFormed self.now }
    {
        let (name, _) = self.by_number(number)?;
        Some(name)
    }

    /// The name of the relation that has this number, or `None` where there is none.
    pub fn relation(&self, number: RelNo) -> Option<&str>
        ensures value { option_map (λ s. s.now) result ≡ option_map (λ r. r.name) (relation_numbered number self.now) }
        ensures well_formed { IsWellFormed self.now }
    {
        let (name, _) = self.last_by_number(number)?;
        Some(name.as_str())
    }

    /// The rule of the relation that has this number, by the last declaration of its namespace, or `None` where there
    /// is none.
    pub fn last_rule(&self, number: RelNo) -> Option<&Rewrite>
        ensures value { option_map (λ r. expression_of r.now) result
            ≡ option_map (λ r. r.expression) (relation_numbered number self.now) }
        ensures well_formed { IsWellFormed self.now }
    {
        let (_, relation) = self.last_by_number(number)?;
        Some(&relation.rewrite)
    }

    /// The numbers of the namespaces that ever declare a relation of a name. What is declared stays declared.
    pub fn declaring(&self, relation: &str) -> Numbers
        ensures { AreDeclarers result relation.now self.now }
    {
        match self.declaring.get(relation) {
            Some(numbers) => *numbers,
            None => Numbers::none(),
        }
    }

    /// The timestamp from which on a relation is declared, or `None` where it never is. What is declared stays
    /// declared. The object id of the userset is not looked at.
    pub fn declared_from(&self, set: SetRef<'_>) -> Option<u64>
        ensures { IsDeclaredFrom result (set_value set.entry) self.now }
    {
        let index = self.newest(set.namespace)?.place(set.relation)?;
        let revisions = self.namespaces.get(set.namespace)?;
        let first = revision_with(revisions.as_slice(), index, 0)?;
        Some(first.at)
    }

    /// A copy of the rules.
    fn copy(&self, alloc: Global) -> Result<Rules, RulesFault>
        ensures { Gives (λ rules. rules) result (Ok self.now) }
    {
        let mut rules = Rules::new(alloc);
        for line in &self.lines {
            let namespace = copied_namespace(alloc, &line.namespace)?;
            rules.push(alloc, line.at, line.is_change, namespace)?;
        }
        Ok(rules)
    }

    /// The name and the revisions of the namespace that has this number.
    fn by_number(&self, number: u16) -> Option<(&str, &Vec<Revision>)>
        ensures name { option_map (λ p. p.0.now) result ≡ namespace_numbered number self.now }
        ensures revisions { IfSome result (λ p. p.1.now.items ≡ revisions_of p.0.now self.now) }
        ensures well_formed { IsWellFormed self.now }
    {
        let namespaces = &self.namespaces;
        let index = number.checked_sub(1)?;
        let (name, revisions) = namespaces.at(index as usize)?;
        Some((name.as_str(), revisions))
    }

    /// The relation that has this number, by the last declaration of its namespace.
    fn last_by_number(&self, number: RelNo) -> Option<(&String, &Relation)>
        ensures relation { option_map (λ p. show_relation (p.0.now, p.1.now)) result
            ≡ relation_numbered number self.now }
        ensures well_formed { IsWellFormed self.now }
    {
        let (_, revisions) = self.by_number(number.namespace)?;
        let index = number.relation.checked_sub(1)?;
        let newest = revisions.last().copied()?;
        self.relation_in(RulePlace {
            line: newest.line,
            relation: index as usize,
        })
    }

    /// The relation whose rule stands at a place.
    fn relation_in(&self, place: RulePlace) -> Option<(&String, &Relation)>
        ensures { option_map (λ p. show_relation (p.0.now, p.1.now)) result
            ≡ option_and_then (λ rs. slice_get rs place.relation) (option_map (λ d. d.relations) (slice_get self.now place.line)) }
    {
        self.relations_in(place.line)?.at(place.relation)
    }

    /// The relations of the declaration of a number.
    fn relations_in(&self, line: usize) -> Option<&Names<Relation>>
        ensures { option_map (λ m. show_relations m.now.entries) result
            ≡ option_map (λ d. d.relations) (slice_get self.now line) }
    {
        let line = self.lines.get(line)?;
        Some(&line.namespace.relations)
    }

    /// The relations of a namespace by its last declaration.
    fn newest(&self, namespace: &str) -> Option<&Names<Relation>>
        ensures relations { option_map (λ m. show_relations m.now.entries) result
            ≡ relations_of namespace.now self.now }
        ensures limit { IfSome result (λ m. length m.now.entries ≤ 256) }
        ensures well_formed { IsWellFormed self.now }
    {
        let newest = self.namespaces.get(namespace)?.last().copied()?;
        self.relations_in(newest.line)
    }

    /// The last declaration of a namespace that is in force at a timestamp.
    fn revision_in_force(&self, namespace: &str, at: u64) -> Option<Revision>
        ensures relations { option_and_then (λ v. option_map (λ d. d.relations) (slice_get self.now v.line)) result
            ≡ relations_at at namespace.now self.now }
        ensures well_formed { IsWellFormed self.now }
    {
        let revisions = self.namespaces.get(namespace)?;
        revision_at(revisions.as_slice(), at)
    }

    /// The relations of a namespace by the last declaration in force at a timestamp.
    fn in_force(&self, namespace: &str, at: u64) -> Option<&Names<Relation>>
        ensures relations { option_map (λ m. show_relations m.now.entries) result
            ≡ relations_at at namespace.now self.now }
        ensures well_formed { IsWellFormed self.now }
    {
        let revision = self.revision_in_force(namespace, at)?;
        self.relations_in(revision.line)
    }

    /// What is declared of a relation by the last declaration in force at a timestamp.
    fn declared_at(&self, set: SetRef<'_>, at: u64) -> Option<&Relation>
        ensures { option_map (λ r. expression_of r.now.rewrite) result
            ≡ option_map (λ r. r.expression) (rule_of (rule_at self.now at) (set_value set.entry)) }
    {
        let relations = self.in_force(set.namespace, at)?;
        relations.get(set.relation)
    }

    /// The namespace that `add` would declare.
    fn read_addition(&self, alloc: Global, value: &Value) -> Result<Namespace, RulesFault>
        ensures { Gives show_namespace result (adding.added self.now (view value.now)) }
    {
        let draft = read_draft(alloc, value)?;
        let repeated = self.is_declared(draft.name.as_str());
        check_declaration(alloc, draft, repeated, self.is_full())
    }

    /// The namespace that `change` would declare.
    fn read_change(&self, alloc: Global, value: &Value) -> Result<Namespace, RulesFault>
        ensures { Gives show_namespace result (changing.changed self.now (view value.now)) }
    {
        let draft = read_draft(alloc, value)?;
        let full = self.is_full_for(draft.name.as_str());
        let namespace = check_declaration(alloc, draft, false, full)?;
        self.check_kept(&namespace)?;
        Ok(namespace)
    }

    /// Whether the namespace keeps the relations that it had.
    #[tactic(auto, unfolding(crate::specs::Changing::continued))]
    fn check_kept(&self, namespace: &Namespace) -> Result<(), RulesFault>
        ensures { Gives (λ _. show_namespace namespace.now) result
            (changing.continued (relations_of (string_bytes namespace.now.name) self.now) (show_namespace namespace.now)) }
    {
        let Some(old) = self.newest(namespace.name.as_str()) else {
            return Ok(());
        };
        if !keeps_names(old, &namespace.relations) {
            return Err(RulesFault::RelationsChanged);
        }
        if !keeps_strata(old, &namespace.relations) {
            return Err(RulesFault::StratumChanged);
        }
        Ok(())
    }

    /// Whether there is no room for a further namespace.
    fn is_full(&self) -> bool
        ensures { result ≡ adding.is_full self.now }
    {
        self.namespaces.len() >= MAX_NUMBER as usize
    }

    /// Whether there is no room for a change of this namespace.
    fn is_full_for(&self, namespace: &str) -> bool
        ensures { result ≡ changing.is_full_for namespace.now self.now }
    {
        self.changes >= MAX_CHANGES || !self.is_declared(namespace) && self.is_full()
    }

    fn is_declared(&self, namespace: &str) -> bool
        ensures { result ≡ adding.is_declared namespace.now self.now }
    {
        self.namespaces.contains(namespace)
    }

    /// The number of a namespace, or the next one where it is not declared so far.
    fn number_for(&self, namespace: &str) -> u16
        requires { length (with_name (namespace_names self.now) namespace.now) ≤ 256 }
        ensures { place_of namespace.now (with_name (namespace_names self.now) namespace.now) ≡ Some result }
    {
        match self.namespace_number(namespace) {
            Some(number) => number,
            None => self.namespaces.len() as u16 + 1,
        }
    }

    /// Puts a declaration last.
    fn push(
        &mut self,
        alloc: Global,
        at: u64,
        is_change: bool,
        namespace: Namespace,
    ) -> Result<(), RulesFault>
        requires { IsWellFormed (self.old ++ declared at is_change (show_namespace namespace) ∷ []) }
        ensures ok { OnOk result (self.new ≡ self.old ++ declared at is_change (show_namespace namespace) ∷ []) }
        ensures memory { IfErr result (λ e. e ≡ RulesFault.OutOfMemory) }
        ensures unchanged { OnErr result (self.new ≡ self.old) }
    {
        let revision = Revision {
            at,
            relations: namespace.relations.len(),
            line: self.lines.len(),
        };
        let number = self.number_for(namespace.name.as_str());
        let name = namespace.name.clone()?;
        let changes = self.changes + u16::from(is_change);
        self.lines.reserve(1)?;
        make_places(alloc, &mut self.declaring, &namespace.relations)?;
        note(alloc, &mut self.namespaces, name, revision)?;
        note_declarers(&mut self.declaring, &namespace.relations, number);
        self.lines.push_reserved(Line {
            at,
            is_change,
            namespace,
        });
        self.changes = changes;
        Ok(())
    }
}
