//! The rules of many places that were asked for, and what was found of them, from goal to goal.

use crate::groups::{Groups, Read, Reading, reading_at};
use crate::leaves::{ReadPart, leaves_at};
use crate::through::{declared_at, may_declare};
use crate::wide::{Tupleset, WideRule};
use namespaces::{PlainRule, RulePlace, Rules};
use rewrites::{Part, PartedRule, Rewrite, Through};
use std::alloc::{AllocError, Global};
use std::collections::BTreeMap;
use tuple_text::SetRef;

/// How many stages are kept from goal to goal. So many take some tens of megabytes.
const MOST_STAGES: usize = 1 << 18;

/// How many groups are kept on which rules lean.
const MOST_LEANING: usize = 1 << 20;

/// A relation that is read through a tupleset, and the group that opens by it.
#[derive(Clone, Copy, Drop)]
pub(crate) struct Named<'t> {
    pub(crate) relation: &'t str,
    pub(crate) group: usize,
}

/// The rules of many places that were asked for, from goal to goal: they are to be asked over the same rules, which are
/// lent at each call. The stages of one goal are no more than what it reads.
#[derive(Drop)]
pub struct WideRules {
    alloc: Global,
    rules: Vec<WideRule>,
    // by their places
    numbers: BTreeMap<(usize, usize), usize>,
    // how many stages the rules have at most
    stages: usize,
    // by a rule and a stage the groups on which it leans, and how many these are, with one more for each stage
    leaning: BTreeMap<(usize, usize), Vec<usize>>,
    leaned: usize,
}

/// What is read first through each tupleset of some leaves.
fn tuplesets_of(
    alloc: Global,
    groups: &Groups,
    rule: &PartedRule,
    leaves: &[ReadPart],
) -> Result<Vec<Tupleset>, AllocError> {
    let mut tuplesets = Vec::new(alloc);
    for part in 0..leaves.len() {
        if let Part::Through(through) = &leaves[part].part {
            if let Some(first) = first_read(groups, rule, through) {
                tuplesets.push(Tupleset { part, first })?;
            }
        }
    }
    Ok(tuplesets)
}

/// What a rule reads first through a tupleset.
fn first_read(groups: &Groups, rule: &PartedRule, through: &Through) -> Option<Read> {
    let reading = Reading {
        tupleset: through.tupleset.as_str(),
        relation: through.name(0)?,
    };
    groups.read_as(&rule.parts, reading)
}

/// The parts of a rule.
fn parted<'t>(rules: &'t Rules, wide: &WideRule) -> Option<&'t PartedRule> {
    rules.plain_in(wide.place)?.parted.as_ref()
}

impl WideRules {
    pub fn new(alloc: Global) -> WideRules {
        WideRules {
            alloc,
            rules: Vec::new(alloc),
            numbers: BTreeMap::new(alloc),
            stages: 0,
            leaning: BTreeMap::new(alloc),
            leaned: 0,
        }
    }

    /// Forgets what was found, where that is much. No fact may have come to a stage of it.
    pub(crate) fn make_room(&mut self) {
        if self.stages <= MOST_STAGES {
            return;
        }
        for rule in &mut self.rules {
            rule.forget_stages();
        }
        self.stages = 0;
        self.forget_leaning();
    }

    fn forget_leaning(&mut self) {
        self.leaning.clear();
        self.leaned = 0;
    }

    /// The number of the rule at a place, which is added where it was not yet.
    pub(crate) fn number(
        &mut self,
        rules: &Rules,
        place: RulePlace,
        plain: &PlainRule,
        rule: &PartedRule,
    ) -> Result<usize, AllocError> {
        let key = (place.line, place.relation);
        if let Some(number) = self.numbers.get(&key).copied() {
            return Ok(number);
        }
        let leaves = leaves_at(self.alloc, rules, place)?;
        let mut wide = WideRule::of(self.alloc, place, plain, rule, leaves)?;
        wide.tuplesets = tuplesets_of(self.alloc, &wide.groups, rule, &wide.leaves)?;
        let number = self.rules.len();
        self.rules.push(wide)?;
        let _ = self.numbers.insert(key, number)?;
        Ok(number)
    }

    pub(crate) fn get(&self, number: usize) -> Option<&WideRule> {
        self.rules.get(number)
    }

    /// How many leaves of the object itself a rule reads.
    pub(crate) fn count_own(&self, number: usize) -> usize {
        match self.rules.get(number) {
            Some(wide) => wide.groups.own().len(),
            None => 0,
        }
    }

    /// Through how many tuplesets a rule reads.
    pub(crate) fn count_tuplesets(&self, number: usize) -> usize {
        match self.rules.get(number) {
            Some(wide) => wide.tuplesets.len(),
            None => 0,
        }
    }

    /// The leaf of the object itself that a rule reads at a place, and its group.
    pub(crate) fn own<'t>(
        &self,
        rules: &'t Rules,
        number: usize,
        place: usize,
    ) -> Option<(&'t Rewrite, usize)> {
        let wide = self.rules.get(number)?;
        let rule = parted(rules, wide)?;
        let read = wide.groups.own().get(place).copied()?;
        match rule.parts.get(read.part)? {
            Part::Leaf(leaf) => Some((leaf, read.group)),
            Part::Through(_) => None,
        }
    }

    /// The name of the tupleset at a place, of those through which a rule reads, and what it reads there.
    pub(crate) fn tupleset<'s, 't>(
        &'s self,
        rules: &'t Rules,
        number: usize,
        place: usize,
    ) -> Option<(&'t str, &'s ReadPart)> {
        let wide = self.rules.get(number)?;
        let rule = parted(rules, wide)?;
        let tupleset = wide.tuplesets.get(place).copied()?;
        let reading = reading_at(&rule.parts, tupleset.first)?;
        let part = wide.leaves.get(tupleset.part)?;
        Some((reading.tupleset, part))
    }

    /// What the rule reads as that.
    fn named<'t>(
        &self,
        rules: &'t Rules,
        number: usize,
        reading: Reading<'_>,
    ) -> Option<Named<'t>> {
        let wide = self.rules.get(number)?;
        let rule = parted(rules, wide)?;
        let read = wide.groups.read_as(&rule.parts, reading)?;
        Some(Named {
            relation: reading_at(&rule.parts, read)?.relation,
            group: read.group,
        })
    }

    /// The relations that a rule reads through a tupleset and that a namespace declares at a timestamp, from the
    /// shorter of both lists.
    pub(crate) fn names_read<'t>(
        &self,
        rules: &'t Rules,
        number: usize,
        place: usize,
        namespace: &str,
        at: u64,
    ) -> Result<Vec<Named<'t>>, AllocError> {
        let mut names = Vec::new(self.alloc);
        let Some((tupleset, part)) = self.tupleset(rules, number, place) else {
            return Ok(names);
        };
        let Part::Through(through) = &part.part else {
            return Ok(names);
        };
        if !may_declare(rules, namespace, part.declaring) {
            return Ok(names);
        }
        let declared = rules.count_in_force(namespace, at);
        let is_short = through.computed.len() < declared;
        let count = if is_short {
            through.computed.len()
        } else {
            declared
        };
        for k in 0..count {
            let relation = if is_short {
                declared_at(rules, through, namespace, at, k)
            } else {
                rules.name_in_force(namespace, at, k)
            };
            let Some(relation) = relation else {
                continue;
            };
            let reading = Reading { tupleset, relation };
            if let Some(named) = self.named(rules, number, reading) {
                names.push(named)?;
            }
        }
        Ok(names)
    }

    /// The stage that is reached as a group of parts opens.
    pub(crate) fn behind(
        &mut self,
        number: usize,
        stage: usize,
        group: usize,
    ) -> Result<usize, AllocError> {
        let Some(rule) = self.rules.get_mut(number) else {
            return Ok(stage);
        };
        if let Some(next) = rule.known_behind(stage, group) {
            return Ok(next);
        }
        self.stages = self.stages.saturating_add(1);
        rule.find_behind(stage, group)
    }

    pub(crate) fn opens(&mut self, rules: &Rules, number: usize, stage: usize) -> bool {
        let Some(wide) = self.rules.get_mut(number) else {
            return false;
        };
        if let Some(is_open) = wide.known_open(stage) {
            return is_open;
        }
        match parted(rules, wide) {
            Some(rule) => wide.opens(rule, stage),
            None => false,
        }
    }

    /// Finds on which groups a rule leans, for [`WideRules::leaning`]. Where that gets too much, what was found before
    /// is forgotten.
    pub(crate) fn find_leaning(
        &mut self,
        rules: &Rules,
        number: usize,
        stage: usize,
    ) -> Result<(), AllocError> {
        if self.leaning.contains_key(&(number, stage)) {
            return Ok(());
        }
        let Some(wide) = self.rules.get_mut(number) else {
            return Ok(());
        };
        let Some(rule) = parted(rules, wide) else {
            return Ok(());
        };
        let groups = wide.leaning(self.alloc, rule, stage)?;
        let more = groups.len().saturating_add(1);
        if self.leaned.saturating_add(more) > MOST_LEANING {
            self.forget_leaning();
        }
        self.leaned = self.leaned.saturating_add(more);
        let _ = self.leaning.insert((number, stage), groups)?;
        Ok(())
    }

    /// On which groups the rule leans, rising, as far as that is kept.
    pub(crate) fn leaning(&self, number: usize, stage: usize) -> &[usize] {
        match self.leaning.get(&(number, stage)) {
            Some(groups) => groups,
            None => &[],
        }
    }
}
