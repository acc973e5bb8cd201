//! Rules of many places: what they read, which groups of their parts open them, and on which they lean.
//!
//! Facts of one rule are alike where the same groups opened for them one after the other: what was found for one holds
//! for the others. So a rule is walked over once for each way in which its groups opened, and not once for each fact.

use crate::groups::{Groups, Read};
use crate::leaves::ReadPart;
use crate::walks::{gives_stored, has_exclusions, lean, opens};
use namespaces::{PlainRule, RulePlace};
use rewrites::PartedRule;
use std::alloc::{AllocError, Global};
use std::collections::BTreeMap;

/// A group opens at a stage.
#[derive(Clone, Copy, Drop)]
struct Opened {
    stage: usize,
    group: usize,
}

/// Some groups of a rule's parts that opened one after the other: how many, the last one, and the stage before it.
#[derive(Clone, Copy, Drop)]
struct Stage {
    count: usize,
    last: Option<Opened>,
    // whether the rule is open, once that was asked
    is_open: Option<bool>,
}

/// A tupleset through which a rule reads: its part among the leaves, and what is read there first.
#[derive(Clone, Copy, Drop)]
pub(crate) struct Tupleset {
    pub(crate) part: usize,
    pub(crate) first: Read,
}

/// A rule of many places, with the stages that facts of it have come to.
#[derive(Drop)]
pub(crate) struct WideRule {
    pub(crate) place: RulePlace,
    pub(crate) groups: Groups,
    pub(crate) leaves: Vec<ReadPart>,
    pub(crate) tuplesets: Vec<Tupleset>,
    pub(crate) gives_stored: bool,
    pub(crate) has_exclusions: bool,
    stages: Vec<Stage>,
    // by a stage and a group, the stage behind it
    behind: BTreeMap<(usize, usize), usize>,
    // while the rule is walked over, as which the parts and the groups opened, counted from 1; else, and where one is
    // shut, 0
    open: Vec<usize>,
    open_groups: Vec<usize>,
}

fn is_set(flags: &[bool], at: usize) -> bool {
    flags.get(at).copied() == Some(true)
}

fn set_number(numbers: &mut [usize], at: usize, number: usize) {
    if let Some(found) = numbers.get_mut(at) {
        *found = number;
    }
}

/// No part is open.
fn first_stage() -> Stage {
    Stage {
        count: 0,
        last: None,
        is_open: None,
    }
}

impl WideRule {
    pub(crate) fn of(
        alloc: Global,
        place: RulePlace,
        plain: &PlainRule,
        rule: &PartedRule,
        leaves: Vec<ReadPart>,
    ) -> Result<WideRule, AllocError> {
        let mut stages = Vec::new(alloc);
        stages.push(first_stage())?;
        let open = vec![in alloc; 0usize; rule.parts.len()]?;
        let groups = Groups::of(alloc, &rule.parts)?;
        let open_groups = vec![in alloc; 0usize; groups.len().saturating_add(1)]?;
        Ok(WideRule {
            place,
            groups,
            leaves,
            tuplesets: Vec::new(alloc),
            gives_stored: gives_stored(&plain.rewrite),
            has_exclusions: has_exclusions(&rule.top),
            stages,
            behind: BTreeMap::new(alloc),
            open,
            open_groups,
        })
    }

    /// From now on there are no stages but the first.
    pub(crate) fn forget_stages(&mut self) {
        self.stages.truncate(1);
        self.behind.clear();
    }

    /// The group that opened last at a stage, and the stage before it.
    fn last_of(&self, stage: usize) -> Option<Opened> {
        self.stages.get(stage)?.last
    }

    /// How many groups are open at a stage.
    fn count_at(&self, stage: usize) -> usize {
        match self.stages.get(stage) {
            Some(found) => found.count,
            None => 0,
        }
    }

    /// Whether the group is open at the stage. A stage has each group once, so it is behind no more stages than the
    /// rule has groups.
    fn has(&self, stage: usize, group: usize) -> bool {
        let mut stage = stage;
        for _ in 0..self.stages.len() {
            let Some(last) = self.last_of(stage) else {
                return false;
            };
            if last.group == group {
                return true;
            }
            stage = last.stage;
        }
        false
    }

    /// The stage behind a stage where a group opens, if that was found.
    pub(crate) fn known_behind(&self, stage: usize, group: usize) -> Option<usize> {
        self.behind.get(&(stage, group)).copied()
    }

    /// Finds the stage behind a stage where a group opens.
    pub(crate) fn find_behind(&mut self, stage: usize, group: usize) -> Result<usize, AllocError> {
        let mut next = stage;
        if !self.has(stage, group) {
            next = self.stages.len();
            let count = self.count_at(stage).saturating_add(1);
            self.stages.push(Stage {
                count,
                last: Some(Opened { stage, group }),
                is_open: None,
            })?;
        }
        let _ = self.behind.insert((stage, group), next)?;
        Ok(next)
    }

    /// From now on the groups of a stage are open as they opened, or shut. A part of some of them is as the one that
    /// opened first, which comes last here. It takes no more steps than a walk over the rule.
    fn set_groups(&mut self, stage: usize, to_open: bool) {
        let mut stage = stage;
        for _ in 0..self.stages.len() {
            let Some(last) = self.last_of(stage) else {
                return;
            };
            let opening = if to_open { self.count_at(stage) } else { 0 };
            self.set_group(last.group, opening);
            stage = last.stage;
        }
    }

    fn set_group(&mut self, group: usize, opening: usize) {
        set_number(&mut self.open_groups, group, opening);
        let mut rest = group;
        for _ in 0..self.groups.len() {
            let Some(found) = self.groups.get(rest) else {
                return;
            };
            set_number(&mut self.open, found.part, opening);
            rest = found.others;
        }
    }

    /// Whether the rule is open at a stage, where that was asked.
    pub(crate) fn known_open(&self, stage: usize) -> Option<bool> {
        self.stages.get(stage)?.is_open
    }

    /// Whether the rule, which has these parts, is open at a stage.
    pub(crate) fn opens(&mut self, rule: &PartedRule, stage: usize) -> bool {
        if let Some(is_open) = self.known_open(stage) {
            return is_open;
        }
        self.set_groups(stage, true);
        let is_open = opens(&rule.top, &self.open);
        self.set_groups(stage, false);
        if let Some(found) = self.stages.get_mut(stage) {
            found.is_open = Some(is_open);
        }
        is_open
    }

    /// Whether one of the parts that are leaned on opened with the group, or is shut, as the group is.
    fn is_leaned_on(&self, group: usize, kept: &[bool]) -> bool {
        let opening = self.open_groups.get(group).copied();
        let mut rest = group;
        for _ in 0..self.groups.len() {
            let Some(found) = self.groups.get(rest) else {
                return false;
            };
            if is_set(kept, found.part) && self.open.get(found.part).copied() == opening {
                return true;
            }
            rest = found.others;
        }
        false
    }

    fn groups_of(&self, alloc: Global, kept: &[bool]) -> Result<Vec<usize>, AllocError> {
        let mut groups = Vec::new(alloc);
        for group in self.groups.of_reads() {
            if self.is_leaned_on(*group, kept) {
                groups.push(*group)?;
            }
        }
        Ok(groups)
    }

    /// The groups on which the rule leans at a stage, rising: where it is open, on those that opened it, and else on
    /// enough of those that keep it shut.
    pub(crate) fn leaning(
        &mut self,
        alloc: Global,
        rule: &PartedRule,
        stage: usize,
    ) -> Result<Vec<usize>, AllocError> {
        let mut kept = vec![in alloc; false; rule.parts.len()]?;
        let is_open = self.opens(rule, stage);
        self.set_groups(stage, true);
        lean(&rule.top, is_open, &self.open, &mut kept);
        let groups = self.groups_of(alloc, &kept);
        self.set_groups(stage, false);
        groups
    }
}
