//! What of a search a goal leans on.

use crate::fault::ConeFault;
use crate::nodes::{Link, Node, Rule, State};
use crate::premises::told;
use crate::search::Search;
use rewrites::Rewrite;
use std::alloc::{AllocError, Global};
use std::collections::BTreeMap;
use tuple_text::{Fact, SetRef};

/// A fact that holds, by what was settled before; or some that do not, by that and by one another.
#[derive(Drop)]
pub enum Settled {
    Holds(Fact),
    Fail(Vec<Fact>),
}

/// The nodes that are needed, and in which order they came.
#[derive(Drop)]
struct Needed {
    is_needed: Vec<bool>,
    todo: Vec<usize>,
}

impl Needed {
    fn add(&mut self, number: usize) -> Result<(), AllocError> {
        if let Some(is_needed) = self.is_needed.get_mut(number) {
            if !*is_needed {
                *is_needed = true;
                self.todo.push(number)?;
            }
        }
        Ok(())
    }

    fn has(&self, number: usize) -> bool {
        self.is_needed.get(number).copied() == Some(true)
    }
}

impl<'s, 't> Search<'s, 't> {
    /// Facts in the order in which they can be settled, the goal last, unless the search gives up.
    ///
    /// Refusals: OutOfMemory.
    pub fn settle(&mut self, goal: SetRef<'s>) -> Result<Option<Vec<Settled>>, AllocError> {
        match self.settled_for(goal) {
            Ok(settled) => Ok(settled),
            Err(ConeFault::Outgrown) => Ok(None),
            Err(ConeFault::OutOfMemory) => Err(AllocError),
        }
    }

    /// What was settled of that on which a goal leans.
    fn settled_for(&mut self, goal: SetRef<'s>) -> Result<Option<Vec<Settled>>, ConeFault> {
        let Some(goal) = self.settle_set(goal)? else {
            return Ok(None);
        };
        let needed = self.needed(goal)?;
        let mut settled = Vec::new(self.alloc);
        let mut failed = Vec::new(self.alloc);
        let mut moment = 0;
        // each node is settled once
        for number in &self.settled {
            let Some(node) = self.nodes.get(*number) else {
                continue;
            };
            if !node.is_fact || !needed.has(*number) {
                continue;
            }
            if node.moment != moment && !failed.is_empty() {
                settled.push(Settled::Fail(failed))?;
                failed = Vec::new(self.alloc);
            }
            moment = node.moment;
            let fact = match Fact::of(self.alloc, node.set.set, self.user) {
                Ok(fact) => fact,
                Err(fault) => return Err(told(fault)),
            };
            if node.state == State::Holds {
                settled.push(Settled::Holds(fact))?;
            } else {
                failed.push(fact)?;
            }
        }
        if !failed.is_empty() {
            settled.push(Settled::Fail(failed))?;
        }
        Ok(Some(settled))
    }

    /// The nodes on which one leans, it itself among them.
    fn needed(&mut self, goal: usize) -> Result<Needed, AllocError> {
        let mut needed = Needed {
            is_needed: vec![in self.alloc; false; self.nodes.len()]?,
            todo: Vec::new(self.alloc),
        };
        needed.add(goal)?;
        // each node is added once
        for next in 0..self.nodes.len() {
            let Some(number) = needed.todo.get(next).copied() else {
                break;
            };
            if let Some(node) = self.nodes.get(number) {
                self.lean(node, &mut needed)?;
            }
        }
        Ok(needed)
    }

    fn lean(&mut self, node: Node<'s>, needed: &mut Needed) -> Result<(), AllocError> {
        match node.rule {
            Rule::Few(Rewrite::Inter(_)) if node.state == State::Fails => {
                self.lean_on(node.from.saturating_add(node.turn), needed)
            }
            Rule::Few(Rewrite::Minus(_, _)) if node.state == State::Fails => {
                self.lean_on_exclusion(node, needed)
            }
            Rule::Many(wide) => {
                let rules = self.snapshot.timeline.rules();
                self.wide.find_leaning(rules, wide, node.stage)?;
                self.lean_on_groups(node, wide, needed)
            }
            _ => {
                match node.by {
                    Some(read) => needed.add(read),
                    None => self.lean_on_each(node, needed),
                }
            }
        }
    }

    /// On what a link is of.
    fn lean_on(&self, link: usize, needed: &mut Needed) -> Result<(), AllocError> {
        match self.nodes.read_by(link) {
            Some((read, _)) => needed.add(read),
            None => Ok(()),
        }
    }

    fn lean_on_each(&self, node: Node<'s>, needed: &mut Needed) -> Result<(), AllocError> {
        for link in node.from..node.to {
            self.lean_on(link, needed)?;
        }
        Ok(())
    }

    /// One that fails leans on what it subtracts, where that held before, and else on its base.
    fn lean_on_exclusion(&self, node: Node<'s>, needed: &mut Needed) -> Result<(), AllocError> {
        let subtract = node.from.saturating_add(1);
        match self.nodes.link(subtract) {
            Some(link) if self.opening(link, node.moment).is_some() => needed.add(link.read()),
            _ => self.lean_on(node.from, needed),
        }
    }

    /// When what is read by a link opened, before a moment.
    fn opening(&self, link: Link, moment: usize) -> Option<usize> {
        let node = self.nodes.get(link.read())?;
        if node.state == State::Holds && node.moment < moment {
            Some(node.moment)
        } else {
            None
        }
    }

    /// When each group that is open for a node opened, by its number.
    fn openings(&self, node: Node<'s>) -> Result<BTreeMap<usize, usize>, AllocError> {
        let mut first = BTreeMap::new(self.alloc);
        for number in node.from..node.to {
            if let Some(link) = self.nodes.link(number) {
                if let Some(opening) = self.opening(link, node.moment) {
                    let least = first.get(&link.part()).copied().unwrap_or(opening);
                    let _ = first.insert(link.part(), least.min(opening))?;
                }
            }
        }
        Ok(first)
    }

    /// By the groups on which its rule leans: of one that is open on what opened it, and of one that is shut on all
    /// that is read so.
    fn lean_on_groups(
        &self,
        node: Node<'s>,
        wide: usize,
        needed: &mut Needed,
    ) -> Result<(), AllocError> {
        let groups = self.wide.leaning(wide, node.stage);
        let first = self.openings(node)?;
        for number in node.from..node.to {
            if let Some(link) = self.nodes.link(number) {
                if groups.binary_search(&link.part()).is_ok()
                    && first.get(&link.part()).copied() == self.opening(link, node.moment)
                {
                    needed.add(link.read())?;
                }
            }
        }
        Ok(())
    }
}
