//! The runs of a search, each of which settles one node.

use crate::nodes::{Nodes, State};
use std::alloc::{AllocError, Global};

/// A run: what it is to settle, and what it asks for in turn.
#[derive(Drop)]
struct Run {
    number: usize,
    root: usize,
    asked: Vec<usize>,
    next: usize,
    // what is to be looked at before those that are asked for next
    again: Vec<usize>,
    // what runs below it asked for, and of which number these are
    taken: Vec<(usize, usize)>,
    // whether all that it asks for is settled
    is_through: bool,
}

/// What the last run does next.
#[derive(Clone, Copy)]
pub(crate) enum Turn {
    LookAt(usize),
    /// Nothing is left to be looked at.
    Fail,
    /// What it was to settle is settled.
    End,
    /// There is no run.
    Nothing,
}

/// Runs that stand in one another. Each settles what one below it subtracts, so it is of a lower stratum, and they are
/// 256 at most.
#[derive(Drop)]
pub(crate) struct Runs {
    alloc: Global,
    runs: Vec<Run>,
    started: usize,
}

impl Runs {
    pub(crate) fn new(alloc: Global) -> Runs {
        Runs {
            alloc,
            runs: Vec::new(alloc),
            started: 0,
        }
    }

    pub(crate) fn clear(&mut self) {
        self.runs.clear();
    }

    /// Begins a run, which asks for a node.
    pub(crate) fn start(&mut self, nodes: &mut Nodes<'_>, root: usize) -> Result<(), AllocError> {
        self.started = self.started.saturating_add(1);
        self.runs.push(Run {
            number: self.started,
            root,
            asked: Vec::new(self.alloc),
            next: 0,
            again: Vec::new(self.alloc),
            taken: Vec::new(self.alloc),
            is_through: false,
        })?;
        self.ask(nodes, root)
    }

    /// The number of the last run.
    fn last(&self) -> Option<usize> {
        Some(self.runs.last()?.number)
    }

    fn is_on(&self, number: usize) -> bool {
        self.runs.iter().any(|run| run.number == number)
    }

    /// The last run asks for a node, where it does not yet. That is taken from a run below it until it ends.
    pub(crate) fn ask(&mut self, nodes: &mut Nodes<'_>, number: usize) -> Result<(), AllocError> {
        let Some(node) = nodes.get_mut(number) else {
            return Ok(());
        };
        let Some(run) = self.last() else {
            return Ok(());
        };
        if node.state != State::Asked || node.run == run {
            return Ok(());
        }
        let is_taken = node.run > 0 && self.is_on(node.run);
        if let Some(last) = self.runs.last_mut() {
            if is_taken {
                last.taken.push((number, node.run))?;
            }
            node.run = run;
            last.asked.push(number)?;
        }
        Ok(())
    }

    /// A node is to be looked at again by its run, where that goes on: at once, or behind all that is asked for.
    pub(crate) fn look_again(
        &mut self,
        run: usize,
        number: usize,
        at_once: bool,
    ) -> Result<(), AllocError> {
        for one in &mut self.runs {
            if one.number == run {
                if at_once {
                    one.again.push(number)?;
                } else {
                    one.asked.push(number)?;
                }
                return Ok(());
            }
        }
        Ok(())
    }

    /// The last run looks at a node before all that it asks for.
    pub(crate) fn look_again_last(&mut self, number: usize) -> Result<(), AllocError> {
        match self.last() {
            Some(run) => self.look_again(run, number, true),
            None => Ok(()),
        }
    }

    /// A run may end early, as soon as what it was to settle is settled, or once all is that it asks for.
    pub(crate) fn next(&mut self, nodes: &Nodes<'_>, ends_early: bool) -> Turn {
        let Some(last) = self.runs.last_mut() else {
            return Turn::Nothing;
        };
        if last.is_through || ends_early && nodes.state(last.root) != State::Asked {
            return Turn::End;
        }
        if let Some(number) = last.again.pop() {
            return Turn::LookAt(number);
        }
        match last.asked.get(last.next).copied() {
            Some(number) => {
                last.next = last.next.saturating_add(1);
                Turn::LookAt(number)
            }
            None => {
                last.is_through = true;
                Turn::Fail
            }
        }
    }

    /// What the last run asks for.
    pub(crate) fn asked(&self) -> &[usize] {
        match self.runs.last() {
            Some(last) => &last.asked,
            None => &[],
        }
    }

    /// Ends the last run. What it took from runs below it goes back to them.
    pub(crate) fn end(&mut self, nodes: &mut Nodes<'_>) -> Result<(), AllocError> {
        let Some(ended) = self.runs.pop() else {
            return Ok(());
        };
        for (number, run) in ended.taken {
            if let Some(node) = nodes.get_mut(number) {
                if node.state == State::Asked {
                    node.run = run;
                    self.look_again(run, number, false)?;
                }
            }
        }
        Ok(())
    }
}
