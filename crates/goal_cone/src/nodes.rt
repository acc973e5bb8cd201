//! What a search has reached: facts and places of their rules, and who reads whom.

use marks::{MarkedSet, Places};
use rewrites::Rewrite;
use std::alloc::{AllocError, Global};

/// Up to how many facts are looked through one by one.
const FEW: usize = 16;

/// A rule of few places, or a place of one; or a rule of many places, by its number.
#[derive(Clone, Copy, Drop)]
pub(crate) enum Rule<'s> {
    Few(&'s Rewrite),
    Many(usize),
}

#[derive(Clone, Copy, Drop, PartialEq, Eq)]
pub(crate) enum State {
    Asked,
    Holds,
    Fails,
}

/// A fact that was reached, or a place of its rule.
#[derive(Clone, Copy, Drop)]
pub(crate) struct Node<'s> {
    pub(crate) set: MarkedSet<'s>,
    pub(crate) rule: Rule<'s>,
    pub(crate) is_fact: bool,
    pub(crate) state: State,
    /// The last run that asked for it, from 1.
    pub(crate) run: usize,
    /// Its links to what it reads, from one number up to another, once it was read.
    pub(crate) was_read: bool,
    /// The last run that asked for all that it reads.
    pub(crate) read_in: usize,
    pub(crate) from: usize,
    pub(crate) to: usize,
    /// How many of these were looked at, where they are one after the other.
    pub(crate) turn: usize,
    /// The stage that it has come to, where its rule has many places.
    pub(crate) stage: usize,
    /// Whether it is to be looked at again.
    pub(crate) waits: bool,
    /// The newest link to one that reads it, from 1, or 0.
    newest: u32,
    /// What gave it, where one alone did; it itself, where it reads nothing for that.
    pub(crate) by: Option<usize>,
    /// How often something was settled before it was.
    pub(crate) moment: usize,
}

/// A link from a node to one that reads it, for a group of its rule's parts.
#[derive(Clone, Copy, Drop)]
pub(crate) struct Link {
    read: u32,
    reader: u32,
    part: u32,
    // the link before it of what is read, from 1, or 0
    older: u32,
}

/// The links to those that read a node, the newest first.
#[derive(Clone, Copy)]
pub(crate) struct Readers {
    next: u32,
}

/// Nodes and links by their numbers. The facts are all of one user.
#[derive(Drop)]
pub(crate) struct Nodes<'s> {
    nodes: Vec<Node<'s>>,
    links: Vec<Link>,
    facts: Vec<usize>,
    // by which facts are found where they are more than a few
    marks: Places,
}

/// A number in 32 bits. More nodes or links than that do not fit into memory.
fn small(number: usize) -> Result<u32, AllocError> {
    match u32::try_from(number) {
        Ok(number) => Ok(number),
        Err(_) => Err(AllocError),
    }
}

impl Link {
    pub(crate) fn read(&self) -> usize {
        self.read as usize
    }

    pub(crate) fn reader(&self) -> usize {
        self.reader as usize
    }

    pub(crate) fn part(&self) -> usize {
        self.part as usize
    }
}

impl<'s> Nodes<'s> {
    pub(crate) fn new(alloc: Global) -> Nodes<'s> {
        Nodes {
            nodes: Vec::new(alloc),
            links: Vec::new(alloc),
            facts: Vec::new(alloc),
            marks: Places::new(alloc),
        }
    }

    pub(crate) fn len(&self) -> usize {
        self.nodes.len()
    }

    pub(crate) fn links(&self) -> usize {
        self.links.len()
    }

    pub(crate) fn facts(&self) -> usize {
        self.facts.len()
    }

    pub(crate) fn get(&self, number: usize) -> Option<Node<'s>> {
        self.nodes.get(number).copied()
    }

    pub(crate) fn get_mut(&mut self, number: usize) -> Option<&mut Node<'s>> {
        self.nodes.get_mut(number)
    }

    pub(crate) fn link(&self, number: usize) -> Option<Link> {
        self.links.get(number).copied()
    }

    /// The state of a node. One that is not there fails.
    pub(crate) fn state(&self, number: usize) -> State {
        match self.nodes.get(number) {
            Some(node) => node.state,
            None => State::Fails,
        }
    }

    /// What a link is of, and its state.
    pub(crate) fn read_by(&self, link: usize) -> Option<(usize, State)> {
        let read = self.links.get(link)?.read();
        Some((read, self.state(read)))
    }

    fn is_of(&self, number: usize, set: MarkedSet<'_>) -> bool {
        match self.nodes.get(number) {
            Some(node) => node.set.mark == set.mark && node.set.set == set.set,
            None => false,
        }
    }

    /// The node of a userset's fact. Past a few facts, those with its mark are gone over, mostly one.
    pub(crate) fn find(&self, set: MarkedSet<'_>) -> Option<usize> {
        if self.facts.len() <= FEW {
            for number in &self.facts {
                if self.is_of(*number, set) {
                    return Some(*number);
                }
            }
            return None;
        }
        for fact in self.marks.with(set.mark) {
            let number = self.facts.get(fact).copied()?;
            if self.is_of(number, set) {
                return Some(number);
            }
        }
        None
    }

    /// A new node, which nobody asks for yet.
    pub(crate) fn add(
        &mut self,
        set: MarkedSet<'s>,
        rule: Rule<'s>,
        is_fact: bool,
    ) -> Result<usize, AllocError> {
        let number = self.nodes.len();
        self.nodes.push(Node {
            set,
            rule,
            is_fact,
            state: State::Asked,
            run: 0,
            was_read: false,
            read_in: 0,
            from: 0,
            to: 0,
            turn: 0,
            stage: 0,
            waits: false,
            newest: 0,
            by: None,
            moment: 0,
        })?;
        if is_fact {
            self.add_fact(number)?;
        }
        Ok(number)
    }

    fn add_fact(&mut self, number: usize) -> Result<(), AllocError> {
        let before = self.facts.len();
        self.facts.push(number)?;
        if before < FEW {
            return Ok(());
        }
        // the first of these brings the few before it
        let first = if before == FEW { 0 } else { before };
        for fact in first..self.facts.len() {
            if let Some(number) = self.facts.get(fact) {
                if let Some(node) = self.nodes.get(*number) {
                    self.marks.push(node.set.mark)?;
                }
            }
        }
        Ok(())
    }

    /// From now on one node reads another, for a group of its rule's parts.
    pub(crate) fn add_link(
        &mut self,
        reader: usize,
        read: usize,
        part: usize,
    ) -> Result<(), AllocError> {
        let Some(node) = self.nodes.get_mut(read) else {
            return Ok(());
        };
        self.links.push(Link {
            read: small(read)?,
            reader: small(reader)?,
            part: small(part)?,
            older: node.newest,
        })?;
        node.newest = small(self.links.len())?;
        Ok(())
    }

    pub(crate) fn readers(&self, number: usize) -> Readers {
        match self.nodes.get(number) {
            Some(node) => Readers { next: node.newest },
            None => Readers { next: 0 },
        }
    }

    /// The next link to one that reads a node.
    pub(crate) fn next_reader(&self, readers: &mut Readers) -> Option<Link> {
        let link = self.link((readers.next as usize).checked_sub(1)?)?;
        readers.next = link.older;
        Some(link)
    }
}
