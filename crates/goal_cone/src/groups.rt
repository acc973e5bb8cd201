//! What a rule of many places reads, and which of its parts do.
//!
//! A part may read many relations, and one of them may be read by many parts. What is read by the same parts has one
//! group, the parts that open with it. So what a fact reads is one link, however many parts of the rule read it.

use marks::{MarkedSet, Places};
use rewrites::{Part, Rewrite, Through};
use std::alloc::{AllocError, Global};
use std::collections::BTreeMap;
use tuple_text::SetRef;

/// A relation that is read through a tupleset.
#[derive(Clone, Copy, Drop, PartialEq, Eq)]
pub(crate) struct Reading<'a> {
    pub(crate) tupleset: &'a str,
    pub(crate) relation: &'a str,
}

impl<'a> Reading<'a> {
    /// Equal ones have equal marks.
    fn mark(self) -> u64 {
        let texts = SetRef {
            namespace: self.tupleset,
            id: "",
            relation: self.relation,
        };
        MarkedSet::of(texts).mark
    }
}

/// Parts that open together: the last one, and the group of the others.
#[derive(Clone, Copy, Drop)]
pub(crate) struct Group {
    pub(crate) part: usize,
    pub(crate) others: usize,
}

/// What a rule reads: the first part that does, as which of its relations, and the group of all those that do.
#[derive(Clone, Copy, Drop)]
pub(crate) struct Read {
    pub(crate) part: usize,
    pub(crate) name: usize,
    pub(crate) group: usize,
}

/// What the parts of a rule read. It is found once for a rule, in some steps for each relation that a part reads.
#[derive(Drop)]
pub(crate) struct Groups {
    // by their numbers, from 1: 0 is the group of no parts
    groups: Vec<Group>,
    // by a group and a part behind it, the group of both
    larger: BTreeMap<(usize, usize), usize>,
    // `this`, and the relations of the object itself
    own: Vec<Read>,
    // what is read through tuplesets, and by which marks it is found
    through: Vec<Read>,
    marks: Places,
    // the groups of all that, rising
    of_reads: Vec<usize>,
}

/// What a part reads through a tupleset.
pub(crate) fn reading_at(parts: &[Part], read: Read) -> Option<Reading<'_>> {
    match parts.get(read.part)? {
        Part::Leaf(Rewrite::TupleTo { tupleset, computed }) => {
            Some(Reading {
                tupleset: tupleset.as_str(),
                relation: computed.as_str(),
            })
        }
        Part::Leaf(_) => None,
        Part::Through(through) => reading_in(through, read.name),
    }
}

fn reading_in(through: &Through, name: usize) -> Option<Reading<'_>> {
    Some(Reading {
        tupleset: through.tupleset.as_str(),
        relation: through.name(name)?,
    })
}

impl Groups {
    pub(crate) fn of(alloc: Global, parts: &[Part]) -> Result<Groups, AllocError> {
        let mut groups = Groups {
            groups: Vec::new(alloc),
            larger: BTreeMap::new(alloc),
            own: Vec::new(alloc),
            through: Vec::new(alloc),
            marks: Places::new(alloc),
            of_reads: Vec::new(alloc),
        };
        groups.add_parts(parts)?;
        Ok(groups)
    }

    /// Adds what each part reads, and notes the groups of all that.
    fn add_parts(&mut self, parts: &[Part]) -> Result<(), AllocError> {
        for number in 0..parts.len() {
            self.add_part(parts, number, &parts[number])?;
        }
        self.note_groups()
    }

    /// How many groups there are.
    pub(crate) fn len(&self) -> usize {
        self.groups.len()
    }

    /// The group of a number, where it has parts.
    pub(crate) fn get(&self, number: usize) -> Option<Group> {
        self.groups.get(number.checked_sub(1)?).copied()
    }

    /// What is read of the object itself: `this`, and at most the 256 relations of its namespace.
    pub(crate) fn own(&self) -> &[Read] {
        &self.own
    }

    /// The groups of all that is read, rising. All of them together have no more parts than the parts have relations
    /// that they read.
    pub(crate) fn of_reads(&self) -> &[usize] {
        &self.of_reads
    }

    /// What is read as that through a tupleset, if it is.
    pub(crate) fn read_as(&self, parts: &[Part], reading: Reading<'_>) -> Option<Read> {
        self.through.get(self.place_of(parts, reading)?).copied()
    }

    /// Where it stands among what is read through tuplesets. Only what has its mark is gone over, mostly one.
    fn place_of(&self, parts: &[Part], reading: Reading<'_>) -> Option<usize> {
        for place in self.marks.with(reading.mark()) {
            let read = self.through.get(place).copied()?;
            if let Some(found) = reading_at(parts, read) {
                if found == reading {
                    return Some(place);
                }
            }
        }
        None
    }

    /// The group of a group and of a part behind it.
    fn with_part(&mut self, others: usize, part: usize) -> Result<usize, AllocError> {
        if let Some(number) = self.larger.get(&(others, part)).copied() {
            return Ok(number);
        }
        self.groups.push(Group { part, others })?;
        let number = self.groups.len();
        let _ = self.larger.insert((others, part), number)?;
        Ok(number)
    }

    /// Adds what a part reads.
    fn add_part(&mut self, parts: &[Part], number: usize, part: &Part) -> Result<(), AllocError> {
        match part {
            Part::Leaf(Rewrite::TupleTo { .. }) => self.add_reading(parts, number, 0),
            Part::Leaf(_) => {
                let group = self.with_part(0, number)?;
                self.own.push(Read {
                    part: number,
                    name: 0,
                    group,
                })?;
                Ok(())
            }
            Part::Through(through) => {
                for name in 0..through.computed.len() {
                    self.add_reading(parts, number, name)?;
                }
                Ok(())
            }
        }
    }

    /// Adds one relation that a part reads through a tupleset.
    fn add_reading(&mut self, parts: &[Part], part: usize, name: usize) -> Result<(), AllocError> {
        let first = Read {
            part,
            name,
            group: 0,
        };
        let Some(reading) = reading_at(parts, first) else {
            return Ok(());
        };
        let place = match self.place_of(parts, reading) {
            Some(place) => place,
            None => {
                let place = self.through.len();
                self.marks.push(reading.mark())?;
                self.through.push(first)?;
                place
            }
        };
        self.widen(place, part)
    }

    /// One part more reads what stands at a place.
    fn widen(&mut self, place: usize, part: usize) -> Result<(), AllocError> {
        let Some(read) = self.through.get(place).copied() else {
            return Ok(());
        };
        let group = self.with_part(read.group, part)?;
        if let Some(read) = self.through.get_mut(place) {
            read.group = group;
        }
        Ok(())
    }

    /// Notes the groups of all that is read.
    fn note_groups(&mut self) -> Result<(), AllocError> {
        let mut has = vec![in *self.own.allocator(); false; self.groups.len()]?;
        note_groups(&mut has, &self.own);
        note_groups(&mut has, &self.through);
        for before in 0..has.len() {
            if has[before] {
                self.of_reads.push(before + 1)?;
            }
        }
        Ok(())
    }
}

/// Notes the groups of what is read.
fn note_groups(has: &mut [bool], reads: &[Read]) {
    for read in reads {
        note(has, read.group);
    }
}

/// Notes the group of a number.
fn note(has: &mut [bool], group: usize) {
    if let Some(before) = group.checked_sub(1) {
        if let Some(flag) = has.get_mut(before) {
            *flag = true;
        }
    }
}
