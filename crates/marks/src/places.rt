//! Places of a list that grows, found by their marks.

ghost use Rattle.std.specs.Prelude.{◌≡◌, ℕ, ◌∷◌, ◌++◌, [], Some, length, slice_get, nat_eq, IfOk, OnOk, OnErr, List};
ghost use Rattle.std.specs.Iterator.{YieldsFirst, item_count};
ghost use Rattle.marks.specs.Placed.{indices_of, last_place};

use crate::table::Table;
use std::alloc::{AllocError, Global};
use std::marker::Model;

/// How many places there may be, so that each is a number of 32 bits.
pub const MOST_PLACES: usize = u32::MAX as usize;

/// A list of marks, from each of which a walk leads back over the places with this mark. Places count from 1, and 0
/// is no place.
///
/// Marks stand apart from the places before them with the same mark, so that a line of the cache holds more of what a
/// look-up compares. The newest places are kept in a table with short probes. Marks come from texts that a stranger
/// chose, so he can choose them for the same slots; those for which these have no room stand in a tree, which finds
/// each in the logarithm of their number.
#[derive(Drop)]
pub struct Places {
    marks: Vec<u64>,
    older: Vec<u32>,
    newest: Table,
}

impl Model for Places {
    ghost use Rattle.std.specs.Prelude.{ℕ, List};

    ghost Value = { List ℕ };

    ghost use Rattle.std.specs.Prelude.{◌≤◌, length};
    ghost use Rattle.marks.specs.Links.{AreLinked};
    ghost use Rattle.marks.specs.Placed.{most};

    ghost view = { λ p. p.marks.items };

    ghost invariant = { λ p. AreLinked p.marks.items p.older.items p.newest × (length p.marks.items ≤ most) };
}

impl Places {
    pub fn new(alloc: Global) -> Places
        ensures { result ≡ [] }
    {
        Places {
            marks: Vec::new(alloc),
            older: Vec::new(alloc),
            newest: Table::new(alloc),
        }
    }

    /// No place, and memory for so many: until they are more, no push moves what is there. A mark for which the
    /// table has no slot wants memory nevertheless.
    pub fn with_room(alloc: Global, count: usize) -> Result<Places, AllocError>
        ensures { IfOk result (λ places. places ≡ []) }
    {
        Ok(Places {
            marks: Vec::with_capacity(alloc, count)?,
            older: Vec::with_capacity(alloc, count)?,
            newest: Table::with_room(alloc, count)?,
        })
    }

    /// The newest place with the mark.
    pub fn newest(&self, mark: u64) -> usize
        ensures { result ≡ last_place (nat_eq mark) self.now (length self.now) }
    {
        self.newest.newest(&self.marks, mark) as usize
    }

    /// The place before the one at this index, with the same mark.
    pub fn older(&self, index: usize) -> usize
        ensures { (mark : ℕ) → slice_get self.now index ≡ Some mark → result ≡ last_place (nat_eq mark) self.now index }
    {
        match self.older.get(index) {
            Some(place) => *place as usize,
            None => 0,
        }
    }

    /// The indices of the places with the mark, the newest first.
    pub fn with(&self, mark: u64) -> Walk<'_>
        ensures { result ≡ indices_of mark self.now (length self.now) }
    {
        Walk {
            places: self,
            mark,
            place: self.newest(mark),
        }
    }

    /// Adds a place with the mark. Where memory runs out, nothing changes.
    pub fn push(&mut self, mark: u64) -> Result<(), AllocError>
        ensures ok { OnOk result (self.new ≡ self.old ++ mark ∷ []) }
        ensures err { OnErr result (self.new ≡ self.old) }
    {
        if self.marks.len() >= MOST_PLACES {
            return Err(AllocError);
        }
        self.marks.reserve(1)?;
        self.older.reserve(1)?;
        self.newest.spread(*self.marks.allocator(), &self.marks)?;
        let place = self.marks.len() as u32 + 1;
        let older = self.newest.set(&self.marks, mark, place)?;
        self.marks.push_reserved(mark);
        self.older.push_reserved(older);
        Ok(())
    }

    /// Takes the newest place away, where there is one.
    pub fn pop(&mut self)
        ensures newest { (marks : List ℕ) (mark : ℕ) → self.old ≡ marks ++ mark ∷ [] → self.new ≡ marks }
        ensures none { self.old ≡ [] → self.new ≡ [] }
    {
        if let Some(&mark) = self.marks.last() {
            let older = self.older.pop().unwrap_or(0);
            if self.newest.set(&self.marks, mark, older).is_err() {
                unreachable!();
            }
            self.marks.pop();
        }
    }
}

/// The indices at which one mark stands, the newest first. A contract sees the list of those that are left to give.
#[derive(Drop)]
pub struct Walk<'a> {
    places: &'a Places,
    mark: u64,
    place: usize,
}

impl<'a> Model for Walk<'a> {
    ghost use Rattle.std.specs.Prelude.{ℕ, List, nat_eq};

    ghost Value = { List ℕ };

    ghost use Rattle.marks.specs.Placed.{IsLinkedPlace, indices_of};

    ghost view = { λ it. indices_of it.mark it.places.now it.place };

    ghost invariant = { λ it. IsLinkedPlace (nat_eq it.mark) it.places.now it.place };
}

impl<'a> Iterator for Walk<'a> {
    type Item = usize;

    ghost next_gives = { YieldsFirst (λ indices. indices) };

    ghost remaining = { item_count (λ indices. indices) };

    fn next(&mut self) -> Option<usize> {
        if self.place == 0 {
            return None;
        }
        let index = self.place - 1;
        self.place = self.places.older(index);
        Some(index)
    }
}
