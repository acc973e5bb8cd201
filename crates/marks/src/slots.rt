//! The slots of a table, whose tags stand apart from their places.

ghost use Rattle.std.specs.Prelude.{◌≡◌, ◌<◌, [], length, replicate, slice_get, slice_set, option_map, IfOk};
ghost use Rattle.marks.specs.Slots.{free_slot, place_of};

use std::alloc::{AllocError, Global};
use std::marker::Model;

/// The tag of a mark, and its newest place. A slot with the tag 0 is free.
#[derive(Clone, Copy, Drop)]
pub struct Slot {
    pub tag: u8,
    pub place: u32,
}

/// A list of slots. A line of the cache holds the tags of many, so a probe that meets no tag of its mark reads a line
/// or two.
#[derive(Drop)]
pub struct Slots {
    tags: Vec<u8>,
    places: Vec<u32>,
}

impl Model for Slots {
    ghost use Rattle.std.specs.Prelude.{◌≡◌, List, length};
    ghost use Rattle.marks.specs.declared.slots.Slot.{Slot};
    ghost use Rattle.marks.specs.Slots.{slots_of};

    ghost Value = { List Slot };

    ghost view = { λ s. slots_of s.tags.items s.places.items };

    ghost invariant = { λ s. length s.tags.items ≡ length s.places.items };
}

impl Slots {
    pub fn new(alloc: Global) -> Slots
        ensures { result ≡ [] }
    {
        Slots {
            tags: Vec::new(alloc),
            places: Vec::new(alloc),
        }
    }

    /// So many free slots.
    pub fn all_free(alloc: Global, count: usize) -> Result<Slots, AllocError>
        ensures { IfOk result (λ slots. slots ≡ replicate count free_slot) }
    {
        Ok(Slots {
            tags: vec![in alloc; 0u8; count]?,
            places: vec![in alloc; 0u32; count]?,
        })
    }

    pub fn len(&self) -> usize
        ensures { result ≡ length self.now }
    {
        self.tags.len()
    }

    pub fn tag(&self, at: usize) -> Option<u8>
        ensures { result ≡ option_map (λ s. s.tag) (slice_get self.now at) }
    {
        self.tags.get(at).copied()
    }

    /// The place at a slot. Behind the last slot it is 0, which is no place.
    pub fn place(&self, at: usize) -> u32
        ensures { result ≡ place_of (slice_get self.now at) }
    {
        self.places.get(at).copied().unwrap_or(0)
    }

    pub fn set(&mut self, at: usize, slot: Slot)
        requires { at < length self.old }
        ensures { self.new ≡ slice_set self.old at slot }
    {
        self.tags[at] = slot.tag;
        self.places[at] = slot.place;
    }
}
