//! The newest place of each mark, in a table of slots.

ghost use Rattle.std.specs.Prelude.{◌≡◌, ◌<◌, ◌≤◌, ◌-◌, ◌++◌, ℕ, List, length, slice_get, nat_eq, None, Some, unwrap_or, IfOk, OnOk, OnErr};
ghost use Rattle.std.specs.BTreeMap.{get, Updates};
ghost use Rattle.std.specs.Ordering.{nat_cmp};
ghost use Rattle.marks.specs.Links.{IsPlaceOf, IsSet, IsTable, has_mark, longest, newest_of, probe_in, start_of, stops, tag_of};
ghost use Rattle.marks.specs.Placed.{last_place, most, passes};
ghost use Rattle.marks.specs.Slots.{place_of};
ghost use Rattle.marks.specs.declared.slots.Slot.{Slot};

use crate::slots::{Slot, Slots};
use std::alloc::{AllocError, Global};
use std::collections::BTreeMap;

/// How many slots a probe may have.
const LONGEST: usize = 16;

/// For how many marks there is room at first.
const FEWEST: usize = 8;

/// Up to how many marks a table is small: it grows faster then, so that fewer marks are put anew.
const SMALL: usize = 1 << 16;

/// How many tags there are.
const TAGS: u64 = 1 << 8;

/// The newest place of each mark. 0 is no place.
///
/// A probe for a mark begins at the slot that its upper bits name, and ends at its slot or at a free one. A mark for
/// which it meets neither stands in a tree. A slot that was taken stays so, even where its mark has no place any
/// more: so no probe ends earlier than it did.
#[derive(Drop)]
pub struct Table {
    slots: Slots,
    /// How many more slots may be taken before the table is spread.
    spare: usize,
    rest: BTreeMap<u64, u32>,
}

/// The slot at which a mark's probe begins. A remainder would do as well, but wants a division, which is slow.
fn start_of(mark: u64, starts: usize) -> usize
    ensures value { result ≡ start_of mark starts }
    ensures within { result ≤ starts }
{
    ((mark as u128 * starts as u128) >> 64) as usize
}

/// The lower bits of a mark, since the upper ones choose its slot.
fn tag_of(mark: u64) -> u8
    ensures { result ≡ tag_of mark }
{
    ((mark % TAGS) as u8).max(1)
}

/// Whether the mark stands at this place.
fn has_mark(marks: &[u64], place: u32, mark: u64) -> bool
    ensures { result ≡ has_mark marks.now place mark }
{
    if place == 0 {
        return false;
    }
    match marks.get((place - 1) as usize) {
        Some(there) => *there == mark,
        None => false,
    }
}

/// Whether the mark's probe ends at this slot.
fn ends_at(slots: &Slots, at: usize, marks: &[u64], mark: u64) -> bool
    ensures { result ≡ passes (stops marks.now mark) (slice_get slots.now at) }
{
    match slots.tag(at) {
        Some(tag) => tag == 0 || tag == tag_of(mark) && has_mark(marks, slots.place(at), mark),
        None => false,
    }
}

/// The slot at which the mark's probe ends, counted from 1; 0 where it meets neither the mark's slot nor a free one.
fn probe(slots: &Slots, marks: &[u64], mark: u64) -> usize
    ensures { result ≡ probe_in longest marks.now slots.now mark }
{
    let start = start_of(mark, slots.len().saturating_sub(LONGEST - 1));
    for step in 0..LONGEST {
        if ends_at(slots, start + step, marks, mark) {
            return start + step + 1;
        }
    }
    0
}

/// The place at a slot. A free one has none, and what stands there is not read: that would be a line of the cache more.
fn place_at(slots: &Slots, at: usize) -> u32
    requires { (s : Slot) → slice_get slots.now at ≡ Some s → s.tag ≡ 0 → s.place ≡ 0 }
    ensures { result ≡ place_of (slice_get slots.now at) }
{
    if slots.tag(at) == Some(0) {
        return 0;
    }
    slots.place(at)
}

/// Makes a place a mark's newest in the tree, and gives the one that was its newest before. Few marks come here, and
/// what it takes is not to weigh on those that do not.
#[inline(never)]
fn put_in_tree(tree: &mut BTreeMap<u64, u32>, mark: u64, place: u32) -> Result<u32, AllocError>
    ensures older { IfOk result (λ older. older ≡ unwrap_or (get nat_cmp tree.old mark) 0) }
    ensures ok { OnOk result (Updates nat_cmp tree.old tree.new mark (Some place)) }
    ensures err { OnErr result (tree.new.entries ≡ tree.old.entries) }
    ensures unknown { OnErr result (get nat_cmp tree.old mark ≡ None) }
{
    Ok(tree.insert(mark, place)?.unwrap_or(0))
}

/// Room for so many marks, with the newest place of each of these.
fn table_of(alloc: Global, marks: &[u64], count: usize) -> Result<Table, AllocError>
    requires { length marks.now ≤ most }
    ensures table { IfOk result (IsTable marks.now) }
    ensures newest { IfOk result (λ t. (mark : ℕ)
        → newest_of marks.now t mark ≡ last_place (nat_eq mark) marks.now (length marks.now)) }
{
    let mut table = Table::with_room(alloc, count)?;
    for (index, mark) in marks.iter().enumerate() {
        table.set(marks, *mark, index as u32 + 1)?;
    }
    Ok(table)
}

impl Table {
    pub fn new(alloc: Global) -> Table
        ensures table { (marks : List ℕ) → IsTable marks result }
        ensures none { (marks : List ℕ) (mark : ℕ) → newest_of marks result mark ≡ 0 }
    {
        Table {
            slots: Slots::new(alloc),
            spare: 0,
            rest: BTreeMap::new(alloc),
        }
    }

    /// Room for so many marks: twice as many slots, and those behind the last start.
    pub fn with_room(alloc: Global, count: usize) -> Result<Table, AllocError>
        ensures table { (marks : List ℕ) → IfOk result (IsTable marks) }
        ensures none { (marks : List ℕ) → IfOk result (λ t. (mark : ℕ) → newest_of marks t mark ≡ 0) }
    {
        let slots = count.saturating_mul(2).saturating_add(LONGEST - 1);
        Ok(Table {
            slots: Slots::all_free(alloc, slots)?,
            spare: count,
            rest: BTreeMap::new(alloc),
        })
    }

    /// The newest place of the mark, or 0 where it has none.
    pub fn newest(&self, marks: &[u64], mark: u64) -> u32
        requires { IsTable marks.now self.now }
        ensures { result ≡ newest_of marks.now self.now mark }
    {
        let end = probe(&self.slots, marks, mark);
        if end > 0 {
            return place_at(&self.slots, end - 1);
        }
        self.rest.get(&mark).copied().unwrap_or(0)
    }

    /// Makes a place the mark's newest, and gives the one that was its newest before. The mark may be yet to come
    /// there. Where the mark has a place already, no memory is wanted.
    pub fn set(&mut self, marks: &[u64], mark: u64, place: u32) -> Result<u32, AllocError>
        requires { IsTable marks.now self.old }
        ensures older { IfOk result (λ older. older ≡ newest_of marks.now self.old mark) }
        ensures ok { OnOk result ((more : List ℕ) → IsPlaceOf (marks.now ++ more) mark place
            → IsSet marks.now (marks.now ++ more) self.old self.new mark place) }
        ensures err { OnErr result ((m : ℕ) → newest_of marks.now self.new m ≡ newest_of marks.now self.old m) }
        ensures table { OnErr result (IsTable marks.now self.new) }
        ensures unknown { OnErr result (newest_of marks.now self.old mark ≡ 0) }
    {
        let end = probe(&self.slots, marks, mark);
        if end == 0 {
            let older = put_in_tree(&mut self.rest, mark, place)?;
            return Ok(older);
        }
        let at = end - 1;
        if self.slots.tag(at) == Some(0) {
            self.spare = self.spare.saturating_sub(1);
        }
        let older = place_at(&self.slots, at);
        let slot = Slot {
            tag: tag_of(mark),
            place,
        };
        self.slots.set(at, slot);
        Ok(older)
    }

    /// Makes the table anew where no slot is to spare, with room for about twice as many marks as before, and while it
    /// is small four times as many, but for no more than so many times the marks, since those without a place are left
    /// behind. What is found stays.
    pub fn spread(&mut self, alloc: Global, marks: &[u64]) -> Result<(), AllocError>
        requires newest { (mark : ℕ) → newest_of marks.now self.old mark
            ≡ last_place (nat_eq mark) marks.now (length marks.now) }
        requires table { IsTable marks.now self.old }
        requires few { length marks.now ≤ most }
        ensures table { IsTable marks.now self.new }
        ensures same { (mark : ℕ) → newest_of marks.now self.new mark ≡ newest_of marks.now self.old mark }
    {
        if self.spare == 0 {
            let times = if marks.len() < SMALL { 4 } else { 2 };
            let more = (self.slots.len() / 2).saturating_mul(times);
            let count = more.min(marks.len() * times).max(FEWEST);
            *self = table_of(alloc, marks, count)?;
        }
        Ok(())
    }
}
