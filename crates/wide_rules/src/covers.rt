//! Covers: parts that each read through one tupleset what many parts of a rule read.
//!
//! Where a cover does not give a fact, none of its parts does, and where it rules the fact out, each of them does: one
//! question is enough for all. The covers of a tupleset make a tree. A part is asked for only where no cover above it
//! answers for it.

ghost use Rattle.std.specs.Prelude.{◌≡◌, ◌<◌, ℕ, List, Contains, true, IfOk};
ghost use Rattle.rewrites.specs.Parts.{computed_names, part_at, part_expression, parts_shown, through_expression};
ghost use Rattle.rewrites.specs.View.{expression_of};
ghost use Rattle.wide_rules.specs.Asked.{AreCovers, AreCoversByPart, IsCoveredBy};

use names::Names;
use rewrites::{Part, Rewrite, Through};
use std::alloc::{AllocError, Global};
use std::collections::BTreeMap;

/// Up to how many parts that read through one tupleset have no cover.
const FEW_PARTS: usize = 8;

/// How many covers of one size a wider cover stands for.
const FAN: usize = 16;

/// How many covers a part has at most.
pub(crate) const MOST_COVERS: usize = 16;

/// Covers, and for each part the numbers of its covers, the widest first.
#[derive(Drop)]
pub(crate) struct Covers {
    pub(crate) covers: Vec<Part>,
    pub(crate) by_part: Vec<Vec<usize>>,
}

/// The tupleset through which a part reads.
fn tupleset_of(part: &Part) -> Option<&String> {
    match part {
        Part::Leaf(
            Rewrite::TupleTo {
                tupleset,
                computed: _,
            },
        ) => Some(tupleset),
        Part::Leaf(_) => None,
        Part::Through(through) => Some(&through.tupleset),
    }
}

/// Puts the number of a part to those that read through its tupleset.
fn put(
    alloc: Global,
    groups: &mut BTreeMap<String, Vec<usize>>,
    tupleset: &String,
    number: usize,
) -> Result<(), AllocError> {
    if let Some(numbers) = groups.get_mut(tupleset.as_str()) {
        numbers.push(number)?;
        return Ok(());
    }
    let mut numbers = Vec::new(alloc);
    numbers.push(number)?;
    let _ = groups.insert(tupleset.clone()?, numbers)?;
    Ok(())
}

/// The numbers of the parts that read through each tupleset.
fn groups_of(alloc: Global, parts: &[Part]) -> Result<BTreeMap<String, Vec<usize>>, AllocError> {
    let mut groups = BTreeMap::new(alloc);
    for number in 0..parts.len() {
        if let Some(tupleset) = tupleset_of(&parts[number]) {
            put(alloc, &mut groups, tupleset, number)?;
        }
    }
    Ok(groups)
}

/// Reads through a cover's tupleset what a part reads.
fn read_too(cover: &mut Through, part: &Part) -> Result<(), AllocError> {
    match part {
        Part::Leaf(
            Rewrite::TupleTo {
                tupleset: _,
                computed,
            },
        ) => {
            let _ = cover.computed.put(computed.clone()?, ())?;
        }
        Part::Leaf(_) => {}
        Part::Through(through) => {
            for k in 0..through.computed.len() {
                if let Some((name, _)) = through.computed.at(k) {
                    let _ = cover.computed.put(name.clone()?, ())?;
                }
            }
        }
    }
    Ok(())
}

/// The cover of the parts of some numbers.
fn cover_of(
    alloc: Global,
    tupleset: &String,
    parts: &[Part],
    numbers: &[usize],
) -> Result<Part, AllocError> {
    let mut cover = Through {
        tupleset: tupleset.clone()?,
        computed: Names::new(alloc),
    };
    for number in numbers {
        if let Some(part) = parts.get(*number) {
            read_too(&mut cover, part)?;
        }
    }
    Ok(Part::Through(cover))
}

impl Covers {
    /// Covers of one size for the parts of some numbers.
    fn add_size(
        &mut self,
        alloc: Global,
        tupleset: &String,
        parts: &[Part],
        numbers: &[usize],
        size: usize,
    ) -> Result<(), AllocError>
        requires { 0 < size }
    {
        for covered in numbers.chunks(size) {
            let cover = self.covers.len();
            self.covers
                .push(cover_of(alloc, tupleset, parts, covered)?)?;
            for number in covered {
                if let Some(covers) = self.by_part.get_mut(*number) {
                    covers.push(cover)?;
                }
            }
        }
        Ok(())
    }

    /// Covers of those parts that read through one tupleset, for each.
    fn add_groups(&mut self, alloc: Global, parts: &[Part]) -> Result<(), AllocError> {
        let groups = groups_of(alloc, parts)?;
        for (tupleset, numbers) in groups.iter() {
            self.add_group(alloc, tupleset, parts, numbers)?;
        }
        Ok(())
    }

    /// Covers of all sizes, from that of all these parts on. Each size takes as many steps as they read relations.
    fn add_group(
        &mut self,
        alloc: Global,
        tupleset: &String,
        parts: &[Part],
        numbers: &[usize],
    ) -> Result<(), AllocError> {
        if numbers.len() <= FEW_PARTS {
            return Ok(());
        }
        let mut size = numbers.len();
        for _ in 0..MOST_COVERS {
            if size < 2 {
                break;
            }
            self.add_size(alloc, tupleset, parts, numbers, size)?;
            size = size / FAN + 1;
        }
        Ok(())
    }
}

/// No cover of so many parts.
fn no_covers(alloc: Global, parts: usize) -> Result<Covers, AllocError> {
    let mut by_part = Vec::with_capacity(alloc, parts)?;
    for _ in 0..parts {
        by_part.push(Vec::new(alloc))?;
    }
    Ok(Covers {
        covers: Vec::new(alloc),
        by_part,
    })
}

/// Covers of the parts of a rule, as they were put together.
fn unchecked_covers(alloc: Global, parts: &[Part]) -> Result<Covers, AllocError> {
    let mut unchecked = no_covers(alloc, parts.len())?;
    unchecked.add_groups(alloc, parts)?;
    Ok(unchecked)
}

/// Whether all relations that are read through one tupleset are read through another.
fn reads_all(cover: &Through, through: &Through) -> bool
    ensures { result ≡ true → (c : List ℕ) → Contains (computed_names through.now) c
        → Contains (computed_names cover.now) c }
{
    for k in 0..through.computed.len() {
        let Some(name) = through.name(k) else {
            return false;
        };
        if !cover.reads(name) {
            return false;
        }
    }
    true
}

/// Whether a leaf is read through a tupleset.
fn reads_leaf(cover: &Through, leaf: &Rewrite) -> bool
    ensures { result ≡ true → IsCoveredBy (expression_of leaf.now) (through_expression cover.now) }
{
    match leaf {
        Rewrite::TupleTo { tupleset, computed } => {
            cover.tupleset == *tupleset && cover.reads(computed.as_str())
        }
        _ => false,
    }
}

/// Whether a part is a cover of another.
fn is_cover(cover: &Part, part: &Part) -> bool
    ensures { result ≡ true → IsCoveredBy (part_expression part.now) (part_expression cover.now) }
{
    let Part::Through(cover) = cover else {
        return false;
    };
    match part {
        Part::Leaf(leaf) => reads_leaf(cover, leaf),
        Part::Through(through) => {
            cover.tupleset == through.tupleset && reads_all(cover, through)
        }
    }
}

/// Whether the part of a number is.
fn is_cover_at(covers: &[Part], number: usize, part: &Part) -> bool
    ensures { result ≡ true → IsCoveredBy (part_expression part.now) (part_at (parts_shown covers.now) number) }
{
    match covers.get(number) {
        Some(cover) => is_cover(cover, part),
        None => false,
    }
}

/// Those of some numbers that are of covers of a part: all of them.
fn check_covers(
    alloc: Global,
    covers: &[Part],
    part: &Part,
    unchecked: &[usize],
) -> Result<Vec<usize>, AllocError>
    ensures { IfOk result (λ v. AreCovers (parts_shown covers.now) (part_expression part.now) v.items) }
{
    let mut numbers = Vec::with_capacity(alloc, unchecked.len())?;
    for number in unchecked {
        if is_cover_at(covers, *number, part) {
            numbers.push(*number)?;
        }
    }
    Ok(numbers)
}

/// The same of the part of a number.
fn check_covers_at(
    alloc: Global,
    covers: &[Part],
    parts: &[Part],
    unchecked: &[Vec<usize>],
    k: usize,
) -> Result<Vec<usize>, AllocError>
    ensures { IfOk result (λ v. AreCovers (parts_shown covers.now) (part_at (parts_shown parts.now) k) v.items) }
{
    let Some(part) = parts.get(k) else {
        return Ok(Vec::new(alloc));
    };
    let Some(numbers) = unchecked.get(k) else {
        return Ok(Vec::new(alloc));
    };
    check_covers(alloc, covers, part, numbers)
}

/// The same of each part.
fn check_each(
    alloc: Global,
    covers: &[Part],
    parts: &[Part],
    unchecked: &[Vec<usize>],
) -> Result<Vec<Vec<usize>>, AllocError>
    ensures { IfOk result (λ v. AreCoversByPart
        (record { parts = parts_shown parts.now; covers = parts_shown covers.now }) v.items) }
{
    let mut each = Vec::with_capacity(alloc, parts.len())?;
    for k in 0..parts.len() {
        let numbers = check_covers_at(alloc, covers, parts, unchecked, k)?;
        each.push(numbers)?;
    }
    Ok(each)
}

/// The covers of the parts of a rule.
pub(crate) fn covers_of(alloc: Global, parts: &[Part]) -> Result<Covers, AllocError>
    ensures { IfOk result (λ c. AreCoversByPart
        (record { parts = parts_shown parts.now; covers = parts_shown c.covers.items }) c.by_part.items) }
{
    let Covers { covers, by_part } = unchecked_covers(alloc, parts)?;
    let by_part = check_each(alloc, &covers, parts, &by_part)?;
    Ok(Covers { covers, by_part })
}
