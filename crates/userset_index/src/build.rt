//! Making an index, in passes over the changelog.

ghost use Rattle.std.specs.Prelude.{◌≡◌, ◌<◌, ◌≤◌, ◌^◌, ◌++◌, ℕ, None, Some, List, length, slice_get, nat_lt, IfOk, OnOk, IfSome, IsPermutation, Contains};
ghost use Rattle.std.specs.List.{list_any};
ghost use Rattle.tuple_text.specs.Refs.{set_value};
ghost use Rattle.tuple_text.specs.Sets.{SetValue};
ghost use Rattle.tuple_text.specs.declared.users.User.TheVariants.{Set};
ghost use Rattle.version_chains.specs.Commits.{Touch, changelog};
ghost use Rattle.marks.specs.Marks.{set_mark};
ghost use Rattle.version_chains.specs.Touches.{touch_value};
ghost use Rattle.userset_index.specs.Building.{AreEnds, AreRising, AreSetMarks, IsCrowdedLifeOf, IsKeyOf, IsLifeOf, IsMarkAt, IsMarkOf, IsSetMark, IsWithin, kept};
ghost use Rattle.userset_index.specs.Index.{AreExact, Holds};
ghost use Rattle.userset_index.specs.Index as spec;

use crate::life::{Life, Way};
use marks::{MarkedSet, pair_mark};
use namespaces::Rules;
use std::alloc::{AllocError, Global};
use tuple_text::{SetRef, UserRef};
use version_chains::{Chains, TouchRef};

/// At more touches of usersets than so many a userset is crowded, or those that share its count.
const FEW: u8 = 16;

/// How many counts there are: one for each beginning of 16 bits of a mark.
pub(crate) const COUNTS: usize = 1 << 16;

/// Which count is that of a userset with this mark.
fn count_of(mark: u64) -> usize
    ensures { result ≡ spec.count_of mark }
{
    (mark >> 48) as usize
}

pub(crate) fn is_crowded(crowds: &[u8], mark: u64) -> bool
    ensures { result ≡ spec.is_crowded crowds.now mark }
{
    match crowds.get(count_of(mark)) {
        Some(count) => *count > FEW,
        None => false,
    }
}

/// Whether any userset is crowded. It goes once over the counts.
pub(crate) fn is_any_crowded(crowds: &[u8]) -> bool
    ensures { result ≡ list_any (nat_lt spec.few) crowds.now }
{
    crowds.iter().any(|count| *count > FEW)
}

/// How many touches are of usersets, by the beginning of the mark of the userset that they are stored in; and of each
/// touch of a userset that mark, so that no pass over lives makes it again.
#[derive(Drop)]
pub(crate) struct Crowds {
    pub counts: Vec<u8>,
    pub marks: Vec<u64>,
}

/// The mark of the userset that a userset is stored in by a touch. `None` where the touch is of a user id.
fn mark_at(chains: &Chains, index: usize) -> Option<u64>
    ensures { IsMarkAt (changelog chains.now.commits) index result }
{
    let touch = chains.touch(index)?;
    mark_of(touch)
}

/// The same of a touch that is at hand.
pub(crate) fn mark_of(touch: TouchRef<'_>) -> Option<u64>
    ensures { (g : SetValue) → (touch_value touch.entry).tuple.user ≡ Set g
        → result ≡ Some (set_mark (touch_value touch.entry).tuple.set) }
{
    match touch.user.user {
        UserRef::Set(_) => Some(MarkedSet::of(touch.set).mark),
        UserRef::Id(_) => None,
    }
}

/// Counts one more touch of a userset, if it is one, that is stored in a userset with this mark, and says whether that
/// is crowded now.
fn count_one(counts: &mut Vec<u8>, mark: Option<u64>) -> bool {
    let Some(mark) = mark else {
        return false;
    };
    let Some(count) = counts.get_mut(count_of(mark)) else {
        return false;
    };
    *count = count.saturating_add(1);
    *count > FEW
}

/// Counts the touches of usersets that were not counted yet, by the userset that they are stored in, and says whether
/// one of these is crowded now. It goes once over each touch, and keeps nothing of it: in most traces no userset is
/// crowded.
pub(crate) fn count_further(counts: &mut Vec<u8>, counted: &mut usize, chains: &Chains) -> bool {
    let mut is_any = false;
    for index in *counted..usize::MAX {
        let Some(touch) = chains.touch(index) else {
            break;
        };
        is_any = count_one(counts, mark_of(touch)) || is_any;
        *counted = index + 1;
    }
    is_any
}

/// Counts the touches of usersets, by the userset that they are stored in.
pub(crate) fn count_crowds(alloc: Global, chains: &Chains) -> Result<Vec<u8>, AllocError> {
    let mut counts = vec![in alloc; 0u8; COUNTS]?;
    count_further(&mut counts, &mut 0, chains);
    Ok(counts)
}

/// Of each touch of a userset the mark of the userset that it is stored in. It goes once over the changelog.
pub(crate) fn set_marks(
    alloc: Global,
    chains: &Chains,
    touches: usize,
) -> Result<Vec<u64>, AllocError>
    ensures { IfOk result (λ marks. AreSetMarks (changelog chains.now.commits) touches marks.items) }
{
    let mut marks = Vec::with_capacity(alloc, touches)?;
    for index in 0..touches {
        let mark = mark_at(chains, index);
        marks.push(mark.unwrap_or(0))?;
    }
    Ok(marks)
}

/// A later touch of a tuple has a later timestamp: no commit touches a tuple twice. It computes nothing.
pub(crate) fn touches_rise(chains: &Chains)
    ensures { AreRising (changelog chains.now.commits) }
{
    let _ = chains.commits();
}

/// For each touch the last timestamp at which it may be the last of its tuple: one before the next touch of that
/// tuple, else the greatest. It goes once over the changelog.
pub(crate) fn ends_of(alloc: Global, chains: &Chains) -> Result<Vec<u64>, AllocError>
    ensures { IfOk result (λ ends. AreEnds (changelog chains.now.commits) ends.items) }
{
    touches_rise(chains);
    let mut ends = Vec::new(alloc);
    while let Some(touch) = chains.touch(ends.len()) {
        if touch.older > 0 {
            ends[touch.older - 1] = touch.at.saturating_sub(1);
        }
        ends.push(u64::MAX)?;
    }
    Ok(ends)
}

/// The mark by which the usersets of an object are looked for that are stored in a userset with this mark.
pub(crate) fn object_mark(mark: u64, user: SetRef<'_>) -> u64
    ensures { (s : SetValue) → mark ≡ set_mark s → result ≡ spec.object_mark s (set_value user.entry) }
{
    let object = SetRef {
        relation: "",
        ..user
    };
    pair_mark(mark, MarkedSet::of(object).mark)
}

/// The mark by which a userset is looked for that is stored in one with this mark, and the timestamp from which on.
/// `None` where it never is.
fn key_of(way: Way, rules: &Rules, mark: u64, user: SetRef<'_>) -> Option<(u64, u64)>
    ensures { (s : SetValue) → mark ≡ set_mark s → IsKeyOf rules.now way s (set_value user.entry) result }
{
    match way {
        Way::Own => {
            let from = rules.declared_from(user)?;
            Some((mark, from))
        }
        Way::Object => Some((object_mark(mark, user), 0)),
    }
}

/// The life of a touch that may be the last of its tuple up to the timestamp `end`, where its userset has this mark.
/// `None` where it can never matter.
pub(crate) fn life_of(
    way: Way,
    rules: &Rules,
    mark: u64,
    index: usize,
    touch: TouchRef<'_>,
    end: u64,
) -> Option<Life>
    requires { IsMarkOf (touch_value touch) mark }
    ensures finds { IsLifeOf rules.now way index (touch_value touch.entry) end result }
    ensures within { IfSome result (IsWithin index (touch_value touch.entry) end) }
{
    let UserRef::Set(user) = touch.user.user else {
        return None;
    };
    if !touch.live {
        return None;
    }
    let (mark, from) = key_of(way, rules, mark, user)?;
    Some(Life {
        mark,
        touch: index,
        from: from.max(touch.at),
        until: end,
    })
}

/// The same for the touch at an index. `None` too where the userset is not crowded, so that the touch is not looked at.
fn life_at(
    way: Way,
    chains: &Chains,
    rules: &Rules,
    counts: &[u8],
    mark: u64,
    index: usize,
    end: u64,
) -> Option<Life>
    requires { IsSetMark (changelog chains.now.commits) index mark }
    ensures finds { (x : Touch) → slice_get (changelog chains.now.commits) index ≡ Some x
        → IsCrowdedLifeOf rules.now way counts.now index x end result }
    ensures within { (x : Touch) → slice_get (changelog chains.now.commits) index ≡ Some x
        → IfSome result (IsWithin index x end) }
{
    if !is_crowded(counts, mark) {
        return None;
    }
    let touch = chains.touch(index)?;
    life_of(way, rules, mark, index, touch, end)
}

/// Puts a life last, if there is one.
pub(crate) fn keep(lives: &mut Vec<Life>, life: Option<Life>) -> Result<(), AllocError>
    ensures { OnOk result (lives.new.items ≡ kept lives.old.items life) }
{
    if let Some(life) = life {
        lives.push(life)?;
    }
    Ok(())
}

/// The lives that can matter, in the order of their touches. It goes once over the touches of crowded usersets.
pub(crate) fn lives_of(
    alloc: Global,
    way: Way,
    chains: &Chains,
    rules: &Rules,
    crowds: &Crowds,
    ends: &[u64],
) -> Result<Vec<Life>, AllocError>
    requires ends { AreEnds (changelog chains.now.commits) ends.now }
    requires marks { AreSetMarks (changelog chains.now.commits) (length ends.now) crowds.now.marks.items }
    ensures holds { IfOk result (λ lives. Holds rules.now way (changelog chains.now.commits)
        crowds.now.counts.items lives.items) }
    ensures exact { IfOk result (λ lives. AreExact (changelog chains.now.commits) lives.items) }
{
    let mut lives = Vec::new(alloc);
    for index in 0..ends.len() {
        let life = life_at(
            way,
            chains,
            rules,
            &crowds.counts,
            crowds.marks[index],
            index,
            ends[index],
        );
        keep(&mut lives, life)?;
    }
    Ok(lives)
}
