//! An index that grows with a log.
//!
//! Until a userset is crowded it only counts. Then it takes the touches that came, and each touch of a userset gets its
//! lives as it comes, and those of the touch before it of the same tuple end. All usersets are crowded in it then, and
//! each userset that is stored in another has a life of its own through it, also beside others of its object.

ghost use Rattle.std.specs.Prelude.{◌≡◌, ◌≤◌, ◌+◌, ℕ, true, List, [], Some, length, slice_get, IfOk, IfSome, OnOk};
ghost use Rattle.tuple_text.specs.Order.{tuple_eq};
ghost use Rattle.namespaces.specs.Declaration.{Declaration};
ghost use Rattle.version_chains.specs.Commits.{Commit, Touch, changelog};
ghost use Rattle.version_chains.specs.Touches.{touch_value};
ghost use Rattle.marks.specs.Placed.{last_place};
ghost use Rattle.userset_index.specs.Building.{IsWithin, kept};
ghost use Rattle.userset_index.specs.Growth.{ArePlaced, IsBegun, IsClosed, IsGrowing, IsGrownTo, IsLifeBy, IsMarkThrough, IsReady, IsSameKind, Takes, taken_of};
ghost use Rattle.userset_index.specs.Index.{IsMark, IsUsersetIndex};
ghost use Rattle.userset_index.specs.declared.growth.TheConstants.{LAST};
ghost use Rattle.userset_index.specs.declared.life.Way.TheVariants.{Object};

use crate::build::{COUNTS, count_further, life_of, mark_of, touches_rise};
use crate::index::UsersetIndex;
use crate::life::{Life, Way};
use crate::moments::Times;
use crate::objects::numbered;
use crate::spans::Spans;
use marks::MOST_PLACES;
use namespaces::Rules;
use std::alloc::{AllocError, Global};
use version_chains::{Chains, TouchRef};

/// The last timestamp that there is.
const LAST: u64 = u64::MAX;

/// Whether an index grows with a log; and of how many declarations it is then, how many touches were counted before any
/// userset was crowded, and of each touch that was taken where its lives stand: places count from 1, and 0 is none.
#[derive(Drop)]
pub(crate) struct Growth {
    pub(crate) is_growing: bool,
    pub(crate) declared: usize,
    pub(crate) counted: usize,
    pub(crate) own: Vec<u32>,
    pub(crate) through: Vec<u32>,
    pub(crate) objects: Vec<u32>,
}

impl Growth {
    /// Of no touch, and so many declarations.
    pub(crate) fn new(alloc: Global, is_growing: bool, declared: usize) -> Growth
        ensures { (result.own.items ≡ []) × (result.through.items ≡ []) × (result.objects.items ≡ [])
            × (result.declared ≡ declared) × (result.is_growing ≡ is_growing) }
    {
        Growth {
            is_growing,
            declared,
            counted: 0,
            own: Vec::new(alloc),
            through: Vec::new(alloc),
            objects: Vec::new(alloc),
        }
    }
}

/// The lives of the touch before a place end at a timestamp at the latest.
fn close(spans: &mut Spans, places: &[u32], older: usize, until: u64)
    requires { ArePlaced spans.old places.now }
    ensures placed { ArePlaced spans.new places.now }
    ensures closed { IsClosed older until spans.old spans.new }
{
    if older == 0 {
        return;
    }
    if let Some(place) = places.get(older - 1) {
        if *place > 0 {
            spans.end((*place - 1) as usize, until);
        }
    }
}

/// The life of a further touch comes, where it has one.
fn enter(spans: &mut Spans, places: &mut Vec<u32>, life: Option<Life>) -> Result<(), AllocError>
    requires placed { ArePlaced spans.old places.old.items }
    requires of { IfSome life (λ l. l.touch ≡ length places.old.items) }
    ensures placed { OnOk result (ArePlaced spans.new places.new.items) }
    ensures lives { OnOk result (spans.new ≡ kept spans.old life) }
    ensures counted { OnOk result (length places.new.items ≡ length places.old.items + 1) }
{
    let Some(life) = life else {
        places.push(0)?;
        return Ok(());
    };
    let place = spans.len().saturating_add(1);
    spans.push(life)?;
    if place > MOST_PLACES {
        return Err(AllocError);
    }
    places.push(place as u32)?;
    Ok(())
}

/// A further touch is taken: the lives of the one before a place end, and its own comes, where it has one.
fn take_life(
    spans: &mut Spans,
    places: &mut Vec<u32>,
    older: usize,
    until: u64,
    life: Option<Life>,
) -> Result<(), AllocError>
    requires placed { ArePlaced spans.old places.old.items }
    requires of { IfSome life (λ l. l.touch ≡ length places.old.items) }
    ensures { OnOk result (Takes older until life spans.old spans.new places.old.items places.new.items) }
{
    close(spans, places, older, until);
    enter(spans, places, life)
}

/// The life of a touch from its timestamp on, where it adds a userset that is looked for so.
fn life_from(way: Way, rules: &Rules, index: usize, touch: TouchRef<'_>) -> Option<Life>
    ensures finds { IsLifeBy (IsMark rules.now way) index (touch_value touch.entry) result }
    ensures within { IfSome result (IsWithin index (touch_value touch.entry) LAST) }
{
    let mark = mark_of(touch)?;
    life_of(way, rules, mark, index, touch, LAST)
}

/// The same life, to be looked for by the number of its userset's namespace.
fn life_through(chains: &Chains, rules: &Rules, object: Option<Life>) -> Option<Life>
    ensures finds { (i : ℕ) (x : Touch) → slice_get (changelog chains.now.commits) i ≡ Some x
        → IsLifeBy (IsMark rules.now Object) i x object → IsLifeBy (IsMarkThrough rules.now) i x result }
    ensures within { (i : ℕ) (x : Touch) → IfSome object (IsWithin i x LAST) → IfSome result (IsWithin i x LAST) }
{
    numbered(chains, rules, object?)
}

impl UsersetIndex {
    /// The index of a log of these rules of which no touch has come.
    fn begun(alloc: Global, rules: &Rules) -> Result<UsersetIndex, AllocError>
        ensures { IfOk result (λ v. (touches : List Touch) → IsReady rules.now touches v) }
    {
        Ok(UsersetIndex {
            is_whole: false,
            crowds: vec![in alloc; 0u8; COUNTS]?,
            own: Spans::new(alloc),
            through: Spans::new(alloc),
            objects: Spans::new(alloc),
            times: Times::new(alloc),
            growth: Growth::new(alloc, true, rules.len()),
        })
    }

    /// An index that grows with a log, of these rules and no touch so far; or none, where memory runs out.
    pub fn growing(alloc: Global, rules: &Rules) -> UsersetIndex
        ensures { (touches : List Touch) → result.is_growing ≡ true → IsReady rules.now touches result }
    {
        match UsersetIndex::begun(alloc, rules) {
            Ok(index) => index,
            Err(_) => UsersetIndex::new(alloc),
        }
    }

    /// Takes the next touch.
    fn take(
        &mut self,
        chains: &Chains,
        rules: &Rules,
        touch: TouchRef<'_>,
    ) -> Result<(), AllocError>
        requires grown { IsGrownTo rules.now (taken_of (changelog chains.now.commits) self.old) self.old }
        requires next { slice_get (changelog chains.now.commits) (length self.old.own_places)
            ≡ Some (touch_value touch) }
        requires older { touch.older ≡ last_place (λ x. tuple_eq x.tuple (touch_value touch).tuple)
            (changelog chains.now.commits) (length self.old.own_places) }
        ensures grown { OnOk result
            (IsGrownTo rules.now (taken_of (changelog chains.now.commits) self.new) self.new) }
        ensures further { OnOk result (length self.new.own_places ≡ length self.old.own_places + 1) }
        ensures same { OnOk result (IsSameKind self.old self.new) }
    {
        touches_rise(chains);
        let index = self.growth.own.len();
        let older = touch.older;
        let until = touch.at.saturating_sub(1);
        let own = life_from(Way::Own, rules, index, touch);
        let object = life_from(Way::Object, rules, index, touch);
        let through = life_through(chains, rules, object);
        take_life(&mut self.own, &mut self.growth.own, older, until, own)?;
        take_life(
            &mut self.through,
            &mut self.growth.through,
            older,
            until,
            through,
        )?;
        take_life(
            &mut self.objects,
            &mut self.growth.objects,
            older,
            until,
            object,
        )
    }

    /// Takes all touches that came since.
    fn take_all(&mut self, chains: &Chains, rules: &Rules) -> Result<(), AllocError>
        requires grown { IsGrownTo rules.now (taken_of (changelog chains.now.commits) self.old) self.old }
        requires few { length self.old.own_places ≤ length (changelog chains.now.commits) }
        ensures grown { OnOk result
            (IsGrownTo rules.now (taken_of (changelog chains.now.commits) self.new) self.new) }
        ensures all { OnOk result (length self.new.own_places ≡ length (changelog chains.now.commits)) }
        ensures same { OnOk result (IsSameKind self.old self.new) }
    {
        while let Some(touch) = chains.touch(self.growth.own.len()) {
            self.take(chains, rules, touch)?;
        }
        Ok(())
    }

    /// It is of these rules, or none. Where they have changed it is made anew.
    fn renew(&mut self, alloc: Global, rules: &Rules)
        ensures { (touches : List Touch) → (self.old.is_growing ≡ true → IsBegun rules.now touches self.old)
            → self.new.is_growing ≡ true → IsReady rules.now touches self.new }
    {
        if self.growth.declared == rules.len() {
            return;
        }
        if self.growth.is_growing {
            *self = UsersetIndex::growing(alloc, rules);
        }
    }

    /// Counts the touches that came since, until a userset is crowded: from then on it is whole, and all are crowded.
    fn begin(&mut self, chains: &Chains)
        ensures { (ds : List Declaration) (touches : List Touch) → IsReady ds touches self.old
            → IsReady ds touches self.new }
    {
        if !self.is_whole && count_further(&mut self.crowds, &mut self.growth.counted, chains) {
            self.is_whole = true;
            self.crowds.fill(u8::MAX);
        }
    }

    /// Grows with a log of the rules that it is of.
    fn grow_further(&mut self, alloc: Global, chains: &Chains, rules: &Rules)
        requires { IsReady rules.now (changelog chains.now.commits) self.old }
        ensures index { IsUsersetIndex rules.now chains.now.commits self.new }
        ensures grows { IsGrowing rules.now chains.now.commits self.new }
    {
        self.begin(chains);
        if !self.is_whole {
            return;
        }
        match self.take_all(chains, rules) {
            Ok(()) => {}
            Err(_) => *self = UsersetIndex::new(alloc),
        }
    }

    /// Grows with a log, of which it is an index then, or none. It is none until a userset is crowded. Where the rules
    /// have changed it is made anew, which is at most 4,096 times in a trace. Where memory runs out it is none any more.
    pub fn grow(&mut self, alloc: Global, chains: &Chains, rules: &Rules)
        requires { IsGrowing rules.now chains.now.commits self.old }
        ensures index { IsUsersetIndex rules.now chains.now.commits self.new }
        ensures grows { IsGrowing rules.now chains.now.commits self.new }
    {
        self.renew(alloc, rules);
        match self.growth.is_growing {
            true => self.grow_further(alloc, chains, rules),
            false => *self = UsersetIndex::new(alloc),
        }
    }
}
