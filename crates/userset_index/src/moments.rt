//! Of which namespaces usersets are stored in a userset, from moment to moment.

ghost use Rattle.std.specs.Prelude.{◌≡◌, ◌≤◌, ◌<◌, ◌^◌, ℕ, true, false, length, Contains, IfOk, OnOk};
ghost use Rattle.version_chains.specs.Commits.{changelog};
ghost use Rattle.version_chains.specs.Touches.{touch_value};
ghost use Rattle.userset_index.specs.Building.{AreEnds};
ghost use Rattle.userset_index.specs.Index.{HaveMoments, IsCovered};
ghost use Rattle.userset_index.specs.Moments.{Awaits, AtLeast, HoldsStays, IsGiven, IsHeld, IsStayOf};
ghost use Rattle.namespaces.specs.Numbers.{Has};

use crate::build::ends_of;
use crate::life::Life;
use crate::spans::Spans;
use marks::MarkedSet;
use namespaces::{Numbers, RulePlace, Rules};
use rewrites::{Part, PartedRule, Rewrite};
use std::alloc::{AllocError, Global};
use tuple_text::UserRef;
use version_chains::{Chains, TouchRef};

/// How many relations a declaration has at most.
const MOST_RELATIONS: usize = 256;

/// Up to how many namespaces are all looked at for a crowded tupleset, which is quicker than to note which matter.
const FEW_NAMESPACES: u16 = 16;

/// How many slots there are for namespaces, by their numbers.
const SLOTS: u16 = 256;

/// A userset of the namespace of a number is stored in the one with this mark, from a timestamp on up to another.
#[derive(Clone, Copy, Drop)]
struct Stay {
    mark: u64,
    number: u16,
    from: u64,
    until: u64,
}

/// Lives that each say, by what stands at the place `touch` among the numbers, of which namespaces something is
/// stored while they last.
#[derive(Drop)]
struct Moments {
    lives: Vec<Life>,
    numbers: Vec<Numbers>,
}

/// The moments up to now, and the one that lasts on, of the userset with this mark. For each slot stands the last
/// timestamp at which something of its namespaces is stored there.
#[derive(Drop)]
struct Sweep {
    lives: Vec<Life>,
    numbers: Vec<Numbers>,
    untils: Vec<u64>,
    mark: u64,
    from: u64,
    open: Numbers,
}

/// The stay of a touch that may be the last of its tuple up to the timestamp `end`. `None` where it adds no userset,
/// or one of a namespace that nobody declares.
fn stay_of(rules: &Rules, touch: TouchRef<'_>, end: u64) -> Option<Stay>
    ensures { IsStayOf rules.now (touch_value touch.entry) end result }
{
    let UserRef::Set(user) = touch.user.user else {
        return None;
    };
    if !touch.live {
        return None;
    }
    let number = rules.namespace_number(user.namespace)?;
    Some(Stay {
        mark: MarkedSet::of(touch.set).mark,
        number,
        from: touch.at,
        until: end,
    })
}

/// Puts a stay last, and behind it one of nothing from its end on: a moment begins there.
fn push_stay(stays: &mut Vec<Stay>, stay: Stay) -> Result<(), AllocError>
    ensures old { OnOk result ((s : Stay) → Contains stays.old.items s → Contains stays.new.items s) }
    ensures new { OnOk result (Contains stays.new.items stay) }
{
    stays.push(stay)?;
    if let Some(after) = stay.until.checked_add(1) {
        stays.push(Stay {
            mark: stay.mark,
            number: 0,
            from: after,
            until: 0,
        })?;
    }
    Ok(())
}

/// The stays of all usersets. It goes once over the changelog.
fn stays_of(
    alloc: Global,
    chains: &Chains,
    rules: &Rules,
    ends: &[u64],
) -> Result<Vec<Stay>, AllocError>
    requires { AreEnds (changelog chains.now.commits) ends.now }
    ensures { IfOk result (λ stays. HoldsStays rules.now (changelog chains.now.commits) stays.items) }
{
    let mut stays = Vec::new(alloc);
    for index in 0..ends.len() {
        if let Some(touch) = chains.touch(index) {
            if let Some(stay) = stay_of(rules, touch, ends[index]) {
                push_stay(&mut stays, stay)?;
            }
        }
    }
    Ok(stays)
}

/// In the slot of a number stands this timestamp, unless there stands a later one.
fn raise(untils: &mut Vec<u64>, number: u16, until: u64)
    requires { length untils.old.items ≡ 256 }
    ensures room { length untils.new.items ≡ 256 }
    ensures old { (n u : ℕ) → AtLeast untils.old.items n u → AtLeast untils.new.items n u }
    ensures new { AtLeast untils.new.items number until }
{
    let slot = (number % SLOTS) as usize;
    if untils[slot] < until {
        untils[slot] = until;
    }
}

/// The numbers in whose slots no earlier timestamp stands.
fn lasting(untils: &[u64], at: u64) -> Numbers
    requires { length untils.now ≡ 256 }
    ensures { (n u : ℕ) → AtLeast untils.now n u → at ≤ u → Has result n }
{
    let mut numbers = Numbers::none();
    for slot in 0..SLOTS {
        if untils[slot as usize] >= at {
            numbers = numbers.with(slot);
        }
    }
    numbers
}

/// Empties all slots.
fn clear(untils: &mut Vec<u64>)
    requires { length untils.old.items ≡ 256 }
    ensures { length untils.new.items ≡ 256 }
{
    untils.fill(0);
}

impl Sweep {
    /// The moment that lasts on ends at a timestamp.
    fn put(&mut self, until: u64) -> Result<(), AllocError>
        ensures rest { OnOk result ((self.new.untils.items ≡ self.old.untils.items) × (self.new.mark ≡ self.old.mark)) }
        ensures old { OnOk result ((mark n t : ℕ) → IsCovered self.old.lives.items self.old.numbers.items mark n t
            → IsCovered self.new.lives.items self.new.numbers.items mark n t) }
        ensures new { OnOk result ((n t : ℕ) → self.old.from ≤ t → t ≤ until → Has self.old.open n
            → IsCovered self.new.lives.items self.new.numbers.items self.old.mark n t) }
    {
        self.lives.push(Life {
            mark: self.mark,
            touch: self.numbers.len(),
            from: self.from,
            until,
        })?;
        self.numbers.push(self.open)?;
        Ok(())
    }

    /// What lasts on ends where a stay begins: before it where that is of the same userset, and else never.
    fn close(&mut self, stay: Stay) -> Result<(), AllocError>
        requires { length self.old.untils.items ≡ 256 }
        ensures room { OnOk result (length self.new.untils.items ≡ 256) }
        ensures mark { OnOk result (self.new.mark ≡ stay.mark) }
        ensures held { OnOk result ((s : Stay) → IsHeld self.old s → Awaits self.new stay.from s) }
    {
        if self.mark == stay.mark {
            return self.put(stay.from.saturating_sub(1));
        }
        self.put(u64::MAX)?;
        self.mark = stay.mark;
        clear(&mut self.untils);
        Ok(())
    }

    /// From the beginning of a stay on a moment lasts on.
    fn begin(&mut self, stay: Stay)
        requires room { length self.old.untils.items ≡ 256 }
        requires mark { self.old.mark ≡ stay.mark }
        ensures room { length self.new.untils.items ≡ 256 }
        ensures held { (s : Stay) → Awaits self.old stay.from s → IsHeld self.new s }
        ensures new { IsHeld self.new stay }
    {
        raise(&mut self.untils, stay.number, stay.until);
        self.from = stay.from;
        self.open = lasting(&self.untils, stay.from);
    }
}

/// The moments of some stays, those of one userset in the order of their beginnings. It takes some 256 steps for each.
fn moments_of(alloc: Global, stays: &[Stay]) -> Result<Moments, AllocError>
    ensures { IfOk result (λ m. (s : Stay) (t : ℕ) → Contains stays.now s → s.from ≤ t → t ≤ s.until → t < 2 ^ 64
        → IsCovered m.lives.items m.numbers.items s.mark s.number t) }
{
    let mut sweep = Sweep {
        lives: Vec::with_capacity(alloc, stays.len())?,
        numbers: Vec::with_capacity(alloc, stays.len())?,
        untils: vec![in alloc; 0u64; 256]?,
        mark: 0,
        from: 0,
        open: Numbers::none(),
    };
    for stay in stays {
        sweep.close(*stay)?;
        sweep.begin(*stay);
    }
    sweep.put(u64::MAX)?;
    Ok(Moments {
        lives: sweep.lives,
        numbers: sweep.numbers,
    })
}

/// The moments of a store under these rules.
fn all_moments(
    alloc: Global,
    chains: &Chains,
    rules: &Rules,
    ends: &[u64],
) -> Result<Moments, AllocError>
    requires { AreEnds (changelog chains.now.commits) ends.now }
    ensures { IfOk result (λ m. HaveMoments rules.now (changelog chains.now.commits) m.lives.items m.numbers.items) }
{
    let mut stays = stays_of(alloc, chains, rules, ends)?;
    stays.sort_unstable_by_key(|stay| (stay.mark, stay.from));
    moments_of(alloc, &stays)
}

/// Moments, found by their userset's mark and a timestamp, if they were noted.
#[derive(Drop)]
pub(crate) struct Times {
    pub(crate) is_whole: bool,
    pub(crate) moments: Spans,
    pub(crate) numbers: Vec<Numbers>,
}

fn reads_tupleset(part: &Part) -> bool {
    match part {
        Part::Leaf(
            Rewrite::TupleTo {
                tupleset: _,
                computed: _,
            },
        ) => true,
        Part::Leaf(_) => false,
        Part::Through(_) => true,
    }
}

/// Whether a rule reads through tuplesets what it asks by parts.
fn reads_tuplesets(rule: &PartedRule) -> bool {
    for part in &rule.parts {
        if reads_tupleset(part) {
            return true;
        }
    }
    false
}

/// Whether some rule of many places does. It goes once over all rules, and no answer rests on it.
fn is_any_wide(rules: &Rules) -> bool {
    for line in 0..rules.len() {
        for relation in 0..MOST_RELATIONS {
            let Some(plain) = rules.plain_in(RulePlace { line, relation }) else {
                break;
            };
            if let Some(parted) = &plain.parted {
                if reads_tuplesets(parted) {
                    return true;
                }
            }
        }
    }
    false
}

/// Whether it is worth noting what is stored in crowded usersets: a rule of many places reads tuplesets, or for each
/// look at a crowded tupleset many namespaces would be looked at. No answer rests on it.
fn is_worth_noting(rules: &Rules) -> bool {
    rules.namespace(FEW_NAMESPACES + 1).is_some() || is_any_wide(rules)
}

impl Times {
    /// None, of which nothing was noted.
    pub(crate) fn new(alloc: Global) -> Times
        ensures { result.is_whole ≡ false }
    {
        Times {
            is_whole: false,
            moments: Spans::new(alloc),
            numbers: Vec::new(alloc),
        }
    }

    /// Those of a store under these rules in which some userset is crowded. Where no rule of many places reads
    /// tuplesets, and few namespaces are declared, they are not noted.
    pub(crate) fn of(
        alloc: Global,
        chains: &Chains,
        rules: &Rules,
        ends: &[u64],
    ) -> Result<Times, AllocError>
        requires { AreEnds (changelog chains.now.commits) ends.now }
        ensures { IfOk result (λ t. t.is_whole ≡ true
            → HaveMoments rules.now (changelog chains.now.commits) t.moments t.numbers.items) }
    {
        if !is_worth_noting(rules) {
            return Ok(Times::new(alloc));
        }
        let all = all_moments(alloc, chains, rules, ends)?;
        Ok(Times {
            is_whole: true,
            moments: Spans::of(alloc, &all.lives)?,
            numbers: all.numbers,
        })
    }

    /// The same of a store in which none is crowded, where a rule of many places reads tuplesets.
    pub(crate) fn alone(alloc: Global, chains: &Chains, rules: &Rules) -> Result<Times, AllocError>
        ensures { IfOk result (λ t. t.is_whole ≡ true
            → HaveMoments rules.now (changelog chains.now.commits) t.moments t.numbers.items) }
    {
        if !is_any_wide(rules) {
            return Ok(Times::new(alloc));
        }
        let ends = ends_of(alloc, chains)?;
        Times::of(alloc, chains, rules, &ends)
    }

    /// Those namespaces, and those of a moment.
    fn joined(&self, all: Numbers, moment: usize) -> Numbers
        ensures kept { (n : ℕ) → Has all n → Has result n }
        ensures given { IsGiven self.now.numbers.items result moment }
    {
        match self.numbers.get(moment) {
            Some(numbers) => all.joined(*numbers),
            None => all,
        }
    }

    /// The namespaces of all moments of a userset's mark that last at a timestamp. Where no two usersets share it
    /// there is one.
    pub(crate) fn at(&self, mark: u64, at: u64) -> Numbers
        ensures { (n : ℕ) → IsCovered self.now.moments self.now.numbers.items mark n at → Has result n }
    {
        let mut all = Numbers::none();
        for moment in self.moments.alive(mark, at) {
            all = self.joined(all, moment);
        }
        all
    }
}
