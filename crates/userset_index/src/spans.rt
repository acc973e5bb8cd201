//! Lives, found by their mark and a timestamp.

ghost use Rattle.std.specs.Prelude.{◌≡◌, ◌≤◌, ◌∷◌, ◌++◌, [], Some, length, slice_get, nat_eq, IfOk, IfSome, OnErr, OnOk};
ghost use Rattle.std.specs.Iterator.{YieldsFirstBy, item_count};
ghost use Rattle.marks.specs.Placed.{last_place, most};
ghost use Rattle.userset_index.specs.Lives.{ended, is_alive, touches_alive};
ghost use Rattle.userset_index.specs.Spans.{AreBounded, AreGrown, Bounds, IsBounded, IsPlaceOf, IsSpanAt, Steps, life_of, lives_of, marks_of};

use crate::life::Life;
use marks::{MOST_PLACES, Places};
use std::alloc::{AllocError, Global};
use std::marker::Model;

/// A life, and of the lives with its mark that stand behind the place `jump`, up to this one, the least first
/// timestamp and the greatest last one.
///
/// The jumps are those of a skew-binary list, as in the store: a walk passes over a stretch of lives at once where
/// none of it holds the timestamp, and so finds the next that does in the logarithm of their number.
#[derive(Clone, Copy, Drop)]
pub(crate) struct Span {
    pub(crate) mark: u64,
    pub(crate) from: u64,
    pub(crate) until: u64,
    pub(crate) first: u64,
    pub(crate) last: u64,
    pub(crate) touch: u32,
    pub(crate) jump: u32,
}

/// The rank of a life's jump, and the index of the life whose jump passes over the stretch of this one too, 0 where
/// there is none yet. No answer rests on them.
#[derive(Clone, Copy, Drop)]
struct Joint {
    rank: u8,
    above: u32,
}

/// Lives in the order in which they were added. From each a link leads to the one before it with the same mark. A
/// contract sees the list of lives.
#[derive(Drop)]
pub(crate) struct Spans {
    links: Places,
    spans: Vec<Span>,
    joints: Vec<Joint>,
}

impl Model for Spans {
    ghost use Rattle.std.specs.Prelude.{List};
    ghost use Rattle.userset_index.specs.declared.life.Life.{Life};

    ghost Value = { List Life };

    ghost use Rattle.std.specs.Prelude.{◌≡◌};
    ghost use Rattle.userset_index.specs.Spans.{AreBounded, lives_of, marks_of};

    ghost view = { λ s. lives_of s.spans.items };

    ghost invariant = { λ s. (s.links ≡ marks_of (lives_of s.spans.items)) × AreBounded s.spans.items };
}

/// Whether a timestamp is among those of a span's life.
fn is_alive(span: &Span, at: u64) -> bool
    ensures { result ≡ is_alive at (life_of span.now) }
{
    span.from <= at && at <= span.until
}

/// The span at a place, which counts from 1.
fn at_place(spans: &[Span], place: u32) -> Option<&Span>
    ensures { IfSome result (λ s. IsSpanAt spans.now place s.now) }
{
    if place == 0 {
        return None;
    }
    spans.get((place - 1) as usize)
}

/// The rank of the jump of the span at a place; 0 where there is none. Jumps of one rank pass over equally many lives.
fn rank_at(joints: &[Joint], place: u32) -> u8 {
    if place == 0 {
        return 0;
    }
    match joints.get((place - 1) as usize) {
        Some(joint) => joint.rank,
        None => 0,
    }
}

/// The index of the life whose jump passes over the stretch of the one at an index too, or 0.
fn above(joints: &[Joint], index: usize) -> usize {
    match joints.get(index) {
        Some(joint) => joint.above as usize,
        None => 0,
    }
}

/// Notes the index of that life for the one at a place.
fn set_above(joints: &mut Vec<Joint>, place: u32, above: u32) {
    if place == 0 {
        return;
    }
    if let Some(joint) = joints.get_mut((place - 1) as usize) {
        joint.above = above;
    }
}

/// The span that stands where a jump of this one, which stands at a place, leads, if a jump from there is as long.
fn far_behind<'a>(spans: &'a [Span], joints: &[Joint], place: u32, near: &Span) -> Option<&'a Span>
    ensures { IfSome result (λ s. IsSpanAt spans.now near.now.jump s.now) }
{
    let far = at_place(spans, near.jump)?;
    if rank_at(joints, place) == rank_at(joints, near.jump) {
        Some(far)
    } else {
        None
    }
}

/// The span of a life that goes behind the others, where the one before it with the same mark stands at the place
/// `older`, and the rank of its jump.
fn span_behind(spans: &[Span], joints: &[Joint], older: u32, life: Life) -> (Span, u8)
    requires bounded { AreBounded spans.now }
    requires older { older ≡ last_place (nat_eq life.mark) (marks_of (lives_of spans.now)) (length spans.now) }
    requires touch { life.touch ≤ most }
    ensures life { life_of result.0 ≡ life }
    ensures bounded { IsBounded (lives_of spans.now ++ life ∷ []) (length spans.now) result.0 }
{
    let alone = Span {
        mark: life.mark,
        from: life.from,
        until: life.until,
        first: life.from,
        last: life.until,
        touch: life.touch as u32,
        jump: older,
    };
    let Some(near) = at_place(spans, older) else {
        return (alone, 1);
    };
    let Some(far) = far_behind(spans, joints, older, near) else {
        return (alone, 1);
    };
    let joined = Span {
        first: life.from.min(near.first).min(far.first),
        last: life.until.max(near.last).max(far.last),
        jump: far.jump,
        ..alone
    };
    (joined, rank_at(joints, older).saturating_add(1))
}

/// Notes that the jump of the last life passes over the stretch of the one at a place, and of that to which this one
/// jumps, where it has such a rank.
fn join(spans: &[Span], joints: &mut Vec<Joint>, older: u32, rank: u8) {
    let last = joints.len().saturating_sub(1);
    if rank <= 1 || last > MOST_PLACES {
        return;
    }
    let last = last as u32;
    set_above(joints, older, last);
    if let Some(near) = at_place(spans, older) {
        set_above(joints, near.jump, last);
    }
}

/// The life at an index ends at a timestamp at the latest; what bounds it stays.
fn shorten(spans: &mut Vec<Span>, index: usize, until: u64)
    ensures lives { lives_of spans.new.items ≡ ended index until (lives_of spans.old.items) }
    ensures bounded { AreBounded spans.old.items → AreBounded spans.new.items }
{
    if index < spans.len() {
        let span = spans[index];
        spans[index] = Span {
            until: span.until.min(until),
            ..span
        };
    }
}

/// A bound for the last timestamps of the lives over which the jump of the span at an index passes, by what bounds those
/// of its two parts. `None` where it has no such parts.
fn bound_of(links: &Places, spans: &[Span], index: usize) -> Option<u64>
    requires { AreGrown links.now spans.now }
    ensures { IfSome result (Bounds spans.now index) }
{
    let span = spans.get(index)?;
    let older = links.older(index);
    if span.jump as usize == older {
        return Some(span.until);
    }
    if older == 0 {
        return None;
    }
    let near = spans.get(older - 1)?;
    let far = at_place(spans, near.jump)?;
    if far.jump == span.jump {
        Some(span.until.max(near.last).max(far.last))
    } else {
        None
    }
}

/// Bounds the last timestamps of these lives by no more than is needed. Whether they were bounded by more.
fn tighten(links: &Places, spans: &mut Vec<Span>, index: usize) -> bool
    requires { AreGrown links.now spans.old.items }
    ensures grown { AreGrown links.now spans.new.items }
    ensures lives { lives_of spans.new.items ≡ lives_of spans.old.items }
{
    let Some(last) = bound_of(links, spans, index) else {
        return false;
    };
    if index >= spans.len() || spans[index].last <= last {
        return false;
    }
    let span = spans[index];
    spans[index] = Span { last, ..span };
    true
}

/// The life at an index ends at a timestamp at the latest, and what bounds it is as tight as before.
fn end_at(links: &Places, spans: &mut Vec<Span>, joints: &[Joint], index: usize, until: u64)
    requires { AreGrown links.now spans.old.items }
    ensures grown { AreGrown links.now spans.new.items }
    ensures lives { lives_of spans.new.items ≡ ended index until (lives_of spans.old.items) }
{
    shorten(spans, index, until);
    let mut at = index;
    // a stretch is at least twice as long as its parts
    while tighten(links, spans, at) {
        let place = above(joints, at);
        if place <= at {
            return;
        }
        at = place;
    }
}

/// Where a walk stands after a step, and the touch of the life that it met there, if the timestamp is one of that
/// life's.
#[derive(Clone, Copy, Drop)]
pub(crate) struct Step {
    pub(crate) place: usize,
    pub(crate) found: Option<usize>,
}

impl Spans {
    pub(crate) fn new(alloc: Global) -> Spans
        ensures { result ≡ [] }
    {
        Spans {
            links: Places::new(alloc),
            spans: Vec::new(alloc),
            joints: Vec::new(alloc),
        }
    }

    /// These lives, in this order.
    pub(crate) fn of(alloc: Global, lives: &[Life]) -> Result<Spans, AllocError>
        ensures { IfOk result (λ spans. spans ≡ lives.now) }
    {
        let mut spans = Spans {
            links: Places::with_room(alloc, lives.len())?,
            spans: Vec::with_capacity(alloc, lives.len())?,
            joints: Vec::with_capacity(alloc, lives.len())?,
        };
        for life in lives {
            spans.push(*life)?;
        }
        Ok(spans)
    }

    /// How many lives there are.
    pub(crate) fn len(&self) -> usize
        ensures { result ≡ length self.now }
    {
        self.spans.len()
    }

    /// Puts a life last. Where memory runs out, nothing changes.
    pub(crate) fn push(&mut self, life: Life) -> Result<(), AllocError>
        ensures ok { OnOk result (self.new ≡ self.old ++ life ∷ []) }
        ensures err { OnErr result (self.new ≡ self.old) }
    {
        let older = self.links.newest(life.mark);
        if older > MOST_PLACES || life.touch > MOST_PLACES {
            return Err(AllocError);
        }
        self.spans.reserve(1)?;
        self.joints.reserve(1)?;
        let (span, rank) = span_behind(&self.spans, &self.joints, older as u32, life);
        self.links.push(life.mark)?;
        self.joints.push_reserved(Joint { rank, above: 0 });
        join(&self.spans, &mut self.joints, older as u32, rank);
        self.spans.push_reserved(span);
        Ok(())
    }

    /// The life at an index ends at a timestamp at the latest. It takes steps in the logarithm of the lives.
    pub(crate) fn end(&mut self, index: usize, until: u64)
        ensures { self.new ≡ ended index until self.old }
    {
        end_at(&self.links, &mut self.spans, &self.joints, index, until);
    }

    /// The step of a walk from the life at this index, which looks for those that hold the timestamp.
    fn step(&self, index: usize, at: u64) -> Step
        ensures { (l : Life) → slice_get self.now index ≡ Some l → Steps l.mark at self.now index result }
    {
        let Some(span) = self.spans.get(index) else {
            return Step {
                place: 0,
                found: None,
            };
        };
        if at < span.first || span.last < at {
            return Step {
                place: span.jump as usize,
                found: None,
            };
        }
        Step {
            place: self.links.older(index),
            found: is_alive(span, at).then_some(span.touch as usize),
        }
    }

    /// The touches of the lives with the mark that hold the timestamp.
    pub(crate) fn alive(&self, mark: u64, at: u64) -> Alive<'_>
        ensures { result ≡ touches_alive mark at self.now (length self.now) }
    {
        Alive {
            spans: self,
            mark,
            at,
            place: self.links.newest(mark),
        }
    }
}

/// Touches of the lives with one mark that hold a timestamp, the last first. A contract sees the list of those that
/// are left to give.
#[derive(Drop)]
pub struct Alive<'a> {
    spans: &'a Spans,
    mark: u64,
    at: u64,
    place: usize,
}

impl<'a> Model for Alive<'a> {
    ghost use Rattle.std.specs.Prelude.{ℕ, List};

    ghost Value = { List ℕ };

    ghost use Rattle.userset_index.specs.Lives.{touches_alive};
    ghost use Rattle.userset_index.specs.Spans.{IsPlaceOf};

    ghost view = { λ it. touches_alive it.mark it.at it.spans.now it.place };

    ghost invariant = { λ it. IsPlaceOf it.mark it.spans.now it.place };
}

impl<'a> Iterator for Alive<'a> {
    type Item = usize;

    ghost next_gives = { YieldsFirstBy (λ touch. touch) (λ touches. touches) };

    ghost remaining = { item_count (λ touches. touches) };

    fn next(&mut self) -> Option<usize> {
        while self.place > 0 {
            let step = self.spans.step(self.place - 1, self.at);
            self.place = step.place;
            match step.found {
                Some(touch) => return Some(touch),
                None => {}
            }
        }
        None
    }
}
