//! Facts, few or many.

ghost use Rattle.std.specs.Prelude.{◌≡◌, ◌≤◌, ◌∷◌, ◌++◌, [], Some, length, slice_get, IfOk, OnOk, OnErr, IsTrue, ◌↔◌, Contains, map, option_map, true};
ghost use Rattle.std.specs.Iterator.{YieldsFirstBy, item_count};
ghost use Rattle.std.specs.List.{list_any};
ghost use Rattle.tuple_text.specs.Order.{fact_eq};
ghost use Rattle.tuple_text.specs.Refs.{set_value};
ghost use Rattle.tuple_text.specs.Tuples.{fact_of, fact_tuple};
ghost use Rattle.marks.specs.Marks.{tuple_mark};
ghost use Rattle.marks.specs.Placed.{last_place, passes};
ghost use Rattle.judgement.specs.Facts.{is_of_user, sets_of_user, user_of};

use crate::fact::KnownFact;
use marks::{MarkedSet, Places, fact_mark};
use std::alloc::{AllocError, Global};
use std::marker::Model;
use tuple_text::SetRef;

/// How many facts are looked at one after the other, which needs neither marks nor memory for them.
const FEW: usize = 16;

/// How many facts are compared by the texts of their usersets. From more of them on it is quicker to make the mark of
/// the userset that is asked for, where they keep theirs.
const VERY_FEW: usize = 4;

/// Facts, which contracts see as the list of them in the order in which they were added.
///
/// Where they are more than a few they are found by their marks, as the store finds tuples: no choice of texts makes
/// that slower than the logarithm of their number, as long as few texts have one mark.
#[derive(Drop)]
pub(crate) struct Facts<F: KnownFact> {
    facts: Vec<F>,
    // whether the facts of a user are looked for
    by_user: bool,
    // behind a pointer, since most lists have few facts and none, and are moved more often than they grow
    index: Option<Box<Index>>,
}

/// By what facts are found: their marks, and their users where these are looked for.
#[derive(Drop)]
struct Index {
    marks: Places,
    users: Places,
}

impl<F: KnownFact> Model for Facts<F> {
    ghost use Rattle.std.specs.Prelude.{List, ◌≡◌, map, true};
    ghost use Rattle.std.specs.Option.{ForSome};
    ghost use Rattle.tuple_text.specs.Tuples.{FactValue, fact_tuple};
    ghost use Rattle.marks.specs.Marks.{tuple_mark};
    ghost use Rattle.judgement.specs.Facts.{user_of};
    ghost use Rattle.judgement.specs.KnownCode.{facts_code};

    ghost Value = { List FactValue };

    ghost coded = { facts_code };

    ghost view = { λ s. map F.fact s.facts.items };

    ghost invariant = { λ s. ForSome s.index
        (λ i. (i.value.marks ≡ map tuple_mark (map fact_tuple (map F.fact s.facts.items)))
        × (s.by_user ≡ true → i.value.users ≡ map user_of (map F.fact s.facts.items))) };
}

fn is_among<F: KnownFact>(facts: &[F], set: SetRef<'_>, user: u64) -> bool
    ensures { result ≡ list_any (fact_eq (fact_of (set_value set.entry) user)) (map F.fact facts.now) }
{
    for fact in facts {
        if fact.is_of(set, user) {
            return true;
        }
    }
    false
}

/// Whether the last of the facts is that of a userset and a user id.
fn is_last<F: KnownFact>(facts: &[F], set: SetRef<'_>, user: u64) -> bool
    ensures { result ≡ true → list_any (fact_eq (fact_of (set_value set.entry) user)) (map F.fact facts.now) ≡ true }
{
    match facts.last() {
        Some(fact) => fact.is_of(set, user),
        None => false,
    }
}

fn is_marked_among<F: KnownFact>(facts: &[F], set: MarkedSet<'_>, user: u64) -> bool
    ensures { result ≡ list_any (fact_eq (fact_of (set_value set.entry.set) user)) (map F.fact facts.now) }
{
    for fact in facts {
        if fact.is_of_marked(set, user) {
            return true;
        }
    }
    false
}

/// The marks of facts, in order, with room for so many.
fn marks_of<F: KnownFact>(alloc: Global, facts: &[F], room: usize) -> Result<Places, AllocError>
    ensures { IfOk result (λ marks. marks ≡ map tuple_mark (map fact_tuple (map F.fact facts.now))) }
{
    let mut marks = Places::with_room(alloc, room)?;
    for fact in facts {
        marks.push(fact.mark())?;
    }
    Ok(marks)
}

/// The users of facts, in order, with room for so many.
fn users_of<F: KnownFact>(alloc: Global, facts: &[F], room: usize) -> Result<Places, AllocError>
    ensures { IfOk result (λ users. users ≡ map user_of (map F.fact facts.now)) }
{
    let mut users = Places::with_room(alloc, room)?;
    for fact in facts {
        users.push(fact.user_id())?;
    }
    Ok(users)
}

/// The last place among the first so many at which a fact of a user stands; 0 where there is none.
fn last_of<F: KnownFact>(facts: &[F], user: u64, places: usize) -> usize
    requires { places ≤ length facts.now }
    ensures { result ≡ last_place (is_of_user user) (map F.fact facts.now) places }
{
    let mut place = places;
    while place > 0 && facts[place - 1].user_id() != user {
        place -= 1;
    }
    place
}

/// Whether a fact stands at a place that its mark, which is at hand, names.
fn is_found<F: KnownFact>(
    facts: &[F],
    marks: &Places,
    mark: u64,
    set: MarkedSet<'_>,
    user: u64,
) -> bool
    requires marks { marks.now ≡ map tuple_mark (map fact_tuple (map F.fact facts.now)) }
    requires mark { mark ≡ tuple_mark (fact_tuple (fact_of (set_value set.set) user)) }
    ensures { IsTrue result ↔ Contains (map F.fact facts.now) (fact_of (set_value set.entry.set) user) }
{
    for index in marks.with(mark) {
        if facts[index].is_of_marked(set, user) {
            return true;
        }
    }
    false
}

/// Whether a fact stands at a place before the last one, which is that of its own mark.
fn is_behind<F: KnownFact>(facts: &[F], marks: &Places, set: MarkedSet<'_>, user: u64) -> bool
    requires { marks.now ≡ map tuple_mark (map fact_tuple (map F.fact facts.now))
        ++ tuple_mark (fact_tuple (fact_of (set_value set.set) user)) ∷ [] }
    ensures { IsTrue result ↔ Contains (map F.fact facts.now) (fact_of (set_value set.entry.set) user) }
{
    let mut place = marks.older(facts.len());
    while place > 0 {
        let index = place - 1;
        let next = marks.older(index);
        if facts[index].is_of_marked(set, user) {
            return true;
        }
        place = next;
    }
    false
}

/// An index of facts, with room for so many. The users are those of the facts where they are looked for.
fn index_of<F: KnownFact>(
    alloc: Global,
    facts: &[F],
    by_user: bool,
    room: usize,
) -> Result<Index, AllocError>
    ensures marks { IfOk result (λ i. i.marks ≡ map tuple_mark (map fact_tuple (map F.fact facts.now))) }
    ensures users { IfOk result (λ i. by_user ≡ true → i.users ≡ map user_of (map F.fact facts.now)) }
{
    let marks = marks_of(alloc, facts, room)?;
    let users = if by_user {
        users_of(alloc, facts, room)?
    } else {
        Places::new(alloc)
    };
    Ok(Index { marks, users })
}

impl Index {
    /// Adds a fact of this mark, and its user where users are looked for.
    fn push(&mut self, mark: u64, by_user: bool, user: u64) -> Result<(), AllocError>
        ensures marks { OnOk result (self.new.marks ≡ self.old.marks ++ mark ∷ []) }
        ensures users { OnOk result (by_user ≡ true → self.new.users ≡ self.old.users ++ user ∷ []) }
    {
        self.marks.push(mark)?;
        if by_user {
            self.users.push(user)?;
        }
        Ok(())
    }

    /// Adds a fact behind these. Where it is asked, says whether the fact is one of them: the place before its own with
    /// the same mark tells that, so that the mark is looked for once.
    fn add<F: KnownFact>(
        &mut self,
        facts: &[F],
        fact: &F,
        by_user: bool,
        is_asked: bool,
    ) -> Result<bool, AllocError>
        requires { self.old.marks ≡ map tuple_mark (map fact_tuple (map F.fact facts.now)) }
        ensures marks { OnOk result (self.new.marks ≡ self.old.marks ++ tuple_mark
            (fact_tuple (F.fact fact.now)) ∷ []) }
        ensures users { OnOk result (by_user ≡ true
            → self.new.users ≡ self.old.users ++ user_of (F.fact fact.now) ∷ []) }
        ensures was { IfOk result (λ was. is_asked ≡ true → IsTrue was
            ↔ Contains (map F.fact facts.now) (F.fact fact.now)) }
    {
        let mark = fact.mark();
        self.push(mark, by_user, fact.user_id())?;
        let was = is_asked && is_behind(facts, &self.marks, fact.marked_set(), fact.user_id());
        Ok(was)
    }
}

impl<F: KnownFact> Facts<F> {
    /// No fact. By a user they are found quickly where `by_user` says so.
    pub(crate) fn new(alloc: Global, by_user: bool) -> Facts<F>
        ensures { result ≡ [] }
    {
        Facts {
            facts: Vec::new(alloc),
            by_user,
            index: None,
        }
    }

    /// No fact, and memory for so many. Their marks want memory nevertheless.
    pub(crate) fn with_room(
        alloc: Global,
        by_user: bool,
        count: usize,
    ) -> Result<Facts<F>, AllocError>
        ensures { IfOk result (λ s. s ≡ []) }
    {
        Ok(Facts {
            facts: Vec::with_capacity(alloc, count)?,
            by_user,
            index: None,
        })
    }

    /// Finds all facts by an index from now on. There is room in it for as many as for facts. Where memory runs out,
    /// nothing changes.
    fn mark(&mut self) -> Result<(), AllocError>
        ensures same { self.new ≡ self.old }
    {
        if self.index.is_none() {
            let alloc = *self.facts.allocator();
            let room = self.facts.capacity().max(2 * FEW);
            let index = index_of(alloc, &self.facts, self.by_user, room)?;
            self.index = Some(Box::new(alloc, index)?);
        }
        Ok(())
    }

    /// Adds a fact. Where it is asked, says whether the fact was there before. Where memory runs out, the facts stay as
    /// they were.
    pub(crate) fn add(&mut self, fact: F, is_asked: bool) -> Result<bool, AllocError>
        ensures ok { OnOk result (self.new ≡ self.old ++ F.fact fact ∷ []) }
        ensures was { IfOk result (λ was. is_asked ≡ true → IsTrue was ↔ Contains self.old (F.fact fact)) }
        ensures err { OnErr result (self.new ≡ self.old) }
    {
        if self.facts.len() >= FEW {
            self.mark()?;
        }
        self.facts.reserve(1)?;
        let was = match self.index.take() {
            Some(mut index) => {
                // where memory is refused, the next fact makes another
                let was = index.add(&self.facts, &fact, self.by_user, is_asked)?;
                self.index = Some(index);
                was
            }
            None => is_asked && is_marked_among(&self.facts, fact.marked_set(), fact.user_id()),
        };
        self.facts.push_reserved(fact);
        Ok(was)
    }

    /// Whether it is worth while to make the mark of a userset that is asked for.
    fn is_asked_by_mark(&self) -> bool {
        self.index.is_some() || F::keeps_mark() && self.facts.len() > VERY_FEW
    }

    /// Whether the fact of a userset and a user id is there.
    pub(crate) fn has(&self, set: SetRef<'_>, user: u64) -> bool
        ensures { IsTrue result ↔ Contains self.now (fact_of (set_value set.entry) user) }
    {
        // a step mostly rests on the one before it
        if is_last(&self.facts, set, user) {
            return true;
        }
        if self.is_asked_by_mark() {
            self.has_marked(MarkedSet::of(set), user)
        } else {
            is_among(&self.facts, set, user)
        }
    }

    /// The same for a userset whose mark is at hand.
    pub(crate) fn has_marked(&self, set: MarkedSet<'_>, user: u64) -> bool
        ensures { IsTrue result ↔ Contains self.now (fact_of (set_value set.entry.set) user) }
    {
        match &self.index {
            Some(index) => is_found(&self.facts, &index.marks, fact_mark(set, user), set, user),
            None => is_marked_among(&self.facts, set, user),
        }
    }

    /// The newest place at which a fact of a user stands, counted from 1; 0 where there is none.
    fn newest_of(&self, user: u64) -> usize
        ensures { result ≡ last_place (is_of_user user) self.now (length self.now) }
    {
        match &self.index {
            Some(index) if self.by_user => index.users.newest(user),
            _ => last_of(&self.facts, user, self.facts.len()),
        }
    }

    /// The place before that of the fact at this index, with a fact of the same user.
    fn older_of(&self, index: usize, user: u64) -> usize
        ensures { passes (is_of_user user) (slice_get self.now index) ≡ true
            → result ≡ last_place (is_of_user user) self.now index }
    {
        match &self.index {
            Some(found) if self.by_user => found.users.older(index),
            _ => last_of(&self.facts, user, index.min(self.facts.len())),
        }
    }

    /// The userset of the fact at an index.
    fn set_at(&self, index: usize) -> Option<MarkedSet<'_>>
        ensures { option_map (λ g. set_value g.set) result ≡ option_map (λ f. f.set) (slice_get self.now index) }
    {
        match self.facts.get(index) {
            Some(fact) => Some(fact.marked_set()),
            None => None,
        }
    }

    /// The usersets of the facts of a user, the newest first.
    pub(crate) fn sets_of(&self, user: u64) -> SetsOfUser<'_, F>
        ensures { result ≡ sets_of_user user self.now }
    {
        SetsOfUser {
            facts: self,
            user,
            place: self.newest_of(user),
        }
    }
}

/// The usersets of a user's facts. A contract sees the list of those that are left to give.
#[derive(Drop)]
pub struct SetsOfUser<'a, F: KnownFact> {
    facts: &'a Facts<F>,
    user: u64,
    place: usize,
}

impl<'a, F: KnownFact> Model for SetsOfUser<'a, F> {
    ghost use Rattle.std.specs.Prelude.{List};
    ghost use Rattle.tuple_text.specs.Sets.{SetValue};
    ghost use Rattle.marks.specs.Placed.{IsLinkedPlace};
    ghost use Rattle.judgement.specs.Facts.{is_of_user, sets_before};

    ghost Value = { List SetValue };

    ghost view = { λ it. sets_before it.user it.facts.now it.place };

    ghost invariant = { λ it. IsLinkedPlace (is_of_user it.user) it.facts.now it.place };
}

impl<'a, F: KnownFact> Iterator for SetsOfUser<'a, F> {
    type Item = MarkedSet<'a>;

    ghost next_gives = { YieldsFirstBy (λ g. set_value g.set) (λ sets. sets) };

    ghost remaining = { item_count (λ sets. sets) };

    fn next(&mut self) -> Option<MarkedSet<'a>> {
        if self.place == 0 {
            return None;
        }
        let index = self.place - 1;
        let set = self.facts.set_at(index)?;
        self.place = self.facts.older_of(index, self.user);
        Some(set)
    }
}
