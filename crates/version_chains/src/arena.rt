//! The arena in which tuples and touches are kept.

ghost use Rattle.std.specs.Prelude.{◌≡◌, ℕ, ◌<◌, ◌≤◌, ◌+◌, ◌∷◌, ◌++◌, [], Some, length, slice_get, IfOk, IfSome, OnOk, OnErr, MatchOption, false, true, None, option_map};
ghost use Rattle.tuple_text.specs.Order.{tuple_eq};
ghost use Rattle.tuple_text.specs.Refs.{set_value, user_value};
ghost use Rattle.tuple_text.specs.Sets.{set_eq};
ghost use Rattle.tuple_text.specs.TupleRefs.{tuple_value};
ghost use Rattle.tuple_text.specs.Tuples.{tuple_of, TupleValue};
ghost use Rattle.version_chains.specs.Arena.{AreApartAt, AreUpTo, Extends, IsNumber, IsOfSet};
ghost use Rattle.version_chains.specs.Commits.{Touch, touches_to, until, last_live};
ghost use Rattle.version_chains.specs.Given.{AreLaterFrom, AreTouchesKnown, FindsNumber, Gives, IsTouchAt, IsUnnumbered, IsUntouched, IsWalkUntil, LeadsBack, has_mark_of, is_given, is_stored_by, newest_of};
ghost use Rattle.marks.specs.Marks as marks;
ghost use Rattle.marks.specs.Marks.{is_userset};
ghost use Rattle.marks.specs.Placed.{last_place, most};
ghost use Rattle.version_chains.specs.Rows.{row_value};
ghost use Rattle.version_chains.specs.Touches.{touch_value};

use crate::node::{Node, at_place, next_links};
use crate::row::RowRef;
use crate::rows::Rows;
use crate::touch::TouchRef;
use marks::{MOST_PLACES, MarkedSet, MarkedUser, Places, is_userset, kind_mark, tuple_mark};
use std::alloc::{AllocError, Global};
use std::marker::Model;
use tuple_text::{SetRef, TupleRef, UserRef};

/// Tuples, each kept once, and their touches in order. A tuple is named by its number, which counts from 0; a place
/// counts from 1, and 0 is no place.
///
/// From each touch a link leads to the one before it of the same tuple, and from each tuple to the one before it of
/// the same userset whose user is of the same kind, a userset or an id, so that each question is a walk back from the
/// newest.
#[derive(Drop)]
pub struct Arena {
    rows: Rows,
    named: Places,
    held: Places,
    nodes: Vec<Node>,
}

impl Model for Arena {
    ghost use Rattle.std.specs.Prelude.{map, vec_len, vec_capacity};
    ghost use Rattle.version_chains.specs.Arena.{Held, room_of, tuples_of};

    ghost Value = { Held };

    ghost use Rattle.std.specs.Prelude.{◌≤◌, length};
    ghost use Rattle.version_chains.specs.Arena.{IsLinked, latest_of, touch_of};
    ghost use Rattle.marks.specs.Placed.{most};

    ghost view = { λ a. record { tuples = tuples_of a.rows; touches = map (touch_of (tuples_of a.rows)) a.nodes.items; room = room_of (vec_capacity a.nodes) (vec_len a.nodes) } };

    ghost invariant = { λ a. IsLinked (tuples_of a.rows) (latest_of a.rows) a.named a.held a.nodes.items
        × (length a.rows ≤ most) };
}

/// How many touches a tuple has before its newest where the last one up to a timestamp is looked for by time.
const MANY_TOUCHES: u16 = 16;

/// At how many touches up to a timestamp, of any tuples, such a look goes on.
const NEAR_TOUCHES: usize = 8;

/// The marks of a tuple that is new: by which it and its userset's users of the kind are found, and that of its user.
#[derive(Clone, Copy, Drop)]
struct NewMarks {
    name: u64,
    kind: u64,
    user: u64,
}

/// Whether the row has this userset and this user.
#[inline(always)]
fn names(row: &RowRef<'_>, set: SetRef<'_>, user: UserRef<'_>) -> bool
    ensures { result ≡ tuple_eq (row_value row.now).tuple (tuple_of (set_value set.entry) (user_value user.entry)) }
{
    row.set == set && row.user.user == user
}

/// Adds a place with a mark to each of two lists. Where memory runs out, nothing changes.
fn push_both(named: &mut Places, held: &mut Places, name: u64, kind: u64) -> Result<(), AllocError>
    ensures named { OnOk result (named.new ≡ named.old ++ name ∷ []) }
    ensures held { OnOk result (held.new ≡ held.old ++ kind ∷ []) }
    ensures named_kept { OnErr result (named.new ≡ named.old) }
    ensures held_kept { OnErr result (held.new ≡ held.old) }
{
    named.push(name)?;
    if let Err(fault) = held.push(kind) {
        named.pop();
        return Err(fault);
    }
    Ok(())
}

/// Adds a tuple without a touch, and its places. Where memory runs out, nothing changes.
fn push_tuple(
    rows: &mut Rows,
    named: &mut Places,
    held: &mut Places,
    tuple: TupleRef<'_>,
    of: NewMarks,
) -> Result<(), AllocError>
    requires { of.user ≡ marks.user_mark (tuple_value tuple).user }
    ensures rows { OnOk result (rows.new ≡ rows.old ++ record { tuple = tuple_value tuple.entry; latest = 0 } ∷ []) }
    ensures named { OnOk result (named.new ≡ named.old ++ of.name ∷ []) }
    ensures held { OnOk result (held.new ≡ held.old ++ of.kind ∷ []) }
    ensures rows_kept { OnErr result (rows.new ≡ rows.old) }
    ensures named_kept { OnErr result (named.new ≡ named.old) }
    ensures held_kept { OnErr result (held.new ≡ held.old) }
{
    push_both(named, held, of.name, of.kind)?;
    let near = held.older(rows.len());
    if let Err(fault) = rows.push(tuple, of.user, near) {
        named.pop();
        held.pop();
        return Err(fault);
    }
    Ok(())
}

impl Arena {
    pub fn new(alloc: Global) -> Arena
        ensures tuples { result.tuples ≡ [] }
        ensures touches { result.touches ≡ [] }
    {
        Arena {
            rows: Rows::new(alloc),
            named: Places::new(alloc),
            held: Places::new(alloc),
            nodes: Vec::new(alloc),
        }
    }

    /// How many touches there are. No tuple has two numbers.
    pub fn len(&self) -> usize
        ensures count { result ≡ length self.now.touches }
        ensures apart { AreApartAt self.now.tuples }
    {
        self.nodes.len()
    }

    /// The number of a tuple.
    pub fn find(&self, set: MarkedSet<'_>, user: MarkedUser<'_>) -> Option<usize>
        ensures found { MatchOption result (IsUnnumbered self.now (tuple_of (set_value set.entry.set) (user_value user.entry.user)))
            (IsNumber self.now.tuples (tuple_of (set_value set.entry.set) (user_value user.entry.user))) }
        ensures untouched { result ≡ None
            → IsUntouched self.now (tuple_of (set_value set.entry.set) (user_value user.entry.user)) }
    {
        self.find_marked(tuple_mark(set, user), set, user)
    }

    /// Whether the tuple of the number has this userset and this user.
    #[inline(always)]
    fn is_named(&self, number: usize, set: SetRef<'_>, user: UserRef<'_>) -> bool
        ensures { (t : TupleValue) → IsNumber self.now.tuples t number
            → result ≡ tuple_eq t (tuple_of (set_value set.entry) (user_value user.entry)) }
    {
        match self.rows.get(number) {
            Some(row) => names(&row, set, user),
            None => false,
        }
    }

    /// The number of a tuple whose mark is at hand. Most that are asked for are not there, which shows without a look
    /// at a tuple.
    #[inline(always)]
    fn find_marked(&self, mark: u64, set: MarkedSet<'_>, user: MarkedUser<'_>) -> Option<usize>
        requires { mark ≡ marks.tuple_mark (tuple_of (set_value set.set) (user_value user.user)) }
        ensures { FindsNumber self.now (tuple_of (set_value set.entry.set) (user_value user.entry.user)) result }
    {
        if self.named.newest(mark) == 0 {
            return None;
        }
        self.find_named(mark, set, user)
    }

    /// The same by going over the tuples with this mark.
    #[inline(never)]
    fn find_named(&self, mark: u64, set: MarkedSet<'_>, user: MarkedUser<'_>) -> Option<usize>
        requires { mark ≡ marks.tuple_mark (tuple_of (set_value set.set) (user_value user.user)) }
        ensures { FindsNumber self.now (tuple_of (set_value set.entry.set) (user_value user.entry.user)) result }
    {
        for number in self.named.with(mark) {
            if self.is_named(number, set.set, user.user) {
                return Some(number);
            }
        }
        None
    }

    /// The place of the newest tuple of the userset whose user is of the kind, or of one with the same mark. No tuple
    /// stands at two places, and each touch is of a tuple that stands at one.
    pub fn newest_of_set(&self, set: MarkedSet<'_>, usersets: bool) -> usize
        ensures apart { AreApartAt self.now.tuples }
        ensures known { AreTouchesKnown self.now }
        ensures newest { result
            ≡ last_place (has_mark_of (set_value set.entry.set) usersets) self.now.tuples (length self.now.tuples) }
    {
        self.held.newest(kind_mark(set, usersets))
    }

    /// The place of the tuple before this one whose userset and kind of user have the same mark.
    pub fn sibling(&self, number: usize) -> usize
        ensures { (t : TupleValue) → IsNumber self.now.tuples t number
            → result ≡ last_place (has_mark_of t.set (is_userset t.user)) self.now.tuples number }
    {
        self.held.older(number)
    }

    /// The place of the tuple's newest touch.
    pub fn newest(&self, number: usize) -> usize
        ensures { (t : TupleValue) → IsNumber self.now.tuples t number
            → result ≡ newest_of t self.now.touches (length self.now.touches) }
    {
        self.rows.latest(number) as usize
    }

    /// The place of the newest touch of this tuple.
    pub fn newest_touch(&self, set: MarkedSet<'_>, user: MarkedUser<'_>) -> usize
        ensures { result ≡ newest_of (tuple_of (set_value set.entry.set) (user_value user.entry.user)) self.now.touches (length self.now.touches) }
    {
        match self.find(set, user) {
            Some(number) => self.newest(number),
            None => 0,
        }
    }

    /// The touch at an index, whose link is to the touch before it of the same tuple.
    pub fn touch(&self, index: usize) -> Option<&Node>
        ensures { MatchOption result (length self.now.touches ≤ index) (λ n. IsTouchAt self.now.touches index n.now) }
    {
        self.nodes.get(index)
    }

    /// The touch at an index with its tuple, and the place of the touch before it of the same tuple.
    pub fn touched(&self, index: usize) -> Option<TouchRef<'_>>
        ensures value { option_map touch_value result ≡ slice_get self.now.touches index }
        ensures older { IfSome result (λ t. t.older ≡ newest_of (touch_value t).tuple self.now.touches index) }
    {
        let touch = self.nodes.get(index)?;
        let row = self.rows.get(touch.tuple as usize)?;
        Some(TouchRef {
            at: touch.at,
            live: touch.live,
            set: row.set,
            user: row.user,
            older: touch.older as usize,
        })
    }

    /// The place from which a walk goes on that looks for a touch up to the timestamp, where the touch at this index is
    /// after it: that of its jump, where the touch there is after it too, else that of the touch before it.
    fn further(&self, index: usize, at: u64) -> usize
        ensures { (x : Touch) → slice_get self.now.touches index ≡ Some x → at < x.at
            → LeadsBack x.tuple at self.now.touches index result }
    {
        let Some(touch) = self.nodes.get(index) else {
            return 0;
        };
        match at_place(self.nodes.as_slice(), touch.jump) {
            Some(far) if far.at > at && touch.jump as usize <= index => touch.jump as usize,
            _ => touch.older as usize,
        }
    }

    /// How many touches there are up to the timestamp.
    fn count_until(&self, at: u64) -> usize
        ensures within { result ≤ length self.now.touches }
        ensures later { AreLaterFrom at self.now.touches result }
    {
        self.nodes.partition_point(|touch| touch.at <= at)
    }

    /// The place of the tuple's last touch among the first `count`, where it is one of the last few of these.
    fn near(&self, number: usize, count: usize) -> Option<usize>
        requires { count ≤ length self.now.touches }
        ensures { (t : TupleValue) → IsNumber self.now.tuples t number
            → IfSome result (λ place. place ≡ newest_of t self.now.touches count) }
    {
        for back in 0..NEAR_TOUCHES.min(count) {
            let place = count - back;
            if self.nodes[place - 1].tuple as usize == number {
                return Some(place);
            }
        }
        None
    }

    /// Whether the touch at the place is after the timestamp, and many of the same tuple stand before it.
    fn is_far(&self, place: usize, at: u64) -> bool {
        place > 0
            && match self.touch(place - 1) {
                Some(touch) => touch.at > at && touch.depth >= MANY_TOUCHES,
                None => false,
            }
    }

    /// The place from which a walk begins that looks for the tuple's last touch up to the timestamp: the newest, or
    /// where that is far away the one that is looked for, if it is found near the last touch of any tuple up to then.
    fn beginning(&self, number: usize, at: u64) -> usize
        ensures { (t : TupleValue) → IsNumber self.now.tuples t number → IsWalkUntil t at self.now.touches result }
    {
        let newest = self.newest(number);
        if !self.is_far(newest, at) {
            return newest;
        }
        self.near(number, self.count_until(at)).unwrap_or(newest)
    }

    /// Whether the last touch of the tuple, up to the timestamp, adds it.
    pub fn is_live(&self, number: usize, at: u64) -> bool
        ensures { (t : TupleValue) → IsNumber self.now.tuples t number → result ≡ is_stored_by self.now.touches at t }
    {
        let mut place = self.beginning(number, at);
        while place > 0 {
            let Some(touch) = self.touch(place - 1) else {
                return false;
            };
            if touch.at <= at {
                return touch.live;
            }
            place = self.further(place - 1, at);
        }
        false
    }

    /// Whether the tuple of this userset and this user is stored at the timestamp.
    pub fn is_stored(&self, set: MarkedSet<'_>, user: MarkedUser<'_>, at: u64) -> bool
        ensures { result ≡ is_stored_by self.now.touches at (tuple_of (set_value set.entry.set) (user_value user.entry.user)) }
    {
        match self.find(set, user) {
            Some(number) => self.is_live(number, at),
            None => false,
        }
    }

    /// Whether the tuple of the number shares the texts of its userset with a tuple that is given.
    #[inline(always)]
    fn is_like(&self, number: usize, like: Option<usize>) -> bool
        ensures { result ≡ true → (t : TupleValue) → IsNumber self.now.tuples t number
            → (u : TupleValue) × (n : ℕ) × (like ≡ Some n) × IsNumber self.now.tuples u n × (t.set ≡ u.set) }
    {
        match like {
            Some(like) => self.rows.share_set(number, like),
            None => false,
        }
    }

    /// Whether the tuple of the number is of this userset. Where it shares its texts with one that is, they are not
    /// compared.
    #[inline(always)]
    fn is_of_set(&self, number: usize, set: SetRef<'_>, like: Option<usize>) -> bool
        requires { IfSome like (IsOfSet self.now.tuples (set_value set)) }
        ensures { (t : TupleValue) → IsNumber self.now.tuples t number → result ≡ set_eq t.set (set_value set.entry) }
    {
        if self.is_like(number, like) {
            return true;
        }
        match self.rows.get(number) {
            Some(row) => row.set == set,
            None => false,
        }
    }

    /// The user of the tuple, where it is of the kind and the tuple is of this userset and stored at the timestamp. A
    /// tuple of that userset may be at hand.
    pub fn given(
        &self,
        number: usize,
        set: SetRef<'_>,
        like: Option<usize>,
        usersets: bool,
        at: u64,
    ) -> Option<MarkedUser<'_>>
        requires { IfSome like (IsOfSet self.now.tuples (set_value set)) }
        ensures { (t : TupleValue) → IsNumber self.now.tuples t number
            → Gives result (is_given (set_value set.entry) usersets at self.now.touches t) t.user }
    {
        let row = self.rows.get(number)?;
        if self.is_of_set(number, set, like)
            && is_userset(row.user.user) == usersets
            && self.is_live(number, at)
        {
            Some(row.user)
        } else {
            None
        }
    }

    /// The number of the tuple, which gets one where it has none. No touch changes.
    pub fn number(&mut self, tuple: TupleRef<'_>) -> Result<usize, AllocError>
        ensures ok { IfOk result (IsNumber self.new.tuples (tuple_value tuple.entry)) }
        ensures extends { Extends self.old.tuples self.new.tuples }
        ensures touches { self.new.touches ≡ self.old.touches }
    {
        let set = MarkedSet::of(tuple.set());
        let user = MarkedUser::of(tuple.user());
        let mark = tuple_mark(set, user);
        if let Some(number) = self.find_marked(mark, set, user) {
            return Ok(number);
        }
        let number = self.rows.len();
        if number >= MOST_PLACES {
            return Err(AllocError);
        }
        let of = NewMarks {
            name: mark,
            kind: kind_mark(set, is_userset(user.user)),
            user: user.mark,
        };
        push_tuple(&mut self.rows, &mut self.named, &mut self.held, tuple, of)?;
        Ok(number)
    }

    /// Makes room for more touches.
    pub fn reserve(&mut self, touches: usize) -> Result<(), AllocError>
        requires few { length self.old.touches + touches ≤ most }
        ensures tuples { self.new.tuples ≡ self.old.tuples }
        ensures touches { self.new.touches ≡ self.old.touches }
        ensures room { OnOk result (touches ≤ self.new.room) }
    {
        self.nodes.reserve(touches)
    }

    /// Adds a touch of the tuple at the end, for which there is room.
    pub fn push(&mut self, at: u64, live: bool, number: usize)
        requires known { number < length self.old.tuples }
        requires late { AreUpTo at self.old.touches }
        requires room { 0 < self.old.room }
        ensures tuples { self.new.tuples ≡ self.old.tuples }
        ensures pushes { (t : TupleValue) → IsNumber self.old.tuples t number
            → self.new.touches ≡ self.old.touches ++ record { at = at; live = live; tuple = t } ∷ [] }
        ensures room { self.old.room ≤ self.new.room + 1 }
    {
        let older = self.rows.latest(number);
        let links = next_links(self.nodes.as_slice(), older);
        let node = Node {
            at,
            tuple: number as u32,
            older,
            jump: links.jump,
            depth: links.depth,
            rank: links.rank,
            live,
        };
        self.nodes.push_reserved(node);
        let place = self.nodes.len() as u32;
        self.rows.set_latest(number, place);
    }
}
