//! The store.

ghost use Rattle.std.specs.Prelude.{◌≡◌, ◌<◌, ◌≤◌, ◌+◌, ◌++◌, [], List, ℕ, map, length, All, IfOk, IfErr, IfSome, OnOk, OnErr, None, option_map, slice_get};
ghost use Rattle.std.specs.List.{list_any, IsDistinct};
ghost use Rattle.std.specs.List.Sorted.{IsStrictlyIncreasing};
ghost use Rattle.tuple_text.specs.Order.{tuple_eq, user_eq};
ghost use Rattle.tuple_text.specs.Refs.{set_value};
ghost use Rattle.tuple_text.specs.Sets.{SetValue, set_eq};
ghost use Rattle.tuple_text.specs.TupleRefs.{tuple_values};
ghost use Rattle.tuple_text.specs.Tuples.{TupleValue, tuple_of};
ghost use Rattle.tuple_text.specs.declared.users.User.{User};
ghost use Rattle.tuple_text.specs.declared.users.User.TheVariants.{Id, Set};
ghost use Rattle.version_chains.specs.Appends.{append_fault, appended, last_at, late_fault, IsRefusal};
ghost use Rattle.version_chains.specs.Arena.{AreNumbersOf, AreNumbersOfParts, AreUpTo};
ghost use Rattle.version_chains.specs.Commits.{TouchesOnce, changelog, touches, is_stored, history_of};
ghost use Rattle.marks.specs.Placed.{last_place};
ghost use Rattle.version_chains.specs.Touches.{touch_value};

use crate::arena::Arena;
use crate::fault::AppendFault;
use crate::history::History;
use crate::repeats::first_repeat;
use crate::touch::TouchRef;
use crate::users::{Users, Usersets};
use marks::{MarkedSet, MarkedUser};
use std::alloc::{AllocError, Global};
use std::marker::Model;
use tuple_text::{SetRef, Tuple, TupleRef, UserRef};

/// The commits, in order, and the tuple store that they make at each timestamp (Zanzibar, sections 2.1 and
/// 3.1.1). A contract sees the limit on touches and the list of commits.
#[derive(Drop)]
pub struct Chains {
    alloc: Global,
    times: Vec<u64>,
    arena: Arena,
    limit: u32,
}

impl Model for Chains {
    ghost use Rattle.version_chains.specs.Commits.{Changes};

    ghost Value = { Changes };

    ghost use Rattle.version_chains.specs.Given.{AreCommits, commits_of};

    ghost view = { λ s. record { limit = s.limit; commits = commits_of s.times.items s.arena.touches } };

    ghost invariant = { λ s. AreCommits s.times.items s.arena.touches s.limit };
}

/// Adds the numbers of these tuples, each of which gets one where it has none. No touch changes.
fn number_all(
    arena: &mut Arena,
    tuples: &[TupleRef<'_>],
    numbers: &mut Vec<usize>,
) -> Result<(), AllocError>
    ensures numbers { OnOk result ((ts : List TupleValue) → AreNumbersOf arena.old.tuples numbers.old.items ts
        → AreNumbersOf arena.new.tuples numbers.new.items (ts ++ tuple_values tuples.now)) }
    ensures touches { arena.new.touches ≡ arena.old.touches }
{
    for tuple in tuples {
        let number = arena.number(*tuple)?;
        numbers.push(number)?;
    }
    Ok(())
}

/// Adds a touch of each of these tuples, for which there is room.
fn push_all(arena: &mut Arena, at: u64, live: bool, numbers: &[usize])
    requires numbers { (ts : List TupleValue) × AreNumbersOf arena.old.tuples numbers.now ts }
    requires room { length numbers.now ≤ arena.old.room }
    requires late { AreUpTo at arena.old.touches }
    ensures tuples { arena.new.tuples ≡ arena.old.tuples }
    ensures pushes { (ts : List TupleValue) → AreNumbersOf arena.old.tuples numbers.now ts
        → arena.new.touches ≡ arena.old.touches ++ map (λ t. record { at = at; live = live; tuple = t }) ts }
    ensures room { arena.old.room ≤ arena.new.room + length numbers.now }
{
    for number in numbers {
        arena.push(at, live, *number);
    }
}

/// The numbers of the tuples of a commit, each of which gets one where it has none. No touch changes.
fn numbers_of(
    alloc: Global,
    arena: &mut Arena,
    adds: &[TupleRef<'_>],
    removes: &[TupleRef<'_>],
) -> Result<Vec<usize>, AllocError>
    ensures numbers { IfOk result (λ numbers. AreNumbersOf arena.new.tuples numbers.items (tuple_values adds.now
        ++ tuple_values removes.now)) }
    ensures touches { arena.new.touches ≡ arena.old.touches }
{
    let mut numbers = Vec::with_capacity(alloc, adds.len() + removes.len())?;
    number_all(arena, adds, &mut numbers)?;
    number_all(arena, removes, &mut numbers)?;
    Ok(numbers)
}

/// Adds the touches of a commit, of which the first `adds` numbers are those added. There is room for them.
fn push_commit(arena: &mut Arena, at: u64, adds: usize, numbers: &[usize])
    requires numbers { AreNumbersOfParts arena.old.tuples adds numbers.now }
    requires room { length numbers.now ≤ arena.old.room }
    requires late { AreUpTo at arena.old.touches }
    ensures { (added removed : List TupleValue) → length added ≡ adds
        → AreNumbersOf arena.old.tuples numbers.now (added ++ removed)
        → arena.new.touches ≡ arena.old.touches ++ touches (record { at = at; adds = added; removes = removed }) }
{
    let (added, removed) = numbers.split_at(adds);
    push_all(arena, at, true, added);
    push_all(arena, at, false, removed);
}

/// The tuples, borrowed.
fn borrowed(alloc: Global, tuples: &[Tuple]) -> Result<Vec<TupleRef<'_>>, AllocError>
    ensures { IfOk result (λ refs. tuple_values refs.items ≡ tuples.now) }
{
    let mut refs = Vec::new(alloc);
    for tuple in tuples {
        refs.push(tuple.as_ref())?;
    }
    Ok(refs)
}

impl Chains {
    /// Chains without a commit, which may hold `limit` touches in all.
    pub fn new(alloc: Global, limit: u32) -> Chains
        ensures { result ≡ record { limit = limit; commits = [] } }
    {
        Chains {
            alloc,
            times: Vec::new(alloc),
            arena: Arena::new(alloc),
            limit,
        }
    }

    /// The refusal of a timestamp that is not above the last one.
    fn late_fault(&self, at: u64) -> Option<AppendFault>
        ensures { result ≡ late_fault (last_at self.now.commits) at }
    {
        let last = *self.times.last()?;
        if at <= last {
            Some(AppendFault::NotLater { last })
        } else {
            None
        }
    }

    /// Adds one commit at the end: `adds` are stored from the timestamp `at` on, and `removes` no more. Adding a
    /// tuple that is stored, removing one that is not, and a commit without a touch are accepted.
    ///
    /// Refuses a timestamp that is not above the last one (`NotLater`), a tuple that the commit touches twice
    /// (`TouchedTwice`), and more touches than the limit leaves room for (`Full`), in this order. Where memory is
    /// refused, `OutOfMemory` may stand in place of any of these. After a refusal nothing has changed.
    ///
    /// A commit has one timestamp for all of its touches, and they are seen together or not at all (Zanzibar,
    /// sections 2.2 and 3.1.2).
    pub fn append(&mut self, at: u64, adds: &[Tuple], removes: &[Tuple]) -> Result<(), AppendFault>
        ensures ok { OnOk result (append_fault self.old at adds.now removes.now ≡ None) }
        ensures appends { OnOk result (self.new ≡ appended self.old at adds.now removes.now) }

        // running out of memory may come before any other refusal
        ensures refused { IfErr result (IsRefusal (append_fault self.old at adds.now removes.now)) }
        ensures unchanged { OnErr result (self.new ≡ self.old) }
    {
        let adds = borrowed(self.alloc, adds)?;
        let removes = borrowed(self.alloc, removes)?;
        self.append_borrowed(at, adds.as_slice(), removes.as_slice())
    }

    /// Adds a commit as `append` does, of borrowed tuples. Those that the store does not know yet are copied.
    pub fn append_borrowed(
        &mut self,
        at: u64,
        adds: &[TupleRef<'_>],
        removes: &[TupleRef<'_>],
    ) -> Result<(), AppendFault>
        ensures ok { OnOk result (append_fault self.old at (tuple_values adds.now) (tuple_values removes.now) ≡ None) }
        ensures appends { OnOk result (self.new
            ≡ appended self.old at (tuple_values adds.now) (tuple_values removes.now)) }
        // running out of memory may come before any other refusal
        ensures refused { IfErr result (IsRefusal (append_fault self.old at (tuple_values adds.now) (tuple_values removes.now))) }
        ensures unchanged { OnErr result (self.new ≡ self.old) }
    {
        if let Some(fault) = self.late_fault(at) {
            return Err(fault);
        }
        let numbers = numbers_of(self.alloc, &mut self.arena, adds, removes)?;
        let room = self.limit as usize - self.arena.len();
        if let Some(place) = first_repeat(self.alloc, numbers.as_slice())? {
            return Err(AppendFault::TouchedTwice { place });
        }
        if numbers.len() > room {
            return Err(AppendFault::Full);
        }
        self.times.reserve(1)?;
        self.arena.reserve(numbers.len())?;
        push_commit(&mut self.arena, at, adds.len(), numbers.as_slice());
        self.times.push_reserved(at);
        Ok(())
    }

    /// Whether the tuple is stored at the timestamp: the last of its touches up to then, that one included, adds
    /// it (Zanzibar, section 2.2).
    pub fn has(&self, tuple: &Tuple, at: u64) -> bool
        ensures { result ≡ is_stored self.now.commits at tuple.now }
    {
        let set = MarkedSet::of(tuple.set());
        let user = MarkedUser::of(tuple.user());
        self.arena.is_stored(set, user, at)
    }

    /// Whether the tuple of this userset and this user id is stored at the timestamp.
    pub fn has_id(&self, set: MarkedSet<'_>, user: u64, at: u64) -> bool
        ensures { result ≡ is_stored self.now.commits at (tuple_of (set_value set.entry.set) (Id user)) }
    {
        let id = MarkedUser::of(UserRef::Id(user));
        self.arena.is_stored(set, id, at)
    }

    /// Whether the tuple of these two usersets, the second as its user, is stored at the timestamp.
    pub fn has_set(&self, set: MarkedSet<'_>, user: MarkedSet<'_>, at: u64) -> bool
        ensures { result ≡ is_stored self.now.commits at (tuple_of (set_value set.entry.set) (Set (set_value user.entry.set))) }
    {
        let user = MarkedUser {
            user: UserRef::Set(user.set),
            mark: user.mark,
        };
        self.arena.is_stored(set, user, at)
    }

    /// The users of the userset's tuples that are stored at the timestamp, each once, in no promised order
    /// (Zanzibar, section 2.4.5, expands a userset into its users).
    pub fn users<'a>(&'a self, set: SetRef<'a>, at: u64) -> Users<'a>
        ensures distinct { IsDistinct user_eq result }
        ensures stored { (user : User) → list_any (user_eq user) result
            ≡ is_stored self.now.commits at (tuple_of (set_value set.entry) user) }
    {
        Users::over(&self.arena, MarkedSet::of(set), at)
    }

    /// The usersets among those users, each once, in no promised order. What it takes is that of the usersets alone,
    /// however many ids the userset has.
    pub fn usersets<'a>(&'a self, set: MarkedSet<'a>, at: u64) -> Usersets<'a>
        ensures distinct { IsDistinct set_eq result }
        ensures stored { (g : SetValue)
            → list_any (set_eq g) result ≡ is_stored self.now.commits at (tuple_of (set_value set.entry.set) (Set g)) }
    {
        Usersets::over(&self.arena, set, at)
    }

    /// Each touch of the tuple as its timestamp and whether it adds, the newest first.
    pub fn history<'a>(&'a self, tuple: &'a Tuple) -> History<'a>
        ensures { result ≡ history_of self.now.commits tuple.now }
    {
        History::over(&self.arena, tuple)
    }

    /// The touch at an index of the changelog, which counts from 0, with the place of the touch before it of the same
    /// tuple. `None` behind the last.
    pub fn touch(&self, index: usize) -> Option<TouchRef<'_>>
        ensures value { option_map touch_value result ≡ slice_get (changelog self.now.commits) index }
        ensures older { IfSome result (λ t. t.older
            ≡ last_place (λ x. tuple_eq x.tuple (touch_value t).tuple) (changelog self.now.commits) index) }
    {
        self.arena.touched(index)
    }

    /// The timestamps of the commits, in order.
    pub fn commits(&self) -> &[u64]
        ensures times { result.now ≡ map (λ c. c.at) self.now.commits }
        ensures rising { IsStrictlyIncreasing result.now }
        ensures apart { All TouchesOnce self.now.commits }
    {
        self.times.as_slice()
    }
}
