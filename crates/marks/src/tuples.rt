//! Marks by which tuples and usersets are found.

ghost use Rattle.std.specs.Prelude.{◌≡◌};
ghost use Rattle.tuple_text.specs.Refs.{set_value, user_value};
ghost use Rattle.tuple_text.specs.Tuples.{tuple_of};
ghost use Rattle.tuple_text.specs.declared.users.User.TheVariants.{Id};
ghost use Rattle.marks.specs.Marks as marks;

use crate::words::WordHasher;
use tuple_text::{SetRef, UserRef};

/// A userset with its mark, which is a hash of its texts: equal usersets have equal marks. Whoever asks for a userset
/// more than once makes its mark once.
#[derive(Clone, Copy, Drop)]
pub struct MarkedSet<'a> {
    pub set: SetRef<'a>,
    pub mark: u64,
    ghost is_its_mark: { mark ≡ marks.set_mark (set_value set) },
}

/// A user with its mark: that of a userset, or the id itself.
#[derive(Clone, Copy, Drop)]
pub struct MarkedUser<'a> {
    pub user: UserRef<'a>,
    pub mark: u64,
    ghost is_its_mark: { mark ≡ marks.user_mark (user_value user) },
}

/// The lengths of the texts in one word.
fn lengths(set: SetRef<'_>) -> u64
    ensures { result ≡ marks.lengths (set_value set.entry) }
{
    set.namespace.len() as u64
        ^ (set.id.len() as u64).rotate_left(21)
        ^ (set.relation.len() as u64).rotate_left(42)
}

fn set_mark(set: SetRef<'_>) -> u64
    ensures { result ≡ marks.set_mark (set_value set.entry) }
{
    WordHasher::keyed(lengths(set))
        .with_text(set.namespace)
        .with_text(set.id)
        .with_text(set.relation)
        .finish()
}

fn user_mark(user: UserRef<'_>) -> u64
    ensures { result ≡ marks.user_mark (user_value user.entry) }
{
    match user {
        UserRef::Id(id) => id,
        UserRef::Set(set) => set_mark(set),
    }
}

/// The mark of two marks, in this order.
pub fn pair_mark(first: u64, second: u64) -> u64
    ensures { result ≡ marks.pair_mark first second }
{
    WordHasher::keyed(first).with(second).finish()
}

/// Whether the user is a userset.
pub fn is_userset(user: UserRef<'_>) -> bool
    ensures { result ≡ marks.is_userset (user_value user.entry) }
{
    match user {
        UserRef::Id(_) => false,
        UserRef::Set(_) => true,
    }
}

impl<'a> MarkedSet<'a> {
    /// The userset with its mark.
    pub fn of(set: SetRef<'a>) -> MarkedSet<'a>
        ensures { result.set ≡ set.entry }
    {
        MarkedSet {
            set,
            mark: set_mark(set),
        }
    }
}

impl<'a> MarkedUser<'a> {
    pub fn of(user: UserRef<'a>) -> MarkedUser<'a>
        ensures { result.user ≡ user.entry }
    {
        MarkedUser {
            user,
            mark: user_mark(user),
        }
    }
}

/// The mark of a userset's users of one kind, which are usersets or ids.
pub fn kind_mark(set: MarkedSet<'_>, usersets: bool) -> u64
    ensures { result ≡ marks.kind_mark (marks.set_mark (set_value set.entry.set)) usersets }
{
    if usersets {
        set.mark
    } else {
        // another upper bit, so that the two kinds are in chains of their own
        set.mark ^ 1 << 63
    }
}

/// The mark of a tuple: equal tuples have equal marks.
pub fn tuple_mark(set: MarkedSet<'_>, user: MarkedUser<'_>) -> u64
    ensures { result ≡ marks.tuple_mark (tuple_of (set_value set.entry.set) (user_value user.entry.user)) }
{
    pair_mark(set.mark, user.mark)
}

/// The mark of the fact that a user id is in a userset, and of that tuple: equal facts have equal marks.
pub fn fact_mark(set: MarkedSet<'_>, user: u64) -> u64
    ensures { result ≡ marks.tuple_mark (tuple_of (set_value set.entry.set) (Id user)) }
{
    pair_mark(set.mark, user)
}
