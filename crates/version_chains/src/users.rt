//! The users of a userset.

ghost use Rattle.std.specs.Prelude.{◌≡◌, ◌&&◌, [], None, true, false, IfSome, option_map};
ghost use Rattle.std.specs.Iterator.{YieldsFirstBy, item_count};
ghost use Rattle.std.specs.List.{list_any, cons_option, IsDistinct};
ghost use Rattle.tuple_text.specs.Order.{user_eq};
ghost use Rattle.tuple_text.specs.Refs.{set_value, user_value};
ghost use Rattle.tuple_text.specs.Sets.{SetValue, set_eq};
ghost use Rattle.tuple_text.specs.Tuples.{tuple_of};
ghost use Rattle.tuple_text.specs.declared.users.User.{User};
ghost use Rattle.tuple_text.specs.declared.users.User.TheVariants.{Set};
ghost use Rattle.version_chains.specs.Given.{is_of_kind, is_stored_by};

use crate::arena::Arena;
use marks::{MarkedSet, MarkedUser};
use std::marker::Model;
use tuple_text::{SetRef, UserRef};

/// The users of one kind, usersets or ids, that a userset has at a timestamp. A contract sees the list of those that
/// are left to give.
#[derive(Drop)]
pub(crate) struct OfKind<'a> {
    arena: &'a Arena,
    set: SetRef<'a>,
    usersets: bool,
    at: u64,
    place: usize,
    // the tuple that was given last, with which others of the userset mostly share its texts
    like: Option<usize>,
}

impl<'a> Model for OfKind<'a> {
    ghost use Rattle.std.specs.Prelude.{List};
    ghost use Rattle.tuple_text.specs.declared.users.User.{User};
    ghost use Rattle.tuple_text.specs.Refs.{set_value};

    ghost Value = { List User };

    ghost use Rattle.version_chains.specs.Given.{users_before, has_mark_of};
    ghost use Rattle.marks.specs.Placed.{IsLinkedPlace};

    ghost view = { λ it. users_before (set_value it.set) it.usersets it.at it.arena.now it.place };

    ghost use Rattle.std.specs.Prelude.{IfSome};
    ghost use Rattle.version_chains.specs.Arena.{IsOfSet};

    ghost invariant = { λ it. IsLinkedPlace (has_mark_of (set_value it.set) it.usersets) it.arena.now.tuples it.place
        × IfSome it.like (IsOfSet it.arena.now.tuples (set_value it.set)) };
}

impl<'a> Iterator for OfKind<'a> {
    type Item = MarkedUser<'a>;

    ghost next_gives = { YieldsFirstBy (λ u. user_value u.user) (λ users. users) };

    ghost remaining = { item_count (λ users. users) };

    fn next(&mut self) -> Option<MarkedUser<'a>> {
        while self.place > 0 {
            let number = self.place - 1;
            self.place = self.arena.sibling(number);
            match self
                .arena
                .given(number, self.set, self.like, self.usersets, self.at)
            {
                Some(user) => {
                    self.like = Some(number);
                    return Some(user);
                }
                None => {}
            }
        }
        None
    }
}

impl<'a> OfKind<'a> {
    /// Looks at one tuple more of the userset and the kind, and gives its user where it is stored at the timestamp.
    /// `None` where there is no other.
    fn step(&mut self) -> Option<Option<MarkedUser<'a>>>
        ensures none { result ≡ None → (self.old ≡ []) × (self.new ≡ []) }
        ensures some { IfSome result (λ found. self.old
            ≡ cons_option (option_map (λ u. user_value u.user) found) self.new) }
    {
        if self.place == 0 {
            return None;
        }
        let number = self.place - 1;
        self.place = self.arena.sibling(number);
        match self
            .arena
            .given(number, self.set, self.like, self.usersets, self.at)
        {
            Some(user) => {
                self.like = Some(number);
                Some(Some(user))
            }
            None => Some(None),
        }
    }

    /// The users of the kind that the arena gives at the timestamp.
    fn over(arena: &'a Arena, set: MarkedSet<'a>, usersets: bool, at: u64) -> OfKind<'a>
        ensures distinct { IsDistinct user_eq result }
        ensures stored { (user : User) → list_any (user_eq user) result
            ≡ (is_of_kind usersets user && is_stored_by arena.now.touches at (tuple_of (set_value set.entry.set) user)) }
    {
        let place = arena.newest_of_set(set, usersets);
        OfKind {
            arena,
            set: set.set,
            usersets,
            at,
            place,
            like: None,
        }
    }
}

/// The users of a userset at a timestamp. A contract sees the list of those that are left to give.
#[derive(Drop)]
pub struct Users<'a> {
    usersets: OfKind<'a>,
    ids: OfKind<'a>,
}

impl<'a> Model for Users<'a> {
    ghost use Rattle.std.specs.Prelude.{List, ◌++◌};
    ghost use Rattle.tuple_text.specs.declared.users.User.{User};

    ghost Value = { List User };

    ghost view = { λ it. it.usersets ++ it.ids };
}

impl<'a> Iterator for Users<'a> {
    type Item = UserRef<'a>;

    ghost next_gives = { YieldsFirstBy user_value (λ users. users) };

    ghost remaining = { item_count (λ users. users) };

    fn next(&mut self) -> Option<UserRef<'a>> {
        match self.usersets.next() {
            Some(user) => Some(user.user),
            None => match self.ids.next() {
                Some(user) => Some(user.user),
                None => None,
            },
        }
    }
}

impl<'a> Users<'a> {
    /// The users that the arena gives at the timestamp.
    pub(crate) fn over(arena: &'a Arena, set: MarkedSet<'a>, at: u64) -> Users<'a>
        ensures distinct { IsDistinct user_eq result }
        ensures stored { (user : User) → list_any (user_eq user) result
            ≡ is_stored_by arena.now.touches at (tuple_of (set_value set.entry.set) user) }
    {
        Users {
            usersets: OfKind::over(arena, set, true, at),
            ids: OfKind::over(arena, set, false, at),
        }
    }
}

/// The usersets among the users of a userset at a timestamp, with their marks. A contract sees the list of those that
/// are left to give.
#[derive(Drop)]
pub struct Usersets<'a> {
    users: OfKind<'a>,
}

impl<'a> Model for Usersets<'a> {
    ghost use Rattle.std.specs.Prelude.{List};
    ghost use Rattle.tuple_text.specs.Sets.{SetValue};

    ghost Value = { List SetValue };

    ghost use Rattle.version_chains.specs.Given.{AreUsersets, usersets_of};

    ghost view = { λ it. usersets_of it.users };

    ghost invariant = { λ it. AreUsersets it.users };
}

impl<'a> Iterator for Usersets<'a> {
    type Item = MarkedSet<'a>;

    ghost next_gives = { YieldsFirstBy (λ g. set_value g.set) (λ sets. sets) };

    ghost remaining = { item_count (λ sets. sets) };

    fn next(&mut self) -> Option<MarkedSet<'a>> {
        let next = self.users.next()?;
        match next.user {
            UserRef::Set(set) => Some(MarkedSet {
                set,
                mark: next.mark,
            }),
            UserRef::Id(_) => None,
        }
    }
}

impl<'a> Usersets<'a> {
    /// Looks at one tuple more that was ever stored, and gives its userset where it is stored at the timestamp: `next`
    /// passes over all that are not. `None` where there is no other.
    pub fn step(&mut self) -> Option<Option<MarkedSet<'a>>>
        ensures none { result ≡ None → (self.old ≡ []) × (self.new ≡ []) }
        ensures some { IfSome result (λ found. self.old
            ≡ cons_option (option_map (λ g. set_value g.set) found) self.new) }
    {
        match self.users.step()? {
            Some(next) => match next.user {
                UserRef::Set(set) => Some(Some(MarkedSet {
                    set,
                    mark: next.mark,
                })),
                UserRef::Id(_) => Some(None),
            },
            None => Some(None),
        }
    }

    /// The usersets that the arena gives at the timestamp.
    pub(crate) fn over(arena: &'a Arena, set: MarkedSet<'a>, at: u64) -> Usersets<'a>
        ensures distinct { IsDistinct set_eq result }
        ensures stored { (g : SetValue)
            → list_any (set_eq g) result
            ≡ is_stored_by arena.now.touches at (tuple_of (set_value set.entry.set) (Set g)) }
    {
        Usersets {
            users: OfKind::over(arena, set, true, at),
        }
    }
}
