//! The touches of one tuple.

ghost use Rattle.std.specs.Prelude.{◌≡◌, map, reverse};
ghost use Rattle.std.specs.Iterator.{YieldsFirst, item_count};
ghost use Rattle.version_chains.specs.Commits.{touches_to};

use crate::arena::Arena;
use marks::{MarkedSet, MarkedUser};
use std::marker::Model;
use tuple_text::Tuple;

/// The touches of a tuple, the newest first. A contract sees the list of those that are left to give.
#[derive(Drop)]
pub struct History<'a> {
    arena: &'a Arena,
    tuple: &'a Tuple,
    place: usize,
}

impl<'a> Model for History<'a> {
    ghost use Rattle.std.specs.Prelude.{ℕ, Bool, List};

    ghost Value = { List (ℕ × Bool) };

    ghost use Rattle.tuple_text.specs.Order.{tuple_eq};
    ghost use Rattle.version_chains.specs.Given.{history_before};
    ghost use Rattle.marks.specs.Placed.{IsLinkedPlace};

    ghost view = { λ it. history_before it.tuple.now it.arena.now it.place };

    ghost invariant = { λ it. IsLinkedPlace (λ x. tuple_eq x.tuple it.tuple.now) it.arena.now.touches it.place };
}

impl<'a> Iterator for History<'a> {
    type Item = (u64, bool);

    ghost next_gives = { YieldsFirst (λ touches. touches) };

    ghost remaining = { item_count (λ touches. touches) };

    fn next(&mut self) -> Option<(u64, bool)> {
        if self.place == 0 {
            return None;
        }
        let touch = self.arena.touch(self.place - 1)?;
        self.place = touch.older as usize;
        Some((touch.at, touch.live))
    }
}

impl<'a> History<'a> {
    /// The tuple's touches in the arena.
    pub(crate) fn over(arena: &'a Arena, tuple: &'a Tuple) -> History<'a>
        ensures { result ≡ reverse (map (λ x. (x.at, x.live)) (touches_to tuple.now arena.now.touches)) }
    {
        let place = arena.newest_touch(MarkedSet::of(tuple.set()), MarkedUser::of(tuple.user()));
        History {
            arena,
            tuple,
            place,
        }
    }
}
