//! The usersets that are stored in another and may lead to its members.

ghost use Rattle.std.specs.Prelude.{◌≡◌, ◌&&◌, ◌++◌, ℕ, true, IfOk, IfSome, OnOk, map, option_map, slice_get};
ghost use Rattle.tuple_text.specs.Refs.{set_value};
ghost use Rattle.tuple_text.specs.Sets.{SetValue};
ghost use Rattle.tuple_text.specs.declared.users.User.TheVariants.{Set};
ghost use Rattle.namespaces.specs.WellFormed.{IsWellFormed};
ghost use Rattle.strata.specs.Meaning.{IsStored};
ghost use Rattle.version_chains.specs.Commits.{changelog};
ghost use Rattle.namespaces.specs.Numbers.{Has};
ghost use Rattle.snapshots.specs.Leading as spec;
ghost use Rattle.snapshots.specs.Leading.{AreAll, AreLeading, AreLeadingThrough, IsNumbered, sets_by, sets_of};
ghost use Rattle.snapshots.specs.Snapshots.{tuples_in};

use crate::snapshot::Snapshot;
use marks::MarkedSet;
use namespaces::{MAX_NUMBER, Numbers};
use std::alloc::{AllocError, Global};
use tuple_text::{SetRef, UserRef};
use userset_index::{Alive, UsersetIndex};

/// Whether a userset is of a namespace, or of any.
fn is_of(set: SetRef<'_>, namespace: Option<&str>) -> bool
    ensures { result ≡ spec.is_of (option_map (λ s. s.now) namespace.entry) (set_value set.entry) }
{
    match namespace {
        None => true,
        Some(namespace) => namespace == set.namespace,
    }
}

impl<'a> Snapshot<'a> {
    /// The userset that a touch adds to a set or removes from it, where it is of a namespace, or of any.
    fn set_by<'s>(
        &'s self,
        set: SetRef<'_>,
        namespace: Option<&str>,
        touch: usize,
    ) -> Option<SetRef<'s>>
        ensures { option_map (λ g. set_value g) result ≡ spec.set_by (set_value set.entry)
            (option_map (λ s. s.now) namespace.entry) (slice_get (changelog self.now.timeline.commits) touch) }
    {
        let touch = self.timeline.chains().touch(touch)?;
        let UserRef::Set(user) = touch.user.user else {
            return None;
        };
        if set == touch.set && is_of(user, namespace) {
            Some(user)
        } else {
            None
        }
    }

    /// Puts the usersets that touches are of behind others.
    fn push_touched<'s>(
        &'s self,
        sets: &mut Vec<SetRef<'s>>,
        set: SetRef<'_>,
        namespace: Option<&str>,
        touches: Alive<'_>,
    ) -> Result<(), AllocError>
        ensures { OnOk result (map set_value sets.new.items ≡ map set_value sets.old.items
            ++ sets_by self.now (set_value set.entry) (option_map (λ s. s.now) namespace.entry) touches.entry) }
    {
        // the lives of one mark that hold the timestamp: a touch for each userset that is stored then
        for touch in touches {
            if let Some(stored) = self.set_by(set, namespace, touch) {
                sets.push(stored)?;
            }
        }
        Ok(())
    }

    /// Puts the usersets that are stored in a crowded set, and are of the namespace of a number, behind others: one
    /// of an object at least.
    fn push_of<'s>(
        &'s self,
        sets: &mut Vec<SetRef<'s>>,
        index: &UsersetIndex,
        set: MarkedSet<'_>,
        number: u16,
    ) -> Result<(), AllocError>
        ensures { OnOk result (map set_value sets.new.items ≡ map set_value sets.old.items
            ++ sets_of self.now index.now (set_value set.entry.set) number) }
    {
        let Some(namespace) = self.timeline.rules().namespace(number) else {
            return Ok(());
        };
        let touches = index.through(set, number, self.at);
        self.push_touched(sets, set.set, Some(namespace), touches)
    }

    /// The usersets that are stored in a set, by what was ever stored there. Of a set that is not crowded that is
    /// little.
    fn all_stored<'s>(
        &'s self,
        alloc: Global,
        set: MarkedSet<'s>,
    ) -> Result<Vec<SetRef<'s>>, AllocError>
        ensures { IfOk result (λ v. AreAll self.now (set_value set.entry.set) (map set_value v.items)) }
    {
        let mut sets = Vec::new(alloc);
        // where there is no index, no set of the trace is crowded
        for stored in self.usersets(set) {
            sets.push(stored.set)?;
        }
        Ok(sets)
    }

    /// The declarations are well formed. That is a law: it computes nothing.
    pub fn is_well_formed(&self)
        ensures { IsWellFormed self.now.timeline.declarations }
    {
        let _ = self.timeline.rules().namespace(1);
    }

    /// The usersets that are stored in a set, or `None` where many were, so that an index is to be asked.
    ///
    /// Refusals: OutOfMemory.
    pub fn few<'s>(
        &'s self,
        alloc: Global,
        set: MarkedSet<'s>,
    ) -> Result<Option<Vec<SetRef<'s>>>, AllocError>
        ensures { IfOk result (λ o. IfSome o (λ v. AreAll self.now (set_value set.entry.set) (map set_value v.items))) }
    {
        if self.timeline.usersets().is_crowded(set) {
            return Ok(None);
        }
        Ok(Some(self.all_stored(alloc, set)?))
    }

    /// Usersets that are stored in a set, each once, among them each whose relation is declared.
    ///
    /// Where many usersets were stored in the set, what is dead is not gone over, nor what is undeclared.
    ///
    /// Refusals: OutOfMemory.
    pub fn leading<'s>(
        &'s self,
        alloc: Global,
        set: MarkedSet<'s>,
    ) -> Result<Vec<SetRef<'s>>, AllocError>
        ensures { IfOk result (λ v. AreLeading self.now (set_value set.entry.set) (map set_value v.items)) }
    {
        self.fits();
        let index = self.timeline.usersets();
        if !index.is_crowded(set) {
            return self.all_stored(alloc, set);
        }
        let mut sets = Vec::new(alloc);
        self.push_touched(&mut sets, set.set, None, index.own(set, self.at))?;
        Ok(sets)
    }

    /// Usersets that are stored in a set, each once, among them one of the object of each whose namespace has one of
    /// some numbers.
    ///
    /// Where many usersets were stored in the set, what is dead is not gone over, nor what is of other namespaces.
    ///
    /// Refusals: OutOfMemory.
    pub fn leading_through<'s>(
        &'s self,
        alloc: Global,
        set: MarkedSet<'s>,
        wanted: Numbers,
    ) -> Result<Vec<SetRef<'s>>, AllocError>
        ensures { IfOk result (λ v. AreLeadingThrough self.now (set_value set.entry.set) (Has wanted)
            (map set_value v.items)) }
    {
        self.fits();
        self.is_well_formed();
        let index = self.timeline.usersets();
        if !index.is_crowded(set) {
            return self.all_stored(alloc, set);
        }
        let mut sets = Vec::new(alloc);
        for before in 0..MAX_NUMBER {
            if wanted.has(before + 1) {
                self.push_of(&mut sets, index, set, before + 1)?;
            }
        }
        Ok(sets)
    }

    /// Whether it is known at one look that no userset of the namespace of a number is stored in a set. Of a set that
    /// is not crowded it is not.
    pub fn stores_none(&self, set: MarkedSet<'_>, number: u16) -> bool
        ensures { result ≡ true → (g : SetValue) → IsStored (tuples_in self.now) (set_value set.entry.set) (Set g)
            → ¬ IsNumbered self.now g number }
    {
        self.fits();
        let index = self.timeline.usersets();
        if !index.is_crowded(set) {
            return false;
        }
        let mut touches = index.through(set, number, self.at);
        touches.next().is_none()
    }
}
