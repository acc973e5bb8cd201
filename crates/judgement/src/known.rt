//! What is known.

ghost use Rattle.std.specs.Prelude.{◌≡◌, ◌∷◌, ◌++◌, [], IfOk, OnOk, OnErr, IsTrue, ◌↔◌, Contains};
ghost use Rattle.tuple_text.specs.Refs.{set_value};
ghost use Rattle.tuple_text.specs.Tuples.{fact_of};
ghost use Rattle.judgement.specs.Facts.{sets_of_user};

use crate::fact::KnownFact;
use crate::facts::{Facts, SetsOfUser};
use marks::MarkedSet;
use std::alloc::{AllocError, Global};
use std::marker::Model;
use tuple_text::SetRef;

/// The facts that are known to hold, and those that are known not to. Contracts see the two lists, in the order in
/// which facts were added.
///
/// A look-up takes no memory, and its comparisons are few against what is known.
#[derive(Drop)]
pub struct Known<F: KnownFact> {
    yes: Facts<F>,
    no: Facts<F>,
}

impl<F: KnownFact> Model for Known<F> {
    ghost use Rattle.judgement.specs.Judgement.{KnownValue};
    ghost use Rattle.judgement.specs.KnownCode.{known_code};

    ghost Value = { KnownValue };

    ghost coded = { known_code };

    ghost view = { λ k. record { yes = k.yes; no = k.no } };
}

impl<F: KnownFact> Known<F> {
    /// Nothing is known. Nothing is allocated before the first fact.
    pub fn new(alloc: Global) -> Known<F>
        ensures { result ≡ record { yes = []; no = [] } }
    {
        Known {
            yes: Facts::new(alloc, true),
            no: Facts::new(alloc, false),
        }
    }

    /// Nothing is known, and there is memory for so many facts that are known to hold, and so many that are known not
    /// to.
    pub fn with_room(alloc: Global, yes: usize, no: usize) -> Result<Known<F>, AllocError>
        ensures { IfOk result (λ k. k ≡ record { yes = []; no = [] }) }
    {
        Ok(Known {
            yes: Facts::with_room(alloc, true, yes)?,
            no: Facts::with_room(alloc, false, no)?,
        })
    }

    /// From now on the fact is known to hold. Where memory runs out, it is dropped, and what is known stays.
    pub fn add_yes(&mut self, fact: F) -> Result<(), AllocError>
        ensures ok { OnOk result (self.new ≡ record self.old { yes = self.old.yes ++ F.fact fact ∷ [] }) }
        ensures err { OnErr result (self.new ≡ self.old) }
    {
        self.yes.add(fact, false)?;
        Ok(())
    }

    /// From now on the fact is known not to hold. Where memory runs out, it is dropped, and what is known stays.
    pub fn add_no(&mut self, fact: F) -> Result<(), AllocError>
        ensures ok { OnOk result (self.new ≡ record self.old { no = self.old.no ++ F.fact fact ∷ [] }) }
        ensures err { OnErr result (self.new ≡ self.old) }
    {
        self.no.add(fact, false)?;
        Ok(())
    }

    /// [`Known::add_no`], which says whether the fact was known not to hold before.
    pub fn deny(&mut self, fact: F) -> Result<bool, AllocError>
        ensures ok { OnOk result (self.new ≡ record self.old { no = self.old.no ++ F.fact fact ∷ [] }) }
        ensures was { IfOk result (λ was. IsTrue was ↔ Contains self.old.no (F.fact fact)) }
        ensures err { OnErr result (self.new ≡ self.old) }
    {
        self.no.add(fact, true)
    }

    /// Whether it is known that the user is in the userset.
    pub fn yes(&self, set: SetRef<'_>, user: u64) -> bool
        ensures { IsTrue result ↔ Contains self.now.yes (fact_of (set_value set.entry) user) }
    {
        self.yes.has(set, user)
    }

    /// Whether it is known that the user is not in the userset.
    pub fn no(&self, set: SetRef<'_>, user: u64) -> bool
        ensures { IsTrue result ↔ Contains self.now.no (fact_of (set_value set.entry) user) }
    {
        self.no.has(set, user)
    }

    /// [`Known::yes`] of a userset whose mark is at hand.
    pub fn yes_marked(&self, set: MarkedSet<'_>, user: u64) -> bool
        ensures { IsTrue result ↔ Contains self.now.yes (fact_of (set_value set.entry.set) user) }
    {
        self.yes.has_marked(set, user)
    }

    /// [`Known::no`] of a userset whose mark is at hand.
    pub fn no_marked(&self, set: MarkedSet<'_>, user: u64) -> bool
        ensures { IsTrue result ↔ Contains self.now.no (fact_of (set_value set.entry.set) user) }
    {
        self.no.has_marked(set, user)
    }

    /// The usersets that are known to hold a user, the newest first.
    pub fn sets_of(&self, user: u64) -> SetsOfUser<'_, F>
        ensures { result ≡ sets_of_user user self.now.yes }
    {
        self.yes.sets_of(user)
    }
}
