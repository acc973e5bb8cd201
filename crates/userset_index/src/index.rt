//! The index.

ghost use Rattle.std.specs.Prelude.{◌≡◌, ◌&&◌, ℕ, List, length, false, IfOk, IfSome, IsPermutation};
ghost use Rattle.tuple_text.specs.Refs.{set_value};
ghost use Rattle.marks.specs.Marks as marks;
ghost use Rattle.namespaces.specs.Declaration.{Declaration};
ghost use Rattle.version_chains.specs.Commits.{Touch, changelog};
ghost use Rattle.userset_index.specs.Building.{AreEnds, AreLives, AreSetMarks};
ghost use Rattle.userset_index.specs.Index as spec;
ghost use Rattle.userset_index.specs.Index.{AreNamespaces, IsUsersetIndex};
ghost use Rattle.userset_index.specs.Lives.{touches_alive};

use crate::build::{
    Crowds, count_crowds, ends_of, is_any_crowded, is_crowded, lives_of, object_mark, set_marks,
};
use crate::growth::Growth;
use crate::life::{Life, Way};
use crate::moments::Times;
use crate::objects::lives_through;
use crate::spans::{Alive, Spans};
use marks::{MarkedSet, pair_mark};
use namespaces::{Numbers, Rules};
use std::alloc::{AllocError, Global};
use std::marker::Model;
use tuple_text::SetRef;
use version_chains::Chains;

/// The lives of usersets that are stored in crowded ones. A userset with at most 16 touches that add or remove a
/// userset is not crowded, and to pass over what is stored in it takes no index.
#[derive(Drop)]
pub struct UsersetIndex {
    pub(crate) is_whole: bool,
    pub(crate) crowds: Vec<u8>,
    pub(crate) own: Spans,
    pub(crate) through: Spans,
    pub(crate) objects: Spans,
    pub(crate) times: Times,
    pub(crate) growth: Growth,
}

impl Model for UsersetIndex {
    ghost use Rattle.userset_index.specs.Index.{IndexValue};

    ghost Value = { IndexValue };

    ghost view = { λ x. record {
      is_whole = x.is_whole;
      crowds = x.crowds.items;
      own = x.own;
      through = x.through;
      objects = x.objects;
      is_timed = x.times.is_whole;
      moments = x.times.moments;
      numbers = x.times.numbers.items;
      is_growing = x.growth.is_growing;
      declared = x.growth.declared;
      own_places = x.growth.own.items;
      through_places = x.growth.through.items;
      object_places = x.growth.objects.items;
    } };
}

/// These lives in the order of their first timestamps, so that a walk passes over those that are later. The list that
/// they came in is let go.
fn linked(alloc: Global, mut lives: Vec<Life>) -> Result<Spans, AllocError>
    ensures { IfOk result (λ spans. IsPermutation lives.items spans) }
{
    lives.sort_unstable_by_key(|life| life.from);
    Spans::of(alloc, &lives)
}

/// The lives of an index before they are linked.
#[derive(Drop)]
struct Lists {
    own: Vec<Life>,
    through: Vec<Life>,
    objects: Vec<Life>,
}

impl Lists {
    fn of(
        alloc: Global,
        chains: &Chains,
        rules: &Rules,
        crowds: &Crowds,
        ends: &[u64],
    ) -> Result<Lists, AllocError>
        requires ends { AreEnds (changelog chains.now.commits) ends.now }
        requires marks { AreSetMarks (changelog chains.now.commits) (length ends.now) crowds.now.marks.items }
        ensures { IfOk result (λ l. AreLives rules.now (changelog chains.now.commits) crowds.now.counts.items
            l.own.items l.through.items l.objects.items) }
    {
        let objects = lives_of(alloc, Way::Object, chains, rules, crowds, ends)?;
        let through = lives_through(alloc, chains, rules, &objects)?;
        let own = lives_of(alloc, Way::Own, chains, rules, crowds, ends)?;
        Ok(Lists {
            own,
            through,
            objects,
        })
    }

    /// The lives, linked.
    fn linked(self, alloc: Global) -> Result<(Spans, Spans, Spans), AllocError>
        ensures { (ds : List Declaration) (touches : List Touch) (counts : List ℕ)
            → AreLives ds touches counts self.own.items self.through.items self.objects.items
            → IfOk result (λ l. AreLives ds touches counts l.0 l.1 l.2) }
    {
        let Lists {
            own,
            through,
            objects,
        } = self;
        let own = linked(alloc, own)?;
        let through = linked(alloc, through)?;
        let objects = linked(alloc, objects)?;
        Ok((own, through, objects))
    }
}

/// The lives of what is stored in crowded usersets, beside the counts. The marks that were made for it go as it
/// returns.
fn lists_of(
    alloc: Global,
    chains: &Chains,
    rules: &Rules,
    counts: Vec<u8>,
    ends: &[u64],
) -> Result<(Vec<u8>, Lists), AllocError>
    requires { AreEnds (changelog chains.now.commits) ends.now }
    ensures { IfOk result (λ r. AreLives rules.now (changelog chains.now.commits) r.0.items
        r.1.own.items r.1.through.items r.1.objects.items) }
{
    let marks = set_marks(alloc, chains, ends.len())?;
    let crowds = Crowds { counts, marks };
    let lists = Lists::of(alloc, chains, rules, &crowds, ends)?;
    Ok((crowds.counts, lists))
}

impl UsersetIndex {
    /// No index, in which nothing is crowded.
    pub fn new(alloc: Global) -> UsersetIndex
        ensures whole { result.is_whole ≡ false }
        ensures growing { result.is_growing ≡ false }
    {
        UsersetIndex {
            is_whole: false,
            crowds: Vec::new(alloc),
            own: Spans::new(alloc),
            through: Spans::new(alloc),
            objects: Spans::new(alloc),
            times: Times::new(alloc),
            growth: Growth::new(alloc, false, 0),
        }
    }

    /// Makes the index of a store under these rules.
    ///
    /// It takes time in the logarithm of the touches for each touch of a userset, and of its memory some 210 bytes for
    /// each that adds one to a crowded userset. Where a rule of many places reads tuplesets, or where some userset is
    /// crowded and more than 16 namespaces are declared, it takes some 100 bytes more for each touch that adds a
    /// userset, and for each that ends one.
    pub fn of(alloc: Global, chains: &Chains, rules: &Rules) -> Result<UsersetIndex, AllocError>
        ensures index { IfOk result (λ index. IsUsersetIndex rules.now chains.now.commits index) }
        ensures growing { IfOk result (λ index. index.is_growing ≡ false) }
    {
        let counts = count_crowds(alloc, chains)?;
        if is_any_crowded(&counts) {
            return UsersetIndex::of_crowds(alloc, chains, rules, counts);
        }
        let times = Times::alone(alloc, chains, rules)?;
        Ok(UsersetIndex {
            is_whole: true,
            crowds: counts,
            own: Spans::new(alloc),
            through: Spans::new(alloc),
            objects: Spans::new(alloc),
            times,
            growth: Growth::new(alloc, false, 0),
        })
    }

    /// The same where some userset is crowded, by the counts that say so.
    fn of_crowds(
        alloc: Global,
        chains: &Chains,
        rules: &Rules,
        counts: Vec<u8>,
    ) -> Result<UsersetIndex, AllocError>
        ensures index { IfOk result (λ index. IsUsersetIndex rules.now chains.now.commits index) }
        ensures growing { IfOk result (λ index. index.is_growing ≡ false) }
    {
        let ends = ends_of(alloc, chains)?;
        let times = Times::of(alloc, chains, rules, &ends)?;
        let (crowds, lists) = lists_of(alloc, chains, rules, counts, &ends)?;
        // What was kept of each touch goes before the lives are linked, which takes more memory than they do.
        drop(ends);
        let (own, through, objects) = lists.linked(alloc)?;
        Ok(UsersetIndex {
            is_whole: true,
            crowds,
            own,
            through,
            objects,
            times,
            growth: Growth::new(alloc, false, 0),
        })
    }

    /// Whether the index is to be asked for what is stored in a userset.
    pub fn is_crowded(&self, set: MarkedSet<'_>) -> bool
        ensures { result
            ≡ (self.now.is_whole && spec.is_crowded self.now.crowds (marks.set_mark (set_value set.entry.set))) }
    {
        self.is_whole && is_crowded(&self.crowds, set.mark)
    }

    /// The namespaces of the usersets that are stored in a userset at a timestamp, and maybe others. `None` where
    /// that was not noted: it is for a trace in which a rule of many places reads tuplesets, or many namespaces are
    /// declared.
    pub fn namespaces(&self, set: MarkedSet<'_>, at: u64) -> Option<Numbers>
        ensures { IfSome result (AreNamespaces self.now (set_value set.entry.set) at) }
    {
        if self.is_whole && self.times.is_whole {
            Some(self.times.at(set.mark, at))
        } else {
            None
        }
    }

    /// The touches of usersets that are stored in a userset and declared at a timestamp, and maybe others.
    pub fn own(&self, set: MarkedSet<'_>, at: u64) -> Alive<'_>
        ensures { result
            ≡ touches_alive (marks.set_mark (set_value set.entry.set)) at self.now.own (length self.now.own) }
    {
        self.own.alive(set.mark, at)
    }

    /// For each object of a namespace, by its number, of which usersets are stored in a userset at a timestamp, a
    /// touch of such a userset, and maybe others.
    pub fn through(&self, set: MarkedSet<'_>, namespace: u16, at: u64) -> Alive<'_>
        ensures { result ≡ touches_alive (marks.pair_mark (marks.set_mark (set_value set.entry.set)) namespace) at
            self.now.through (length self.now.through) }
    {
        self.through
            .alive(pair_mark(set.mark, u64::from(namespace)), at)
    }

    /// The touches of usersets of an object, which is that of another userset, that are stored in a userset at a
    /// timestamp, and maybe others.
    pub fn of_object(&self, set: MarkedSet<'_>, other: SetRef<'_>, at: u64) -> Alive<'_>
        ensures { result ≡ touches_alive (spec.object_mark (set_value set.entry.set) (set_value other.entry)) at
            self.now.objects (length self.now.objects) }
    {
        self.objects.alive(object_mark(set.mark, other), at)
    }
}
