//! Lives of usersets that are stored in others, of which at a time one for each object is enough.
//!
//! What is read through a tupleset depends on the objects of what it stores, and not on their relations. Of the lives
//! of one object those are kept that cover its timestamps, each cut off where another one ends. So a walk meets an
//! object once at a timestamp, however many of its usersets are stored then, and meets it twice only where it shares
//! its mark with another object.

ghost use Rattle.std.specs.Prelude.{◌≡◌, ℕ, List, true, Contains, IfOk, IfSome, OnOk};
ghost use Rattle.version_chains.specs.Commits.{changelog};
ghost use Rattle.userset_index.specs.Index.{AreExact, AreTimely, Holds, HoldsThrough, IsTimely};
ghost use Rattle.userset_index.specs.Lives.{is_alive};
ghost use Rattle.userset_index.specs.Objects.{AreNumbered, IsCover, IsCoveredBy, IsNumbered, IsSameLife, KeepsOf, object_at};
ghost use Rattle.userset_index.specs.declared.life.Life.{Life};
ghost use Rattle.userset_index.specs.declared.life.Way.TheVariants.{Object};

use crate::build::keep;
use crate::life::Life;
use marks::{MarkedSet, pair_mark};
use namespaces::Rules;
use std::alloc::{AllocError, Global};
use tuple_text::UserRef;
use version_chains::Chains;

/// Whether two touches are of usersets of one object, stored in one userset. It compares their texts: objects may
/// share a mark.
fn are_of_one_object(chains: &Chains, one: usize, other: usize) -> bool
    ensures { result ≡ true
        → object_at (changelog chains.now.commits) one ≡ object_at (changelog chains.now.commits) other }
{
    let Some(one) = chains.touch(one) else {
        return false;
    };
    let Some(other) = chains.touch(other) else {
        return false;
    };
    let UserRef::Set(user) = one.user.user else {
        return false;
    };
    let UserRef::Set(other_user) = other.user.user else {
        return false;
    };
    one.set == other.set && user.namespace == other_user.namespace && user.id == other_user.id
}

/// The lives that are kept, and the timestamps that they cover of the object of one touch, from one on up to another.
#[derive(Drop)]
struct Merged {
    lives: Vec<Life>,
    cover: Life,
}

impl Merged {
    /// Whether what is covered reaches to a life, and is of its object.
    fn reaches(&self, chains: &Chains, life: Life) -> bool
        ensures object { result ≡ true → object_at (changelog chains.now.commits) self.now.cover.touch
            ≡ object_at (changelog chains.now.commits) life.touch }
        ensures since { result ≡ true → is_alive life.from self.now.cover ≡ true }
    {
        self.cover.from <= life.from
            && life.from <= self.cover.until
            && are_of_one_object(chains, self.cover.touch, life.touch)
    }

    /// Keeps of a life what is not covered.
    fn put(&mut self, chains: &Chains, life: Life) -> Result<(), AllocError>
        ensures old { OnOk result ((i t : ℕ) → IsCoveredBy (changelog chains.now.commits) self.old.lives.items i t
            → IsCoveredBy (changelog chains.now.commits) self.new.lives.items i t) }
        ensures new { OnOk result (IsCover (changelog chains.now.commits) self.old → (t : ℕ) → is_alive t life ≡ true
            → IsCoveredBy (changelog chains.now.commits) self.new.lives.items life.touch t) }
        ensures cover { OnOk result (IsCover (changelog chains.now.commits) self.old
            → IsCover (changelog chains.now.commits) self.new) }
        ensures timely { OnOk result (AreTimely (changelog chains.now.commits) self.old.lives.items
            → IsTimely (changelog chains.now.commits) life
            → AreTimely (changelog chains.now.commits) self.new.lives.items) }
        ensures more { OnOk result (KeepsOf life self.old.lives.items self.new.lives.items) }
    {
        if !self.reaches(chains, life) {
            self.lives.push(life)?;
            self.cover = life;
            return Ok(());
        }
        if self.cover.until < life.until {
            self.lives.push(Life {
                from: self.cover.until + 1,
                ..life
            })?;
            self.cover.until = life.until;
        }
        Ok(())
    }
}

/// Lives that cover what these cover, of each object. Where those of an object stand one behind the other in the
/// order of their first timestamps, no two of them that are kept share a timestamp.
fn thinned(alloc: Global, chains: &Chains, lives: &[Life]) -> Result<Vec<Life>, AllocError>
    ensures covers { IfOk result (λ thinned. (l : Life) (t : ℕ) → Contains lives.now l → is_alive t l ≡ true
        → IsCoveredBy (changelog chains.now.commits) thinned.items l.touch t) }
    ensures exact { IfOk result (λ thinned. AreExact (changelog chains.now.commits) lives.now
        → AreExact (changelog chains.now.commits) thinned.items) }
{
    let mut merged = Merged {
        lives: Vec::new(alloc),
        cover: Life {
            mark: 0,
            touch: 0,
            from: 1,
            until: 0,
        },
    };
    for life in lives {
        merged.put(chains, *life)?;
    }
    Ok(merged.lives)
}

/// A life, to be looked for through a userset by the number of a namespace. `None` where nobody declares that.
pub(crate) fn numbered(chains: &Chains, rules: &Rules, life: Life) -> Option<Life>
    ensures numbered { IsNumbered rules.now (changelog chains.now.commits) life result }
    ensures same { IfSome result (IsSameLife life) }
{
    let touch = chains.touch(life.touch)?;
    let UserRef::Set(user) = touch.user.user else {
        return None;
    };
    let number = rules.namespace_number(user.namespace)?;
    Some(Life {
        mark: pair_mark(MarkedSet::of(touch.set).mark, u64::from(number)),
        ..life
    })
}

/// These lives, each to be looked for so.
fn all_numbered(
    alloc: Global,
    chains: &Chains,
    rules: &Rules,
    lives: &[Life],
) -> Result<Vec<Life>, AllocError>
    ensures numbered { IfOk result (λ all. AreNumbered rules.now (changelog chains.now.commits) lives.now all.items) }
    ensures exact { IfOk result (λ all. AreExact (changelog chains.now.commits) lives.now
        → AreExact (changelog chains.now.commits) all.items) }
{
    let mut all = Vec::with_capacity(alloc, lives.len())?;
    for life in lives {
        keep(&mut all, numbered(chains, rules, *life))?;
    }
    Ok(all)
}

/// Lives by which usersets are looked for through a userset, one of an object at a time, of those by which they are
/// looked for by their objects.
pub(crate) fn lives_through(
    alloc: Global,
    chains: &Chains,
    rules: &Rules,
    objects: &[Life],
) -> Result<Vec<Life>, AllocError>
    requires { AreExact (changelog chains.now.commits) objects.now }
    ensures holds { (crowds : List ℕ) → Holds rules.now Object (changelog chains.now.commits) crowds objects.now
        → IfOk result (λ lives. HoldsThrough rules.now (changelog chains.now.commits) crowds lives.items) }
    ensures exact { IfOk result (λ lives. AreExact (changelog chains.now.commits) lives.items) }
{
    let mut lives = Vec::with_capacity(alloc, objects.len())?;
    lives.extend_from_slice(objects)?;
    lives.sort_unstable_by_key(|life: &Life| (life.mark, life.from));
    let kept = thinned(alloc, chains, &lives)?;
    drop(lives);
    all_numbered(alloc, chains, rules, &kept)
}
