//! What is declared and stored at one timestamp.

ghost use Rattle.std.specs.Prelude.{◌≡◌, ◌↔◌, ◌<◌, ◌^◌, IsTrue, option_map};
ghost use Rattle.std.specs.List.{list_any, IsDistinct};
ghost use Rattle.tuple_text.specs.Refs.{set_value};
ghost use Rattle.tuple_text.specs.Sets.{SetValue, set_eq};
ghost use Rattle.tuple_text.specs.Tuples.{tuple_of};
ghost use Rattle.tuple_text.specs.declared.users.User.TheVariants.{Id, Set};
ghost use Rattle.rewrites.specs.View.{expression_of};
ghost use Rattle.namespaces.specs.Lookup.{rule_of};
ghost use Rattle.strata.specs.Meaning.{IsStored};
ghost use Rattle.version_chains.specs.Commits.{is_stored};
ghost use Rattle.snapshots.specs.Snapshots.{rules_in, snapshot_at, tuples_in};

use crate::timeline::Timeline;
use marks::MarkedSet;
use rewrites::Rewrite;
use tuple_text::SetRef;
use version_chains::Usersets;

fn has_64_bits(at: u64)
    ensures { at < 2 ^ 64 }
{}

/// The rules that are in force and the tuples that are stored at a timestamp, lent.
#[derive(Drop)]
pub struct Snapshot<'a> {
    pub timeline: Timeline<'a>,
    pub at: u64,
}

impl<'a> Timeline<'a> {
    /// All of that at a timestamp.
    pub fn at(&self, at: u64) -> Snapshot<'a>
        ensures { result ≡ snapshot_at self.now at }
    {
        Snapshot {
            timeline: Timeline::new(self.rules(), self.chains(), self.usersets()),
            at,
        }
    }
}

impl<'a> Snapshot<'a> {
    /// A timestamp is a number of 64 bits. That is a law: it computes nothing.
    pub fn fits(&self)
        ensures { self.now.at < 2 ^ 64 }
    {
        has_64_bits(self.at);
    }

    /// The rule of a userset's relation.
    pub fn rule(&self, set: SetRef<'_>) -> Option<&'a Rewrite>
        ensures { option_map (λ r. expression_of r.now) result
            ≡ option_map (λ r. r.expression) (rule_of (rules_in self.now) (set_value set.entry)) }
    {
        self.timeline.rules().body(set, self.at)
    }

    /// Whether the tuple of a userset and a user id is stored.
    pub fn has_id(&self, set: MarkedSet<'_>, user: u64) -> bool
        ensures { IsTrue result ↔ IsStored (tuples_in self.now) (set_value set.entry.set) (Id user) }
    {
        self.timeline.chains().has_id(set, user, self.at)
    }

    /// Whether the tuple of two usersets, the second as its user, is stored.
    pub fn has_set(&self, set: MarkedSet<'_>, user: MarkedSet<'_>) -> bool
        ensures { IsTrue result
            ↔ IsStored (tuples_in self.now) (set_value set.entry.set) (Set (set_value user.entry.set)) }
    {
        self.timeline.chains().has_set(set, user, self.at)
    }

    /// The usersets that are stored in a userset, each once, in no promised order.
    pub fn usersets<'s>(&'s self, set: MarkedSet<'s>) -> Usersets<'s>
        ensures distinct { IsDistinct set_eq result }
        ensures stored { (g : SetValue) → list_any (set_eq g) result
            ≡ is_stored self.now.timeline.commits self.now.at (tuple_of (set_value set.entry.set) (Set g)) }
    {
        self.timeline.chains().usersets(set, self.at)
    }
}
