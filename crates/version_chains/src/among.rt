//! What a loop over the usersets among the users of a userset shows, by the public clauses alone.

ghost use Rattle.std.specs.Prelude.{◌≡◌, ◌↔◌, IsTrue};
ghost use Rattle.std.specs.List.{list_any, list_all};
ghost use Rattle.tuple_text.specs.Refs.{set_value};
ghost use Rattle.version_chains.specs.Among.{EveryStoredSetIsAmong, SomeStoredSetIsAmong, is_among};

use crate::chains::Chains;
use crate::users::Usersets;
use marks::MarkedSet;
use tuple_text::{SetRef, Userset};

fn is_among(these: &[Userset], set: SetRef<'_>) -> bool
    ensures { result ≡ is_among these.now (set_value set.entry) }
{
    these.iter().any(|known| set == known.as_ref())
}

fn are_all_among(these: &[Userset], sets: Usersets<'_>) -> bool
    ensures { result ≡ list_all (is_among these.now) sets.entry }
{
    for set in sets {
        if !is_among(these, set.set) {
            return false;
        }
    }
    true
}

fn is_any_among(these: &[Userset], sets: Usersets<'_>) -> bool
    ensures { result ≡ list_any (is_among these.now) sets.entry }
{
    for set in sets {
        if is_among(these, set.set) {
            return true;
        }
    }
    false
}

/// Whether every userset that is stored in the set at the timestamp is among these.
pub fn is_every_set_among(these: &[Userset], chains: &Chains, set: SetRef<'_>, at: u64) -> bool
    ensures { IsTrue result ↔ EveryStoredSetIsAmong these.now chains.now.commits at (set_value set.entry) }
{
    are_all_among(these, chains.usersets(MarkedSet::of(set), at))
}

/// Whether some userset that is stored in the set at the timestamp is among these.
pub fn is_some_set_among(these: &[Userset], chains: &Chains, set: SetRef<'_>, at: u64) -> bool
    ensures { IsTrue result ↔ SomeStoredSetIsAmong these.now chains.now.commits at (set_value set.entry) }
{
    is_any_among(these, chains.usersets(MarkedSet::of(set), at))
}
