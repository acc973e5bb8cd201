//! Of which namespaces nothing is stored in a userset.

ghost use Rattle.std.specs.Prelude.{◌≡◌, true, IfSome, IsSomeAnd};
ghost use Rattle.tuple_text.specs.Refs.{set_value};
ghost use Rattle.namespaces.specs.Numbers.{Has};
ghost use Rattle.judgement.specs.StoredIn.{HaveStored};

use marks::MarkedSet;
use namespaces::Numbers;
use snapshots::Snapshot;

/// The namespaces of the usersets that are stored in a set, and maybe others. `None` where that was not noted.
pub fn stored_in(snapshot: &Snapshot<'_>, set: MarkedSet<'_>) -> Option<Numbers>
    ensures { IfSome result (HaveStored snapshot.now (set_value set.entry.set)) }
{
    snapshot.timeline.usersets().namespaces(set, snapshot.at)
}

/// Whether nothing of the namespace of a number is stored, where it was noted of which something is.
pub fn is_absent(stored: Option<Numbers>, number: u16) -> bool
    ensures { result ≡ true → IsSomeAnd stored (λ s. ¬ Has s number) }
{
    match stored {
        Some(stored) => !stored.has(number),
        None => false,
    }
}
