//! What is kept of a part that reads through a tupleset, for the facts behind.

ghost use Rattle.std.specs.Prelude.{◌≡◌, ◌↔◌, [], IsTrue, true, false, string_bytes, IfOk, IfSome};
ghost use Rattle.tuple_text.specs.Refs.{set_value};
ghost use Rattle.rewrites.specs.Parts.{computed_names, through_expression};
ghost use Rattle.strata.specs.Meaning.{with_relation};
ghost use Rattle.judgement.specs.AskedFact.{asked_set};
ghost use Rattle.wide_rules.specs.AskedFact.{DoesFor, IsBarredBy};
ghost use Rattle.wide_rules.specs.Declaring.{AreDeclaring};
ghost use Rattle.wide_rules.specs.Kept.{AreLive, IsKept, MayBeKept, kept_set};

use crate::declaring::{declaring, numbers_of};
use crate::live::live_in;
use crate::through::{are_barred, tupleset_of};
use judgement::{AskedFact, KnownFact, stored_in};
use marks::MarkedSet;
use namespaces::Numbers;
use rewrites::Through;
use snapshots::Snapshot;
use std::alloc::{AllocError, Global};
use tuple_text::SetRef;

/// The namespaces that declare what is read, and those of them of which something matters that is stored in the
/// tupleset of one object at one timestamp. Facts of one object mostly follow one another.
#[derive(Drop)]
pub(crate) struct Kept {
    declaring: Vec<u16>,
    // the same as a set
    numbers: Numbers,
    namespace: String,
    id: String,
    at: u64,
    live: Vec<u16>,
}

/// Whether it is of the object of a userset, at a timestamp.
fn is_of(kept: &Kept, set: SetRef<'_>, at: u64) -> bool
    ensures { result ≡ true → (kept.now.at ≡ at) × (string_bytes kept.now.namespace ≡ set.entry.namespace.now)
        × (string_bytes kept.now.id ≡ set.entry.id.now) }
{
    kept.at == at && set.id == kept.id.as_str() && set.namespace == kept.namespace.as_str()
}

/// What is kept for the object of a userset in a snapshot, where the namespaces that declare what is read are these.
fn kept_of(
    alloc: Global,
    snapshot: &Snapshot<'_>,
    through: &Through,
    set: SetRef<'_>,
    declaring: Vec<u16>,
) -> Result<Kept, AllocError>
    requires { AreDeclaring snapshot.now.timeline.declarations (computed_names through.now) declaring.items }
    ensures { IfOk result (λ k. IsKept snapshot.now.timeline through.now k × (k.at ≡ snapshot.now.at)
        × (kept_set k through.now ≡ with_relation (set_value set.entry) (string_bytes through.now.tupleset))) }
{
    let tupleset = tupleset_of(set, through);
    let live = live_in(alloc, snapshot, through, tupleset, &declaring)?;
    let numbers = numbers_of(&declaring);
    Ok(Kept {
        declaring,
        numbers,
        namespace: String::from_str(alloc, set.namespace)?,
        id: String::from_str(alloc, set.id)?,
        at: snapshot.at,
        live,
    })
}

/// The namespaces that declare what is read, which are looked for where nothing was kept before.
fn declaring_of(
    alloc: Global,
    snapshot: &Snapshot<'_>,
    through: &Through,
    kept: Option<Box<Kept>>,
) -> Result<Vec<u16>, AllocError>
    requires { MayBeKept snapshot.now.timeline through.now kept }
    ensures { IfOk result (λ d. AreDeclaring snapshot.now.timeline.declarations (computed_names through.now) d.items) }
{
    let Some(kept) = kept else {
        return declaring(alloc, snapshot.timeline.rules(), through);
    };
    let Kept {
        declaring,
        numbers: _,
        namespace: _,
        id: _,
        at: _,
        live: _,
    } = Box::into_inner(kept);
    Ok(declaring)
}

/// What is kept for the object of a userset in a snapshot, where something may have been kept before.
fn kept_after(
    alloc: Global,
    snapshot: &Snapshot<'_>,
    through: &Through,
    set: SetRef<'_>,
    kept: Option<Box<Kept>>,
) -> Result<Box<Kept>, AllocError>
    requires { MayBeKept snapshot.now.timeline through.now kept }
    ensures { IfOk result (λ k. IsKept snapshot.now.timeline through.now k.value × (k.value.at ≡ snapshot.now.at)
        × (kept_set k.value through.now ≡ with_relation (set_value set.entry) (string_bytes through.now.tupleset))) }
{
    let declaring = declaring_of(alloc, snapshot, through, kept)?;
    let kept = kept_of(alloc, snapshot, through, set, declaring)?;
    Ok(Box::new(alloc, kept)?)
}

/// Whether no userset that is stored in a tupleset may have the user, where what is kept is of that tupleset.
fn bars<F: KnownFact>(fact: &AskedFact<'_, F>, through: &Through, kept: &Kept) -> bool
    requires kept { IsKept fact.now.snapshot.now.timeline through.now kept.now }
    requires at { kept.now.at ≡ fact.now.snapshot.now.at }
    requires set { kept_set kept.now through.now ≡ asked_set fact.now }
    ensures { IsTrue result ↔ IsBarredBy fact.now (computed_names through.now) }
{
    are_barred(fact, through, &kept.declaring, &kept.live)
}

/// Whether it is known at one look that nothing matters that is stored in a tupleset, of whatever object.
fn is_quiet(
    snapshot: &Snapshot<'_>,
    through: &Through,
    tupleset: MarkedSet<'_>,
    kept: &Kept,
) -> bool
    requires { IsKept snapshot.now.timeline through.now kept.now }
    ensures { IsTrue result → AreLive snapshot.now (set_value tupleset.entry.set) (computed_names through.now) [] }
{
    snapshot.fits();
    match stored_in(snapshot, tupleset) {
        Some(stored) => !stored.meets(kept.numbers),
        None => false,
    }
}

/// Whether no userset that is stored in a tupleset may have the user, where what is kept tells it: that is of this
/// tupleset, or says that nothing matters there.
fn bars_by_kept<F: KnownFact>(
    fact: &AskedFact<'_, F>,
    through: &Through,
    kept: &Kept,
) -> Option<bool>
    requires kept { IsKept fact.now.snapshot.now.timeline through.now kept.now }
    requires tupleset { (asked_set fact.now).relation ≡ string_bytes through.now.tupleset }
    ensures { IfSome result (λ r. IsTrue r ↔ IsBarredBy fact.now (computed_names through.now)) }
{
    let snapshot = fact.snapshot;
    if is_of(kept, fact.set.set, snapshot.at) {
        return Some(bars(fact, through, kept));
    }
    if is_quiet(snapshot, through, fact.set, kept) {
        return Some(true);
    }
    None
}

/// Whether all that is read through a tupleset rules a fact out. Where something matters of the tupleset, it is looked
/// for once, and kept.
pub(crate) fn through_bars<F: KnownFact>(
    alloc: Global,
    through: &Through,
    fact: &AskedFact<'_, F>,
    kept: &mut Option<Box<Kept>>,
) -> Result<bool, AllocError>
    requires { MayBeKept fact.now.snapshot.now.timeline through.now kept.old }
    ensures kept { MayBeKept fact.now.snapshot.now.timeline through.now kept.new }
    ensures bars { IfOk result (λ r. IsTrue r ↔ DoesFor fact.now false (through_expression through.now)) }
{
    let set = tupleset_of(fact.set.set, through);
    let of_tupleset = AskedFact { set, ..*fact };
    if let Some(found) = kept {
        if let Some(is_barred) = bars_by_kept(&of_tupleset, through, found) {
            return Ok(is_barred);
        }
    }
    let now = kept_after(alloc, fact.snapshot, through, fact.set.set, kept.take())?;
    let is_barred = bars(&of_tupleset, through, &now);
    *kept = Some(now);
    Ok(is_barred)
}
