//! Reading texts.

ghost use Rattle.std.specs.Prelude.{◌≡◌, ◌≤◌, IfOk, Ok, true, length};
ghost use Rattle.tuple_text.specs.FactRefs.{fact_value};
ghost use Rattle.tuple_text.specs.Faults.{Gives, Tells};
ghost use Rattle.tuple_text.specs.Forms.{IsUserset, is_name};
ghost use Rattle.tuple_text.specs.Grammar.{userset_text, tuple_text, fact_text, IsHead, IsTuple, IsFact, IsUser};
ghost use Rattle.tuple_text.specs.Reading.{userset_at, user_at, head_at, tuple_at, fact_at};
ghost use Rattle.tuple_text.specs.Refs.{set_value, user_value};
ghost use Rattle.tuple_text.specs.Sets.{SetValue};
ghost use Rattle.tuple_text.specs.TupleRefs.{tuple_value};
ghost use Rattle.tuple_text.specs.Tuples.{TupleValue, FactValue};

use crate::fact_refs::FactRef;
use crate::facts::Fact;
use crate::fault::TupleFault;
use crate::forms::{id_before, is_user_relation, name_before, plain_number};
use crate::sets::{SetRef, Userset};
use crate::tuple_refs::TupleRef;
use crate::tuples::Tuple;
use crate::users::UserRef;
use std::alloc::Global;

#[tactic(auto, unfolding(crate::specs::Reading::userset_at))]
fn userset_from(text: &str) -> Result<SetRef<'_>, TupleFault>
    ensures read { Tells set_value result (userset_at text.now) }
    ensures form { IfOk result (λ s. IsUserset (set_value s)) }
{
    let (namespace, rest) = name_before(text, b':', TupleFault::Namespace { at: 0 })?;
    let at = text.len() - rest.len();
    let (id, relation) = id_before(rest, b'#', TupleFault::ObjectId { at })?;
    if !is_user_relation(relation) {
        return Err(TupleFault::Relation {
            at: text.len() - relation.len(),
        });
    }
    Ok(SetRef {
        namespace,
        id,
        relation,
    })
}

fn set_from(alloc: Global, text: &str) -> Result<Userset, TupleFault>
    ensures { Gives (λ s. s) result (userset_at text.now) }
{
    Ok(Userset::from_parts(alloc, userset_from(text)?)?)
}

#[tactic(auto, unfolding(crate::specs::Reading::user_at))]
fn user_from(text: &str, at: usize) -> Result<UserRef<'_>, TupleFault>
    ensures read { Tells user_value result (user_at at text.now) }
    ensures form { IfOk result (λ u. IsUser (user_value u)) }
{
    if let Some(id) = plain_number(text) {
        return Ok(UserRef::Id(id));
    }
    match userset_from(text) {
        Ok(set) => Ok(UserRef::Set(set)),
        Err(_) => Err(TupleFault::User { at }),
    }
}

/// What stands before the user, and the text of the user.
#[tactic(auto, unfolding(crate::specs::Reading::head_at))]
#[inline(always)]
fn head_from(text: &str) -> Result<(SetRef<'_>, &str), TupleFault>
    ensures read { Tells (λ h. (set_value h.0, h.1.now)) result (head_at text.now) }
    ensures within { IfOk result (λ h. length h.1.now ≤ length text.now) }
    ensures form { IfOk result (λ h. IsHead (set_value h.0)) }
{
    let (namespace, rest) = name_before(text, b':', TupleFault::Namespace { at: 0 })?;
    let at = text.len() - rest.len();
    let (id, rest) = id_before(rest, b'#', TupleFault::ObjectId { at })?;
    let at = text.len() - rest.len();
    let (relation, user) = name_before(rest, b'@', TupleFault::Relation { at })?;
    let set = SetRef {
        namespace,
        id,
        relation,
    };
    Ok((set, user))
}

#[tactic(auto, unfolding(crate::specs::Reading::tuple_at))]
#[inline(always)]
fn tuple_from(text: &str) -> Result<TupleRef<'_>, TupleFault>
    ensures { Tells tuple_value result (tuple_at text.now) }
{
    let (set, user) = head_from(text)?;
    let user = user_from(user, text.len() - user.len())?;
    Ok(TupleRef::from_parts(set, user))
}

#[tactic(auto, unfolding(crate::specs::Reading::fact_at))]
#[inline(always)]
fn fact_from(text: &str) -> Result<FactRef<'_>, TupleFault>
    ensures { Tells fact_value result (fact_at text.now) }
{
    let (set, user) = head_from(text)?;
    let at = text.len() - user.len();
    match plain_number(user) {
        Some(user) => Ok(FactRef::from_parts(set, user)),
        None => Err(TupleFault::User { at }),
    }
}

/// Reads a tuple, `namespace:object_id#relation@user`, and borrows its parts.
///
/// The namespace ends before the first `:`, the object id before the first `#` after it, the relation
/// before the first `@` after that, and the user is the rest. Where a delimiter is missing, the part that
/// it should end is refused.
pub fn read_tuple(text: &str) -> Result<TupleRef<'_>, TupleFault>
    ensures found { IfOk result (λ t. IsTuple (tuple_value t) × (text.now ≡ tuple_text (tuple_value t))) }
    // What is spelled so is read: no memory is asked for.
    ensures only { (t : TupleValue) → IsTuple t → text.now ≡ tuple_text t → Tells tuple_value result (Ok t) }
    // Which part is at fault, and where it begins.
    ensures exact { Tells tuple_value result (tuple_at text.now) }
{
    tuple_from(text)
}

/// Reads a tuple as [`read_tuple`] does, and copies its parts.
pub fn parse_tuple(alloc: Global, text: &str) -> Result<Tuple, TupleFault>
    // What is read is spelled so.
    ensures found { IfOk result (λ t. IsTuple t × (text.now ≡ tuple_text t)) }
    // What is spelled so is read, unless memory runs out.
    ensures only { (t : TupleValue) → IsTuple t → text.now ≡ tuple_text t → Gives (λ t. t) result (Ok t) }
    // Which part is at fault, and where it begins.
    ensures exact { Gives (λ t. t) result (tuple_at text.now) }
{
    Ok(read_tuple(text)?.to_tuple(alloc)?)
}

/// Reads a userset as it may stand as a user, `namespace:object_id#relation`, where the relation may be `...`.
/// Its parts end as those of a tuple do, and the relation is the rest.
pub fn parse_userset(alloc: Global, text: &str) -> Result<Userset, TupleFault>
    ensures found { IfOk result (λ s. IsUserset s × (text.now ≡ userset_text s)) }
    ensures only { (s : SetValue) → IsUserset s → text.now ≡ userset_text s → Gives (λ s. s) result (Ok s) }
    ensures exact { Gives (λ s. s) result (userset_at text.now) }
{
    set_from(alloc, text)
}

/// Reads a tuple whose user is an id, and borrows its parts. Another user, also a userset in form, is refused as
/// `User`.
pub fn read_fact(text: &str) -> Result<FactRef<'_>, TupleFault>
    ensures found { IfOk result (λ f. IsFact (fact_value f) × (text.now ≡ fact_text (fact_value f))) }
    // What is spelled so is read: no memory is asked for.
    ensures only { (f : FactValue) → IsFact f → text.now ≡ fact_text f → Tells fact_value result (Ok f) }
    ensures exact { Tells fact_value result (fact_at text.now) }
{
    fact_from(text)
}

/// Reads a fact as [`read_fact`] does, and copies its parts.
pub fn parse_fact(alloc: Global, text: &str) -> Result<Fact, TupleFault>
    ensures found { IfOk result (λ f. IsFact f × (text.now ≡ fact_text f)) }
    ensures only { (f : FactValue) → IsFact f → text.now ≡ fact_text f → Gives (λ f. f) result (Ok f) }
    ensures exact { Gives (λ f. f) result (fact_at text.now) }
{
    Ok(read_fact(text)?.to_fact(alloc)?)
}
