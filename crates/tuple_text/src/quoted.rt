//! Tuples and facts as they stand in JSON, taken from in front of the quote that ends them.
//!
//! Each call answers None of any other text, also of one that JSON spells with a backslash: who gets None has the
//! text read as JSON.

ghost use Rattle.std.specs.Prelude.{◌≡◌, ◌<◌, IfSome, false, true};
ghost use Rattle.std.specs.Fmt.{decimal};
ghost use Rattle.tuple_text.specs.FactRefs.{fact_value};
ghost use Rattle.tuple_text.specs.Forms.{IsUserset, is_name, is_name_byte, is_user_relation};
ghost use Rattle.tuple_text.specs.Grammar.{IsFact, IsHead, IsTuple, IsUser, fact_text, tuple_text, user_text, userset_text};
ghost use Rattle.tuple_text.specs.Quoted.{IsSplit};
ghost use Rattle.tuple_text.specs.Refs.{set_value, user_value};
ghost use Rattle.tuple_text.specs.TupleRefs.{tuple_value};

use crate::fact_refs::FactRef;
use crate::fault::TupleFault;
use crate::forms::{name_before, number_before, plain_id_before};
use crate::sets::SetRef;
use crate::tuple_refs::TupleRef;
use crate::users::UserRef;

/// The name before the delimiter, and what stands after it.
#[inline(always)]
fn plain_name_before(text: &str, delimiter: u8) -> Option<(&str, &str)>
    requires ascii { delimiter < 128 }
    requires ends { is_name_byte delimiter ≡ false }
    ensures form { IfSome result (λ p. is_name p.0.now ≡ true) }
    ensures parts { IfSome result (λ p. IsSplit delimiter text.now p.0.now p.1.now) }
{
    match name_before(text, delimiter, TupleFault::Namespace { at: 0 }) {
        Ok(found) => Some(found),
        Err(_) => None,
    }
}

/// The userset before an `@`, and what stands after it.
#[inline(always)]
fn head_before(text: &str) -> Option<(SetRef<'_>, &str)>
    ensures form { IfSome result (λ p. IsHead (set_value p.0)) }
    ensures parts { IfSome result (λ p. IsSplit 64 text.now (userset_text (set_value p.0)) p.1.now) }
{
    let (namespace, rest) = plain_name_before(text, b':')?;
    let (id, rest) = plain_id_before(rest)?;
    let (relation, rest) = plain_name_before(rest, b'@')?;
    let set = SetRef {
        namespace,
        id,
        relation,
    };
    Some((set, rest))
}

/// The relation of a userset before a quote, as it may stand in a user, and what stands after it.
fn user_relation_before(text: &str) -> Option<(&str, &str)>
    ensures form { IfSome result (λ p. is_user_relation p.0.now ≡ true) }
    ensures parts { IfSome result (λ p. IsSplit 34 text.now p.0.now p.1.now) }
{
    if let Some(rest) = text.strip_prefix("...\"") {
        return Some(("...", rest));
    }
    plain_name_before(text, b'"')
}

/// The userset before a quote, as it may stand as a user, and what stands after it.
fn userset_before(text: &str) -> Option<(SetRef<'_>, &str)>
    ensures form { IfSome result (λ p. IsUserset (set_value p.0)) }
    ensures parts { IfSome result (λ p. IsSplit 34 text.now (userset_text (set_value p.0)) p.1.now) }
{
    let (namespace, rest) = plain_name_before(text, b':')?;
    let (id, rest) = plain_id_before(rest)?;
    let (relation, rest) = user_relation_before(rest)?;
    let set = SetRef {
        namespace,
        id,
        relation,
    };
    Some((set, rest))
}

/// The user id before a quote, and what stands after it.
#[inline(always)]
fn id_before_quote(text: &str) -> Option<(u64, &str)>
    ensures { IfSome result (λ p. IsSplit 34 text.now (decimal p.0) p.1.now) }
{
    let (id, rest) = number_before(text)?;
    Some((id, rest.strip_prefix("\"")?))
}

/// The user before a quote, and what stands after it.
fn user_before(text: &str) -> Option<(UserRef<'_>, &str)>
    ensures form { IfSome result (λ p. IsUser (user_value p.0)) }
    ensures parts { IfSome result (λ p. IsSplit 34 text.now (user_text (user_value p.0)) p.1.now) }
{
    if let Some((id, rest)) = id_before_quote(text) {
        return Some((UserRef::Id(id), rest));
    }
    let (set, rest) = userset_before(text)?;
    Some((UserRef::Set(set), rest))
}

/// The tuple before the quote that ends it in JSON, and what stands after the quote. The parts are borrowed.
pub fn quoted_tuple(text: &str) -> Option<(TupleRef<'_>, &str)>
    ensures form { IfSome result (λ p. IsTuple (tuple_value p.0)) }
    ensures parts { IfSome result (λ p. IsSplit 34 text.now (tuple_text (tuple_value p.0)) p.1.now) }
{
    let (set, user) = head_before(text)?;
    let (user, rest) = user_before(user)?;
    Some((TupleRef::from_parts(set, user), rest))
}

/// The fact before the quote that ends it in JSON, and what stands after the quote. The parts are borrowed.
pub fn quoted_fact(text: &str) -> Option<(FactRef<'_>, &str)>
    ensures form { IfSome result (λ p. IsFact (fact_value p.0)) }
    ensures parts { IfSome result (λ p. IsSplit 34 text.now (fact_text (fact_value p.0)) p.1.now) }
{
    let (set, user) = head_before(text)?;
    let (user, rest) = id_before_quote(user)?;
    Some((FactRef::from_parts(set, user), rest))
}
