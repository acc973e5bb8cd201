//! Writing texts.

ghost use Rattle.std.specs.Prelude.{◌≡◌, ◌++◌, string_bytes, is_ok, OnOk, if◌then◌else◌};
ghost use Rattle.tuple_text.specs.Grammar.{userset_text, tuple_text, fact_text};
ghost use Rattle.tuple_text.specs.Refs.{set_value};

use crate::facts::Fact;
use crate::sets::SetRef;
use crate::tuples::Tuple;
use crate::users::UserRef;
use std::alloc::AllocError;

/// Appends the text of a userset, `namespace:object_id#relation`. Where memory runs out, a part of it may stand.
pub fn push_set(set: SetRef<'_>, out: &mut String) -> Result<(), AllocError>
    ensures { OnOk result (string_bytes out.new ≡ string_bytes out.old ++ userset_text (set_value set.entry)) }
{
    out.push_str(set.namespace)?;
    out.push(':')?;
    out.push_str(set.id)?;
    out.push('#')?;
    out.push_str(set.relation)
}

/// Appends the text of a tuple. Where memory runs out, the string stays as it was.
pub fn write_tuple(tuple: &Tuple, out: &mut String) -> Result<(), AllocError>
    ensures { string_bytes out.new ≡ (if is_ok result then string_bytes out.old
        ++ tuple_text tuple.now else string_bytes out.old) }
{
    let mut text = String::new(*out.allocator());
    push_set(tuple.set(), &mut text)?;
    text.push('@')?;
    match tuple.user() {
        UserRef::Id(id) => write!(text, "{id}")?,
        UserRef::Set(set) => push_set(set, &mut text)?,
    }
    out.push_str(text.as_str())
}

/// Appends the text of a fact. Where memory runs out, the string stays as it was.
pub fn write_fact(fact: &Fact, out: &mut String) -> Result<(), AllocError>
    ensures { string_bytes out.new ≡ (if is_ok result then string_bytes out.old
        ++ fact_text fact.now else string_bytes out.old) }
{
    let mut text = String::new(*out.allocator());
    push_set(fact.set(), &mut text)?;
    let id = fact.user();
    write!(text, "@{id}")?;
    out.push_str(text.as_str())
}
