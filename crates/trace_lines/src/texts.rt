//! The texts in a line of a trace.

ghost use Rattle.std.specs.Prelude.{◌≡◌, option_map, codes};
ghost use Rattle.serde_json.specs.Find.{get};
ghost use Rattle.serde_json.specs.View.{view, items_view};
ghost use Rattle.tuple_text.specs.FactRefs.{fact_value};
ghost use Rattle.tuple_text.specs.TupleRefs.{tuple_value, tuple_values};
ghost use Rattle.trace_lines.specs.Causes.{Gives};
ghost use Rattle.trace_lines.specs.Texts.{tuple_of_text, tuples_of, goal_of, token_of, is_label, label_in, fits_reply, version_at};

use crate::cause::Cause;
use crate::entry::EntryKind;
use json_lines::fields::optional_text_at;
use serde_json::Value;
use std::alloc::Global;
use tuple_text::{FactRef, TupleRef, read_fact, read_tuple};
use zookie::Zookie;

fn tuple_of_text(text: Option<&str>) -> Result<TupleRef<'_>, Cause>
    ensures { Gives tuple_value result (tuple_of_text (option_map (λ s. s.now) text.entry)) }
{
    let Some(text) = text else {
        return Err(Cause::Shape);
    };
    match read_tuple(text) {
        Ok(tuple) => Ok(tuple),
        Err(fault) => Err(Cause::Text(fault)),
    }
}

/// The tuples of a list of texts.
pub(crate) fn tuples_of<'a>(alloc: Global, items: &'a [Value]) -> Result<Vec<TupleRef<'a>>, Cause>
    ensures { Gives (λ v. tuple_values v.items) result (tuples_of (items_view items.now)) }
{
    let mut tuples = Vec::new(alloc);
    for item in items {
        tuples.push(tuple_of_text(item.as_str())?)?;
    }
    Ok(tuples)
}

/// The goal that a text is.
pub(crate) fn goal_of(text: &str) -> Result<FactRef<'_>, Cause>
    ensures { Gives fact_value result (goal_of text.now) }
{
    match read_fact(text) {
        Ok(fact) => Ok(fact),
        Err(fault) => Err(Cause::Text(fault)),
    }
}

/// The zookie that a text is, where there is one.
pub(crate) fn token_of(text: Option<&str>) -> Result<Option<Zookie>, Cause>
    ensures { Gives (λ z. z) result (token_of (option_map (λ s. s.now) text.entry)) }
{
    let Some(text) = text else {
        return Ok(None);
    };
    match Zookie::parse(text) {
        Ok(zookie) => Ok(Some(zookie)),
        Err(fault) => Err(Cause::Token(fault)),
    }
}

pub(crate) fn is_label(text: &str) -> bool
    ensures { result ≡ is_label text.now }
{
    1 <= text.len() && text.len() <= 128
}

/// The label in a line, where there is one; None where it is of another shape.
#[tactic(auto, unfolding(crate::specs::Texts::label_in))]
fn label_of<'a>(value: &'a Value) -> Option<Option<&'a str>>
    ensures { option_map (option_map (λ s. s.now)) result ≡ label_in (get (codes "version") (view value.now)) }
{
    match optional_text_at(value, "version") {
        None => None,
        Some(None) => Some(None),
        Some(Some(text)) => if is_label(text) {
            Some(Some(text))
        } else {
            None
        },
    }
}

pub(crate) fn fits_reply(kind: EntryKind, reply: bool, label: Option<&str>) -> bool
    ensures { result ≡ fits_reply kind reply (option_map (λ s. s.now) label.entry) }
{
    match kind {
        EntryKind::Check => true,
        EntryKind::Content => label.is_some() == reply,
    }
}

/// The label in a line of this kind with this reply, where there is one; None where it is of another shape.
#[tactic(auto, unfolding(crate::specs::Texts::version_in))]
pub(crate) fn version_at<'a>(
    kind: EntryKind,
    reply: bool,
    value: &'a Value,
) -> Option<Option<&'a str>>
    ensures { option_map (option_map (λ s. s.now)) result ≡ version_at kind reply (view value.now) }
{
    let label = label_of(value)?;
    if fits_reply(kind, reply, label) {
        Some(label)
    } else {
        None
    }
}
