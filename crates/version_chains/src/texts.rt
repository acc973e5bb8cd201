//! Usersets whose texts stand one behind the other in one text.

ghost use Rattle.std.specs.Prelude.{◌≡◌, true, IfOk, IfSome, string_bytes};
ghost use Rattle.tuple_text.specs.Forms.{IsUserset};
ghost use Rattle.tuple_text.specs.Refs.{set_value};
ghost use Rattle.version_chains.specs.Texts.{GoesOn, IsSpan, IsSpanOf, set_in};

use std::alloc::AllocError;
use tuple_text::SetRef;

/// How long the text of all may be before one more userset, so that its place is a number of 32 bits.
const MOST_TEXT: usize = u32::MAX as usize;

/// Where the parts of a userset stand in a text, one behind the other: the place of the first, and how long each is.
#[derive(Clone, Copy, Drop)]
pub struct Span {
    pub at: u32,
    pub namespace_len: u8,
    pub id_len: u8,
    pub relation_len: u8,
}

/// The userset whose parts stand there.
#[inline(always)]
pub fn set_at(text: &str, span: Span) -> SetRef<'_>
    requires { IsSpan text.now span }
    ensures { set_value result ≡ set_in text.now span }
{
    let namespace = span.at as usize;
    let id = namespace + span.namespace_len as usize;
    let relation = id + span.id_len as usize;
    let end = relation + span.relation_len as usize;
    SetRef {
        namespace: &text[namespace..id],
        id: &text[id..relation],
        relation: &text[relation..end],
    }
}

/// Whether two usersets stand at one place.
#[inline(always)]
pub fn is_same_span(one: Span, other: Span) -> bool
    ensures { result ≡ true → one ≡ other }
{
    one.at == other.at
        && one.namespace_len == other.namespace_len
        && one.id_len == other.id_len
        && one.relation_len == other.relation_len
}

/// Adds the parts of a userset at the end, and says where they stand.
pub fn push_set(text: &mut String, set: SetRef<'_>) -> Result<Span, AllocError>
    requires { IsUserset (set_value set) }
    ensures goes_on { GoesOn (string_bytes text.old) (string_bytes text.new) }
    ensures span { IfOk result (IsSpan (string_bytes text.new)) }
    ensures set { IfOk result (λ span. set_in (string_bytes text.new) span ≡ set_value set.entry) }
{
    let at = text.len();
    if at > MOST_TEXT {
        return Err(AllocError);
    }
    text.push_str(set.namespace)?;
    text.push_str(set.id)?;
    text.push_str(set.relation)?;
    Ok(Span {
        at: at as u32,
        namespace_len: set.namespace.len() as u8,
        id_len: set.id.len() as u8,
        relation_len: set.relation.len() as u8,
    })
}

/// Says where a userset stands that is known to stand somewhere; else adds its parts at the end.
pub fn place_set(
    text: &mut String,
    set: SetRef<'_>,
    known: Option<Span>,
) -> Result<Span, AllocError>
    requires set { IsUserset (set_value set) }
    requires known { IfSome known (IsSpanOf (string_bytes text.old) (set_value set)) }
    ensures goes_on { GoesOn (string_bytes text.old) (string_bytes text.new) }
    ensures span { IfOk result (IsSpan (string_bytes text.new)) }
    ensures set { IfOk result (λ span. set_in (string_bytes text.new) span ≡ set_value set.entry) }
{
    match known {
        Some(span) => Ok(span),
        None => push_set(text, set),
    }
}
