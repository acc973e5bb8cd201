//! Pieces of JSON that is written plainly: with no space, and no escape in its texts.
//!
//! A line of a form that is known needs no reader of JSON: its punctuation and its keys are compared, and its texts
//! taken from between them, each by one of these calls, from the front of what is left. Numbers, facts and tuples are
//! taken so by `tuple_text`. What comes of it is what reading gives, since such a line is the `compact_text` of its
//! value: `proofs.Compact` says that `serde_json` reads the value back, and how a piece stands in its text.
//!
//! Callers may rely on this: where a call answers, the text is what it took and then the rest. No call asks for
//! memory. None says nothing: the line may still be JSON, and whoever gets None has it read as such. Each call goes
//! over the bytes that it takes, once.
//!
//! ```text
//! let rest = behind(line, "{\"zookie\":\"")?;
//! let (zookie, rest) = text_before(rest)?;
//! ```
#![tactic(auto)]

ghost use Rattle.std.specs.Prelude.{◌≡◌, ◌∷◌, ◌++◌, IfSome};
ghost use Rattle.std.specs.List.{position};
ghost use Rattle.json.specs.Print.{escape};
ghost use Rattle.json.specs.Run.{is_stop};

/// What stands behind this front, where the text begins with it.
pub fn behind<'a>(text: &'a str, front: &str) -> Option<&'a str>
    ensures { IfSome result (λ rest. text.now ≡ front.now ++ rest.now) }
{
    text.strip_prefix(front)
}

/// Whether a text of JSON that is written plainly ends at the byte.
fn is_stop(b: u8) -> bool
    ensures { result ≡ is_stop b }
{
    b == b'"' || b == b'\\' || b < 32
}

/// The place of the byte at which a text of JSON that is written plainly ends.
fn end_of_text(bytes: &[u8]) -> Option<usize>
    ensures { result ≡ position is_stop bytes.now }
{
    bytes.iter().position(|b| is_stop(*b))
}

/// The text that the next quote ends, and what stands behind the quote, where no escape and no control stands before
/// it.
pub fn text_before(text: &str) -> Option<(&str, &str)>
    ensures { IfSome result (λ p. (text.now ≡ p.0.now ++ 34 ∷ p.1.now) × (escape p.0.now ≡ p.0.now)) }
{
    let bytes = text.as_bytes();
    let end = end_of_text(bytes)?;
    if bytes[end] != b'"' {
        return None;
    }
    Some((&text[..end], &text[end + 1..]))
}
