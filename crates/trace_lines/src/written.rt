//! Lines that are written plainly, each field once, in one order, with no space and no escape: they are read without
//! a reader of JSON.

ghost use Rattle.std.specs.Prelude.{◌≡◌, [], ◌∷◌, ◌++◌, ℕ, IfOk, IfSome, IsTrue, Some, bytes_eq, codes, not, option_map};
ghost use Rattle.std.specs.Fmt.{decimal};
ghost use Rattle.json.specs.Print.{quoted};
ghost use Rattle.std.specs.List.{list_all};
ghost use Rattle.serde_json.specs.Data.{boolean, string};
ghost use Rattle.serde_json.specs.Written.{compact_text};
ghost use Rattle.tuple_text.specs.Grammar.{IsTuple, tuple_text};
ghost use Rattle.tuple_text.specs.TupleRefs.{tuple_value, tuple_values};
ghost use Rattle.trace_lines.specs.LineViews.{commit_value};
ghost use Rattle.trace_lines.specs.Texts.{version_in};
ghost use Rattle.trace_lines.specs.Written.{ArePlain, AreTuples, HasMore, IsCheck, IsCommit, IsMore, IsPlain, is_free, kind_name, list_text, listed, optional_list, optional_text, said_text};

use crate::checks::Said;
use crate::commits::CommitRef;
use crate::entry::EntryKind;
use crate::texts::{fits_reply, is_label};
use compact_json::{behind, text_before};
use std::alloc::{AllocError, Global};
use tuple_text::{TupleRef, number_before, quoted_tuple};

/// The kind of a check in front, and what stands behind the quote after it.
fn kind_before(text: &str) -> Option<(EntryKind, &str)>
    ensures { IfSome result (λ p. text.now ≡ kind_name p.0 ++ 34 ∷ p.1.now) }
{
    if let Some(rest) = behind(text, "check\"") {
        return Some((EntryKind::Check, rest));
    }
    let rest = behind(text, "content\"")?;
    Some((EntryKind::Content, rest))
}

/// The truth value in front, and what stands behind it.
fn flag_before(text: &str) -> Option<(bool, &str)>
    ensures { IfSome result (λ p. text.now ≡ compact_text (boolean p.0) ++ p.1.now) }
{
    if let Some(rest) = behind(text, "true") {
        return Some((true, rest));
    }
    let rest = behind(text, "false")?;
    Some((false, rest))
}

/// The text behind this front, where the front stands there, and what stands behind the text; None where it is not
/// plain.
fn text_behind<'a>(text: &'a str, front: &str) -> Option<(Option<&'a str>, &'a str)>
    ensures text { IfSome result (λ p. text.now ≡ optional_text front.now (option_map (λ t. t.now) p.0) p.1.now) }
    ensures plain { IfSome result (λ p. IsPlain (option_map (λ t. t.now) p.0)) }
{
    match behind(text, front) {
        None => Some((None, text)),
        Some(rest) => {
            let (found, rest) = text_before(rest)?;
            Some((Some(found), rest))
        }
    }
}

/// What the fields of a check say, and what stands behind them.
fn said_before(text: &str) -> Option<(Said<'_>, &str)>
    ensures text { IfSome result (λ p. text.now ≡ said_text p.0 p.1.now) }
    ensures plain { IfSome result (λ p. ArePlain p.0) }
{
    let (goal, rest) = text_before(behind(text, ",\"goal\":\"")?)?;
    let (snapshot, rest) = number_before(behind(rest, ",\"snapshot\":")?)?;
    let (reply, rest) = flag_before(behind(rest, ",\"reply\":")?)?;
    let (zookie, rest) = text_behind(rest, ",\"zookie\":\"")?;
    let (version, rest) = text_behind(rest, ",\"version\":\"")?;
    let said = Said {
        goal,
        snapshot,
        reply,
        zookie,
        version,
    };
    Some((said, rest))
}

/// Whether the brace that closes an object is all that is left.
fn is_end(rest: &str) -> bool
    ensures { IsTrue result → rest.now ≡ 125 ∷ [] }
{
    rest == "}"
}

/// Whether none of the names is the key.
fn lacks(names: &[&str], key: &str) -> bool
    ensures { result ≡ list_all (λ name. not (bytes_eq name.now key.now)) names.now }
{
    names.iter().all(|name| *name != key)
}

/// Whether no line of a trace is asked for the key.
fn is_free(key: &str) -> bool
    ensures { result ≡ is_free key.now }
{
    let names = [
        "kind", "goal", "snapshot", "reply", "zookie", "version", "at", "add", "remove",
    ];
    lacks(&names, key)
}

/// What stands behind a member more, whose value is a text.
fn behind_member(text: &str) -> Option<&str>
    ensures { IfSome result (λ rest. HasMore text.now rest.now) }
{
    let (key, rest) = text_before(behind(text, ",\"")?)?;
    if !is_free(key) {
        return None;
    }
    let (_, rest) = text_before(behind(rest, ":\"")?)?;
    Some(rest)
}

/// Whether all that is left are members of which a line says nothing to a trace, each with a text, and the closing
/// brace.
fn is_more(text: &str) -> bool
    ensures { IsTrue result → IsMore text.now }
{
    let mut rest = text;
    // Each turn takes a member off what is left.
    while let Some(next) = behind_member(rest) {
        rest = next;
    }
    is_end(rest)
}

/// Whether the version is one that a check of this kind may have.
fn has_version(kind: EntryKind, said: &Said<'_>) -> bool
    ensures { IsTrue result → version_in kind said.now.reply (option_map (λ t. string t.now) said.now.version)
        ≡ Some (option_map (λ t. t.now) said.now.version) }
{
    match said.version {
        None => fits_reply(kind, said.reply, None),
        Some(version) => is_label(version) && fits_reply(kind, said.reply, Some(version)),
    }
}

/// What a check says that is written with each field once, in this order, with no space and no escape: its kind, its
/// goal, its snapshot, its reply, its zookie and its version where it has them, and then whatever texts more. None
/// where the line is not written so, or a field may not be so.
pub(crate) fn check_written(text: &str) -> Option<(EntryKind, Said<'_>)>
    ensures { IfSome result (λ c. IsCheck text.now c.0 c.1) }
{
    let (kind, rest) = kind_before(behind(text, "{\"kind\":\"")?)?;
    let (said, rest) = said_before(rest)?;
    if !is_more(rest) || !has_version(kind, &said) {
        return None;
    }
    Some((kind, said))
}

/// The tuple that a text in front writes, and what stands behind its quote.
fn tuple_before(text: &str) -> Option<(TupleRef<'_>, &str)>
    ensures text { IfSome result (λ p. text.now ≡ quoted (tuple_text (tuple_value p.0)) ++ p.1.now) }
    ensures tuple { IfSome result (λ p. IsTuple (tuple_value p.0)) }
{
    let (tuple, rest) = quoted_tuple(behind(text, "\"")?)?;
    Some((tuple, rest))
}

/// The tuples of a list behind its opening bracket, and what stands behind the closing one.
fn tuples_before<'a>(
    alloc: Global,
    text: &'a str,
) -> Result<Option<(Vec<TupleRef<'a>>, &'a str)>, AllocError>
    ensures text { IfOk result (λ o. IfSome o (λ p. text.now ≡ list_text (tuple_values p.0.items) p.1.now)) }
    ensures tuples { IfOk result (λ o. IfSome o (λ p. AreTuples (tuple_values p.0.items))) }
{
    let mut tuples = Vec::new(alloc);
    if let Some(end) = behind(text, "]") {
        return Ok(Some((tuples, end)));
    }
    let mut rest = text;
    // Each turn takes a text off what is left.
    loop {
        let Some((tuple, after)) = tuple_before(rest) else {
            return Ok(None);
        };
        tuples.push(tuple)?;
        if let Some(end) = behind(after, "]") {
            return Ok(Some((tuples, end)));
        }
        let Some(next) = behind(after, ",") else {
            return Ok(None);
        };
        rest = next;
    }
}

/// The tuples of a list behind this front, where the front stands there, and what stands behind the list.
fn tuples_behind<'a>(
    alloc: Global,
    text: &'a str,
    front: &str,
) -> Result<Option<(Option<Vec<TupleRef<'a>>>, &'a str)>, AllocError>
    ensures text { IfOk result (λ o. IfSome o (λ p.
        text.now ≡ optional_list front.now (option_map (λ v. tuple_values v.items) p.0) p.1.now)) }
    ensures tuples { IfOk result (λ o. IfSome o (λ p.
        AreTuples (listed (option_map (λ v. tuple_values v.items) p.0)))) }
{
    let Some(rest) = behind(text, front) else {
        return Ok(Some((None, text)));
    };
    match tuples_before(alloc, rest)? {
        Some((tuples, rest)) => Ok(Some((Some(tuples), rest))),
        None => Ok(None),
    }
}

/// The tuples of a list that need not be there.
fn listed<'a>(alloc: Global, list: Option<Vec<TupleRef<'a>>>) -> Vec<TupleRef<'a>>
    ensures { tuple_values result.items ≡ listed (option_map (λ v. tuple_values v.items) list.entry) }
{
    match list {
        Some(tuples) => tuples,
        None => Vec::new(alloc),
    }
}

/// The timestamp of a commit, and what stands behind it.
fn commit_before(text: &str) -> Option<(u64, &str)>
    ensures { IfSome result (λ p. text.now ≡ codes "{\"kind\":\"commit\",\"at\":" ++ (decimal p.0 ++ p.1.now)) }
{
    number_before(behind(text, "{\"kind\":\"commit\",\"at\":")?)
}

/// What a line commits that is written with each field once, in this order, with no space and no escape: its kind,
/// its timestamp, the lists of what it adds and removes, where they are there, and then whatever texts more. None where
/// the line is not written so, or a text is no tuple.
pub(crate) fn commit_written<'a>(
    alloc: Global,
    text: &'a str,
) -> Result<Option<CommitRef<'a>>, AllocError>
    ensures { IfOk result (λ o. IfSome o (λ c. IsCommit text.now (commit_value c))) }
{
    let Some((at, rest)) = commit_before(text) else {
        return Ok(None);
    };
    let Some((adds, rest)) = tuples_behind(alloc, rest, ",\"add\":[")? else {
        return Ok(None);
    };
    let Some((removes, rest)) = tuples_behind(alloc, rest, ",\"remove\":[")? else {
        return Ok(None);
    };
    if !is_more(rest) {
        return Ok(None);
    }
    Ok(Some(CommitRef {
        at,
        adds: listed(alloc, adds),
        removes: listed(alloc, removes),
    }))
}
