//! Reading the text of a carry.

ghost use Rattle.std.specs.Prelude.{◌≡◌, option_map, codes};
ghost use Rattle.tuple_text.specs.FactRefs.{fact_value};
ghost use Rattle.tuple_text.specs.TupleRefs.{tuple_value, tuple_values};
ghost use Rattle.carry.specs.Faults.{Gives, Tells};
ghost use Rattle.carry.specs.Fields.{behind, both, counted_at, number_to, optional_at, repeated, seen, text_at};
ghost use Rattle.carry.specs.Reading.{carry_of, check_of, checked_at, commit_of, commit_fields_at, committed_at, declared_at, fact_line_at, item_at, known_at, check_fields_at, body_at, tuple_line_at, whole_body, zookie_line_at};
ghost use Rattle.carry.specs.Values.{carry_value, check_value, commit_value, item_value, item_values};

use crate::fault::FieldFault;
use crate::fields::{after_word, flag_at, number_behind, number_to, text_at, word_at};
use crate::value::{CarriedCheck, CarriedCommit, Carry, CheckKind, Item, Said};
use std::alloc::Global;
use tuple_text::{FactRef, TupleRef, read_fact, read_tuple};
use zookie::Zookie;

/// The tuple on a line.
#[tactic(auto, unfolding(crate::specs::Reading::tuple_line_at))]
fn tuple_at(text: &str) -> Result<(TupleRef<'_>, &str), FieldFault>
    ensures { Tells (λ x. (tuple_value x.0, x.1.now)) result (tuple_line_at text.now) }
{
    let (line, rest) = text_at(text)?;
    match read_tuple(line) {
        Ok(tuple) => Ok((tuple, rest)),
        Err(_) => Err(FieldFault::Left(text.len())),
    }
}

/// The fact on a line.
#[tactic(auto, unfolding(crate::specs::Reading::fact_line_at))]
fn fact_at(text: &str) -> Result<(FactRef<'_>, &str), FieldFault>
    ensures { Tells (λ x. (fact_value x.0, x.1.now)) result (fact_line_at text.now) }
{
    let (line, rest) = text_at(text)?;
    match read_fact(line) {
        Ok(fact) => Ok((fact, rest)),
        Err(_) => Err(FieldFault::Left(text.len())),
    }
}

/// The zookie on a line.
#[tactic(auto, unfolding(crate::specs::Reading::zookie_line_at))]
fn zookie_at(text: &str) -> Result<(Zookie, &str), FieldFault>
    ensures { Tells (λ x. (x.0, x.1.now)) result (zookie_line_at text.now) }
{
    let (line, rest) = text_at(text)?;
    match Zookie::parse(line) {
        Ok(zookie) => Ok((zookie, rest)),
        Err(_) => Err(FieldFault::Left(text.len())),
    }
}

/// So many tuples, each on a line.
fn tuples_of<'a>(
    alloc: Global,
    count: u64,
    text: &'a str,
) -> Result<(Vec<TupleRef<'a>>, &'a str), FieldFault>
    ensures { Gives (λ x. (tuple_values x.0.items, x.1.now)) result (repeated tuple_line_at count text.now) }
{
    let mut tuples = Vec::new(alloc);
    let mut rest = text;
    // bounded by the text: each turn takes a line of it, or is the last
    for _ in 0..count {
        let (tuple, after) = tuple_at(rest)?;
        tuples.push(tuple)?;
        rest = after;
    }
    Ok((tuples, rest))
}

/// The tuples behind a word and their count.
fn tuples_behind<'a>(
    alloc: Global,
    text: &'a str,
    word: &str,
) -> Result<(Vec<TupleRef<'a>>, &'a str), FieldFault>
    ensures { Gives (λ x. (tuple_values x.0.items, x.1.now)) result
        (behind word.now (counted_at tuple_line_at) text.now) }
{
    let rest = after_word(text, word)?;
    let (count, rest) = number_to(rest, '\n')?;
    tuples_of(alloc, count, rest)
}

/// A commit, behind its line number.
#[tactic(auto, unfolding(crate::specs::Reading::commit_fields_at))]
fn commit_at(alloc: Global, text: &str) -> Result<(CarriedCommit<'_>, &str), FieldFault>
    ensures { Gives (λ x. (commit_value x.0, x.1.now)) result (seen commit_of commit_fields_at text.now) }
{
    let (at, rest) = number_behind(text, "at ")?;
    let (adds, rest) = tuples_behind(alloc, rest, "adds ")?;
    let (removes, rest) = tuples_behind(alloc, rest, "removes ")?;
    Ok((CarriedCommit { at, adds, removes }, rest))
}

/// The zookie, where there is one.
fn perhaps_zookie(text: &str) -> Result<(Option<Zookie>, &str), FieldFault>
    ensures { Tells (λ x. (x.0, x.1.now)) result
        (optional_at (codes "no zookie\n") (codes "zookie ") zookie_line_at text.now) }
{
    if let Some(rest) = word_at(text, "no zookie\n") {
        return Ok((None, rest));
    }
    let rest = after_word(text, "zookie ")?;
    match zookie_at(rest) {
        Ok((zookie, rest)) => Ok((Some(zookie), rest)),
        Err(fault) => Err(fault),
    }
}

/// The text behind a word, where the other word does not say that there is none.
pub(crate) fn perhaps_text<'a>(
    text: &'a str,
    none: &str,
    word: &str,
) -> Result<(Option<&'a str>, &'a str), FieldFault>
    ensures { Tells (λ x. (option_map (λ s. s.now) x.0, x.1.now)) result
        (optional_at none.now word.now text_at text.now) }
{
    if let Some(rest) = word_at(text, none) {
        return Ok((None, rest));
    }
    let rest = after_word(text, word)?;
    let (found, rest) = text_at(rest)?;
    Ok((Some(found), rest))
}

/// An entry, behind its line number.
#[tactic(auto, unfolding(crate::specs::Reading::check_fields_at))]
fn check_at(kind: CheckKind, text: &str) -> Result<(CarriedCheck<'_>, &str), FieldFault>
    ensures { Tells (λ x. (check_value x.0, x.1.now)) result (seen (check_of kind) check_fields_at text.now) }
{
    let (reply, rest) = flag_at(text, "yes\n", "no\n")?;
    let rest = after_word(rest, "goal ")?;
    let (goal, rest) = fact_at(rest)?;
    let (snapshot, rest) = number_behind(rest, "snapshot ")?;
    let (zookie, rest) = match perhaps_zookie(rest) {
        Ok(found) => found,
        Err(fault) => return Err(fault),
    };
    let (version, rest) = perhaps_text(rest, "no version\n", "version ")?;
    let check = CarriedCheck {
        kind,
        reply,
        goal,
        snapshot,
        zookie,
        version,
    };
    Ok((check, rest))
}

/// A declaration, behind its word.
#[tactic(auto, unfolding(crate::specs::Reading::declared_at))]
fn declared_at(text: &str) -> Result<(Item<'_>, &str), FieldFault>
    ensures { Tells (λ x. (item_value x.0, x.1.now)) result (declared_at text.now) }
{
    let (line, rest) = number_to(text, '\n')?;
    let (declaration, rest) = text_at(rest)?;
    let said = Said::Declares(declaration);
    Ok((Item { line, said }, rest))
}

/// A commit, behind its word.
#[tactic(auto, unfolding(crate::specs::Reading::committed_at))]
fn committed_at(alloc: Global, text: &str) -> Result<(Item<'_>, &str), FieldFault>
    ensures { Gives (λ x. (item_value x.0, x.1.now)) result (committed_at text.now) }
{
    let (line, rest) = number_to(text, '\n')?;
    match commit_at(alloc, rest) {
        Ok((commit, rest)) => {
            let said = Said::Commits(commit);
            Ok((Item { line, said }, rest))
        }
        Err(fault) => Err(fault),
    }
}

/// An entry, behind its word.
#[tactic(auto, unfolding(crate::specs::Reading::checked_at))]
fn checked_at(kind: CheckKind, text: &str) -> Result<(Item<'_>, &str), FieldFault>
    ensures { Tells (λ x. (item_value x.0, x.1.now)) result (checked_at kind text.now) }
{
    let (line, rest) = number_to(text, '\n')?;
    match check_at(kind, rest) {
        Ok((check, rest)) => {
            let said = Said::Records(check);
            Ok((Item { line, said }, rest))
        }
        Err(fault) => Err(fault),
    }
}

/// An item.
#[tactic(auto, unfolding(crate::specs::Reading::item_at))]
fn item_at(alloc: Global, text: &str) -> Result<(Item<'_>, &str), FieldFault>
    ensures { Gives (λ x. (item_value x.0, x.1.now)) result (item_at text.now) }
{
    if let Some(rest) = word_at(text, "declaration ") {
        return declared_at(rest);
    }
    if let Some(rest) = word_at(text, "commit ") {
        return committed_at(alloc, rest);
    }
    if let Some(rest) = word_at(text, "check ") {
        return checked_at(CheckKind::Check, rest);
    }
    match after_word(text, "content ") {
        Ok(rest) => checked_at(CheckKind::Content, rest),
        Err(fault) => Err(fault),
    }
}

/// So many items.
fn items_of<'a>(
    alloc: Global,
    count: u64,
    text: &'a str,
) -> Result<(Vec<Item<'a>>, &'a str), FieldFault>
    ensures { Gives (λ x. (item_values x.0.items, x.1.now)) result (repeated item_at count text.now) }
{
    let mut items = Vec::new(alloc);
    let mut rest = text;
    // bounded by the text: each turn takes lines of it, or is the last
    for _ in 0..count {
        match item_at(alloc, rest) {
            Ok((item, after)) => {
                items.push(item)?;
                rest = after;
            }
            Err(fault) => return Err(fault),
        }
    }
    Ok((items, rest))
}

/// From where on the log is known: the base, and the line of the first version.
#[tactic(auto, unfolding(crate::specs::Reading::known_at))]
fn known_at(text: &str) -> Result<((u64, u64), &str), FieldFault>
    ensures { Tells (λ x. (x.0, x.1.now)) result (known_at text.now) }
{
    let (base, rest) = number_behind(text, "base ")?;
    let (versions, rest) = number_behind(rest, "versions ")?;
    Ok(((base, versions), rest))
}

/// All fields of a carry, behind its first line.
#[tactic(auto, unfolding(crate::specs::Reading::body_at))]
fn body_at(alloc: Global, text: &str) -> Result<(Carry<'_>, &str), FieldFault>
    ensures { Gives (λ x. (carry_value x.0, x.1.now)) result (seen carry_of body_at text.now) }
{
    let (lines, rest) = number_behind(text, "lines ")?;
    let ((base, versions), rest) = known_at(rest)?;
    let (before, rest) = perhaps_text(rest, "no carry before\n", "before ")?;
    let (count, rest) = number_behind(rest, "items ")?;
    match items_of(alloc, count, rest) {
        Ok((items, rest)) => {
            let carry = Carry {
                lines,
                base,
                versions,
                before,
                items,
            };
            Ok((carry, rest))
        }
        Err(fault) => Err(fault),
    }
}

/// The carry that all of the text behind the first line is.
#[tactic(auto, unfolding(crate::specs::Reading::whole_body))]
pub(crate) fn whole_body(alloc: Global, text: &str) -> Result<Carry<'_>, FieldFault>
    ensures { Gives carry_value result (whole_body text.now) }
{
    match body_at(alloc, text) {
        Ok((carry, rest)) => {
            if rest.is_empty() {
                Ok(carry)
            } else {
                Err(FieldFault::Left(rest.len()))
            }
        }
        Err(fault) => Err(fault),
    }
}
