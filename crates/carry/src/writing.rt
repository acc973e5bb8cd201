//! Writing the text of a carry.

ghost use Rattle.std.specs.Prelude.{◌≡◌, ◌++◌, ◌<◌, ◌^◌, ⊤, IfOk, OnOk, codes, length, string_bytes, option_map};
ghost use Rattle.std.specs.List.{AllByRecursion};
ghost use Rattle.tuple_text.specs.FactRefs.{fact_value};
ghost use Rattle.tuple_text.specs.Grammar.{IsFact, IsTuple, fact_text, tuple_text};
ghost use Rattle.tuple_text.specs.TupleRefs.{tuple_value, tuple_values};
ghost use Rattle.zookie.specs.Tokens.{front, token_text};
ghost use Rattle.carry.specs.Fields.{IfThere, counted_text, flag_text, number_line, optional_text, text_line};
ghost use Rattle.carry.specs.Texts.{IsCheck, IsCommit, IsInForm, IsItem, IsSaid, body_text, check_text, commit_text, fact_line, head_word, item_text, known_text, said_text, tuple_line, zookie_line};
ghost use Rattle.carry.specs.Values.{carry_value, check_value, commit_value, item_value, item_values, said_value};

use crate::value::{CarriedCheck, CarriedCommit, Carry, CheckKind, Item, Said};
use itoa::Buffer;
use std::alloc::AllocError;
use tuple_text::{FactRef, TupleRef, UserRef, push_set};
use zookie::{TokenKind, Zookie};

/// Appends a number, on a line.
fn push_number(number: u64, out: &mut String) -> Result<(), AllocError>
    ensures { OnOk result (string_bytes out.new ≡ string_bytes out.old ++ number_line number) }
{
    let mut digits = Buffer::new();
    out.push_str(digits.format(number))?;
    out.push('\n')
}

/// Appends a text, on a line behind its length.
fn push_text(text: &str, out: &mut String) -> Result<(), AllocError>
    ensures text { OnOk result (string_bytes out.new ≡ string_bytes out.old ++ text_line text.now) }
    ensures form { length text.now < 2 ^ 64 }
{
    let mut digits = Buffer::new();
    out.push_str(digits.format(text.len()))?;
    out.push(' ')?;
    out.push_str(text)?;
    out.push('\n')
}

/// Appends a tuple, on a line.
fn push_tuple(tuple: TupleRef<'_>, out: &mut String) -> Result<(), AllocError>
    ensures text { OnOk result (string_bytes out.new ≡ string_bytes out.old ++ tuple_line (tuple_value tuple.entry)) }
    ensures form { OnOk result (IsTuple (tuple_value tuple.entry)) }
{
    let mut text = String::new(*out.allocator());
    push_set(tuple.set(), &mut text)?;
    text.push('@')?;
    match tuple.user() {
        UserRef::Id(id) => {
            let mut digits = Buffer::new();
            text.push_str(digits.format(id))?;
        }
        UserRef::Set(set) => push_set(set, &mut text)?,
    }
    push_text(text.as_str(), out)
}

/// Appends a fact, on a line.
fn push_fact(fact: FactRef<'_>, out: &mut String) -> Result<(), AllocError>
    ensures text { OnOk result (string_bytes out.new ≡ string_bytes out.old ++ fact_line (fact_value fact.entry)) }
    ensures form { OnOk result (IsFact (fact_value fact.entry)) }
{
    let mut text = String::new(*out.allocator());
    let mut digits = Buffer::new();
    push_set(fact.set(), &mut text)?;
    text.push('@')?;
    text.push_str(digits.format(fact.user()))?;
    push_text(text.as_str(), out)
}

/// What stands before the digits of a zookie.
fn zookie_front(kind: Option<TokenKind>) -> &'static str
    ensures { result.now ≡ front kind }
{
    match kind {
        None => "z1-",
        Some(TokenKind::AclWrite) => "z2-w",
        Some(TokenKind::ContentVersion) => "z2-c",
        Some(TokenKind::ReadSnapshot) => "z2-r",
    }
}

/// Appends a zookie, on a line.
fn push_zookie(zookie: Zookie, out: &mut String) -> Result<(), AllocError>
    ensures text { OnOk result (string_bytes out.new ≡ string_bytes out.old ++ zookie_line zookie) }
    ensures form { OnOk result (zookie.at < 2 ^ 64) }
{
    let alloc = *out.allocator();
    let digits = hex::encode(alloc, zookie.at().to_be_bytes())?;
    let mut text = String::from_str(alloc, zookie_front(zookie.kind()))?;
    text.push_str(digits.as_str())?;
    push_text(text.as_str(), out)
}

/// Appends a zookie behind a word, or another word where there is none.
fn push_perhaps_zookie(zookie: Option<Zookie>, out: &mut String) -> Result<(), AllocError>
    ensures text { OnOk result (string_bytes out.new ≡ string_bytes out.old
        ++ optional_text (codes "no zookie\n") (codes "zookie ") zookie_line zookie) }
    ensures form { OnOk result (IfThere (λ z. z.at < 2 ^ 64) zookie) }
{
    match zookie {
        None => out.push_str("no zookie\n"),
        Some(zookie) => {
            out.push_str("zookie ")?;
            push_zookie(zookie, out)
        }
    }
}

/// Appends a text behind a word, or another word where there is none.
fn push_perhaps_text(
    text: Option<&str>,
    none: &str,
    word: &str,
    out: &mut String,
) -> Result<(), AllocError>
    ensures text { OnOk result (string_bytes out.new ≡ string_bytes out.old
        ++ optional_text none.now word.now text_line (option_map (λ s. s.now) text.entry)) }
    ensures form { OnOk result (IfThere (λ t. length t < 2 ^ 64) (option_map (λ s. s.now) text.entry)) }
{
    match text {
        None => out.push_str(none),
        Some(text) => {
            out.push_str(word)?;
            push_text(text, out)
        }
    }
}

/// Appends one of two words.
fn push_flag(flag: bool, first: &str, second: &str, out: &mut String) -> Result<(), AllocError>
    ensures { OnOk result (string_bytes out.new ≡ string_bytes out.old ++ flag_text first.now second.now flag) }
{
    if flag {
        out.push_str(first)
    } else {
        out.push_str(second)
    }
}

/// Appends what an entry says.
fn push_check(check: &CarriedCheck<'_>, out: &mut String) -> Result<(), AllocError>
    ensures text { OnOk result (string_bytes out.new ≡ string_bytes out.old ++ check_text (check_value check.now)) }
    ensures form { OnOk result (IsCheck (check_value check.now)) }
{
    push_flag(check.reply, "yes\n", "no\n", out)?;
    out.push_str("goal ")?;
    push_fact(check.goal, out)?;
    out.push_str("snapshot ")?;
    push_number(check.snapshot, out)?;
    push_perhaps_zookie(check.zookie, out)?;
    push_perhaps_text(check.version, "no version\n", "version ", out)?;
    Ok(())
}

/// Appends tuples, behind their count.
fn push_tuples(tuples: &[TupleRef<'_>], out: &mut String) -> Result<(), AllocError>
    ensures text { OnOk result (string_bytes out.new
        ≡ string_bytes out.old ++ counted_text tuple_line (tuple_values tuples.now)) }
    ensures form { OnOk result ((length (tuple_values tuples.now) < 2 ^ 64)
        × AllByRecursion IsTuple (tuple_values tuples.now)) }
{
    push_number(tuples.len() as u64, out)?;
    // bounded by the tuples that the caller has in memory
    for tuple in tuples {
        push_tuple(*tuple, out)?;
    }
    Ok(())
}

/// Appends what a commit says.
fn push_commit(commit: &CarriedCommit<'_>, out: &mut String) -> Result<(), AllocError>
    ensures text { OnOk result (string_bytes out.new ≡ string_bytes out.old ++ commit_text (commit_value commit.now)) }
    ensures form { OnOk result (IsCommit (commit_value commit.now)) }
{
    out.push_str("at ")?;
    push_number(commit.at, out)?;
    out.push_str("adds ")?;
    push_tuples(&commit.adds, out)?;
    out.push_str("removes ")?;
    push_tuples(&commit.removes, out)
}

/// What an item is.
fn head_word(said: &Said<'_>) -> &'static str
    ensures { result.now ≡ head_word (said_value said.now) }
{
    match said {
        Said::Declares(_) => "declaration ",
        Said::Commits(_) => "commit ",
        Said::Records(check) => match check.kind {
            CheckKind::Check => "check ",
            CheckKind::Content => "content ",
        },
    }
}

/// Appends what an item says.
fn push_said(said: &Said<'_>, out: &mut String) -> Result<(), AllocError>
    ensures text { OnOk result (string_bytes out.new ≡ string_bytes out.old ++ said_text (said_value said.now)) }
    ensures form { OnOk result (IsSaid (said_value said.now)) }
{
    match said {
        Said::Declares(text) => push_text(text, out),
        Said::Commits(commit) => push_commit(commit, out),
        Said::Records(check) => push_check(check, out),
    }
}

/// Appends an item.
fn push_item(item: &Item<'_>, out: &mut String) -> Result<(), AllocError>
    ensures text { OnOk result (string_bytes out.new ≡ string_bytes out.old ++ item_text (item_value item.now)) }
    ensures form { OnOk result (IsItem (item_value item.now)) }
{
    out.push_str(head_word(&item.said))?;
    push_number(item.line, out)?;
    push_said(&item.said, out)
}

/// Appends items, behind their count.
fn push_items(items: &[Item<'_>], out: &mut String) -> Result<(), AllocError>
    ensures text { OnOk result (string_bytes out.new
        ≡ string_bytes out.old ++ counted_text item_text (item_values items.now)) }
    ensures form { OnOk result ((length (item_values items.now) < 2 ^ 64)
        × AllByRecursion IsItem (item_values items.now)) }
{
    push_number(items.len() as u64, out)?;
    // bounded by the items that the caller has in memory
    for item in items {
        push_item(item, out)?;
    }
    Ok(())
}

/// Appends from where on the log is known.
fn push_known(base: u64, versions: u64, out: &mut String) -> Result<(), AllocError>
    ensures { OnOk result (string_bytes out.new ≡ string_bytes out.old ++ known_text base versions) }
{
    out.push_str("base ")?;
    push_number(base, out)?;
    out.push_str("versions ")?;
    push_number(versions, out)
}

/// Appends what stands between the first line and the last.
pub(crate) fn push_body(carry: &Carry<'_>, out: &mut String) -> Result<(), AllocError>
    ensures text { OnOk result (string_bytes out.new ≡ string_bytes out.old ++ body_text (carry_value carry.now)) }
    ensures form { OnOk result (IsInForm (carry_value carry.now)) }
{
    out.push_str("lines ")?;
    push_number(carry.lines, out)?;
    push_known(carry.base, carry.versions, out)?;
    push_perhaps_text(carry.before, "no carry before\n", "before ", out)?;
    out.push_str("items ")?;
    push_items(&carry.items, out)
}
