//! What is found on an entry, by its neighbours.

ghost use Rattle.std.specs.Prelude.{◌≡◌, ◌<◌, length, slice_get, Some};
ghost use Rattle.trace_lines.specs.EntryViews.{entry_value};
ghost use Rattle.trace_lines.specs.Values.{EntryValue};
ghost use Rattle.token_order.specs.Standing.{StandsAmong};
ghost use Rattle.token_order.specs.Found.{is_content, is_above, is_short_of, is_stale, line_if_short, old_token, not_latest, open_snapshot, may_stand_for_content, is_token_of, is_wrong_token, is_unknown_version, order_of};

use crate::findings::OrderFindings;
use trace_lines::{Entry, EntryKind, Trace};
use zookie::{TokenKind, Zookie};

fn is_stale(trace: &Trace, i: usize) -> bool
    requires { i < length trace.now.entries }
    ensures { (e : EntryValue) → slice_get trace.now.entries i ≡ Some e → result ≡ is_stale e }
{
    let entry = trace.entry(i);
    match (entry.kind, entry.zookie) {
        (EntryKind::Check, Some(zookie)) => entry.snapshot < zookie.at(),
        _ => false,
    }
}

/// Whether the zookie is absent, or below the timestamp.
fn is_short_of(zookie: Option<Zookie>, at: u64) -> bool
    ensures { result ≡ is_short_of zookie at }
{
    match zookie {
        None => true,
        Some(zookie) => zookie.at() < at,
    }
}

fn old_token(trace: &Trace, i: usize) -> Option<u64>
    requires { i < length trace.now.entries }
    ensures { (e : EntryValue) → slice_get trace.now.entries i ≡ Some e → result ≡ old_token trace.now i e }
{
    let entry = trace.entry(i);
    let content = trace.entry(trace.content_of(i)?);
    if is_short_of(entry.zookie, content.snapshot) {
        Some(content.line)
    } else {
        None
    }
}

fn is_content(kind: EntryKind) -> bool
    ensures { result ≡ is_content kind }
{
    match kind {
        EntryKind::Check => false,
        EntryKind::Content => true,
    }
}

/// An entry, and the times of the commits among which it stands.
fn standing(trace: &Trace, i: usize) -> (Entry<'_>, &[u64])
    requires { i < length trace.now.entries }
    ensures value { slice_get trace.now.entries i ≡ Some (entry_value result.0) }
    ensures among { StandsAmong trace.now (entry_value result.0) result.1.now }
{
    (trace.entry(i), trace.chains().commits())
}

/// Of a content check, compared with the last commit before it.
fn not_latest(trace: &Trace, i: usize) -> Option<u64>
    requires { i < length trace.now.entries }
    ensures { (e : EntryValue) → slice_get trace.now.entries i ≡ Some e → result ≡ not_latest trace.now e }
{
    let (entry, times) = standing(trace, i);
    if !is_content(entry.kind) {
        return None;
    }
    if entry.before == 0 {
        return None;
    }
    let last = entry.before - 1;
    if times[last] <= entry.snapshot {
        return None;
    }
    Some(trace.commit_line(last))
}

/// Compared with the first commit behind the entry.
fn open_snapshot(trace: &Trace, i: usize) -> Option<u64>
    requires { i < length trace.now.entries }
    ensures { (e : EntryValue) → slice_get trace.now.entries i ≡ Some e → result ≡ open_snapshot trace.now e }
{
    let (entry, times) = standing(trace, i);
    let next = entry.before;
    if next == times.len() {
        return None;
    }
    if entry.snapshot < times[next] {
        return None;
    }
    Some(trace.commit_line(next))
}

/// Whether the zookie carries the timestamp, as one of content.
fn is_token_of(at: u64, zookie: Option<Zookie>) -> bool
    ensures { result ≡ is_token_of at zookie }
{
    match zookie {
        None => false,
        Some(zookie) => zookie.at() == at && may_stand_for_content(zookie.kind()),
    }
}

fn may_stand_for_content(kind: Option<TokenKind>) -> bool
    ensures { result ≡ may_stand_for_content kind }
{
    match kind {
        None => true,
        Some(TokenKind::AclWrite) => false,
        Some(TokenKind::ContentVersion) => true,
        Some(TokenKind::ReadSnapshot) => false,
    }
}

fn is_wrong_token(trace: &Trace, i: usize) -> bool
    requires { i < length trace.now.entries }
    ensures { (e : EntryValue) → slice_get trace.now.entries i ≡ Some e → result ≡ is_wrong_token e }
{
    let entry = trace.entry(i);
    match entry.kind {
        EntryKind::Check => false,
        EntryKind::Content => entry.reply && !is_token_of(entry.snapshot, entry.zookie),
    }
}

fn is_unknown_version(trace: &Trace, i: usize) -> bool
    requires { i < length trace.now.entries }
    ensures { (e : EntryValue) → slice_get trace.now.entries i ≡ Some e → result ≡ is_unknown_version trace.now i e }
{
    let entry = trace.entry(i);
    match entry.kind {
        EntryKind::Check => entry.version.is_some() && trace.content_of(i).is_none(),
        EntryKind::Content => false,
    }
}

/// What is found on the tokens of entry `i`.
pub fn order_of(trace: &Trace, i: usize) -> OrderFindings
    requires { i < length trace.now.entries }
    ensures { (e : EntryValue) → slice_get trace.now.entries i ≡ Some e → result ≡ order_of trace.now i e }
{
    OrderFindings {
        stale: is_stale(trace, i),
        old_token: old_token(trace, i),
        not_latest: not_latest(trace, i),
        open_snapshot: open_snapshot(trace, i),
        wrong_token: is_wrong_token(trace, i),
        unknown_version: is_unknown_version(trace, i),
    }
}
