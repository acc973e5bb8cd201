//! Which entries are audited by what is known of a log.

ghost use Rattle.std.specs.Prelude.{◌≡◌, ◌<◌, true, length, slice_get, Some};
ghost use Rattle.trace_lines.specs.Values.{EntryValue};
ghost use Rattle.carry_laws.specs.Asked.{is_audited, knows_named};
ghost use Rattle.carry_laws.specs.Together.{StaysKnown};
ghost use Rattle.runs.specs.Alike.{is_open, names_some};

use crate::alike::{is_above_all, issues_some};
use carry_laws::Known;
use trace_lines::laws::{entries_rise, versions_issued_once};
use trace_lines::{EntryKind, Trace};

/// Whether an entry names a version.
fn names_some(log: &Trace, i: usize) -> bool
    requires { i < length log.now.entries }
    ensures { (e : EntryValue) → slice_get log.now.entries i ≡ Some e → result ≡ names_some e.kind e.version }
{
    let entry = log.entry(i);
    match entry.kind {
        EntryKind::Check => entry.version.is_some(),
        EntryKind::Content => false,
    }
}

/// Whether an entry names no version, or one that is known, where those are known that were issued from a line on.
fn knows_named(log: &Trace, from: u64, i: usize) -> bool
    requires { i < length log.now.entries }
    ensures { (e : EntryValue) → slice_get log.now.entries i ≡ Some e → result ≡ knows_named from log.now.entries e }
{
    if from == 0 {
        return true;
    }
    entries_rise(log);
    versions_issued_once(log);
    match log.content_of(i) {
        Some(issuer) => from <= log.entry(issuer).line,
        None => !names_some(log, i),
    }
}

/// Whether an entry is audited where so much is known of the log.
pub fn is_audited(log: &Trace, known: Known, i: usize) -> bool
    requires { i < length log.now.entries }
    ensures { (e : EntryValue) → slice_get log.now.entries i ≡ Some e → result ≡ is_audited known log.now.entries e }
{
    known.base <= log.entry(i).snapshot && knows_named(log, known.versions, i)
}

/// Whether as much is known of the version that an entry names, where it waits, and where those are known that were
/// issued from a further line on.
fn stays_named(log: &Trace, from: u64, further: u64, i: usize) -> bool
    requires { i < length log.now.entries }
    ensures { result ≡ true → (e : EntryValue) → slice_get log.now.entries i ≡ Some e → is_open log.now e ≡ true
        → knows_named further log.now.entries e ≡ knows_named from log.now.entries e }
{
    !is_above_all(log, log.entry(i).snapshot)
        || knows_named(log, further, i) == knows_named(log, from, i)
}

/// Whether as much is known of the versions that waiting entries name, where those are known that were issued from a
/// further line on.
pub(crate) fn stays_known(log: &Trace, from: u64, further: u64) -> bool
    ensures { result ≡ true → StaysKnown log.now from further }
{
    // bounded by the entries: each turn looks at one
    for i in 0..log.len() {
        if !stays_named(log, from, further, i) {
            return false;
        }
    }
    true
}

/// The line from which on so many versions were issued, in a log of so many lines, or 0 where fewer were.
fn line_of_last(log: &Trace, versions: u64, lines: u64) -> u64 {
    let mut left = versions;
    let mut from = lines.saturating_add(1);
    let mut i = log.len();
    // bounded by the entries: each turn looks at one
    while i > 0 {
        i -= 1;
        if issues_some(log, i) {
            if left == 0 {
                return from;
            }
            left -= 1;
            from = log.entry(i).line;
        }
    }
    0
}

/// The line from which on versions are carried, where so many of those that were issued last are wanted, or all: not in
/// front of the line from which on they are known, and as much is known there of each that a waiting entry names. Nothing
/// is promised of it: what is handed on is compared with the log.
pub(crate) fn versions_from(log: &Trace, from: u64, wanted: Option<u64>, lines: u64) -> u64 {
    let Some(wanted) = wanted else {
        return from;
    };
    let mut versions = line_of_last(log, wanted, lines);
    // bounded by the entries: each turn looks at one
    for i in 0..log.len() {
        if is_above_all(log, log.entry(i).snapshot) {
            match log.content_of(i) {
                Some(issuer) => {
                    let line = log.entry(issuer).line;
                    if from <= line {
                        versions = versions.min(line);
                    }
                }
                // where none was let go, none may be
                None => {
                    if from == 0 && names_some(log, i) {
                        return 0;
                    }
                }
            }
        }
    }
    versions.max(from)
}
