//! The log that a carry begins.

ghost use Rattle.std.specs.Prelude.{◌≡◌, ◌+◌, ◌≤◌, IfOk, OnOk};
ghost use Rattle.carry.specs.Values.{carry_value, check_value, item_value, said_value};
ghost use Rattle.trace_lines.specs.EntryViews.{entry_value};
ghost use Rattle.trace_lines.specs.Values.{next_line};
ghost use Rattle.runs.specs.Begins.{entry_of, kind_of, line_of, log_of, with_item};
ghost use Rattle.runs.specs.Faults.{Gives};

use crate::fault::BeginFault;
use carry::{CarriedCheck, Carry, CheckKind, Item, Said};
use std::alloc::{AllocError, Global};
use trace_lines::{Cause, Entry, EntryKind, TraceBuilder, TraceLine};

fn kind_of(kind: CheckKind) -> EntryKind
    ensures { result ≡ kind_of kind }
{
    match kind {
        CheckKind::Check => EntryKind::Check,
        CheckKind::Content => EntryKind::Content,
    }
}

/// An entry, which has no place yet.
fn entry_of<'a>(check: &CarriedCheck<'a>) -> Entry<'a>
    ensures { entry_value result ≡ entry_of (check_value check.now) }
{
    Entry {
        kind: kind_of(check.kind),
        reply: check.reply,
        line: 0,
        goal: check.goal,
        snapshot: check.snapshot,
        zookie: check.zookie,
        version: check.version,
        before: 0,
    }
}

/// What an item says, as a line of a trace.
fn line_of(alloc: Global, said: &Said<'_>) -> Result<TraceLine, AllocError>
    ensures { IfOk result (λ l. l ≡ line_of (said_value said.now)) }
{
    match said {
        Said::Declares(text) => TraceLine::declaring(alloc, text),
        Said::Commits(commit) => {
            TraceLine::committing(alloc, commit.at, &commit.adds, &commit.removes)
        }
        Said::Records(check) => TraceLine::recording(alloc, &entry_of(check)),
    }
}

/// Puts item number `k` behind a log whose last line is at most `last`; the whole log has `lines`.
fn put_item(
    alloc: Global,
    log: &mut TraceBuilder,
    lines: u64,
    k: usize,
    last: u64,
    item: &Item<'_>,
) -> Result<(), BeginFault>
    requires { next_line log.old ≤ last + 1 }
    ensures answer { Gives (λ _. log.new) result (with_item lines k last log.old (item_value item.now)) }
    ensures further { OnOk result (next_line log.new ≤ item.now.line + 1) }
    ensures within { OnOk result (item.now.line ≤ lines) }
{
    if item.line <= last || lines < item.line {
        return Err(BeginFault::OutOfOrder { item: k });
    }
    let line = line_of(alloc, &item.said)?;
    match log.put_line(item.line, line) {
        Ok(()) => Ok(()),
        Err(Cause::OutOfMemory) => Err(BeginFault::OutOfMemory),
        Err(cause) => Err(BeginFault::Refused { item: k, cause }),
    }
}

/// The log that a carry begins: its items, each on its line in the whole log.
///
/// Refusals, of the first item that is refused: `OutOfOrder` where its line is not behind that of the item before it,
/// or behind the lines that the carry counts; `Refused` where what it says does not fit the items before it, for the cause
/// that a line of a trace would be refused for. OutOfMemory comes where memory was refused, whatever else applies.
pub fn begin(alloc: Global, carry: &Carry<'_>) -> Result<TraceBuilder, BeginFault>
    ensures begun { Gives (λ log. log) result (log_of (carry_value carry.now)) }
    // a line behind those that the carry counts may come next
    ensures further { IfOk result (λ log. next_line log ≤ carry.now.lines + 1) }
{
    let mut log = TraceBuilder::new(alloc);
    let mut last = 0;
    let mut k = 0;
    // bounded by the items: each turn puts one
    for item in &carry.items {
        put_item(alloc, &mut log, carry.lines, k, last, item)?;
        last = item.line;
        k += 1;
    }
    Ok(log)
}
