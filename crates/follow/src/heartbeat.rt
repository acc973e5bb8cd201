//! How far a log is settled.

ghost use Rattle.std.specs.Prelude.{◌≡◌, ◌≤◌, ◌++◌, true, nat_le, length, OnOk, string_bytes};
ghost use Rattle.std.specs.List.{list_any};
ghost use Rattle.follow.specs.Heartbeats.{AreSettledTo};
ghost use Rattle.follow.specs.Pieces.{beat_text, heartbeat_text, number_text};

use std::alloc::AllocError;
use std::fmt::Write as _;
use trace_lines::Trace;

/// How far a log is settled: a commit at or above the snapshot of each entry up to there stands in it, so that all that
/// can be found on these was told.
#[derive(Clone, Copy, Debug, PartialEq, Eq)]
pub struct Heartbeat {
    /// The last line up to which all entries are settled.
    pub line: u64,
    /// How many entries stand up to that line.
    pub entries: u64,
    /// How many findings were told so far.
    pub findings: u64,
    /// How many entries were read that are not settled.
    pub open: u64,
}

/// Appends a heartbeat as a line, if there is one. It is refused only where memory runs out.
pub(crate) fn push_heartbeat(
    heartbeat: Option<Heartbeat>,
    text: &mut String,
) -> Result<(), AllocError>
    ensures { OnOk result (string_bytes text.new ≡ string_bytes text.old ++ beat_text heartbeat) }
{
    match heartbeat {
        Some(heartbeat) => push_line(&heartbeat, text),
        None => Ok(()),
    }
}

/// Appends a number, and words behind it. It is refused only where memory runs out.
pub(crate) fn push_number(number: u64, words: &str, text: &mut String) -> Result<(), AllocError>
    ensures { OnOk result (string_bytes text.new ≡ string_bytes text.old ++ number_text number words.now) }
{
    write!(text, "{number}{words}")?;
    Ok(())
}

fn push_line(heartbeat: &Heartbeat, text: &mut String) -> Result<(), AllocError>
    ensures { OnOk result (string_bytes text.new ≡ string_bytes text.old ++ heartbeat_text heartbeat.now) }
{
    let Heartbeat {
        line,
        entries,
        findings,
        open,
    } = *heartbeat;
    text.push_str("through line ")?;
    push_number(line, ": ", text)?;
    push_number(entries, " entries, ", text)?;
    push_number(findings, " findings, ", text)?;
    push_number(open, " open\n", text)
}

/// Whether some commit is at or above the timestamp.
fn is_reached(trace: &Trace, at: u64) -> bool
    ensures { result ≡ true → list_any (λ c. nat_le at c.at) trace.now.commits ≡ true }
{
    match trace.chains().commits().last() {
        Some(last) => at <= *last,
        None => false,
    }
}

/// How many of the entries are settled, one behind the other, where so many were before.
pub(crate) fn settled_from(trace: &Trace, settled: usize) -> usize
    requires settled { AreSettledTo trace.now settled }
    requires within { settled ≤ length trace.now.entries }
    ensures settled { AreSettledTo trace.now result }
    ensures within { result ≤ length trace.now.entries }
{
    let mut n = settled;
    // each turn passes over an entry, and no entry is passed over twice
    while n < trace.len() && is_reached(trace, trace.entry(n).snapshot) {
        n += 1;
    }
    n
}
