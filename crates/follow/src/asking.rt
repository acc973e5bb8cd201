//! Which findings are on entries that are audited.

ghost use Rattle.std.specs.Prelude.{◌≡◌, ◌<◌, ◌≤◌, ◌++◌, ℕ, Some, length, slice_get, OnOk};
ghost use Rattle.trace_lines.specs.Values.{EntryValue};
ghost use Rattle.carry_laws.specs.Asked.{asked, is_asked};

use carry_laws::Known;
use findings::Finding;
use runs::is_audited;
use std::alloc::AllocError;
use trace_lines::Trace;
use trace_lines::laws::entries_rise;

/// How many entries stand in front of a line.
fn entries_before(trace: &Trace, line: u64) -> usize
    ensures within { result ≤ length trace.now.entries }
    ensures before { (i : ℕ) (e : EntryValue) → slice_get trace.now.entries i ≡ Some e → i < result → e.line < line }
    ensures behind { (i : ℕ) (e : EntryValue) → slice_get trace.now.entries i ≡ Some e → result ≤ i → line ≤ e.line }
{
    entries_rise(trace);
    let mut low = 0;
    let mut high = trace.len();
    // each turn halves what is between
    while low < high {
        let middle = low + (high - low) / 2;
        if trace.entry(middle).line < line {
            low = middle + 1;
        } else {
            high = middle;
        }
    }
    low
}

/// Whether the entry on a line, if there is one, is audited by what is known.
fn is_asked(trace: &Trace, known: Known, line: u64) -> bool
    ensures { result ≡ is_asked known trace.now line }
{
    let i = entries_before(trace, line);
    if i >= trace.len() {
        return true;
    }
    let entry = trace.entry(i);
    entry.line != line || is_audited(trace, known, i)
}

/// Appends those of the findings that are on entries which are audited by what is known. It is refused only where
/// memory runs out.
pub(crate) fn push_asked(
    trace: &Trace,
    known: Known,
    found: &[Finding],
    told: &mut Vec<Finding>,
) -> Result<(), AllocError>
    ensures { OnOk result (told.new.items ≡ told.old.items ++ asked known trace.now found.now) }
{
    // bounded by what was found: each turn looks at one
    for finding in found {
        if is_asked(trace, known, finding.line) {
            told.push(*finding)?;
        }
    }
    Ok(())
}
