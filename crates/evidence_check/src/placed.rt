//! The places of records among the entries of a trace.

ghost use Rattle.std.specs.Prelude.{◌≡◌, IfOk};
ghost use Rattle.std.specs.List.Sorted.{IsStrictlyIncreasing};
ghost use Rattle.trace_lines.specs.Values.{entry_lines};
ghost use Rattle.evidence_check.specs.Reading.{place_of};

use std::alloc::{AllocError, Global};
use std::marker::Model;
use trace_lines::Trace;

/// The lines that the entries of a trace stand on. Contracts see the list of them.
#[derive(Drop)]
pub struct EntryLines {
    lines: Vec<u64>,
}

impl Model for EntryLines {
    ghost use Rattle.std.specs.Prelude.{List, ℕ};
    ghost use Rattle.std.specs.List.Sorted.{IsStrictlyIncreasing};

    ghost Value = { List ℕ };

    ghost view = { λ l. l.lines.items };

    ghost invariant = { λ l. IsStrictlyIncreasing l.lines.items };
}

fn lines_of(alloc: Global, trace: &Trace) -> Result<Vec<u64>, AllocError>
    ensures lines { IfOk result (λ v. v.items ≡ entry_lines trace.now.entries) }
    ensures rising { IfOk result (λ v. IsStrictlyIncreasing v.items) }
{
    let mut lines = Vec::with_capacity(alloc, trace.len())?;
    for i in 0..trace.len() {
        lines.push(trace.entry(i).line)?;
    }
    Ok(lines)
}

/// The place of a line among lines that rise. Where it stands at `likely`, it is not sought.
fn place_of(lines: &[u64], likely: usize, line: u64) -> Option<usize>
    requires { IsStrictlyIncreasing lines.now }
    ensures { result ≡ place_of line lines.now }
{
    if likely < lines.len() && lines[likely] == line {
        return Some(likely);
    }
    lines.binary_search(&line).ok()
}

impl EntryLines {
    pub fn of(alloc: Global, trace: &Trace) -> Result<EntryLines, AllocError>
        ensures { IfOk result (λ l. l ≡ entry_lines trace.now.entries) }
    {
        Ok(EntryLines {
            lines: lines_of(alloc, trace)?,
        })
    }

    /// The place of the entry on a line, sought first at `next`, which is then left behind it.
    pub(crate) fn seek(&self, next: &mut usize, line: u64) -> Option<usize>
        ensures { result ≡ place_of line self.now }
    {
        let place = place_of(&self.lines, *next, line)?;
        *next = place.saturating_add(1);
        Some(place)
    }
}
