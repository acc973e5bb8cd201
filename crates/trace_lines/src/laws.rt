//! What the type of a trace keeps, and what holds of the trace that bytes say. Each function computes nothing: what
//! it ensures is the law.

ghost use Rattle.std.specs.Prelude.{◌≡◌, ℕ, List, true, Ok};
ghost use Rattle.std.specs.List.Sorted.{IsStrictlyIncreasing};
ghost use Rattle.namespaces.specs.Lookup.{rule_at};
ghost use Rattle.version_chains.specs.Commits.{store_at};
ghost use Rattle.strata.specs.Strata.{HasValidStrata};
ghost use Rattle.trace_lines.specs.Placed.{AreInPlace, HasPlacedCommits};
ghost use Rattle.trace_lines.specs.Traces.{trace_of};
ghost use Rattle.trace_lines.specs.Values.{TraceValue, entry_lines};
ghost use Rattle.trace_lines.specs.Versions.{AreIssuedOnce};

use crate::trace::Trace;

/// Strata are valid at each timestamp, over what is stored then.
pub fn valid_strata(trace: &Trace)
    ensures { (at : ℕ) → HasValidStrata (rule_at trace.now.declarations at) (store_at trace.now.commits at) }
{
    let _ = trace.rules();
}

/// The entries stand on lines that rise.
pub fn entries_rise(trace: &Trace)
    ensures { IsStrictlyIncreasing (entry_lines trace.now.entries) }
{
    let _ = trace.len();
}

/// A version of an object is issued by one content check.
pub fn versions_issued_once(trace: &Trace)
    ensures { AreIssuedOnce trace.now.entries }
{
    let _ = trace.recorded();
}

/// Each commit has its line, lines and timestamps rise, and each entry stands behind the commits before it.
pub fn stand_in_order(trace: &Trace)
    ensures { AreInPlace trace.now }
{
    let _ = trace.recorded();
    let _ = trace.chains().commits();
}

/// In the trace that some bytes say, strata are valid at each timestamp, over what is stored then.
pub fn valid_strata_of_bytes()
    ensures { (bytes : List ℕ) (t : TraceValue) → trace_of true bytes ≡ Ok t →
        (at : ℕ) → HasValidStrata (rule_at t.declarations at) (store_at t.commits at) }
{}

/// In the trace that some bytes say, the entries stand on lines that rise.
pub fn entries_of_bytes_rise()
    ensures { (bytes : List ℕ) (t : TraceValue) → trace_of true bytes ≡ Ok t
        → IsStrictlyIncreasing (entry_lines t.entries) }
{}

/// In the trace that some bytes say, each commit has its line, lines and timestamps rise, and no commit touches a
/// tuple twice.
pub fn commits_of_bytes()
    ensures { (bytes : List ℕ) (t : TraceValue) → trace_of true bytes ≡ Ok t → HasPlacedCommits t }
{}

/// In the trace that some bytes say, a version of an object is issued by one content check.
pub fn versions_of_bytes_issued_once()
    ensures { (bytes : List ℕ) (t : TraceValue) → trace_of true bytes ≡ Ok t → AreIssuedOnce t.entries }
{}
