//! Whether a shorter log stands in for another one.

ghost use Rattle.std.specs.Prelude.{◌≡◌, IfSome};
ghost use Rattle.carry_laws.specs.Carried.{StandsIn};
ghost use Rattle.runs.specs.Alike.{IsCommitLine};

use crate::alike::{
    are_all_stored, are_entries_alike, are_lines_alike, are_open_from, are_touches_alike,
};
use carry_laws::Known;
use trace_lines::Trace;
use trace_lines::laws::stand_in_order;

/// The line of the commit at a timestamp.
fn line_at(log: &Trace, at: u64) -> Option<u64>
    ensures { IfSome result (λ l. IsCommitLine log.now l at) }
{
    stand_in_order(log);
    let times = log.chains().commits();
    // bounded by the commits: each turn looks at one
    for k in 0..times.len() {
        if times[k] == at {
            return Some(log.commit_line(k));
        }
    }
    None
}

/// From which line on another log with the same declarations stands in for this one, of which so much is known. `None`
/// where it does not.
pub(crate) fn stands_in_from(log: &Trace, other: &Trace, known: Known) -> Option<u64>
    requires { other.now.declarations ≡ log.now.declarations }
    ensures { IfSome result (λ p. StandsIn known p log.now other.now) }
{
    stand_in_order(log);
    stand_in_order(other);
    let base = known.base;
    let line = line_at(log, base)?;
    let front = line_at(other, base)?;
    let first = line.checked_add(1)?;
    if line < front
        || !are_all_stored(log.chains(), other.chains(), base)
        || !are_all_stored(other.chains(), log.chains(), base)
        || !are_touches_alike(log.chains(), other.chains(), base)
        || !are_lines_alike(log, other, base)
        || !are_entries_alike(log, other, known.versions)
        || !are_open_from(log, first)
    {
        return None;
    }
    Some(first)
}
