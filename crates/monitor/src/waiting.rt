//! Entries that wait for a commit at or above their snapshots.

ghost use Rattle.std.specs.Prelude.{IfOk, ◌≤◌};
ghost use Rattle.monitor.specs.Waiting.{AreDue, AreLeft, IsPopped};

use std::alloc::{AllocError, Global};
use std::collections::BTreeSet;

/// The number of one that waits for a timestamp up to this one, which is then let go.
pub(crate) fn pop_up_to(waiting: &mut BTreeSet<(u64, usize)>, at: u64) -> Option<usize>
    ensures { IsPopped at waiting.old.keys waiting.new.keys result }
{
    let first = *waiting.first()?;
    if first.0 > at {
        return None;
    }
    let (_, i) = waiting.pop_first()?;
    Some(i)
}

/// The numbers from one on up to another, and those that wait for a timestamp up to this one, which are let go.
pub(crate) fn due(
    alloc: Global,
    waiting: &mut BTreeSet<(u64, usize)>,
    at: u64,
    from: usize,
    end: usize,
) -> Result<BTreeSet<usize>, AllocError>
    requires { from ≤ end }
    ensures { IfOk result (λ due. AreDue at from end waiting.old.keys waiting.new.keys due.keys) }
{
    let mut due = BTreeSet::new(alloc);
    // each entry is in such a range once, and waits once: so all calls together take two turns for an entry at most
    for i in from..end {
        due.insert(i)?;
    }
    while let Some(i) = pop_up_to(waiting, at) {
        due.insert(i)?;
    }
    Ok(due)
}

/// The numbers of all that wait, which are let go.
pub(crate) fn left(
    alloc: Global,
    waiting: &mut BTreeSet<(u64, usize)>,
) -> Result<BTreeSet<usize>, AllocError>
    ensures { IfOk result (λ left. AreLeft waiting.old.keys left.keys) }
{
    let mut left = BTreeSet::new(alloc);
    while let Some((_, i)) = waiting.pop_first() {
        left.insert(i)?;
    }
    Ok(left)
}
