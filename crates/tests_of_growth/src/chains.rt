//! Commits.

use crate::texts::tuple;
use std::alloc::Global;
use std::slice::from_ref;
use tuple_text::{SetRef, Tuple, TupleFault};
use version_chains::{AppendFault, Chains};

const VIEWED: SetRef<'static> = SetRef {
    namespace: "doc",
    id: "x",
    relation: "viewer",
};

/// How many commits there are, and how many users are stored.
fn counts(chains: &Chains) -> (usize, usize) {
    let mut users = 0usize;
    for _ in chains.users(VIEWED, u64::MAX) {
        users = users.saturating_add(1);
    }
    (chains.commits().len(), users)
}

/// What is answered to a commit, which is made once more where running out of memory left the chains as they were.
fn answer(
    chains: &mut Chains,
    at: u64,
    adds: &[Tuple],
    removes: &[Tuple],
) -> Result<(), AppendFault> {
    let before = counts(chains);
    let answer = chains.append(at, adds, removes);
    if answer == Err(AppendFault::OutOfMemory) && counts(chains) == before {
        return chains.append(at, adds, removes);
    }
    answer
}

/// Whether each commit is answered as it has to be, and leaves so many commits and stored users.
fn are_answered<'x>(chains: &mut Chains, first: &'x [Tuple], other: &'x [Tuple]) -> bool {
    let none: &'x [Tuple] = &[];
    for (at, adds, removes, wanted, left) in [
        (5, first, none, Ok(()), (1usize, 1usize)),
        (
            5,
            first,
            none,
            Err(AppendFault::NotLater { last: 5 }),
            (1, 1),
        ),
        (
            6,
            first,
            first,
            Err(AppendFault::TouchedTwice { place: 1 }),
            (1, 1),
        ),
        (7, other, first, Ok(()), (2, 1)),
        (9, first, other, Err(AppendFault::Full), (2, 1)),
        (9, first, none, Ok(()), (3, 2)),
    ] {
        if answer(chains, at, adds, removes) != wanted || counts(chains) != left {
            return false;
        }
    }
    true
}

fn are_tuples_answered(alloc: Global, chains: &mut Chains) -> Result<bool, TupleFault> {
    let first = tuple(alloc, "doc:x#viewer@1")?;
    let other = tuple(alloc, "doc:x#viewer@group:a#member")?;
    Ok(are_answered(chains, from_ref(&first), from_ref(&other)))
}

#[test]
fn commits_are_appended(rt: HostRuntime) {
    let mut chains = Chains::new(rt.alloc(), 4);
    assert!(rt; are_tuples_answered(rt.alloc(), &mut chains) == Ok(true));
}
