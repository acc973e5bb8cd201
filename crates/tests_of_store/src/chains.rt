//! Worked commits.

use marks::MarkedSet;
use std::alloc::Global;
use std::test::Fail;
use tuple_text::{SetRef, Tuple, TupleFault, UserRef, Userset, parse_tuple, parse_userset};
use version_chains::among::{is_every_set_among, is_some_set_among};
use version_chains::{AppendFault, Chains};

const NONE: &[&str] = &[];

const VIEWER: &[&str] = &["doc:x#viewer@1"];

const VIEWED: SetRef<'static> = SetRef {
    namespace: "doc",
    id: "x",
    relation: "viewer",
};

fn tuples(alloc: Global, texts: &[&str]) -> Result<Vec<Tuple>, TupleFault> {
    let mut all = Vec::new(alloc);
    for text in texts {
        if all.push(parse_tuple(alloc, text)?).is_err() {
            return Err(TupleFault::OutOfMemory);
        }
    }
    Ok(all)
}

/// A commit: its timestamp, the tuples that it adds, and those that it removes.
type Texts = (u64, &'static [&'static str], &'static [&'static str]);

/// The viewer is added, removed, and added once more.
const ADDED_TWICE: [Texts; 3] = [(5, VIEWER, NONE), (7, NONE, VIEWER), (9, VIEWER, NONE)];

/// Three users are added, and one of the two usersets among them is removed.
const THREE_USERS: [Texts; 2] = [
    (
        5,
        &[
            "doc:x#viewer@1",
            "doc:x#viewer@group:a#member",
            "doc:x#viewer@folder:b#...",
        ],
        NONE,
    ),
    (7, NONE, &["doc:x#viewer@folder:b#..."]),
];

/// What `append` answers for the commit of these texts.
fn answer(
    alloc: Global,
    chains: &mut Chains,
    commit: Texts,
) -> Result<Option<AppendFault>, TupleFault> {
    let (at, adds, removes) = commit;
    let adds = tuples(alloc, adds)?;
    let removes = tuples(alloc, removes)?;
    let answer = chains.append(at, adds.as_slice(), removes.as_slice());
    Ok(answer.err())
}

/// Whether the commit of these texts is accepted, or refused so.
fn is_answered(
    alloc: Global,
    chains: &mut Chains,
    commit: Texts,
    wanted: Option<AppendFault>,
) -> bool {
    match answer(alloc, chains, commit) {
        Ok(fault) => fault == wanted,
        Err(_) => false,
    }
}

/// Whether each of these commits is accepted.
fn are_appended(alloc: Global, chains: &mut Chains, commits: &[Texts]) -> bool {
    for commit in commits {
        if !is_answered(alloc, chains, *commit, None) {
            return false;
        }
    }
    true
}

/// Lets chains go here, so that no test has their parts on its way out.
fn let_go(_chains: Chains) {}

/// Whether the user is among those that are stored.
fn is_listed(chains: &Chains, id: u64, at: u64) -> bool {
    for user in chains.users(VIEWED, at) {
        if user == UserRef::Id(id) {
            return true;
        }
    }
    false
}

fn count_of_users(chains: &Chains, at: u64) -> usize {
    let mut count = 0usize;
    for _ in chains.users(VIEWED, at) {
        count = count.saturating_add(1);
    }
    count
}

/// Whether user 1 is stored, where each question about it has the same answer.
fn is_stored(chains: &Chains, viewer: &Tuple, at: u64) -> Option<bool> {
    let stored = chains.has(viewer, at);
    if chains.has_id(MarkedSet::of(VIEWED), 1, at) != stored || is_listed(chains, 1, at) != stored {
        return None;
    }
    Some(stored)
}

/// Whether the tuple's touches are these, the last first: when it was touched, and whether it was added.
fn is_touched(chains: &Chains, tuple: &Tuple, touches: &[(u64, bool)]) -> bool {
    let mut history = chains.history(tuple);
    for touch in touches {
        if history.next() != Some(*touch) {
            return false;
        }
    }
    history.next().is_none()
}

fn is_committed(chains: &Chains, times: &[u64]) -> bool {
    chains.commits() == times
}

/// Whether the viewer is stored when it has to be.
fn is_present_between(chains: &Chains, viewer: &Tuple) -> bool {
    for (at, stored) in [
        (4, false),
        (5, true),
        (6, true),
        (7, false),
        (8, false),
        (9, true),
        (u64::MAX, true),
    ] {
        if is_stored(chains, viewer, at) != Some(stored) {
            return false;
        }
    }
    true
}

/// The same of a viewer that is read from its text, and whether its touches are told, the last first.
fn is_told(alloc: Global, chains: &Chains) -> bool {
    match parse_tuple(alloc, "doc:x#viewer@1") {
        Ok(viewer) => {
            is_present_between(chains, &viewer)
                && is_touched(chains, &viewer, &[(9, true), (7, false), (5, true)])
        }
        Err(_) => false,
    }
}

#[test]
fn presence_over_time(rt: HostRuntime) {
    let mut chains = Chains::new(rt.alloc(), 100);
    assert!(rt; are_appended(rt.alloc(), &mut chains, &ADDED_TWICE));
    assert!(rt; is_told(rt.alloc(), &chains));
    assert!(rt; is_committed(&chains, &[5, 7, 9]));
    let_go(chains);
}

/// Whether each commit is answered as it has to be, by chains that hold two touches.
fn are_answered(alloc: Global, chains: &mut Chains) -> bool {
    let three: &[&str] = &["doc:x#viewer@1", "doc:x#viewer@2", "doc:y#viewer@1"];
    let two: &[&str] = &["doc:x#viewer@1", "doc:x#viewer@2"];
    for (commit, fault) in [
        ((5, three, NONE), Some(AppendFault::Full)),
        (
            (5, VIEWER, VIEWER),
            Some(AppendFault::TouchedTwice { place: 1 }),
        ),
        ((5, NONE, NONE), None),
        ((5, two, VIEWER), Some(AppendFault::NotLater { last: 5 })),
        (
            (6, two, three),
            Some(AppendFault::TouchedTwice { place: 2 }),
        ),
        ((6, two, NONE), None),
        ((7, NONE, VIEWER), Some(AppendFault::Full)),
    ] {
        if !is_answered(alloc, chains, commit, fault) {
            return false;
        }
    }
    true
}

#[test]
fn refused_commits(rt: HostRuntime) {
    let mut chains = Chains::new(rt.alloc(), 2);
    assert!(rt; are_answered(rt.alloc(), &mut chains));
    assert!(rt; is_committed(&chains, &[5, 6]));
    assert!(rt; count_of_users(&chains, 6) == 2);
    let_go(chains);
}

/// Whether each, and whether some, of the stored usersets is among these.
fn are_among(these: &[Userset], chains: &Chains, at: u64) -> (bool, bool) {
    let every = is_every_set_among(these, chains, VIEWED, at);
    let some = is_some_set_among(these, chains, VIEWED, at);
    (every, some)
}

fn count_of_usersets(chains: &Chains, at: u64) -> usize {
    let mut count = 0usize;
    for _ in chains.usersets(MarkedSet::of(VIEWED), at) {
        count = count.saturating_add(1);
    }
    count
}

fn usersets(alloc: Global) -> Result<Vec<Userset>, Fail> {
    let mut all = Vec::new(alloc);
    for text in ["group:a#member", "group:c#member"] {
        all.push(parse_userset(alloc, text)?)?;
    }
    Ok(all)
}

/// Whether the stored usersets are as many as they have to be, before 5, from 5 and from 7 on, and are among these.
fn are_usersets_seen(chains: &Chains, known: &[Userset]) -> bool {
    for (at, every, some, count) in [
        (4, true, false, 0usize),
        (5, false, true, 2),
        (7, true, true, 1),
    ] {
        if are_among(known, chains, at) != (every, some) || count_of_usersets(chains, at) != count {
            return false;
        }
    }
    true
}

#[test]
fn stored_usersets_among_others(rt: HostRuntime) -> Result<(), Fail> {
    let known = usersets(rt.alloc())?;
    let mut chains = Chains::new(rt.alloc(), 100);
    assert!(rt; are_appended(rt.alloc(), &mut chains, &THREE_USERS));
    assert!(rt; are_usersets_seen(&chains, &known));
    assert!(rt; count_of_users(&chains, 5) == 3 && is_listed(&chains, 1, 5));
    let_go(chains);
    Ok(())
}
