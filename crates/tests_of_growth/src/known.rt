//! What is known.

use crate::texts::fact;
use judgement::Known;
use std::alloc::Global;
use tuple_text::{Fact, SetRef};

const VIEWER: SetRef<'static> = SetRef {
    namespace: "doc",
    id: "1",
    relation: "viewer",
};

/// Whether it is known that user 7 is a viewer, and whether it is known that user 8 is none.
fn is_known(known: &Known<Fact>) -> (bool, bool) {
    (known.yes(VIEWER, 7), known.no(VIEWER, 8))
}

fn adds(alloc: Global, known: &mut Known<Fact>) -> bool {
    match fact(alloc, "doc:1#viewer@7") {
        Ok(fact) => known.add_yes(fact).is_ok(),
        Err(_) => false,
    }
}

fn denies(alloc: Global, known: &mut Known<Fact>) -> bool {
    match fact(alloc, "doc:1#viewer@8") {
        Ok(fact) => known.add_no(fact).is_ok(),
        Err(_) => false,
    }
}

/// Whether the fact is known in the end, where running out of memory leaves what was known.
fn is_added(alloc: Global, known: &mut Known<Fact>) -> bool {
    let before = is_known(known);
    adds(alloc, known) || is_known(known) == before && adds(alloc, known)
}

fn is_denied(alloc: Global, known: &mut Known<Fact>) -> bool {
    let before = is_known(known);
    denies(alloc, known) || is_known(known) == before && denies(alloc, known)
}

#[test]
fn facts_are_known(rt: HostRuntime) {
    let mut known = Known::new(rt.alloc());
    assert!(rt; is_added(rt.alloc(), &mut known));
    assert!(rt; is_known(&known) == (true, false));
    assert!(rt; is_denied(rt.alloc(), &mut known));
    assert!(rt; is_known(&known) == (true, true));
}
