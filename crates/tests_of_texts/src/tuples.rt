//! Worked texts.

use std::alloc::{AllocError, Global};
use std::test::Fail;
use tuple_text::{
    Fact, SetRef, Tuple, TupleFault, Userset, parse_fact, parse_tuple, parse_userset, write_tuple,
};

const TUPLES: [&str; 6] = [
    "doc:a:b#r@1",
    "doc:readme#owner@0",
    "d_0:\u{e9}!~#r_1@18446744073709551615",
    "doc:readme#viewer@group:eng#member",
    "doc:readme#parent@folder:A#...",
    "doc:x#a@b:c:d#e",
];

/// Whether the tuple's text is appended to what a string holds.
fn is_written(alloc: Global, tuple: &Tuple, text: &str) -> Result<bool, AllocError> {
    let mut written = String::from_str(alloc, "x")?;
    write_tuple(tuple, &mut written)?;
    Ok(written.as_str().strip_prefix("x") == Some(text))
}

/// Whether a tuple of this text is read, and the text appended where it is written.
fn is_written_back(alloc: Global, text: &str) -> bool {
    match parse_tuple(alloc, text) {
        Ok(tuple) => is_written(alloc, &tuple, text) == Ok(true),
        Err(_) => false,
    }
}

#[test]
fn tuples_are_read_and_written_back(rt: HostRuntime) {
    for text in TUPLES {
        assert!(rt; is_written_back(rt.alloc(), text), "{text}");
    }
}

/// Whether the userset of these parts is the one that is read from the text.
fn is_userset(alloc: Global, parts: SetRef<'_>, text: &str) -> bool {
    match Userset::of(alloc, parts) {
        Ok(set) => parse_userset(alloc, text) == Ok(set),
        Err(_) => false,
    }
}

/// Whether the fact of these parts is the one that is read from the text.
fn is_fact(alloc: Global, parts: SetRef<'_>, user: u64, text: &str) -> bool {
    match Fact::of(alloc, parts, user) {
        Ok(fact) => parse_fact(alloc, text) == Ok(fact),
        Err(_) => false,
    }
}

fn refused_userset(alloc: Global, parts: SetRef<'_>) -> Option<TupleFault> {
    Userset::of(alloc, parts).err()
}

fn refused_fact(alloc: Global, parts: SetRef<'_>) -> Option<TupleFault> {
    Fact::of(alloc, parts, 7).err()
}

#[test]
fn values_are_made_of_parts(rt: HostRuntime) {
    let viewer = SetRef {
        namespace: "doc",
        id: "1",
        relation: "viewer",
    };
    let no_id = SetRef { id: "", ..viewer };
    let dots = SetRef {
        relation: "...",
        ..viewer
    };
    assert!(rt; is_userset(rt.alloc(), viewer, "doc:1#viewer"));
    assert!(rt; is_userset(rt.alloc(), dots, "doc:1#..."));
    assert!(rt; is_fact(rt.alloc(), viewer, 7, "doc:1#viewer@7"));
    let empty_id = Some(TupleFault::ObjectId { at: 4 });
    assert!(rt; refused_userset(rt.alloc(), no_id) == empty_id);
    assert!(rt; refused_fact(rt.alloc(), no_id) == empty_id);
    let dotted = Some(TupleFault::Relation { at: 6 });
    assert!(rt; refused_fact(rt.alloc(), dots) == dotted);
}

const RISING: [&str; 7] = [
    "doc:a#r@9",
    "doc:a#r@10",
    "doc:a#r@group:a#m",
    "doc:a#s@1",
    "doc:b#a@1",
    "docs:a#a@1",
    "docs:a#a@docs:a#a",
];

fn tuples(alloc: Global, texts: &[&str]) -> Result<Vec<Tuple>, Fail> {
    let mut all = Vec::new(alloc);
    for text in texts {
        all.push(parse_tuple(alloc, text)?)?;
    }
    Ok(all)
}

/// The places of two tuples that do not compare as their places do, or of one that is equal to another.
fn first_disorder(tuples: &[Tuple]) -> Option<(usize, usize)> {
    for (i, tuple) in tuples.iter().enumerate() {
        for (k, other) in tuples.iter().enumerate() {
            if tuple.cmp(other) != i.cmp(&k) || (tuple == other) != (i == k) {
                return Some((i, k));
            }
        }
    }
    None
}

#[test]
fn tuples_are_in_order(rt: HostRuntime) -> Result<(), Fail> {
    let tuples = tuples(rt.alloc(), &RISING)?;
    assert!(rt; tuples.len() == 7 && first_disorder(&tuples).is_none());
    Ok(())
}

#[test]
fn want_of_memory_is_told(rt: HostRuntime) -> Result<(), Fail> {
    let text = format!(in rt.alloc(); "{}", TupleFault::OutOfMemory)?;
    assert!(rt; text.as_str() == "out of memory");
    Ok(())
}
