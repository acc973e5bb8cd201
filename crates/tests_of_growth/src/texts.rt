//! Texts of tuples, usersets and facts.

use std::alloc::{AllocError, Global};
use tuple_text::{
    Fact, SetRef, Tuple, TupleFault, Userset, parse_fact, parse_tuple, parse_userset, write_fact,
    write_tuple,
};

/// The tuple of a text, which is read once more where memory runs out.
pub(crate) fn tuple(alloc: Global, text: &str) -> Result<Tuple, TupleFault> {
    match parse_tuple(alloc, text) {
        Err(TupleFault::OutOfMemory) => parse_tuple(alloc, text),
        answer => answer,
    }
}

fn userset(alloc: Global, text: &str) -> Result<Userset, TupleFault> {
    match parse_userset(alloc, text) {
        Err(TupleFault::OutOfMemory) => parse_userset(alloc, text),
        answer => answer,
    }
}

pub(crate) fn fact(alloc: Global, text: &str) -> Result<Fact, TupleFault> {
    match parse_fact(alloc, text) {
        Err(TupleFault::OutOfMemory) => parse_fact(alloc, text),
        answer => answer,
    }
}

fn userset_of(alloc: Global, parts: SetRef<'_>) -> Result<Userset, TupleFault> {
    match Userset::of(alloc, parts) {
        Err(TupleFault::OutOfMemory) => Userset::of(alloc, parts),
        answer => answer,
    }
}

fn fact_of(alloc: Global, parts: SetRef<'_>, user: u64) -> Result<Fact, TupleFault> {
    match Fact::of(alloc, parts, user) {
        Err(TupleFault::OutOfMemory) => Fact::of(alloc, parts, user),
        answer => answer,
    }
}

/// A string that holds `x`.
pub(crate) fn string_of_x(alloc: Global) -> Result<String, AllocError> {
    match String::from_str(alloc, "x") {
        Err(_) => String::from_str(alloc, "x"),
        answer => answer,
    }
}

/// Whether the tuple is written behind what the string holds, which running out of memory leaves as it was.
fn is_tuple_written(tuple: &Tuple, out: &mut String, text: &str) -> bool {
    let written = write_tuple(tuple, out).is_ok()
        || out.as_str() == "x" && write_tuple(tuple, out).is_ok();
    written && out.as_str().strip_prefix("x") == Some(text)
}

fn is_fact_written(fact: &Fact, out: &mut String, text: &str) -> bool {
    let written = write_fact(fact, out).is_ok()
        || out.as_str() == "x" && write_fact(fact, out).is_ok();
    written && out.as_str().strip_prefix("x") == Some(text)
}

fn is_tuple_kept(alloc: Global, text: &str) -> Result<bool, TupleFault> {
    let tuple = tuple(alloc, text)?;
    let mut out = string_of_x(alloc)?;
    Ok(is_tuple_written(&tuple, &mut out, text))
}

fn is_fact_kept(alloc: Global, text: &str) -> Result<bool, TupleFault> {
    let fact = fact(alloc, text)?;
    let mut out = string_of_x(alloc)?;
    Ok(is_fact_written(&fact, &mut out, text))
}

#[test]
fn tuples_are_read_and_written(rt: HostRuntime) {
    let text = "doc:readme#viewer@group:eng#member";
    assert!(rt; is_tuple_kept(rt.alloc(), text) == Ok(true));
}

#[test]
fn facts_are_read_and_written(rt: HostRuntime) {
    let text = "doc:readme#viewer@18446744073709551615";
    assert!(rt; is_fact_kept(rt.alloc(), text) == Ok(true));
}

#[test]
fn values_are_made_of_parts(rt: HostRuntime) {
    let parts = SetRef {
        namespace: "doc",
        id: "1",
        relation: "viewer",
    };
    assert!(rt; userset_of(rt.alloc(), parts) == userset(rt.alloc(), "doc:1#viewer"));
    assert!(rt; fact_of(rt.alloc(), parts, 7) == fact(rt.alloc(), "doc:1#viewer@7"));
}
