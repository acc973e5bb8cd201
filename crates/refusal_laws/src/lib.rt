//! Laws on what is refused: which of several faults a namespace, the text of a tuple or a fact, a line of a trace or a
//! record of evidence is refused for.
//!
//! The definitions that these crates read by have the shape of a reader: one test behind the other. The laws say the
//! same in a user's words, with each fault defined by itself. Of the faults that apply to a namespace, the one with the
//! least number is told ([`laws::least_fault_of_addition`], [`laws::least_fault_of_change`]); of the parts of a tuple's
//! text, the leftmost that fails ([`laws::leftmost_part`]), and so of a fact's ([`laws::leftmost_part_of_fact`]); of the
//! causes that apply to a commit, to a check or to a record, the one with the least number
//! ([`laws::least_cause_of_commit`], [`laws::least_cause_of_entry`], [`laws::least_cause_of_record`]).
//!
//! The crate computes nothing: each law is what a function ensures that does nothing. A caller cites one so:
//!
//! ```text
//! leftmost_part();
//! ```
#![tactic(auto)]

pub mod laws;
