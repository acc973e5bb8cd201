//! Laws of a log that is followed in runs: what all runs tell together.
//!
//! A run begins with the carry of the one before it, the first with none (`follow`). Contracts say of runs that they are
//! one behind the other (`AreRuns`, `specs/Runs.antt`): each ended as `follow` promises (`RunEnds`), and what the next
//! began with is what the carry's text begins. The log that all their lines say is `whole_log`: it speaks of each run's
//! bytes, and has no limit of its own on how many there are in all. What the runs tell, and what is left at its end, is
//! what is found in that log on the entries that were audited, each finding once ([`laws::told_together`]). Where no
//! run told anything, and each was whole, all entries up to a line are right and fresh as soon as commits settle them
//! ([`laws::clean_together`]).
//!
//! The crate computes nothing: each law is what a function ensures that does nothing. A caller cites a law so:
//!
//! ```text
//! told_together();
//! ```
#![tactic(auto)]

pub mod laws;
