//! Laws of a log that is followed in runs: each run begins with a trace that stands in for the log so far.
//!
//! A run need not keep a log that was told. What it hands to the next (`carry`) makes a trace that is shorter: some
//! commits store what the log stores at a base timestamp, those above it follow, and of the entries only those are there
//! that are not settled or that issued a version, from some line on. Contracts say of such a trace that it `StandsIn` for
//! the log (`specs/Carried.antt`), as far as that is `Known` (`specs/Asked.antt`): an entry is audited that asks at the
//! base or above, and names no version or one that was issued in front of it from that line on. Where the same further
//! lines come behind both, it still does ([`laws::stands_on`]), and what is told at each of these lines, and at the end,
//! is what the whole log lets tell there ([`laws::told_alike`]). What stands in for a trace that stands in for a log
//! stands in for the log, too ([`laws::handed_on`]).
//!
//! Beside [`Known`] the crate has laws alone: each is what a function ensures that does nothing. A caller cites a law so:
//!
//! ```text
//! told_alike();
//! ```
#![tactic(auto)]

mod known;
pub mod laws;

pub use known::Known;
