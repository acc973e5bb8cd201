//! Laws on traces that are cut in time: a day's lines behind what they need of all that came before.
//!
//! A window of a trace has the lines of a stretch of it. In front stand commits that store what the whole stores at a
//! timestamp, and content checks that its entries name. [`laws`] says what such a window has of the whole: the same
//! rules and tuples at each timestamp that it knows ([`laws::same_in_window`]), the same findings on its own entries,
//! on the whole's lines ([`laws::findings_of_window`]), also where it is cut by object
//! ([`laws::findings_of_part_of_window`]). Windows that show all entries tell together what is found in the whole
//! ([`laws::findings_of_windows`]); where they tell nothing, the whole is right and fresh
//! ([`laws::right_and_fresh_by_windows`]).
//!
//! More laws are of use to who audits piece by piece: a log that grows says the same of its beginning
//! ([`laws::grown_log`]); what is found on an entry stays once a commit at or above its snapshot stands in the log
//! ([`laws::settled_stays`]); and the findings of a trace that is cut by object are those of its parts, merged by line
//! ([`laws::merged_by_line`]).
//!
//! The crate computes nothing: no function here cuts a trace, and each law is what a function ensures that does
//! nothing. `specs/` holds the words: `Windows` what a window is, `Compaction` which commits stand for others,
//! `Together` windows that show a whole trace. A caller who has a trace cites a law so:
//!
//! ```text
//! right_and_fresh_by_windows(&trace);
//! ```
#![tactic(auto)]

pub mod laws;
