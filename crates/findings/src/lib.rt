//! What is found on the entries of a trace by its tokens and its evidence, and the text of the report.
//!
//! [`findings_of`] gives the findings on each entry, in line order and by their numbers; [`findings_judged`] gives
//! the same where only the judgements by the evidence were kept. [`found_on`] and [`push_found`] are the two steps of
//! the first, for callers who share the entries among them, and [`found_where`] says what is found where a judgement
//! is known. [`report_line`] writes the line of a finding, and [`report_of`] the whole report. Contracts see a trace,
//! evidence and findings as the values that `Findings` and `Report` speak of; no device is touched.
//!
//! Callers may rely on this: what is found on an entry is said by its tokens and its own record of evidence alone,
//! and the text by the findings and the number of entries. What is wrong with an entry is told on its line, and an
//! entry of which nothing is told is right and in order, whatever is found on the others ([`laws::each_entry`]). A
//! trace without findings has replies that are right and fresh, whoever made the evidence
//! ([`laws::right_and_fresh_without_findings`]). A reply that a finding F10 calls wrong is wrong, whatever else is
//! found ([`laws::wrong_replies_are_wrong`]). A trace may be cut by object, and what is found in the parts is what is
//! found in the whole ([`laws::bytes_of_part`], [`laws::bytes_of_evidence`], [`laws::findings_of_part`],
//! [`laws::findings_by_line`]); so parts that are read and clean make a whole that is right and fresh, however long
//! it is ([`laws::right_and_fresh_of_parts`]). Each check without a finding saw all changes before its content check
//! ([`laws::no_new_enemy`]).
//!
//! ```text
//! let text = report_of(alloc, &findings_of(alloc, &trace, &evidence)?, trace.len())?;
//! ```
#![tactic(auto)]

mod entries;
mod finding;
pub mod laws;

pub use entries::{
    findings_judged, findings_of, found_judged, found_on, found_where, push_found, push_last_lines,
    push_lines, report_of,
};
pub use finding::{Finding, What, report_line};
