//! Laws of a monitor that is the audit: when each finding on a log that grows can be told, and that what was told stands.
//!
//! An entry is settled where some commit is at or above its snapshot; what is found on it then stays
//! (`windows::laws::settled_stays`). So each finding may be told at a line of the log: on an entry's own line what rests
//! on lines before it, at a later commit's the F4 that it makes, and the judgement where the entry is settled
//! ([`laws::settles_first`]). What is told at a line is true of each longer log ([`laws::told_is_true`]), and rests on
//! the log up to there ([`laws::told_stays`]); together with what is left at the end it is what the audit of the whole
//! finds ([`laws::each_once`], [`laws::follow_by_lines`]). Up to a line where all is settled and nothing was told, each
//! entry is right and fresh, now and later ([`laws::through`]).
//!
//! The crate computes nothing: each law is what a function ensures that does nothing. `specs/` holds the words: `Begun`
//! a log so far and a longer one, `Told` when each finding is told, `Followed` a log that is taken line by line,
//! `Through` what no finding up to a line says. The crate `monitor` tells findings so, and with it the program's command
//! `follow`. A caller who has a trace cites a law so:
//!
//! ```text
//! findings_rise(&trace);
//! ```
#![tactic(auto)]

pub mod laws;
