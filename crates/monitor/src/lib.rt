//! A monitor of a log that grows: it takes the log's commits and entries in their order, and tells at each line what
//! the log up to there lets it tell.
//!
//! A [`Monitor`] holds how much of a trace it has taken, and the entries that wait for a commit at or above their
//! snapshots, by snapshot: so a commit looks at those alone that it settles, and at those that came since the commit
//! before it. [`Monitor::take`] takes the next line, and [`Monitor::end`] tells what is left behind the last. A
//! [`Judge`] says how the evidence for an entry judges it, whoever made that. Contracts see where a monitor stands in a
//! trace as `Stands` (`specs/Standing.antt`), and what is told as `Tells` and `TellsLeft` (`specs/Telling.antt`), in the
//! words of `follow_laws`.
//!
//! Callers may rely on this: at each line it tells exactly what `told_on` says of that line, and at the end what
//! `left_over` says, by evidence that the judge allows for what is judged there, in the order of the entries: nothing
//! twice, too early or of another line. By the laws of `follow_laws` what is told so is true of each longer log, and all
//! that it tells of a trace is what is found on it, each finding once ([`tell_all`]). A monitor that stands in a log
//! stands in each longer one ([`laws::stands_on`]), so it goes on as lines come: [`tell_further`] takes all that came
//! (`TellsMore`, `specs/SoFar.antt`). The crate `follow` does so with a judge that makes its evidence. A monitor may begin
//! behind lines of which another told ([`stand_behind`]): what it tells is what is told from the next line on.
//!
//! ```text
//! while let Some(line) = monitor.take(&trace, &mut judge, &mut told)? { .. }
//! monitor.end(&trace, &mut judge, &mut told)?;
//! ```
#![tactic(auto)]

mod judge;
pub mod laws;
mod monitor;
mod silence;
mod waiting;
mod whole;

pub use judge::Judge;
pub use monitor::Monitor;
pub use silence::stand_behind;
pub use whole::{tell_all, tell_further};
