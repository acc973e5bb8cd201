//! The evidence for recorded decisions: reading it, and judging each decision by it.
//!
//! A record has steps for an entry of the trace. Each step says that a fact holds, or that some facts do not. A step
//! is accepted where the rules of its facts bear it out, from the stored tuples and from what the steps before made
//! known; facts that are said not to hold may lean on one another. Contracts see [`Evidence`] by `evidence_value` as
//! the list of the steps given for each entry.
//!
//! Callers may rely on this: [`read_evidence`] answers the evidence that its input says, or its first fault, also of
//! a reader that fails. [`judge_evidence`] judges by it as it is read, and [`judge_evidence_behind`] by that behind
//! the marker of joined input. A record that is written plainly, with no space and no escape, is taken without a
//! reader of JSON, to the same end. [`judge_alone`] says what a record says whatever stands before it, and
//! [`Judging`] is what that is put into: so [`judge_evidence_by`] has several threads judge the records of a block. [`judge_entry`] is the definition
//! `judged`. Whoever made the evidence, a supported reply is what the rules mean at the entry's snapshot (Zanzibar,
//! section 2.3), and a contradicted one is not. The laws in [`laws`] say the same of each accepted step.
//!
//! The program judges by evidence as it is read. For programs that keep it, to look at one entry or at its steps, there
//! are [`read_evidence`] and [`judge_entry`]; they go through the same reader and the same steps.
//!
//! ```text
//! let evidence = read_evidence(alloc, &mut reader, &trace)?;
//! let judged = judge_entry(&trace, &evidence, 0)?;
//! ```
#![tactic(auto)]

mod alone;
mod asked_rules;
mod behind;
mod blocks;
mod cause;
mod evidence;
mod judged;
mod judging;
pub mod laws;
mod placed;
mod read;
mod read_by;
mod record;
mod recorder;
mod records;
mod step;
mod steps;
mod written;

pub use alone::{Verdict, judge_alone};
pub use asked_rules::AskedRules;
pub use behind::judge_evidence_behind;
pub use cause::{EvidenceCause, EvidenceFault};
pub use evidence::Evidence;
pub use judged::{Judged, is_proved_by, judge_entry, judge_steps, judge_steps_by};
pub use judging::Judging;
pub use placed::EntryLines;
pub use read::{judge_evidence, read_evidence};
pub use read_by::judge_evidence_by;
pub use records::{MAX_FACTS, has_too_many};
pub use step::{Step, Steps};
