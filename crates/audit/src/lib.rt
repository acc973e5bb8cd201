//! The audit of recorded decisions, for any program.
//!
//! An audit reads a trace and evidence for it, and writes the report: a line for each finding, how many entries and
//! findings there are, and the verdict. There are six, and they differ in this:
//!
//! - [`audit_plain`] reads the two from two readers. It takes no runtime, and so starts no thread.
//! - [`audit`] does the same by workers. It answers `Limits`, and reads nothing, exactly where it is asked for other
//!   than 1 to 16 of them, or for slices of other than 1 to 4,096 entries.
//! - [`audit_early`] is `audit`, and tells of findings in early lines too, to a writer of its own.
//! - [`audit_made`] reads a trace alone, and makes the evidence, by workers. It answers `Limits` as `audit` does. It
//!   alone says that no wrong reply within the maker's reach is missed (`complete`): each reply is right, or it is
//!   wrong and has an F10, or its entry is out of reach and has an F7.
//! - [`audit_joined`] reads both from one reader. It answers `Joined` for input that is no joined input, and `Input`
//!   where that reader failed.
//! - [`audit_values`] takes a trace and evidence that are read already.
//!
//! No clause says which threads work, when something is written, or how much memory is taken.
//!
//! What the contracts of the first three share is one record, `Audited` of `specs/Answers.antt`; that of `audit_made`
//! is `AuditedMade` beside it, and that of `audit_joined` is `AuditedJoined` of `specs/Joined.antt`; `audit_values`
//! reads nothing, and has clauses of its own, with `Told` of `specs/Parts.antt`. A call's other clauses say what it
//! alone does. Which faults a call answers is `kinds` (`specs/Kinds.antt`): a clause, or a field of `AuditedJoined`
//! and of `Told`. [`make_records`] writes evidence for a trace, and [`history`] a tuple's touches in it, the newest
//! first. What is found, and its text, are of the crate `findings`. For a caller that takes a
//! trace as it comes (the crate `follow`) there are a judge that makes its evidence ([`MakingJudge`]), and [`tell`].
//!
//! Contracts see a reader and a writer as `specs/Devices.antt` says: the bytes that they gave and took; how often a
//! reader failed, or was at its end; how often a writer failed, took none of some bytes, or was asked to flush; and,
//! of devices in memory, what a reader has left and what a writer holds. The writer of early lines they see as
//! `WriterState` of `specs/Early.antt` says.
//!
//! Callers may rely on this: to the writer of the report goes the report text of the findings, and nothing else:
//! whole, or under `Write` its first bytes. The findings are those of the trace and the evidence that were read, or,
//! in `audit_made`, of evidence that is made for the trace. The verdict is clean exactly where there is none. Nothing
//! is written where input is refused, not even an early line. Where the verdict is clean, each reply is what the
//! rules mean over the tuples committed up to its snapshot, and no check is older than its zookie, nor than the
//! content check of the version that it names, nor than any commit on a line before that content check. Whatever the
//! verdict, a reply that a finding F10 calls wrong is wrong.
//!
//! ```text
//! let verdict = audit_plain(alloc, &mut trace, &mut evidence, &mut out)?;
//! ```
#![tactic(auto)]

mod early;
mod finder;
mod finds;
mod joined;
mod judging;
mod made;
mod made_audit;
mod plain;
mod reading;
mod shared;
mod telling;
mod touches;

pub use early::audit_early;
pub use findings::{Finding, What, findings_of, report_line, report_of};
pub use finds::Finds;
pub use joined::audit_joined;
pub use judging::{MakingJudge, PausedJudge};
pub use made::{make_records, make_records_listing};
pub use made_audit::audit_made;
pub use plain::{AuditFault, Verdict, audit_plain, audit_values};
pub use shared::{LARGEST_SLICE, audit};
pub use telling::tell;
pub use touches::history;
