//! A trace that is audited as it comes: each finding is told as soon as nothing can change it.
//!
//! [`follow`] reads the lines of a trace from a reader, and before it asks the reader for more it writes the lines of the
//! report that the log so far lets tell, by evidence that it makes. A [`Follower`] does so for a log that is held: it
//! takes the lines that were not taken yet, by a monitor (`monitor`), and gives the text. A log may go on in runs:
//! [`follow_run`] begins behind a log that a carry began (`runs`), tells of its own lines alone, and hands the log on;
//! [`follow_behind`] reads the carry too, and [`follow_first`] begins with none.
//! Contracts see how much was followed as `IsFollowed` (`specs/SoFar.antt`), what was written as pieces of findings and
//! heartbeats (`specs/Pieces.antt`), what both calls say alike as `Run` (`specs/Running.antt`), and each as `Followed`
//! (`specs/Following.antt`), `RunEnds` (`specs/Handing.antt`) and `RunsBehind` (`specs/Carried.antt`).
//!
//! Callers may rely on this: what was told as the lines came, and what is told at the end, is in this order what
//! each line and the end let tell, and together what is found on the trace, each finding once; a clean verdict is
//! that of an audit, and so is all that holds of the findings whatever the verdict (`SpeaksOfMade`). Under any
//! fault what went out before is told of the lines that had come (`IsToldOf`), and so stands among the findings on
//! each longer log (`follow_laws::laws::told_is_true`). A heartbeat is true of the lines that had come and of each
//! longer log: up to its line all entries are settled, and of none of them anything is told behind it
//! (`specs/Heartbeats.antt`). What a run tells is what the whole log lets tell at its lines
//! (`runs::laws::told_by_run`), on entries that are audited by what is known; of the others it says that they were
//! not audited.
//!
//! ```text
//! let verdict = follow(alloc, &mut trace, &mut out, true)?;
//! ```
#![tactic(auto)]

mod asking;
mod carried;
mod follower;
mod following;
mod handing;
mod heartbeat;
mod reading;
mod whole;

pub use carried::{CarryRefusal, RunFault, follow_behind, follow_first};
pub use follower::Follower;
pub use following::follow;
pub use handing::{Handing, RunEnd, follow_run};
pub use heartbeat::Heartbeat;
