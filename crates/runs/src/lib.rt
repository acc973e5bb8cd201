//! Runs of a monitor: what one hands to the next, and the log that the next begins with.
//!
//! What a run hands on is a carry (`carry`). [`hand_on`] makes one of the log so far: the declarations by their texts,
//! a commit that stores what is stored at a base timestamp, the commits above it, and the entries that are still to be
//! judged or whose versions may be named. [`begin`] makes of a carry the log that a run goes on with: its items, each
//! on its line in the whole log. Contracts see that log as `log_of` the carry (`specs/Begins.antt`), and of what is
//! handed on they say that it `IsCarryOf` the log (`specs/Handed.antt`): what it begins stands in for the log, of which
//! `carry_laws` say that a monitor tells the same of both.
//!
//! Callers may rely on this: what is begun is what the items make, one behind the other, and a refusal is that of the
//! first item that does not fit, unless memory runs out. What is handed on stands in for the log, since it is begun
//! and compared before it is given ([`is_carry_of`], whoever made the carry). That a log which has a base is always
//! handed on is no contract. A log that a carry began grows by the lines of a run ([`KeptLog`]), and what is told of it
//! there is what the whole log lets tell ([`laws::told_by_run`]).
//!
//! ```text
//! let carry = hand_on(alloc, &log, &declared, known, wanted)?;
//! let log = begin(alloc, &carry)?;
//! ```
#![tactic(auto)]

mod alike;
mod beginning;
mod declared;
mod fault;
mod handing;
mod kept;
mod known;
pub mod laws;
mod making;
mod standing;

pub use beginning::begin;
pub use declared::DeclaredLine;
pub use fault::BeginFault;
pub use handing::{Wanted, hand_on, is_carry_of};
pub use kept::KeptLog;
pub use known::is_audited;
