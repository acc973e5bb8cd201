//! Traces: the lines of a reader, and what they say.
//!
//! [`read_trace`] makes a [`Trace`] of the lines of a source, and [`read_trace_front`] of those in front of the
//! marker of joined input, with what stands behind it still to be read. Contracts see a trace as `TraceValue`: its
//! declarations, its commits with the lines that they stand on, and its entries. A [`TraceBuilder`] takes the lines.
//! It has what reading alone needs, the sample, the index of edges and the versions, and lets go of that when it
//! makes its trace. [`TraceLine`] is what a line says by itself, and [`TraceBuilder::put_line`] puts that into a
//! builder: so [`read_trace_by`] has several threads tell what the lines of a block say, while one puts that in. A
//! check or a commit that is written plainly is taken by its text. Between two lines [`TraceBuilder::pause`] lends the
//! trace so far, with an index that grows.
//!
//! Callers may rely on this: what is read is `trace_of` the bytes, value or first fault, with its line, also of a
//! reader that fails. Input that never ends is refused at the limits. Commits and entries stand on lines that rise.
//! No look-up takes memory. Strata are valid at each timestamp, over what is stored then, as [`laws`] say of
//! `trace_of` any bytes too; they say which commits it has, and that each version is issued once. There is one pass
//! over the input, with one JSON value at a time. The index of [`Trace::timeline`] finds what is stored in a userset
//! without a walk over what is dead or undeclared.
//!
//! ```text
//! let trace = read_trace(alloc, &mut reader)?;
//! let goal = trace.entry(0).goal;
//! ```
#![tactic(auto)]

mod blocks;
mod builder;
mod cause;
mod checks;
mod commits;
mod declaring;
mod entries;
mod entry;
mod front;
pub mod laws;
mod line;
mod owned;
mod paused;
mod read;
mod read_by;
mod texts;
mod trace;
mod version_ref;
mod versions;
mod written;

pub use builder::TraceBuilder;
pub use cause::{Cause, TraceFault};
pub use entry::{Entry, EntryKind};
pub use front::{TraceFront, read_trace_front};
pub use line::TraceLine;
pub use paused::PausedTrace;
pub use read::read_trace;
pub use read_by::read_trace_by;
pub use trace::Trace;
