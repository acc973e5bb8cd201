//! Readers and writers of which contracts name what they gave and took.
//!
//! A [`Source`] is a reader and a [`Sink`] a writer. Contracts see a source as the list of all bytes that it gave,
//! and count how often it failed and how often it was at its end; a sink as the list of all bytes that it took, and
//! count how often it failed, took none of some bytes, and was asked to flush.
//!
//! [`Counted`] makes one of any reader or writer, and [`Held`] a source of bytes in memory; at run time both are
//! just what they stand round. [`send`] writes a whole text. [`Failing`] fails where it is told to, for tests.
//!
//! Callers may rely on this: a call adds to one of the counts or moves bytes, and the counts are those of the
//! answers that the reader or writer within gave. Where it is known what a reader has left or a writer holds, as
//! with bytes in memory, the bytes that came are the next of these, and those that went stand behind them. After an
//! error of [`send`] the first bytes of the text went out, as many as the error says, and no others.
//!
//! ```text
//! let mut out = Counted::new(stdout);
//! send(&mut out, text.as_bytes())?;
//! ```
#![tactic(auto)]

mod counted;
mod failing;
mod held;
mod moved;
mod sending;
mod source;

pub use counted::Counted;
pub use failing::Failing;
pub use held::Held;
pub use sending::{Unsent, send};
pub use source::{Sink, Source};
