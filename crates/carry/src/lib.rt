//! The state that one run of a monitor hands to the next: a carry, and its text.
//!
//! A [`Carry`] says how many lines of the whole log came before, the base timestamp, what tells the carry before from
//! others, and the lines of the log that go on, each by its number in the whole log: declarations by their texts,
//! commits, of which the store at the base is one, and entries. Contracts see it as `CarryValue`, and its text as
//! `carry_text`: a line that names the format, the fields on lines of their own, each text behind its length and each
//! list behind its count, and a line with the SHA-256 of all bytes before it. All is borrowed, and reading takes memory
//! for the lists alone.
//!
//! Callers may rely on this: what is written is `carry_text` of the carry; what is read is spelled so, each byte of it;
//! what is spelled so is read, unless memory runs out; a refusal is the one that `carry_at` gives. No carry's text
//! begins another's, so a carry that was cut is never read, whatever its checksum. That one was changed is seen by the
//! checksum, which does not keep out who changes that too. A carry does not say that its lines rise, nor that they make
//! a trace: who puts them into one is told that there.
//!
//! ```text
//! let text = write_carry(alloc, &carry)?;
//! let carry = read_carry(alloc, text.as_bytes())?;
//! ```
#![tactic(auto)]

mod carried;
mod fault;
mod fields;
pub mod laws;
mod reading;
mod sealing;
mod value;
mod writing;

pub use carried::{read_carry, write_carry};
pub use fault::CarryFault;
pub use value::{CarriedCheck, CarriedCommit, Carry, CheckKind, Item, Said};
