//! The text of a record of evidence, as a line of its own.
//!
//! [`write_record`] appends the record of the steps for one entry:
//! `{"line":N,"steps":[{"yes":"FACT"},{"no":["FACT",..]},..]}` and a newline. Contracts see the record as a value of
//! JSON, `record_data`, and its text as what `serde_json` writes for that.
//!
//! Callers may rely on this: what is appended is that text or, where memory runs out, nothing. [`record_bytes`] and
//! [`fact_count`] are what a record is measured by, without its text. A text that is within the limits, for the line
//! of an entry, is read by `evidence_check` as one record with the same steps.
//!
//! ```text
//! write_record(entry.line, &steps, &mut text)?;
//! ```
#![tactic(auto)]

mod count;
pub mod laws;
mod record;

pub use count::{fact_count, record_bytes};
pub use record::write_record;
