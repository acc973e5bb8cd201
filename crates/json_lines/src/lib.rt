//! Lines of JSON out of any reader.
//!
//! [`read_lines`] hands each line of a `Source` of `devices` to a [`TakeJson`], up to the first line that is refused.
//!
//! A line is the `serde_json::Value` that its text is ([`read_value`]), and contracts see it as its `Data`; [`fields`]
//! has the fields of an object by their types. A taker may know by the text of a line what its value would say.
//!
//! Callers may rely on this: what is read is `read_all` of the bytes that the reader gave, to its end or to the first
//! fault with its line, also of a reader that fails. A refusal holds of every input that begins with these bytes. A
//! line has at most 2^20 bytes and the input 2^30, so that input that never ends is refused. Lines of spaces, tabs
//! and carriage returns alone are skipped and counted. There is one pass over the input, with one line of JSON at a
//! time.
//!
//! ```text
//! let mut trace = Trace::new(alloc);
//! read_lines(alloc, reader, &mut trace)?;
//! ```
//!
//! Joined input has a front of lines, a line that is exactly `---`, and more lines, and is read in one pass too:
//! [`read_front`] hands the front to one value, and [`Rest::read`] what stands behind the marker to another. Both
//! parts are `joined_of` the bytes that came, and what each makes of its value is `read_all` of that part. A refused
//! line does not end the reading, so that a reader that fails, more than 2^30 bytes in all, or a missing marker come
//! before any line's fault.
//!
//! ```text
//! let front = read_front(alloc, reader, &mut trace)?;
//! if let Some(rest) = front.rest {
//!     let read = rest.read(alloc, reader, &mut evidence)?;
//! }
//! ```
#![tactic(auto)]

pub mod fields;
mod joined;
mod line;
mod lines;
mod next;
mod reading;
mod taking;

pub use joined::{Front, Rest, read_front};
pub use line::read_value;
pub use lines::{CHUNK, InputFault, Lines, line_end};
pub use next::LineReader;
pub use reading::{LineFault, MAX_INPUT, MAX_LINE, Stop, read_lines};
pub use taking::{LineCause, TakeJson, is_blank};
