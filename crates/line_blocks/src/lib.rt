//! Lines in blocks: what each line says by itself is told by several threads, and put together by one.
//!
//! A [`TellLine`] says what a line says whatever stands before it, and threads share it. A [`PutTold`] is the value
//! that this is put into, line by line, by one thread. [`read_blocks`] reads a source so: what one call of the reader
//! gives is cut into blocks of whole lines, and each thread tells the next block that no other took.
//!
//! Callers may rely on this: what is read, and what is refused, is as `read_lines` of `json_lines` reads it where a
//! line makes of the value what it says, put into the value (`taken_by`). The reader is asked for more only once all
//! whole lines that came are put in, so that a line's fault comes before a later failure of the reader, which then
//! does not come. That memory ran out in a block is answered only where no line before that block is refused.
//!
//! ```text
//! read_blocks(rt, alloc, &mut reader, &telling, &mut judgements, 4)?;
//! ```
#![tactic(auto)]

mod blocks;
mod putting;
mod reading;
mod sharing;
mod telling;

pub use putting::PutTold;
pub use reading::read_blocks;
pub use telling::TellLine;
