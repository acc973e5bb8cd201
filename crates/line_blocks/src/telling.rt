//! What the lines of blocks say by themselves.

ghost use Rattle.std.specs.Prelude.{◌≡◌, ℕ, ◌==◌, ◌||◌, List, Result, IfOk, IfSome, IfNone, length, min, ◌<◌, ◌≤◌, nat_lt, true};
ghost use Rattle.json_lines.specs.Lines.{line_len, first_line, after_line};
ghost use Rattle.json_lines.specs.declared.reading.TheConstants.{MAX_LINE};
ghost use Rattle.line_blocks.specs.Blocks.{lines_of};
ghost use Rattle.line_blocks.specs.Parts.{lines_told};
ghost use Rattle.line_blocks.specs.Values.{told_value};

use json_lines::{InputFault, MAX_LINE, Stop, line_end};
use std::alloc::{AllocError, Global};

/// What says of a line, without its newline, what it says by itself.
pub trait TellLine {
    type Value: Send + Drop;

    type Cause: Send + Drop;

    /// What a thread keeps from one line that it tells to the next.
    type Scratch: Send + Drop;

    /// About how many bytes of a long input a block has.
    const BLOCK: usize;

    /// How many of the workers tell nothing, since putting in what the others tell takes one of them all its time: 1
    /// or 0.
    const PUTTERS: usize;

    /// How many blocks each thread that tells has in a wave. What they say is put in while the next wave is told.
    const WAVE: usize;

    ghost told: { Self → List ℕ → Result Self.Value Self.Cause };

    // the scratch is one for this teller
    ghost suits: { Self → Self.Scratch → Type 0 };

    fn scratch(&self, alloc: Global) -> Self::Scratch
        ensures { suits self.now result };

    /// What a line says, or why it is refused. The outer error is out of memory.
    fn tell(
        &self,
        alloc: Global,
        scratch: &mut Self::Scratch,
        line: &[u8],
    ) -> Result<Result<Self::Value, Self::Cause>, AllocError>
        requires { suits self.now scratch.old }
        ensures told { IfOk result (λ r. r ≡ told self.now line.now) }
        ensures suits { suits self.now scratch.new };
}

/// What the lines of a block say, up to the first that is refused.
#[derive(Drop)]
pub(crate) struct Told<V, C> {
    pub(crate) values: Vec<V>,
    pub(crate) fault: Option<Stop<C>>,
}

/// Whether a line of this many bytes, behind which there is more, is longer than it may be.
fn is_over(len: usize, room: usize) -> bool
    ensures { result ≡ (nat_lt (min room MAX_LINE) len || (len == room)) }
{
    room.min(MAX_LINE) < len || len == room
}

/// The first line and what stands behind its newline, where there is one.
fn next_line(bytes: &[u8]) -> Option<(&[u8], &[u8])>
    ensures line { IfSome result (λ p. p.0.now ≡ first_line bytes.now) }
    ensures rest { IfSome result (λ p. p.1.now ≡ after_line bytes.now) }
    ensures within { IfSome result (λ p. line_len bytes.now < length bytes.now) }
    ensures none { IfNone result (length bytes.now ≤ line_len bytes.now) }
{
    let end = line_end(bytes);
    if end < bytes.len() {
        Some((&bytes[..end], &bytes[end + 1..]))
    } else {
        None
    }
}

/// What the lines of a block say.
pub(crate) fn tell_block<J: TellLine>(
    teller: &J,
    alloc: Global,
    scratch: &mut J::Scratch,
    block: &[u8],
    room: usize,
) -> Result<Told<J::Value, J::Cause>, AllocError>
    requires { J.suits teller.now scratch.old }
    ensures told { IfOk result (λ t. told_value t ≡ lines_told (J.told teller.now) room (lines_of block.now)) }
    ensures suits { J.suits teller.now scratch.new }
{
    let mut values = Vec::new(alloc);
    let mut rest = block;
    let mut left = room;
    // bounded by the bytes of the block
    while let Some((line, after)) = next_line(rest) {
        if is_over(line.len(), left) {
            return Ok(Told {
                values,
                fault: Some(Stop::Input(InputFault::TooLong)),
            });
        }
        match teller.tell(alloc, scratch, line)? {
            Ok(value) => values.push(value)?,
            Err(cause) => return Ok(Told {
                values,
                fault: Some(Stop::Line(cause)),
            }),
        }
        left -= line.len() + 1;
        rest = after;
    }
    Ok(Told {
        values,
        fault: None,
    })
}
