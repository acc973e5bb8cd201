//! Cutting bytes into blocks of whole lines.

ghost use Rattle.std.specs.Prelude.{◌≡◌, ◌+◌, ◌<◌, ◌≤◌, ◌++◌, IfOk, OnOk, length, true, drop, take, vec_len};
ghost use Rattle.json_lines.specs.Lines.{lacks};
ghost use Rattle.line_blocks.specs.Blocks.{has_whole_lines};
ghost use Rattle.line_blocks.specs.Values.{IsCut};

use json_lines::line_end;
use memchr::memrchr;
use std::alloc::{AllocError, Global};

/// Whole lines, each with its newline, and how many bytes may come from the first of them on.
#[derive(Clone, Copy, Drop)]
pub(crate) struct Block<'a> {
    pub(crate) bytes: &'a [u8],
    pub(crate) room: usize,
}

/// How many bytes the whole lines have that bytes begin with, where no newline stands among the first of these, which
/// are not looked at again.
pub(crate) fn whole_len(bytes: &[u8], seen: usize) -> usize
    requires within { seen ≤ length bytes.now }
    requires seen { lacks (take seen bytes.now) ≡ true }
    ensures within { result ≤ length bytes.now }
    ensures whole { has_whole_lines (take result bytes.now) ≡ true }
    ensures rest { lacks (drop result bytes.now) ≡ true }
{
    match memrchr(b'\n', &bytes[seen..]) {
        Some(last) => seen + last + 1,
        None => 0,
    }
}

/// Cuts whole lines behind the first newline that stands so many bytes on, or later.
fn cut_at(lines: &[u8], size: usize) -> (&[u8], &[u8])
    requires whole { has_whole_lines lines.now ≡ true }
    requires some { 0 < length lines.now }
    ensures both { lines.now ≡ result.0.now ++ result.1.now }
    ensures block { has_whole_lines result.0.now ≡ true }
    ensures some { 0 < length result.0.now }
{
    let at = size.min(lines.len() - 1);
    let (_front, tail) = lines.split_at(at);
    let end = at + line_end(tail);
    if end < lines.len() {
        (&lines[..end + 1], &lines[end + 1..])
    } else {
        (lines, &[])
    }
}

/// Whole lines in blocks of about this size.
pub(crate) fn cut_blocks(
    alloc: Global,
    lines: &[u8],
    room: usize,
    size: usize,
) -> Result<Vec<Block<'_>>, AllocError>
    requires { has_whole_lines lines.now ≡ true }
    ensures { IfOk result (λ v. IsCut room lines.now v.items) }
{
    let mut blocks = Vec::new(alloc);
    let mut rest = lines;
    let mut left = room;
    // bounded by the bytes: each block but the last has more than the size
    while !rest.is_empty() {
        let (bytes, after) = cut_at(rest, size);
        blocks.push(Block { bytes, room: left })?;
        left = left.saturating_sub(bytes.len());
        rest = after;
    }
    Ok(blocks)
}
