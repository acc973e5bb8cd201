//! What the lines of blocks make of a value.

ghost use Rattle.std.specs.Prelude.{◌≡◌, ℕ, ◌+◌, ◌^◌, ◌<◌, ◌≤◌, List, length, vec_len, map, Result, Ok, IfOk, IfErr, OnOk};
ghost use Rattle.json_lines.specs.Reading.{Refuses};
ghost use Rattle.line_blocks.specs.Blocks.{joined, lines_in};
ghost use Rattle.line_blocks.specs.Parts.{put_part, put_parts};
ghost use Rattle.line_blocks.specs.Values.{AreBlocks, AreNumbered, AreTold, PutsAs, PutsParts, block_told, bytes_in, no_memory, told_value};
ghost use Rattle.line_blocks.specs.declared.blocks.Block.{Block};

use crate::blocks::Block;
use crate::sharing::tell_blocks;
use crate::telling::{TellLine, Told};
use json_lines::{InputFault, LineFault, Stop};
use std::alloc::{AllocError, Global};
use std::mem;
use std::thread::{Threads, join_mut};

/// A value that what lines say is put into, one line after the other.
pub trait PutTold<J: TellLine> {
    // The least number that a further line may have.
    ghost next: { Self → ℕ };

    // What a line says, by the line's number, makes of this one.
    ghost put: { ℕ → Self → J.Value → Result Self J.Cause };

    /// Puts in what a line says. Of the input's faults it answers out of memory alone.
    fn put(&mut self, number: u64, value: J::Value) -> Result<(), Stop<J::Cause>>
        requires { next self.old ≤ number }
        ensures ok { OnOk result (put number self.old value ≡ Ok self.new) }
        ensures refused { IfErr result (Refuses (put number self.old value)) }
        ensures further { OnOk result (next self.new ≤ number + 1) };
}

/// Memory ran out at a line.
pub(crate) fn out_of_memory<C>(line: u64) -> LineFault<C>
    ensures { result ≡ no_memory line }
{
    LineFault {
        line,
        stop: Stop::Input(InputFault::OutOfMemory),
    }
}

/// Puts what lines say into a value, from line `first` on, and answers the number of the next line.
fn put_told<J: TellLine, P: PutTold<J>>(
    value: &mut P,
    first: u64,
    told: Told<J::Value, J::Cause>,
) -> Result<u64, LineFault<J::Cause>>
    requires few { first + vec_len told.values < 2 ^ 64 }
    requires place { P.next value.old ≤ first }
    ensures put { PutsAs result value.new (put_part P.put first value.old (told_value told)) }
    ensures further { IfOk result (λ n. P.next value.new ≤ n) }
    ensures next { IfOk result (λ n. n ≡ first + vec_len told.values) }
    ensures line { IfErr result (λ e. (first ≤ e.line) × (e.line ≤ first + vec_len told.values)) }
{
    let mut number = first;
    for said in told.values {
        if let Err(stop) = value.put(number, said) {
            return Err(LineFault { line: number, stop });
        }
        number += 1;
    }
    match told.fault {
        None => Ok(number),
        Some(stop) => Err(LineFault { line: number, stop }),
    }
}

/// Puts what was told of blocks into a value, one block after the other, from line `first` on, and answers the number
/// of the next line.
fn put_each<J: TellLine, P: PutTold<J>>(
    value: &mut P,
    first: u64,
    parts: Vec<Result<Told<J::Value, J::Cause>, AllocError>>,
) -> Result<u64, LineFault<J::Cause>>
    requires few { AreNumbered first parts.items }
    requires place { P.next value.old ≤ first }
    ensures put { PutsParts P.put first value.old parts.items result value.new }
    ensures further { IfOk result (λ n. P.next value.new ≤ n) }
{
    let mut number = first;
    for part in parts {
        let Ok(told) = part else {
            return Err(out_of_memory(number));
        };
        match put_told(value, number, told) {
            Ok(next) => number = next,
            Err(fault) => return Err(fault),
        }
    }
    Ok(number)
}

/// What was told of blocks and is to be put in.
#[derive(Drop)]
struct Pending<V, C> {
    /// The number of the next line.
    number: u64,
    parts: Vec<Result<Told<V, C>, AllocError>>,
}

/// Puts in what is pending, and answers the number of the next line.
fn put_pending<J: TellLine, P: PutTold<J>>(
    pending: &mut Pending<J::Value, J::Cause>,
    value: &mut P,
) -> Result<u64, LineFault<J::Cause>>
    requires few { AreNumbered pending.old.number pending.old.parts.items }
    requires place { P.next value.old ≤ pending.old.number }
    ensures put { PutsParts P.put pending.old.number value.old pending.old.parts.items result value.new }
    ensures further { IfOk result (λ n. P.next value.new ≤ n) }
{
    let alloc = *pending.parts.allocator();
    let parts = mem::replace(&mut pending.parts, Vec::new(alloc));
    put_each(value, pending.number, parts)
}

/// Puts in what is pending, while other threads tell what the blocks ahead say.
fn put_and_tell<J: TellLine + Sync, P: PutTold<J>, T: Threads + Sync>(
    rt: &T,
    alloc: Global,
    teller: &J,
    ahead: &[Block<'_>],
    tellers: usize,
    pending: &mut Pending<J::Value, J::Cause>,
    value: &mut P,
) -> (
    Result<Vec<Result<Told<J::Value, J::Cause>, AllocError>>, AllocError>,
    Result<u64, LineFault<J::Cause>>,
)
    requires few { AreNumbered pending.old.number pending.old.parts.items }
    requires place { P.next value.old ≤ pending.old.number }
    ensures told { IfOk result.0 (λ v. AreTold (J.told teller.now) v.items ahead.now) }
    ensures put { PutsParts P.put pending.old.number value.old pending.old.parts.items result.1 value.new }
    ensures further { IfOk result.1 (λ n. P.next value.new ≤ n) }
{
    join_mut(
        rt,
        &mut || tell_blocks(rt, alloc, teller, ahead, tellers),
        &mut || -> Result<u64, LineFault<J::Cause>>
            requires { AreNumbered pending.now.number pending.now.parts.items
                × (P.next value.now ≤ pending.now.number) }
            ensures { PutsParts P.put pending.entry.now.number value.entry.now pending.entry.now.parts.items result value.exit.now
                × IfOk result (λ n. P.next value.exit.now ≤ n) }
        { put_pending(pending, value) },
    )
}

/// Puts what the lines of blocks say into a value, one block after the other, and answers the number of the next
/// line. The workers tell what the lines of a wave of blocks say, while those before are put in.
pub(crate) fn put_blocks<J: TellLine + Sync, P: PutTold<J>, T: Threads + Sync>(
    rt: &T,
    alloc: Global,
    teller: &J,
    value: &mut P,
    first: u64,
    blocks: &[Block<'_>],
    workers: usize,
) -> Result<u64, LineFault<J::Cause>>
    requires blocks { (room : ℕ) × AreBlocks room blocks.now }
    requires few { first + length (joined (bytes_in blocks.now)) < 2 ^ 64 }
    requires place { P.next value.old ≤ first }
    ensures put { PutsAs result value.new
        (put_parts P.put first value.old (map (block_told (J.told teller.now)) blocks.now)) }
    ensures further { IfOk result (λ n. P.next value.new ≤ n) }
    ensures next { IfOk result (λ n. n ≡ first + lines_in (bytes_in blocks.now)) }
    ensures line { IfErr result (λ e. (first ≤ e.line) × (e.line ≤ first + lines_in (bytes_in blocks.now))) }
{
    let mut pending = Pending {
        number: first,
        parts: Vec::new(alloc),
    };
    let tellers = workers.saturating_sub(J::PUTTERS).max(1);
    let wave = tellers.saturating_mul(J::WAVE).max(1);
    let mut told = 0;
    // bounded by the blocks: each turn tells some
    while told < blocks.len() {
        let end = told + wave.min(blocks.len() - told);
        let ahead = &blocks[told..end];
        let (next, put) = put_and_tell(rt, alloc, teller, ahead, tellers, &mut pending, value);
        let number = match put {
            Ok(number) => number,
            Err(fault) => return Err(fault),
        };
        let Ok(parts) = next else {
            return Err(out_of_memory(number));
        };
        pending = Pending { number, parts };
        told = end;
    }
    put_pending(&mut pending, value)
}
