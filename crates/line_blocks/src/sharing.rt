//! Blocks that several threads tell, each taking the next that is free.

ghost use Rattle.std.specs.Prelude.{All, IfOk, List, Result, ℕ};
ghost use Rattle.line_blocks.specs.Values.{AreTold};
ghost use Rattle.line_blocks.specs.Shares.{AreSlots, IsPieceOf, IsSlotOf, IsToldOf};
ghost use Rattle.line_blocks.specs.declared.blocks.Block.{Block};

use crate::blocks::Block;
use crate::telling::{TellLine, Told, tell_block};
use std::alloc::{AllocError, Global};
use std::sync::atomic::{AtomicUsize, Ordering};
use std::thread;
use std::thread::Threads;

/// What was told of a block, where anything was.
#[derive(Drop)]
pub(crate) struct Slot<V, C> {
    told: Option<Result<Told<V, C>, AllocError>>,
}

/// What was told of the block of a number.
#[derive(Drop)]
pub(crate) struct Piece<V, C> {
    number: usize,
    slot: Slot<V, C>,
}

/// Tells what the blocks say that no other thread took, until none is free.
fn tell_free<J: TellLine>(
    teller: &J,
    alloc: Global,
    blocks: &[Block<'_>],
    free: &AtomicUsize,
) -> Result<Vec<Piece<J::Value, J::Cause>>, AllocError>
    ensures { IfOk result (λ v. All (IsPieceOf (J.told teller.now) blocks.now) v.items) }
{
    let mut scratch = teller.scratch(alloc);
    let mut pieces = Vec::new(alloc);
    // bounded by the blocks: a thread takes one a turn
    for _turn in 0..blocks.len() {
        let number = free.fetch_add(1, Ordering::SeqCst);
        let Some(block) = blocks.get(number) else {
            return Ok(pieces);
        };
        let told = tell_block(teller, alloc, &mut scratch, block.bytes, block.room);
        let slot = Slot { told: Some(told) };
        pieces.push(Piece { number, slot })?;
    }
    Ok(pieces)
}

/// What the threads told of the blocks that each of them took.
fn tell_apart<J: TellLine + Sync, T: Threads + Sync>(
    rt: &T,
    alloc: Global,
    teller: &J,
    blocks: &[Block<'_>],
    threads: usize,
) -> Result<Vec<Result<Vec<Piece<J::Value, J::Cause>>, AllocError>>, AllocError>
    ensures { IfOk result (λ v. All (λ r. IfOk r
        (λ ps. All (IsPieceOf (J.told teller.now) blocks.now) ps.items)) v.items) }
{
    let free = AtomicUsize::new(0);
    thread::map_indices(
        rt,
        alloc,
        threads.min(blocks.len()),
        &|_thread: usize| -> Result<Vec<Piece<J::Value, J::Cause>>, AllocError> {
            tell_free(teller, alloc, blocks, &free)
        },
    )
}

/// As many slots as there are blocks, with nothing told.
fn no_slots<V: Drop, C: Drop>(
    alloc: Global,
    blocks: &[Block<'_>],
) -> Result<Vec<Slot<V, C>>, AllocError>
    ensures { (told : List ℕ → Result V C) → IfOk result (λ v. AreSlots told v.items blocks.now) }
{
    let mut slots = Vec::new(alloc);
    for _block in blocks {
        slots.push(Slot { told: None })?;
    }
    Ok(slots)
}

/// Puts a piece into the slot of its block.
fn put_piece<V: Drop, C: Drop>(slots: &mut Vec<Slot<V, C>>, piece: Piece<V, C>)
    ensures { (told : List ℕ → Result V C) (bs : List Block) → IsPieceOf told bs piece
        → AreSlots told slots.old.items bs → AreSlots told slots.new.items bs }
{
    let Piece { number, slot } = piece;
    if number < slots.len() {
        slots[number] = slot;
    }
}

/// Puts pieces into the slots of their blocks.
fn put_pieces<V: Drop, C: Drop>(slots: &mut Vec<Slot<V, C>>, pieces: Vec<Piece<V, C>>)
    ensures { (told : List ℕ → Result V C) (bs : List Block) → All (IsPieceOf told bs) pieces.items
        → AreSlots told slots.old.items bs → AreSlots told slots.new.items bs }
{
    for piece in pieces {
        put_piece(slots, piece);
    }
}

/// What a block says, where that is not in its slot.
fn told_in<J: TellLine>(
    teller: &J,
    alloc: Global,
    scratch: &mut J::Scratch,
    block: Block<'_>,
    slot: Slot<J::Value, J::Cause>,
) -> Result<Told<J::Value, J::Cause>, AllocError>
    requires suits { J.suits teller.now scratch.old }
    requires slot { IsSlotOf (J.told teller.now) block slot }
    ensures told { IsToldOf (J.told teller.now) block.entry result }
    ensures suits { J.suits teller.now scratch.new }
{
    match slot.told {
        Some(told) => told,
        None => tell_block(teller, alloc, scratch, block.bytes, block.room),
    }
}

/// What was told of each block, in order. No clause says that the threads took each block: one that none took is told
/// here.
fn in_order<J: TellLine>(
    teller: &J,
    alloc: Global,
    blocks: &[Block<'_>],
    slots: Vec<Slot<J::Value, J::Cause>>,
) -> Result<Vec<Result<Told<J::Value, J::Cause>, AllocError>>, AllocError>
    requires { AreSlots (J.told teller.now) slots.items blocks.now }
    ensures { IfOk result (λ v. AreTold (J.told teller.now) v.items blocks.now) }
{
    let mut scratch = teller.scratch(alloc);
    let mut all = Vec::with_capacity(alloc, blocks.len())?;
    for slot in slots {
        let told = told_in(teller, alloc, &mut scratch, blocks[all.len()], slot);
        all.push(told)?;
    }
    Ok(all)
}

/// What the lines of each block say, told by so many threads, where they can be made. Each takes the next block that
/// is free, so that none waits while another has many blocks left.
pub(crate) fn tell_blocks<J: TellLine + Sync, T: Threads + Sync>(
    rt: &T,
    alloc: Global,
    teller: &J,
    blocks: &[Block<'_>],
    threads: usize,
) -> Result<Vec<Result<Told<J::Value, J::Cause>, AllocError>>, AllocError>
    ensures { IfOk result (λ v. AreTold (J.told teller.now) v.items blocks.now) }
{
    let taken = tell_apart(rt, alloc, teller, blocks, threads)?;
    let mut slots = no_slots(alloc, blocks)?;
    for pieces in taken {
        put_pieces(&mut slots, pieces?);
    }
    in_order(teller, alloc, blocks, slots)
}
