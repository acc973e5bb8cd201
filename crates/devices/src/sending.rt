//! Writing a whole text.

ghost use Rattle.std.specs.Prelude.{◌≡◌, ◌≤◌, ◌<◌, ◌+◌, ◌++◌, ◌⊎◌, length, take, OnOk, OnErr, IfErr};
ghost use Rattle.devices.specs.Given.{StandBehind};
ghost use Rattle.devices.specs.Moves.{IsBrokenOff};

use crate::source::Sink;
use thiserror::Error;

/// How many bytes went out before the writer failed, or took none.
#[derive(Clone, Copy, Debug, PartialEq, Eq, Error)]
#[error("write fault after {written} bytes")]
pub struct Unsent {
    pub written: usize,
}

/// Writes all of the bytes and flushes.
///
/// Where the writer fails, or takes none of the bytes that are left, it says how many bytes went out. After a
/// failed flush these are all.
pub fn send<W: Sink>(out: &mut W, bytes: &[u8]) -> Result<(), Unsent>
    ensures all { OnOk result (W.taken out.new ≡ W.taken out.old ++ bytes.now) }
    ensures part { IfErr result (λ e. (e.written ≤ length bytes.now)
        × (W.taken out.new ≡ W.taken out.old ++ take e.written bytes.now)) }
    ensures flushed { OnOk result (W.flushes out.new ≡ W.flushes out.old + 1) }
    ensures kept { OnOk result ((W.failures out.new ≡ W.failures out.old) × (W.idle out.new ≡ W.idle out.old)) }
    // A flush is asked for behind the last byte, and only there.
    ensures broken_off { IfErr result
        (λ e. IsBrokenOff (W.flushes out.old) (W.flushes out.new) e.written (length bytes.now)) }
    // The writer failed once, or once took none of some bytes, and no call came behind that.
    ensures refused { IfErr result (λ e. ((W.failures out.new ≡ W.failures out.old + 1)
        × (W.idle out.new ≡ W.idle out.old))
        ⊎ ((W.idle out.new ≡ W.idle out.old + 1) × (W.failures out.new ≡ W.failures out.old) × (e.written < length bytes.now))) }
    ensures last { OnErr result (W.since out.new ≡ 0) }
    ensures held { StandBehind W.taken W.contents out.old out.new }
{
    let mut written = 0;
    for _turn in 0..bytes.len() {
        if written == bytes.len() {
            break;
        }
        match out.take_some(&bytes[written..]) {
            Ok(0) => return Err(Unsent { written }),
            Ok(n) => written += n,
            Err(_) => return Err(Unsent { written }),
        }
    }
    match out.finish() {
        Ok(()) => Ok(()),
        Err(_) => Err(Unsent { written }),
    }
}
