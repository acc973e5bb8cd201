//! Reading a source by blocks.

ghost use Rattle.std.specs.Prelude.{◌≡◌, ◌≢◌, ◌+◌, ◌-◌, ◌^◌, ◌<◌, ◌≤◌, [], min, length, vec_len, take, drop, true, false, Ok, Err, IfOk, IfErr, OnOk};
ghost use Rattle.devices.specs.Given.{AreNext};
ghost use Rattle.json_lines.specs.InputRead.{LinesRead};
ghost use Rattle.json_lines.specs.Lines.{ComeAtMost, Takes, lacks};
ghost use Rattle.devices.specs.Moves.{end_count};
ghost use Rattle.json_lines.specs.Reading.{Refuses};
ghost use Rattle.json_lines.specs.declared.lines.InputFault.TheVariants.{Read, TooLong};
ghost use Rattle.json_lines.specs.declared.lines.TheConstants.{CHUNK};
ghost use Rattle.json_lines.specs.declared.reading.TheConstants.{MAX_INPUT};
ghost use Rattle.line_blocks.specs.Blocks.{has_whole_lines};
ghost use Rattle.line_blocks.specs.Parts.{taken_by};
ghost use Rattle.line_blocks.specs.Reads.{TakesLines, TakesWhole};
ghost use Rattle.line_blocks.specs.Values.{long_line};

use crate::blocks::{cut_blocks, whole_len};
use crate::putting::{PutTold, out_of_memory, put_blocks};
use crate::telling::TellLine;
use devices::Source;
use json_lines::{CHUNK, InputFault, LineFault, MAX_INPUT, MAX_LINE, Stop};
use std::alloc::{AllocError, Global};
use std::thread::Threads;

/// How many bytes for each worker a reader is asked for at a time.
const SHARE: usize = 1 << 20;

/// The number of the next line, and how many bytes may come from it on.
#[derive(Clone, Copy, Drop)]
pub(crate) struct Place {
    pub(crate) number: u64,
    pub(crate) room: usize,
}

/// Reads more behind the bytes at hand, by one call of the reader, and says whether anything came. It is asked for so
/// many bytes, or for less where less may come.
fn refill<R: Source>(
    reader: &mut R,
    share: usize,
    room: usize,
    bytes: &mut Vec<u8>,
) -> Result<bool, InputFault>
    requires share { 0 < share }
    requires short { vec_len bytes.old ≤ room }
    requires few { room ≤ MAX_INPUT }
    ensures came { OnOk result (Takes (R.given reader.old) (R.given reader.new) bytes.old.items bytes.new.items []) }
    ensures behind { OnOk result (take (vec_len bytes.old) bytes.new.items ≡ bytes.old.items) }
    ensures some { result ≡ Ok true → vec_len bytes.old < vec_len bytes.new }
    ensures none { result ≡ Ok false → bytes.new.items ≡ bytes.old.items }
    ensures few { OnOk result (vec_len bytes.new ≤ room + CHUNK) }
    ensures causes { result ≢ Err TooLong }
    ensures cut { result ≡ Err Read → R.given reader.new ≡ R.given reader.old }
    ensures most { ComeAtMost (room + CHUNK) (R.given reader.old) (R.given reader.new) bytes.old.items }
    ensures known { AreNext R.given R.ends R.remaining reader.old reader.new }
    ensures ends { R.ends reader.new ≡ R.ends reader.old + end_count result }
    // A reader's failure alone gives this error.
    ensures failed { result ≡ Err Read → R.failures reader.new ≡ R.failures reader.old + 1 }
    ensures kept { result ≢ Err Read → R.failures reader.new ≡ R.failures reader.old }
{
    let had = bytes.len();
    let more = share.min(room + CHUNK - had);
    if bytes.resize(had + more, 0).is_err() {
        return Err(InputFault::OutOfMemory);
    }
    match reader.give(&mut bytes[had..]) {
        Ok(count) => {
            bytes.truncate(had + count);
            Ok(count != 0)
        }
        Err(_) => Err(InputFault::Read),
    }
}

/// A line or the input is longer than it may be.
fn too_long<C>(line: u64) -> LineFault<C>
    ensures { result ≡ long_line line }
{
    LineFault {
        line,
        stop: Stop::Input(InputFault::TooLong),
    }
}

/// Lets go of the first bytes.
fn drop_front(alloc: Global, bytes: &mut Vec<u8>, count: usize) -> Result<(), AllocError>
    requires { count ≤ vec_len bytes.old }
    ensures { OnOk result (bytes.new.items ≡ drop count bytes.old.items) }
{
    let rest = Vec::from_slice(alloc, &bytes[count..])?;
    bytes.clear();
    bytes.extend_from_slice(&rest)
}

/// Puts what whole lines say into a value, where the first of them has this place, and answers the place behind them.
fn take_whole<J: TellLine + Sync, P: PutTold<J>, T: Threads + Sync>(
    rt: &T,
    alloc: Global,
    teller: &J,
    value: &mut P,
    place: Place,
    lines: &[u8],
    workers: usize,
) -> Result<Place, LineFault<J::Cause>>
    requires some { 0 < workers }
    requires whole { has_whole_lines lines.now ≡ true }
    requires few { place.number + length lines.now < 2 ^ 64 }
    requires place { P.next value.old ≤ place.number }
    ensures takes { TakesWhole (taken_by (J.told teller.now) P.put) place value.old lines.now result value.new }
    ensures further { IfOk result (λ to. P.next value.new ≤ to.number) }
{
    let size = (lines.len() / workers).min(J::BLOCK);
    let Ok(blocks) = cut_blocks(alloc, lines, place.room, size) else {
        return Err(out_of_memory(place.number));
    };
    match put_blocks(rt, alloc, teller, value, place.number, &blocks, workers) {
        Ok(number) => Ok(Place {
            number,
            room: place.room.saturating_sub(lines.len()),
        }),
        Err(fault) => Err(fault),
    }
}

/// Puts what the whole lines at hand say into a value, and leaves what stands behind them. Among the first bytes, which
/// were seen before, no newline stands: so a long line that comes in pieces is gone over once.
fn take_lines<J: TellLine + Sync, P: PutTold<J>, T: Threads + Sync>(
    rt: &T,
    alloc: Global,
    teller: &J,
    value: &mut P,
    place: Place,
    bytes: &mut Vec<u8>,
    seen: usize,
    workers: usize,
) -> Result<Place, LineFault<J::Cause>>
    requires some { 0 < workers }
    requires few { place.number + vec_len bytes.old < 2 ^ 64 }
    requires within { seen ≤ vec_len bytes.old }
    requires seen { lacks (take seen bytes.old.items) ≡ true }
    requires place { P.next value.old ≤ place.number }
    ensures takes { TakesLines (taken_by (J.told teller.now) P.put) place value.old bytes.old.items result
        bytes.new.items value.new }
    ensures further { IfOk result (λ to. P.next value.new ≤ to.number) }
{
    let count = whole_len(bytes, seen);
    if count == 0 {
        return Ok(place);
    }
    let behind = match take_whole(rt, alloc, teller, value, place, &bytes[..count], workers) {
        Ok(behind) => behind,
        Err(fault) => return Err(fault),
    };
    match drop_front(alloc, bytes, count) {
        Ok(()) => Ok(behind),
        Err(_) => Err(out_of_memory(behind.number)),
    }
}

/// Takes the last line, behind which there is no newline.
fn take_last<J: TellLine, P: PutTold<J>>(
    alloc: Global,
    teller: &J,
    value: &mut P,
    number: u64,
    line: &[u8],
) -> Result<(), LineFault<J::Cause>>
    requires { P.next value.old ≤ number }
    ensures ok { OnOk result (taken_by (J.told teller.now) P.put number value.old line.now ≡ Ok value.new) }
    ensures refused { IfErr result (λ e. (e.line ≡ number)
        × Refuses (taken_by (J.told teller.now) P.put number value.old line.now) e.stop) }
{
    let mut scratch = teller.scratch(alloc);
    let stop = match teller.tell(alloc, &mut scratch, line) {
        Ok(Ok(said)) => match value.put(number, said) {
            Ok(()) => return Ok(()),
            Err(stop) => stop,
        },
        Ok(Err(cause)) => Stop::Line(cause),
        Err(_) => return Err(out_of_memory(number)),
    };
    Err(LineFault { line: number, stop })
}

/// Hands what the lines of a reader say to `value`, up to the first that is refused, as `read_lines` of `json_lines`
/// does: lines and limits are those that it has. So many workers tell what lines say, several blocks at once; one
/// puts it into the value.
pub fn read_blocks<R: Source, J: TellLine + Sync, P: PutTold<J>, T: Threads + Sync>(
    rt: &T,
    alloc: Global,
    reader: &mut R,
    teller: &J,
    value: &mut P,
    workers: usize,
) -> Result<(), LineFault<J::Cause>>
    requires workers { (0 < workers) × (workers ≤ 16) }
    requires place { P.next value.old ≤ 1 }
    ensures { LinesRead R.given R.ends R.failures R.remaining (taken_by (J.told teller.now) P.put)
        reader.old reader.new value.old value.new result }
{
    let share = workers * SHARE;
    // for what is read at a time, and mostly for what a line that is cut leaves in front of it
    let Ok(mut bytes) = Vec::with_capacity(alloc, share + CHUNK) else {
        return Err(out_of_memory(1));
    };
    let mut place = Place {
        number: 1,
        room: MAX_INPUT,
    };
    // bounded by the bytes that may come: each turn but the last brings some
    for _turn in 0..u64::MAX {
        let seen = bytes.len();
        match refill(reader, share, place.room, &mut bytes) {
            Ok(true) => match take_lines(
                rt, alloc, teller, value, place, &mut bytes, seen, workers,
            ) {
                Ok(behind) if bytes.len() <= behind.room.min(MAX_LINE) => place = behind,
                Ok(behind) => return Err(too_long(behind.number)),
                Err(fault) => return Err(fault),
            },
            Ok(false) => return take_last(alloc, teller, value, place.number, &bytes),
            Err(fault) => return Err(LineFault {
                line: place.number,
                stop: Stop::Input(fault),
            }),
        }
    }
    Err(too_long(u64::MAX))
}
