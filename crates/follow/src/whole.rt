//! All that a reader gives.

ghost use Rattle.std.specs.Prelude.{◌≡◌, ◌≢◌, ◌+◌, ◌++◌, ◌<◌, ◌≤◌, length, true, Ok, Err, IfOk, OnOk};
ghost use Rattle.devices.specs.Given.{AreNext, OfBytes, OfWhole};
ghost use Rattle.devices.specs.Moves.{end_count};
ghost use Rattle.json_lines.specs.declared.lines.TheConstants.{CHUNK};
ghost use Rattle.json_lines.specs.declared.lines.InputFault.TheVariants.{Read, TooLong};

use devices::Source;
use json_lines::{CHUNK, InputFault};
use std::alloc::Global;

/// Reads more behind the bytes at hand, by one call of the reader, and says whether anything came.
fn read_more<R: Source>(
    reader: &mut R,
    chunk: &mut [u8],
    bytes: &mut Vec<u8>,
) -> Result<bool, InputFault>
    requires { 0 < length chunk.old }
    ensures came { OfBytes R.given reader.old reader.new (λ came. length came ≤ length chunk.old) }
    ensures behind { OnOk result (OfBytes R.given reader.old reader.new (λ came. bytes.new.items ≡ bytes.old.items ++ came)) }
    ensures few { OnOk result (length bytes.new.items ≤ length bytes.old.items + length chunk.old) }
    ensures some { result ≡ Ok true → length bytes.old.items < length bytes.new.items }
    ensures size { length chunk.new ≡ length chunk.old }
    ensures known { AreNext R.given R.ends R.remaining reader.old reader.new }
    ensures ends { R.ends reader.new ≡ R.ends reader.old + end_count result }
    ensures causes { result ≢ Err TooLong }
    ensures failed { result ≡ Err Read → R.failures reader.new ≡ R.failures reader.old + 1 }
    ensures kept { result ≢ Err Read → R.failures reader.new ≡ R.failures reader.old }
{
    match reader.give(chunk) {
        Ok(0) => Ok(false),
        Ok(count) => {
            bytes.extend_from_slice(&chunk[..count])?;
            Ok(true)
        }
        Err(_) => Err(InputFault::Read),
    }
}

/// All bytes of a reader, to its end. Of more than `max` bytes it says that they are too long, and asks for no more.
pub(crate) fn read_up_to<R: Source>(
    alloc: Global,
    reader: &mut R,
    max: usize,
) -> Result<Vec<u8>, InputFault>
    ensures whole { IfOk result (λ v. OfWhole R.given R.ends reader.old reader.new (λ a. v.items ≡ a)) }
    ensures long { result ≡ Err TooLong → OfBytes R.given reader.old reader.new (λ came. max < length came) }
    ensures few { OfBytes R.given reader.old reader.new (λ came. length came ≤ max + CHUNK) }
    ensures known { AreNext R.given R.ends R.remaining reader.old reader.new }
    // A reader's failure alone gives this error.
    ensures failed { result ≡ Err Read → R.failures reader.new ≡ R.failures reader.old + 1 }
    ensures kept { result ≢ Err Read → R.failures reader.new ≡ R.failures reader.old }
{
    let mut chunk = vec![in alloc; 0u8; CHUNK]?;
    let mut bytes = Vec::new(alloc);
    // bounded by the bytes that may come: each turn but the last brings some
    for _turn in 0..u64::MAX {
        if bytes.len() > max {
            return Err(InputFault::TooLong);
        }
        match read_more(reader, &mut chunk, &mut bytes) {
            Ok(true) => {}
            Ok(false) => return Ok(bytes),
            Err(fault) => return Err(fault),
        }
    }
    Err(InputFault::TooLong)
}
