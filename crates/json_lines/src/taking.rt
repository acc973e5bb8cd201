//! A value that grows by lines of JSON.

ghost use Rattle.std.specs.Prelude.{◌≡◌, ◌+◌, ◌≤◌, ℕ, Bool, Result, Ok, IfErr, OnOk};
ghost use Rattle.serde_json.specs.Data.{Data};
ghost use Rattle.serde_json.specs.Read.{read};
ghost use Rattle.refusals.specs.Refusals.{Gives};
ghost use Rattle.json_lines.specs.Json.{is_blank, is_blank_byte, of_json, taken_line};
ghost use Rattle.json_lines.specs.Reading.{Refuses, stopped};
ghost use Rattle.json_lines.specs.declared.lines.InputFault.{InputFault};

use crate::lines::InputFault;
use crate::reading::Stop;
use simdutf8::basic::from_utf8;

/// Why a line is refused: by what the input did, or by what the line says.
pub trait LineCause: Drop {
    ghost of_input: { InputFault → Self };

    // a line that is no text of JSON
    ghost not_json: { Self };

    ghost is_memory: { Self → Bool };

    fn of_input(fault: InputFault) -> Self
        ensures { result ≡ of_input fault };

    fn not_json() -> Self
        ensures { result ≡ not_json };

    /// Whether it is out of memory.
    fn is_memory(&self) -> bool
        ensures { result ≡ is_memory self.now };
}

/// A value that takes one line of JSON after the other.
pub trait TakeJson {
    type Cause: LineCause;

    // The least number that a further line may have.
    ghost next: { Self → ℕ };

    // What the value of a line, by the line's number, makes of this one.
    ghost taken: { ℕ → Self → Data → Result Self Self.Cause };

    /// Takes a line of this text. Whatever the answer, the next call is not made after a refusal.
    fn take(&mut self, number: u64, text: &str) -> Result<(), Self::Cause>
        requires { next self.old ≤ number }
        ensures answer { Gives Self.Cause.is_memory (λ _. self.new) result
            (of_json Self.Cause.not_json (taken number self.old) (read text.now)) }
        ensures further { OnOk result (next self.new ≤ number + 1) };
}

fn is_blank_byte(b: u8) -> bool
    ensures { result ≡ is_blank_byte b }
{
    b == b' ' || b == b'\t' || b == b'\r'
}

/// Whether a line holds spaces, tabs and carriage returns alone.
pub fn is_blank(line: &[u8]) -> bool
    ensures { result ≡ is_blank line.now }
{
    line.iter().all(|b| is_blank_byte(*b))
}

/// What stops the reading, where a line is answered so.
fn stopped<C: LineCause>(answer: Result<(), C>) -> Result<(), Stop<C>>
    ensures { result ≡ stopped C.is_memory answer }
{
    match answer {
        Ok(()) => Ok(()),
        Err(cause) => Err(if cause.is_memory() {
            Stop::Input(InputFault::OutOfMemory)
        } else {
            Stop::Line(cause)
        }),
    }
}

/// Takes a line without its newline.
#[tactic(auto, unfolding(crate::specs::Json::json_line))]
pub(crate) fn take_line<T: TakeJson>(
    taker: &mut T,
    number: u64,
    line: &[u8],
) -> Result<(), Stop<T::Cause>>
    requires { T.next taker.old ≤ number }
    ensures ok { OnOk result (taken_line T.Cause.not_json T.taken number taker.old line.now ≡ Ok taker.new) }
    ensures refused { IfErr result (Refuses (taken_line T.Cause.not_json T.taken number taker.old line.now)) }
    ensures further { OnOk result (T.next taker.new ≤ number + 1) }
{
    if is_blank(line) {
        return Ok(());
    }
    match from_utf8(line) {
        Ok(text) => stopped(taker.take(number, text)),
        Err(_) => Err(Stop::Line(T::Cause::not_json())),
    }
}
