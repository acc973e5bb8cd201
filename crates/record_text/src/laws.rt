//! Laws of a record's text. The functions compute nothing: a law is its function's contract.

ghost use Rattle.std.specs.Prelude.{ℕ, ◌<◌, ◌≤◌, ◌^◌, ◌∷◌, [], List, IsUtf8};
ghost use Rattle.trace_lines.specs.Values.{EntryValue};
ghost use Rattle.evidence_check.specs.RecordData.{HaveFacts};
ghost use Rattle.evidence_check.specs.Steps.{StepValue, yes_step, no_step};
ghost use Rattle.tuple_text.specs.Grammar.{IsFact};
ghost use Rattle.tuple_text.specs.Tuples.{FactValue};
ghost use Rattle.record_text.specs.Record.{record_text, record_length};
ghost use Rattle.record_text.specs.ReadBack.{IsTaken, IsReadBack};

use tuple_text::Fact;

/// A fact is in form, by its type.
pub(crate) fn fact_is_in_form(fact: &Fact)
    ensures { IsFact fact.now }
{
    let _ = fact.set();
    let _ = fact.user();
}

/// A record's text is a line of evidence that says the same steps. Of its bytes only this is asked, that they are
/// UTF-8, as those of a `String` are.
pub fn taken()
    ensures { (line : ℕ) (steps : List StepValue) → line < 2 ^ 64 → HaveFacts steps → IsUtf8 (record_text line steps)
        → IsTaken line steps }
{}

/// A record's text that is within the limits, for the line of an entry, and a newline are evidence of that record
/// alone.
pub fn read_back()
    ensures { (line : ℕ) (steps : List StepValue) → line < 2 ^ 64 → HaveFacts steps → IsUtf8 (record_text line steps)
        → (entries : List EntryValue) → IsReadBack entries line steps }
{}

/// A record of one step, of one fact, is within the limit of bytes.
#[tactic(auto, using(crate::proofs::Short::yes_short, crate::proofs::Short::no_short))]
pub fn one_step_is_short()
    ensures yes { (line : ℕ) (f : FactValue) → line < 2 ^ 64 → IsFact f
        → record_length line (yes_step f ∷ []) ≤ 2 ^ 20 }
    ensures no { (line : ℕ) (f : FactValue) → line < 2 ^ 64 → IsFact f
        → record_length line (no_step (f ∷ []) ∷ []) ≤ 2 ^ 20 }
{}
