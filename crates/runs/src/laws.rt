//! What holds of runs. Each function computes nothing: what it ensures is the law.

ghost use Rattle.std.specs.Prelude.{◌≡◌, ◌≤◌, ◌<◌, ◌+◌, ℕ, List, Option, Ok, true};
ghost use Rattle.trace_lines.specs.Values.{TraceValue, next_line};
ghost use Rattle.evidence_check.specs.Steps.{StepValue};
ghost use Rattle.windows.specs.Growth.{GoesOn};
ghost use Rattle.follow_laws.specs.Begun.{IsOfBytes};
ghost use Rattle.carry_laws.specs.Carried.{GoesOnAlike, HaveSameSteps, asked_left, asked_on};
ghost use Rattle.carry.specs.Values.{CarryValue};
ghost use Rattle.runs.specs.Handed.{IsCarryOf, known_by};
ghost use Rattle.runs.specs.Kept.{log_behind};

use carry_laws::laws::told_alike;

/// The same bytes behind a log and behind one with the same declarations add the same lines to both.
pub fn come_alike()
    ensures { (lines : ℕ) (t u x y : TraceValue) (a : List ℕ) → x.declarations ≡ t.declarations
        → next_line t ≤ lines + 1 → log_behind (record { lines = lines; log = t }) true a ≡ Ok u
        → log_behind (record { lines = lines; log = x }) true a ≡ Ok y
        → (goes : GoesOn lines t u) × GoesOnAlike goes x y }
{}

/// Of the lines of a run, what is told of the log that its carry begins, on the entries that are audited by what is
/// known behind it, is what the whole log lets tell there; and so it is at the end. The run's bytes make u of the whole log t, and y of
/// the log that the carry of t begins.
pub fn told_by_run()
    ensures { (t u y : TraceValue) (c : CarryValue) (a : List ℕ) → (is : IsCarryOf t c) → next_line t ≤ c.lines + 1
        → next_line is.log ≤ c.lines + 1 → log_behind (record { lines = c.lines; log = t }) true a ≡ Ok u
        → log_behind (record { lines = c.lines; log = is.log }) true a ≡ Ok y → IsOfBytes t → IsOfBytes u
        → IsOfBytes is.log → IsOfBytes y → (evidence own : List (Option (List StepValue)))
        → HaveSameSteps u evidence y own
        → ((k : ℕ) → c.lines < k → asked_on (known_by c) u evidence k ≡ asked_on (known_by c) y own k)
        × (asked_left (known_by c) u evidence ≡ asked_left (known_by c) y own) }
{
    told_alike();
}
