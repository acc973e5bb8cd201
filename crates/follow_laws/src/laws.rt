//! What can be told of a log while it grows. Each function computes nothing: what it ensures is the law.

ghost use Rattle.std.specs.Prelude.{◌≡◌, take, [], ◌∷◌, ◌++◌, true, Ok, ℕ, ◌+◌, ◌≤◌, List, length, All, Contains, Option, Some, IfSome, slice_get, ◌<◌, ◌↔◌, AllPairs, IsPermutation, IsSomeAnd};
ghost use Rattle.json_lines.specs.Reading.{parts};
ghost use Rattle.trace_lines.specs.Traces.{trace_of};
ghost use Rattle.trace_lines.specs.Values.{EntryValue, TraceValue, next_line};
ghost use Rattle.evidence_check.specs.Evidences.{steps_of};
ghost use Rattle.evidence_check.specs.Steps.{StepValue};
ghost use Rattle.findings.specs.EachEntry.{IsRightAndFreshEntry};
ghost use Rattle.findings.specs.Findings.{findings_of};
ghost use Rattle.windows.specs.Growth.{IsSettled};
ghost use Rattle.follow_laws.specs.Begun.{IsOfBytes, Begins};
ghost use Rattle.follow_laws.specs.ByLine.{ComesBefore};
ghost use Rattle.follow_laws.specs.Followed.{IsOneLine, text_of, followed};
ghost use Rattle.follow_laws.specs.Through.{IsCleanThrough};
ghost use Rattle.follow_laws.specs.Told.{settling_line, told_on, left_over, all_told};

use findings::laws::well_formed_of_bytes;
use trace_lines::Trace;
use trace_lines::laws::{commits_of_bytes, entries_of_bytes_rise, entries_rise};

/// Where lines that came whole are followed by others and say a trace together, they say one alone, which begins it.
pub fn log_begins()
    ensures { (a b : List ℕ) (u : TraceValue) → trace_of true ((a ++ 10 ∷ []) ++ b) ≡ Ok u
        → (t : TraceValue) × (trace_of true (a ++ 10 ∷ []) ≡ Ok t) × Begins (length (parts a)) t u }
{
    commits_of_bytes();
    entries_of_bytes_rise();
    well_formed_of_bytes();
}

/// A log begins itself, so that what holds of each longer log holds now.
pub fn begins_itself()
    ensures { (k : ℕ) (t : TraceValue) → IsOfBytes t → next_line t ≤ k + 1 → Begins k t t }
{}

/// The line that settles an entry is the first at which the log so far settles it: no judgement is told later than it can be.
pub fn settles_first()
    ensures { (k : ℕ) (t u : TraceValue) → Begins k t u → (i : ℕ) (e : EntryValue) → slice_get t.entries i ≡ Some e
        → (IsSettled t e ↔ IsSomeAnd (settling_line u e) (λ m. m ≤ k)) }
{}

/// What is told when a line is taken stands among the findings on each longer log.
pub fn told_is_true()
    ensures { (k : ℕ) (t u : TraceValue) → Begins k t u → (evidence more : List (Option (List StepValue)))
        → ((i : ℕ) → i < length t.entries → steps_of more i ≡ steps_of evidence i)
        → (j : ℕ) → All (Contains (findings_of u more)) (told_on t evidence j) }
{}

/// What is told when a line is taken rests on the log up to there, and on the steps for its entries: it is the same in each
/// longer log.
pub fn told_stays()
    ensures { (k : ℕ) (t u : TraceValue) → Begins k t u → (evidence more : List (Option (List StepValue)))
        → ((i : ℕ) → i < length t.entries → steps_of more i ≡ steps_of evidence i)
        → (j : ℕ) → j ≤ k → told_on u more j ≡ told_on t evidence j }
{}

/// What is told at the lines of a log, one behind the other, and at its end, is what is found in the whole: each finding
/// once, and nothing else.
pub fn each_once()
    ensures { (t : TraceValue) → IsOfBytes t → (evidence : List (Option (List StepValue)))
        → IsPermutation (all_told t evidence) (findings_of t evidence) }
{}

/// The findings on a trace come by line, and on one line by their numbers. So what is told, sorted so, are they.
pub fn findings_rise(trace: &Trace)
    ensures { (evidence : List (Option (List StepValue))) → AllPairs ComesBefore (findings_of trace.now evidence) }
{
    entries_rise(trace);
}

/// A monitor that tells at each line what the log up to there lets it tell, and the rest at the end, tells what is found in
/// the whole: each finding once, and nothing else.
pub fn follow_is_audit()
    ensures { (so_far : ℕ → TraceValue) (n : ℕ) (u : TraceValue) → IsOfBytes u
        → ((k : ℕ) → k < n → Begins k (so_far k) u) → next_line u ≤ n → (evidence : List (Option (List StepValue)))
        → IsPermutation (followed so_far evidence n ++ left_over u evidence) (findings_of u evidence) }
{}

/// The same of a log as bytes: each of its lines is taken by what the lines up to there say.
pub fn follow_by_lines()
    ensures { (lines : List (List ℕ)) → All IsOneLine lines → (u : TraceValue) → trace_of true (text_of lines) ≡ Ok u
        → (evidence : List (Option (List StepValue)))
        → (so_far : ℕ → TraceValue)
        × ((k : ℕ) → k ≤ length lines → trace_of true (text_of (take k lines)) ≡ Ok (so_far k))
        × IsPermutation (followed so_far evidence (length lines + 1) ++ left_over u evidence) (findings_of u evidence) }
{
    commits_of_bytes();
    entries_of_bytes_rise();
    well_formed_of_bytes();
}

/// Where all entries up to a line are settled and nothing that was told names one of them, each is right and fresh, now
/// and in each longer log.
pub fn through()
    ensures { (k : ℕ) (t u : TraceValue) → Begins k t u → (evidence : List (Option (List StepValue))) (n : ℕ) → n ≤ k
        → IsCleanThrough t evidence n → All (λ e. e.line ≤ n → IsRightAndFreshEntry u e) u.entries }
{}
