//! What stands in for a log. Each function computes nothing: what it ensures is the law.

ghost use Rattle.std.specs.Prelude.{◌≡◌, ◌≤◌, ◌<◌, ◌+◌, ◌++◌, ℕ, max, List, Option, Some, All, IsPermutation, IsTrue, slice_get};
ghost use Rattle.trace_lines.specs.Values.{EntryValue, TraceValue, empty_trace};
ghost use Rattle.evidence_check.specs.Evidences.{steps_of};
ghost use Rattle.evidence_check.specs.Steps.{StepValue};
ghost use Rattle.findings.specs.Findings.{findings_of};
ghost use Rattle.windows.specs.Growth.{HasRisingLines, IsSettled};
ghost use Rattle.follow_laws.specs.Begun.{Begins, IsOfBytes};
ghost use Rattle.follow_laws.specs.Told.{told_on, left_over};
ghost use Rattle.carry_laws.specs.Asked.{is_audited};
ghost use Rattle.carry_laws.specs.declared.known.Known.{Known};
ghost use Rattle.carry_laws.specs.Carried.{GoesOnAlike, HaveSameSteps, StandsIn, asked_left, asked_on, placeless};
ghost use Rattle.carry_laws.specs.Together.{AreParts, HadSteps, Part, on_audited, told_in_all};

/// What stands in for a log so far stands in for the longer log, when the same lines have come behind both.
pub fn stands_on()
    ensures { (known : Known) (n p : ℕ) (t u x y : TraceValue) → (goes : Begins n t u) → StandsIn known p t x
        → p ≤ n + 1 → GoesOnAlike goes.goes x y → StandsIn known p u y }
{}

/// What is told at a further line of a log, and at its end, of the entries that are audited by what is known, is what is
/// told there of the trace that stands in for it.
pub fn told_alike()
    ensures { (known : Known) (n p : ℕ) (t u x y : TraceValue) → (goes : Begins n t u) → Begins n x y
        → StandsIn known p t x → p ≤ n + 1 → GoesOnAlike goes.goes x y
        → (evidence own : List (Option (List StepValue))) → HaveSameSteps u evidence y own
        → ((k : ℕ) → n < k → asked_on known u evidence k ≡ asked_on known y own k)
        × (asked_left known u evidence ≡ asked_left known y own) }
{}

/// Where all entries are audited by what is known, that is all that is told.
pub fn all_is_told()
    ensures { (known : Known) (t : TraceValue) → All (λ e. IsTrue (is_audited known t.entries e)) t.entries
        → (evidence : List (Option (List StepValue)))
        → ((k : ℕ) → asked_on known t evidence k ≡ told_on t evidence k)
        × (asked_left known t evidence ≡ left_over t evidence) }
{}

/// What stands in for a trace that stands in for a log stands in for the log, where no more is known of it: so each run
/// may shorten what it began with.
pub fn handed_on()
    ensures { (known further : Known) (p q : ℕ) (u y x : TraceValue) → HasRisingLines u → HasRisingLines y
        → StandsIn known p u y → StandsIn further q y x → known.base ≤ further.base
        → known.versions ≤ further.versions → StandsIn further (max p q) u x }
{}

/// What the runs of a log tell, each at its lines, and what is left at the log's end, is on the entries that were audited
/// what is found in the whole log, each finding once: by steps that one of the runs had, for each entry that is settled.
pub fn together()
    ensures { (u : TraceValue) → IsOfBytes u → (rs : List Part) → AreParts u 0 empty_trace 0 rs
        → (evidence : List (Option (List StepValue)))
        × IsPermutation (told_in_all 0 rs ++ on_audited rs u (left_over u evidence))
        (on_audited rs u (findings_of u evidence))
        × ((i : ℕ) (e : EntryValue) → slice_get u.entries i ≡ Some e → IsSettled u e
        → HadSteps rs (placeless e) (steps_of evidence i)) }
{}
