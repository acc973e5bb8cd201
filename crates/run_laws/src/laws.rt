//! What the runs of a log tell together. Each function computes nothing: what it ensures is the law.

ghost use Rattle.std.specs.Prelude.{◌≡◌, ◌≤◌, ◌++◌, ℕ, true, List, Option, Some, Ok, All, IsPermutation, slice_get};
ghost use Rattle.trace_lines.specs.Values.{EntryValue};
ghost use Rattle.evidence_check.specs.Evidences.{steps_of};
ghost use Rattle.evidence_check.specs.Steps.{StepValue};
ghost use Rattle.findings.specs.EachEntry.{IsRightAndFreshEntry};
ghost use Rattle.findings.specs.Findings.{findings_of};
ghost use Rattle.windows.specs.Growth.{IsSettled};
ghost use Rattle.follow_laws.specs.Told.{left_over};
ghost use Rattle.carry_laws.specs.Carried.{placeless};
ghost use Rattle.runs.specs.Kept.{KeptValue};
ghost use Rattle.audit.specs.declared.plain.Verdict.TheVariants.{Clean};
ghost use Rattle.run_laws.specs.Runs.{AreRuns, IsMadeIn, Ran, on_audited, told_by, whole_log};

/// What the runs of a log told, and what is left at its end, is on the entries that were audited what is found in the whole
/// log, each finding once: by steps that are made, for each entry that is settled, in one of the runs.
pub fn told_together()
    ensures { (rs : List Ran) → AreRuns rs → (w : KeptValue) → whole_log rs ≡ Ok w
        → (evidence : List (Option (List StepValue)))
        × IsPermutation (told_by rs ++ on_audited rs w.log (left_over w.log evidence))
        (on_audited rs w.log (findings_of w.log evidence))
        × ((i : ℕ) (e : EntryValue) → slice_get w.log.entries i ≡ Some e → IsSettled w.log e
        → IsMadeIn rs (placeless e) (steps_of evidence i)) }
{}

/// Where no run told anything, and each was whole, all entries up to a line are right and fresh in the whole log as soon
/// as they are settled.
pub fn clean_together()
    ensures { (rs : List Ran) → AreRuns rs → (w : KeptValue) → whole_log rs ≡ Ok w
        → All (λ r. (r.end.verdict ≡ Clean) × (r.end.whole ≡ true)) rs
        → (n : ℕ) → All (λ e. e.line ≤ n → IsSettled w.log e) w.log.entries
        → All (λ e. e.line ≤ n → IsRightAndFreshEntry w.log e) w.log.entries }
{}
