//! What the findings on a trace say of its replies. Each function computes nothing: what it ensures is the law.

ghost use Rattle.std.specs.Prelude.{◌≡◌, ℕ, Bool, true, List, [], Option, Ok, filter, nat_eq};
ghost use Rattle.json_lines.specs.Reading.{parts};
ghost use Rattle.trace_lines.specs.Traces.{trace_of};
ghost use Rattle.trace_lines.specs.Values.{TraceValue};
ghost use Rattle.evidence_check.specs.Reading.{evidence_of};
ghost use Rattle.evidence_check.specs.Steps.{StepValue};
ghost use Rattle.findings.specs.EachEntry.{SpeaksOfEachEntry};
ghost use Rattle.findings.specs.Findings.{findings_of};
ghost use Rattle.findings.specs.Headline.{IsRightAndFresh};
ghost use Rattle.findings.specs.NewEnemy.{HasNoNewEnemy};
ghost use Rattle.findings.specs.PartBytes.{IsPartOfBytes};
ghost use Rattle.findings.specs.PartEvidence.{IsPartOfEvidence, is_on_part};
ghost use Rattle.findings.specs.Parts.{part_of, evidence_of_part, findings_on_part, ArePartsReadClean, IsCleanInParts};
ghost use Rattle.findings.specs.Said.{IsReadPart, IsSaidBy};
ghost use Rattle.findings.specs.WellFormed.{IsWellFormed};
ghost use Rattle.findings.specs.WrongReplies.{HasOnlyWrongRepliesNamed};

use trace_lines::Trace;
use trace_lines::laws::{entries_rise, valid_strata, versions_issued_once};

/// What a report says of each entry by itself, whoever made the evidence and whatever is found on the others. What is
/// wrong with an entry is told on its line. So an entry on whose line nothing is told has a reply that is what the
/// rules mean, is closed, and is latest, or as new as its zookie and as the content check of the version that it
/// names; and such a check is fresh, and saw every change before that content check, where nothing is told on its
/// line either. Before the first line of which anything is told, all of that holds of every entry.
pub fn each_entry(trace: &Trace)
    ensures { (evidence : List (Option (List StepValue)))
        → SpeaksOfEachEntry trace.now (findings_of trace.now evidence) }
{
    valid_strata(trace);
    entries_rise(trace);
    versions_issued_once(trace);
}

/// The same of a trace as a value, of however many bytes.
pub fn each_entry_of_value()
    ensures { (t : TraceValue) → IsWellFormed t → (evidence : List (Option (List StepValue)))
        → SpeaksOfEachEntry t (findings_of t evidence) }
{}

/// Each trace that some bytes say is well formed.
pub fn well_formed_of_bytes()
    ensures { (bytes : List ℕ) (t : TraceValue) → trace_of true bytes ≡ Ok t → IsWellFormed t }
{}

/// Where nothing is found, whoever made the evidence, each reply is what the rules mean over the tuples committed up
/// to its snapshot, and no check is older than its zookie or than its version's content check.
pub fn right_and_fresh_without_findings(trace: &Trace)
    ensures { (evidence : List (Option (List StepValue))) → findings_of trace.now evidence ≡ []
        → IsRightAndFresh trace.now }
{
    each_entry(trace);
}

/// No new enemy: a check of a content version has seen all access changes that were committed before that version's
/// content check (Zanzibar, sections 2.2 and 2.4). Where such a commit removed a tuple and none up to the check's
/// snapshot adds it again, the tuple is not among those by which the check was answered; where it added one that none
/// removes, it is.
pub fn no_new_enemy(trace: &Trace)
    ensures { IsRightAndFresh trace.now → HasNoNewEnemy trace.now }
{
    versions_issued_once(trace);
}

/// Whatever is found: a reply that a finding F10 calls wrong is wrong.
pub fn wrong_replies_are_wrong(trace: &Trace)
    ensures { (evidence : List (Option (List StepValue)))
        → HasOnlyWrongRepliesNamed trace.now (findings_of trace.now evidence) }
{
    valid_strata(trace);
    entries_rise(trace);
}

/// A trace that is cut by object: what is found on the part with the entries of some objects alone, and all rules and
/// commits, is exactly what is found in the whole on those entries.
pub fn findings_of_part()
    ensures { (objects : List ℕ → List ℕ → Bool) (t : TraceValue) (evidence : List (Option (List StepValue)))
        → findings_of (part_of objects t) (evidence_of_part objects t evidence) ≡ findings_on_part objects t evidence }
{}

/// Where nothing is found in any part of a trace, however its objects were dealt to parts, each reply of the whole is
/// what the rules mean, and no check is older than its zookie or than its version's content check.
pub fn right_and_fresh_in_parts(trace: &Trace)
    ensures { (part : List ℕ → List ℕ → ℕ) (evidence : List (Option (List StepValue)))
        → IsCleanInParts part trace.now evidence → IsRightAndFresh trace.now }
{
    right_and_fresh_without_findings(trace);
}

/// The same of a trace as a value, of which no bytes are asked for: however its objects were dealt to parts, where some
/// bytes say each part, and by some evidence nothing is found in it, each reply of the whole is what the rules mean, no
/// check is older than its zookie or than its version's content check, and each saw all changes before that. So the
/// whole may be longer than an input may be.
pub fn right_and_fresh_of_parts()
    ensures { (part : List ℕ → List ℕ → ℕ) (t : TraceValue) → ArePartsReadClean part t
        → IsRightAndFresh t × HasNoNewEnemy t }
{}

/// And parts that read make such a whole: where some lines, of however many bytes, are cut by object into parts that some
/// bytes say, these parts are those of one trace, which the lines say.
pub fn whole_of_parts()
    ensures { (part : List ℕ → List ℕ → ℕ) (lines : List (List ℕ)) (ts : ℕ → TraceValue)
        → ((k : ℕ) → IsReadPart part lines k (ts k))
        → (t : TraceValue) × IsSaidBy lines t × ((k : ℕ) → ts k ≡ part_of (λ n i. nat_eq (part n i) k) t) }
{}

/// The trace that some bytes say is the one that their lines say.
pub fn said_by_lines()
    ensures { (bytes : List ℕ) (t : TraceValue) → trace_of true bytes ≡ Ok t → IsSaidBy (parts bytes) t }
{}

/// A trace that is cut by object, as bytes: where some bytes say a trace, those that have the same lines, but blank
/// ones for the entries of other objects, say the part with the entries of these objects alone, on the same lines.
pub fn bytes_of_part()
    ensures { (objects : List ℕ → List ℕ → Bool) (bytes part : List ℕ) (t : TraceValue) → trace_of true bytes ≡ Ok t
        → IsPartOfBytes objects part bytes → trace_of true part ≡ Ok (part_of objects t) }
{}

/// Its evidence, as bytes: where some bytes say evidence for a trace, those that have the same lines, but blank ones
/// for the records of other objects' entries, say the evidence for the part.
pub fn bytes_of_evidence(trace: &Trace)
    ensures { (objects : List ℕ → List ℕ → Bool) (bytes part : List ℕ) (given : List (Option (List StepValue)))
        → evidence_of trace.now.entries true bytes ≡ Ok given → IsPartOfEvidence objects trace.now.entries part bytes
        → evidence_of (part_of objects trace.now).entries true part ≡ Ok (evidence_of_part objects trace.now given) }
{
    entries_rise(trace);
}

/// The findings of a part are the whole's on its lines, in their order. So the report of the whole is the merge of
/// the parts' by line.
pub fn findings_by_line(trace: &Trace)
    ensures { (objects : List ℕ → List ℕ → Bool) (evidence : List (Option (List StepValue)))
        → findings_of (part_of objects trace.now) (evidence_of_part objects trace.now evidence)
        ≡ filter (is_on_part objects trace.now.entries) (findings_of trace.now evidence) }
{
    entries_rise(trace);
}
