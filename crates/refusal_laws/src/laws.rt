//! What is refused, and for which fault. Each function computes nothing: what it ensures is the law.

ghost use Rattle.std.specs.Prelude.{◌≡◌, ℕ, ◌++◌, ◌∷◌, List, [], Ok, Err};
ghost use Rattle.serde_json.specs.Data.{Data};
ghost use Rattle.namespaces.specs.Adding.{namespace, rules_add};
ghost use Rattle.namespaces.specs.Changing.{rules_change};
ghost use Rattle.namespaces.specs.Declaration.{Namespace, Declaration, addition, change};
ghost use Rattle.namespaces.specs.declared.fault.RulesFault.{RulesFault};
ghost use Rattle.tuple_text.specs.Reading.{tuple_at, fact_at};
ghost use Rattle.tuple_text.specs.declared.fault.TupleFault.{TupleFault};
ghost use Rattle.trace_lines.specs.Traces.{commit_line, entry_line};
ghost use Rattle.trace_lines.specs.Values.{TraceValue};
ghost use Rattle.trace_lines.specs.declared.entry.EntryKind.{EntryKind};
ghost use Rattle.evidence_check.specs.Reading.{record_line};
ghost use Rattle.evidence_check.specs.Records.{Records};
ghost use Rattle.refusal_laws.specs.EvidenceCauses as evidence;
ghost use Rattle.refusal_laws.specs.EvidenceCauses.{AppliesToRecord};
ghost use Rattle.refusal_laws.specs.LeastCause.{TellsTheLeast};
ghost use Rattle.refusal_laws.specs.LeastFault.{applies_to_addition, applies_to_change, of_addition, of_change, first_of, unless};
ghost use Rattle.refusal_laws.specs.Leftmost.{IsLeftmost, IsLeftmostOfFact};
ghost use Rattle.refusal_laws.specs.TraceCauses as trace;
ghost use Rattle.refusal_laws.specs.TraceCauses.{AppliesToCommit, AppliesToEntry};

/// Of the faults that apply to a namespace which is declared for the first time, the one with the least number is
/// told; where none applies, it is declared. A value without the shape of a namespace is refused for that, whatever
/// else is wrong with it.
pub fn least_fault_of_addition()
    ensures least { (ds : List Declaration) (d : Data) (n : Namespace) → namespace d ≡ Ok n
        → rules_add ds d ≡ unless (first_of (applies_to_addition ds n) of_addition) (ds ++ addition n ∷ []) }
    ensures shape { (ds : List Declaration) (d : Data) (f : RulesFault) → namespace d ≡ Err f → rules_add ds d ≡ Err f }
{}

/// The same of a namespace whose rules change at a timestamp.
pub fn least_fault_of_change()
    ensures least { (ds : List Declaration) (at : ℕ) (d : Data) (n : Namespace) → namespace d ≡ Ok n
        → rules_change ds at d ≡ unless (first_of (applies_to_change ds n) of_change) (ds ++ change at n ∷ []) }
    ensures shape { (ds : List Declaration) (at : ℕ) (d : Data) (f : RulesFault) → namespace d ≡ Err f
        → rules_change ds at d ≡ Err f }
{}

/// Where the text of a tuple is refused, the fault names the leftmost part that fails, and the byte at which that
/// part begins.
pub fn leftmost_part()
    ensures { (text : List ℕ) (f : TupleFault) → tuple_at text ≡ Err f → IsLeftmost text f }
{}

/// The same of the text of a fact, as of a goal: its user is a number.
pub fn leftmost_part_of_fact()
    ensures { (text : List ℕ) (f : TupleFault) → fact_at text ≡ Err f → IsLeftmostOfFact text f }
{}

/// Of the causes that apply to a commit line, the one with the least number is told; where none applies, the commit is
/// taken. Of texts that are no tuples the first is told, those of `add` before those of `remove`.
pub fn least_cause_of_commit()
    ensures { (n : ℕ) (t : TraceValue) (d : Data)
        → TellsTheLeast trace.number (AppliesToCommit t d) (commit_line n t d) }
{}

/// The same of the line of a check, or of a content check.
pub fn least_cause_of_entry()
    ensures { (kind : EntryKind) (n : ℕ) (t : TraceValue) (d : Data)
        → TellsTheLeast trace.number (AppliesToEntry kind t d) (entry_line kind n t d) }
{}

/// The same of a record of evidence. Of texts that are no facts the first is told, in the order of the steps.
pub fn least_cause_of_record()
    ensures { (r : Records) (d : Data) → TellsTheLeast evidence.number (AppliesToRecord r d) (record_line r d) }
{}
