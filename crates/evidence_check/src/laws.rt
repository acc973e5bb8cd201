//! Laws of the evidence, each for valid strata over one store. The functions compute nothing: a law is its function's
//! contract, over the definitions alone.

ghost use Rattle.std.specs.Prelude.{List, Contains};
ghost use Rattle.tuple_text.specs.Tuples.{TupleValue, FactValue};
ghost use Rattle.namespaces.specs.Lookup.{Lookup};
ghost use Rattle.strata.specs.Meaning.{Member};
ghost use Rattle.strata.specs.Strata.{HasValidStrata};
ghost use Rattle.evidence_check.specs.Accepted.{nothing_known, after_steps, IsAccepted, AreAccepted};
ghost use Rattle.evidence_check.specs.Steps.{StepValue, yes_step, no_step};

/// The fact of an accepted step that follows accepted steps alone is a member.
pub fn yes_sound()
    ensures { (rules : Lookup) (store : List TupleValue) → HasValidStrata rules store →
        (before : List StepValue) → AreAccepted rules store nothing_known before →
        (f : FactValue) → IsAccepted rules store (after_steps nothing_known before) (yes_step f)
        → Member rules store f }
{
    strata::laws::stable();
    strata::laws::closed();
}

/// No fact of an accepted set that follows accepted steps alone is a member, also where its facts lean on one another.
pub fn no_sound()
    ensures { (rules : Lookup) (store : List TupleValue) → HasValidStrata rules store →
        (before : List StepValue) → AreAccepted rules store nothing_known before →
        (fs : List FactValue) → IsAccepted rules store (after_steps nothing_known before) (no_step fs) →
        (f : FactValue) → Contains fs f → ¬ Member rules store f }
{
    strata::laws::stable();
    strata::laws::closed();
}
