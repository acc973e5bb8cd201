//! Laws of the evidence that is made. The functions compute nothing: a law is its function's contract, over the
//! definitions alone.

ghost use Rattle.std.specs.Prelude.{ℕ, List, ◌⊎◌};
ghost use Rattle.tuple_text.specs.Tuples.{TupleValue, FactValue};
ghost use Rattle.namespaces.specs.Declaration.{Declaration};
ghost use Rattle.rewrites.specs.Expression.{Expression};
ghost use Rattle.namespaces.specs.Lookup.{Lookup, rule_at};
ghost use Rattle.namespaces.specs.WellFormed.{IsWellFormed};
ghost use Rattle.strata.specs.Strata.{EachPremise, HasValidStrata};
ghost use Rattle.judgement.specs.Judgement.{KnownValue, Established, Refuted};
ghost use Rattle.evidence_check.specs.Accepted.{IsAccepted, IsProved};
ghost use Rattle.evidence_check.specs.Growing.{Grows};
ghost use Rattle.evidence_check.specs.Steps.{no_step};
ghost use Rattle.goal_cone.specs.Cone.{HasItsPremises};
ghost use Rattle.evidence_maker.specs.Own.{OwnDeclared, HasOwnRelations};
ghost use Rattle.evidence_maker.specs.Saturation.{IsLeftOver, HasEvidence};
ghost use Rattle.evidence_maker.specs.Settled.{IsSettled};

/// Where each premise is settled, an expression is established or refuted.
pub fn decided()
    ensures { (rules : Lookup) (store : List TupleValue) (known : KnownValue) (f : FactValue) (e : Expression) →
        EachPremise store (IsSettled rules known) (IsSettled rules known) f e → OwnDeclared rules f.set e →
        Established rules store known f e ⊎ Refuted rules store known f e }
{}

/// A fact that is proved stays so as more becomes known.
pub fn proved_stays()
    ensures { (rules : Lookup) (store : List TupleValue) (old new : KnownValue) → Grows old new →
        (f : FactValue) → IsProved rules store old f → IsProved rules store new f }
{}

/// What is left over can be said not to hold, all at once.
pub fn left_over()
    ensures { (rules : Lookup) → HasOwnRelations rules
        → (store : List TupleValue) (known : KnownValue) (R : List FactValue) →
        IsLeftOver rules store known R → IsAccepted rules store known (no_step R) }
{}

/// Facts that hold their own premises have evidence that settles each of them.
pub fn complete()
    ensures { (rules : Lookup) → HasOwnRelations rules → (store : List TupleValue) → HasValidStrata rules store →
        (C : List FactValue) → HasItsPremises rules store C → HasEvidence rules store C }
{}

/// The rules in force at a timestamp read declared relations of their own namespaces.
pub fn own_relations()
    ensures { (ds : List Declaration) → IsWellFormed ds → (at : ℕ) → HasOwnRelations (rule_at ds at) }
{}
