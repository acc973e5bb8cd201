//! Laws of the meaning, each for valid strata over one store, and where valid strata come from. The functions compute
//! nothing: a law is its function's contract, over the definitions alone.

ghost use Rattle.std.specs.Prelude.{◌≡◌, ℕ, List, Some, ◌↔◌, Contains};
ghost use Rattle.tuple_text.specs.Tuples.{TupleValue, FactValue};
ghost use Rattle.namespaces.specs.Declaration.{Declaration};
ghost use Rattle.namespaces.specs.Lookup.{Lookup, Rule, rule_of, rule_at};
ghost use Rattle.namespaces.specs.WellFormed.{IsWellFormed};
ghost use Rattle.strata.specs.Edges.{HasNoBrokenEdge};
ghost use Rattle.strata.specs.Meaning.{Member, HasLeastRound};
ghost use Rattle.strata.specs.Laws.{IsStable, IsClosed, IsDerived, HasNoExclusion, HasLeastMembers, HasLeastMembersAt, HasMemberTest};
ghost use Rattle.strata.specs.Strata.{HasValidStrata, HasNames, HaveSameExpressions, DifferInStrataAlone};

/// A fact of a stratum is settled there: no higher stratum changes it.
pub fn stable()
    ensures { (rules : Lookup) (store : List TupleValue) → HasValidStrata rules store → IsStable rules store }
{}

/// What a rule derives from members and from those who are none is a member.
pub fn closed()
    ensures { (rules : Lookup) (store : List TupleValue) → HasValidStrata rules store → IsClosed rules store }
{}

/// A member is derived by its rule from members and from those who are none.
pub fn derived()
    ensures { (rules : Lookup) (store : List TupleValue) → HasValidStrata rules store → IsDerived rules store }
{}

/// Where no rule has an exclusion, the members are the least relation that is closed under the rules: each such
/// relation that a test tells contains them.
pub fn least()
    ensures { (rules : Lookup) (store : List TupleValue) → HasNoExclusion rules → HasLeastMembers rules store }
{}

/// With exclusion the same stratum by stratum: each relation that a test tells, that is membership below a stratum
/// and is closed under the rules of that stratum, contains the members there.
pub fn least_of_each_stratum()
    ensures { (rules : Lookup) (store : List TupleValue) → HasValidStrata rules store → (k : ℕ)
        → HasLeastMembersAt rules store k }
{}

/// Some test tells members, so that they are themselves one of the relations of which `least` and
/// `least_of_each_stratum` speak.
pub fn told_by_a_test()
    ensures { (rules : Lookup) (store : List TupleValue) → HasValidStrata rules store →
        (names : List (List ℕ)) → HasNames rules names → HasMemberTest rules store }
{}

/// A member has a least round at its stratum, and its rule derives it from the round before and the strata below.
/// That is so of any rules whose relations have names in a list, and so of those in force at any timestamp.
pub fn supported()
    ensures named { (rules : Lookup) (store : List TupleValue) → HasValidStrata rules store →
        (names : List (List ℕ)) → HasNames rules names →
        (f : FactValue) (r : Rule) → rule_of rules f.set ≡ Some r → Member rules store f → HasLeastRound rules store f r }
    ensures at_each_time { (ds : List Declaration) (at : ℕ) (store : List TupleValue)
        → HasValidStrata (rule_at ds at) store →
        (f : FactValue) (r : Rule) → rule_of (rule_at ds at) f.set ≡ Some r → Member (rule_at ds at) store f → HasLeastRound (rule_at ds at) store f r }
{}

/// Renumbering the strata changes no member, where both numberings are valid.
pub fn same_meaning()
    ensures { (old new : Lookup) (store : List TupleValue) → HasValidStrata old store → HasValidStrata new store →
        HaveSameExpressions old new → (f : FactValue) → (Member old store f ↔ Member new store f) }
{}

/// The same for the rules in force at any one timestamp, of declarations that differ in strata alone.
pub fn same_meaning_at_each_time()
    ensures { (old new : List Declaration) → DifferInStrataAlone old new → (at : ℕ) (store : List TupleValue) →
        HasValidStrata (rule_at old at) store → HasValidStrata (rule_at new at) store →
        (f : FactValue) → (Member (rule_at old at) store f ↔ Member (rule_at new at) store f) }
{}

/// Where no edge of the rules ever declared is broken, and none of the tuples ever added, strata are valid at each
/// timestamp, over whatever of those tuples is stored.
pub fn valid_at_each_time()
    ensures { (ds : List Declaration) (ts : List TupleValue) → IsWellFormed ds → HasNoBrokenEdge ds ts →
        (at : ℕ) (store : List TupleValue) → ((t : TupleValue) → Contains store t → Contains ts t) → HasValidStrata (rule_at ds at) store }
{}
