//! The strata of rules that are about to change.

ghost use Rattle.std.specs.Prelude.{◌≡◌, ℕ, List, Ok};
ghost use Rattle.serde_json.specs.View.{view};
ghost use Rattle.namespaces.specs.Changing.{change_answer, rules_change};
ghost use Rattle.namespaces.specs.Declaration.{Declaration};
ghost use Rattle.strata.specs.Changes.{Answers};
ghost use Rattle.strata.specs.Edges.{first_broken, rule_edges};

use crate::check::check_rules;
use crate::edge::Edge;
use namespaces::Rules;
use serde_json::Value;
use thiserror::Error;

/// Why a change of the rules is refused.
#[derive(Clone, Copy, Debug, PartialEq, Eq, Error)]
pub enum ChangeFault {
    /// The first edge of the changed rules that is broken.
    #[error("{0}")]
    Strata(Edge),
    /// Memory was refused.
    #[error("out of memory")]
    OutOfMemory,
}

/// Looks at the edges of the rules as if the change that a value describes were in force, in the order of
/// [`check_rules`].
///
/// `Rules::try_change` accepts the value. The rules stay as they are: the change is made on a copy of them.
pub fn check_change(rules: &Rules, value: &Value) -> Result<(), ChangeFault>
    requires { change_answer rules.now (view value.now) ≡ Ok (tt {0}) }
    ensures { (at : ℕ) (ds : List Declaration) → rules_change rules.now at (view value.now) ≡ Ok ds
        → Answers result (first_broken ds (rule_edges ds)) }
{
    let Ok(changed) = rules.with_change(value) else {
        return Err(ChangeFault::OutOfMemory);
    };
    answer(check_rules(&changed))
}

fn answer(checked: Result<(), Edge>) -> Result<(), ChangeFault>
    ensures { Answers result checked }
{
    checked.map_err(ChangeFault::Strata)
}
