//! Relations, with their rules in two forms.
ghost use Rattle.std.specs.Prelude.{◌≡◌, ℕ, Ok, IfOk};
ghost use Rattle.rewrites.specs.Expression.{Expression};
ghost use Rattle.namespaces.specs.Fault.{Gives};
ghost use Rattle.rewrites.specs.Parts.{ArePartsOf};
ghost use Rattle.rewrites.specs.Plain.{IsPlainOf};
ghost use Rattle.rewrites.specs.View.{expression_of};

use crate::fault::RulesFault;
use rewrites::{PartedRule, Rewrite, has_more_places, parts_of, plain_of};
use std::alloc::{AllocError, Global};

/// How many places a rule may have that is judged place by place.
const FEW_PLACES: usize = 16;

/// The plain form of a rule, and its parts where it has more than a few places.
pub struct PlainRule {
    pub rewrite: Rewrite,
    pub parted: Option<PartedRule>,
    ghost parted_of: { ArePartsOf parted (expression_of rewrite) },
}

// Written out, as those below: one that is derived is a part of each function that lets the value go, with all its
// parts.
impl Drop for PlainRule {
    fn drop(self) {
        let PlainRule { rewrite, parted } = self;
        drop(rewrite);
        drop(parted);
    }
}

/// What is declared of a relation, beside its name. The plain form of its rule is made once, when it is declared.
pub(crate) struct Relation {
    pub(crate) stratum: u8,
    pub(crate) rewrite: Rewrite,
    pub(crate) plain: PlainRule,
    ghost plain_of: { IsPlainOf (expression_of plain.rewrite) (expression_of rewrite) },
}

impl Drop for Relation {
    fn drop(self) {
        let Relation {
            stratum: _,
            rewrite,
            plain,
        } = self;
        drop(rewrite);
        drop(plain);
    }
}

/// A plain rule, with its parts where it is wide.
fn plain_rule(alloc: Global, rewrite: Rewrite) -> Result<PlainRule, AllocError>
    ensures { IfOk result (λ r. expression_of r.rewrite ≡ expression_of rewrite) }
{
    let parted = if has_more_places(&rewrite, FEW_PLACES) {
        Some(parts_of(alloc, &rewrite)?)
    } else {
        None
    };
    Ok(PlainRule { rewrite, parted })
}

/// A relation of a stratum and a rule.
pub(crate) fn relation_of(
    alloc: Global,
    stratum: u8,
    rewrite: Rewrite,
) -> Result<Relation, RulesFault>
    ensures { Gives {Y = ℕ × Expression} (λ r. (r.stratum, expression_of r.rewrite)) result
        (Ok (stratum, expression_of rewrite)) }
{
    let plain = plain_rule(alloc, plain_of(alloc, &rewrite)?)?;
    Ok(Relation {
        stratum,
        rewrite,
        plain,
    })
}
