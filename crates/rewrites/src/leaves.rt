//! The leaves of a rule, each once.

ghost use Rattle.std.specs.Prelude.{map, Some, IfOk, OnOk};
ghost use Rattle.rewrites.specs.Leaves.{AreLeavesOf, Collects};
ghost use Rattle.rewrites.specs.Plain.{leaves, leaves_of_all};
ghost use Rattle.rewrites.specs.View.{expression_of, expressions_of};

use crate::plain::put;
use crate::rewrite::{Rewrite, tuple_to_of};
use std::alloc::{AllocError, Global};
use std::collections::BTreeMap;

/// Puts the leaves of a rule behind others, but for those that stand there. It goes once over the rule's places.
#[cycle(collect)]
fn collect(
    rewrite: &Rewrite,
    kept: &mut Vec<Rewrite>,
    places: &mut BTreeMap<String, usize>,
) -> Result<(), AllocError>
    ensures { OnOk result (Collects (map expression_of kept.old.items) (map expression_of kept.new.items)
        (leaves (expression_of rewrite.now))) }
{
    match rewrite {
        Rewrite::This => put(kept, places, Rewrite::This),
        Rewrite::Computed(relation) => put(kept, places, Rewrite::Computed(relation.clone()?)),
        Rewrite::TupleTo { tupleset, computed } => {
            let leaf = tuple_to_of(tupleset, computed)?;
            put(kept, places, leaf)
        }
        Rewrite::Union(children) | Rewrite::Inter(children) => {
            collect_all(children, kept, places)
        }
        Rewrite::Minus(base, subtract) => {
            collect(base, kept, places)?;
            collect(subtract, kept, places)
        }
    }
}

#[cycle(collect)]
fn collect_all(
    children: &Vec<Rewrite>,
    kept: &mut Vec<Rewrite>,
    places: &mut BTreeMap<String, usize>,
) -> Result<(), AllocError>
    ensures { OnOk result (Collects (map expression_of kept.old.items) (map expression_of kept.new.items)
        (leaves_of_all (expressions_of children.now.items))) }
{
    for child in children {
        collect(child, kept, places)?;
    }
    Ok(())
}

/// The leaves of a rule, each once.
pub fn leaves_of(alloc: Global, rewrite: &Rewrite) -> Result<Vec<Rewrite>, AllocError>
    ensures { IfOk result (λ v. AreLeavesOf (map expression_of v.items) (Some (expression_of rewrite.now))) }
{
    let mut kept = Vec::new(alloc);
    let mut places = BTreeMap::new(alloc);
    collect(rewrite, &mut kept, &mut places)?;
    Ok(kept)
}
