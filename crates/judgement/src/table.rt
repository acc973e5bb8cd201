//! What known facts say of one rule.

ghost use Rattle.std.specs.Prelude.{◌≡◌, ◌↔◌, IsTrue};
ghost use Rattle.rewrites.specs.View.{expression_of};
ghost use Rattle.judgement.specs.AskedFact.{SaysOf};
ghost use Rattle.judgement.specs.Judgement.{Established, Refuted};

use crate::asked::AskedFact;
use crate::fact::KnownFact;
use crate::leading::is_led;
use crate::stored::{is_barred, under};
use marks::MarkedSet;
use rewrites::Rewrite;

/// Whether what is known gives that a user is in a userset by a rule of it, over the tuples of a snapshot.
#[cycle(judge)]
pub fn established<F: KnownFact>(rewrite: &Rewrite, fact: &AskedFact<'_, F>) -> bool
    ensures { IsTrue result ↔ SaysOf Established fact.now (expression_of rewrite.now) }
{
    match rewrite {
        Rewrite::This => fact.snapshot.has_id(fact.set, fact.user) || is_led(fact, None),
        Rewrite::Computed(relation) => fact
            .known
            .yes(under(fact.set.set, relation.as_str()), fact.user),
        Rewrite::TupleTo { tupleset, computed } => {
            let set = MarkedSet::of(under(fact.set.set, tupleset.as_str()));
            is_led(&AskedFact { set, ..*fact }, Some(computed.as_str()))
        }
        Rewrite::Union(children) => {
            for child in children {
                if established(child, fact) {
                    return true;
                }
            }
            false
        }
        Rewrite::Inter(children) => {
            for child in children {
                if !established(child, fact) {
                    return false;
                }
            }
            true
        }
        Rewrite::Minus(base, subtract) => { established(base, fact) && refuted(subtract, fact) }
    }
}

/// Whether what is known rules out that a user is in a userset by a rule of it, over the tuples of a snapshot.
#[cycle(judge)]
pub fn refuted<F: KnownFact>(rewrite: &Rewrite, fact: &AskedFact<'_, F>) -> bool
    ensures { IsTrue result ↔ SaysOf Refuted fact.now (expression_of rewrite.now) }
{
    match rewrite {
        Rewrite::This => !fact.snapshot.has_id(fact.set, fact.user) && is_barred(fact, None),
        Rewrite::Computed(relation) => fact
            .known
            .no(under(fact.set.set, relation.as_str()), fact.user),
        Rewrite::TupleTo { tupleset, computed } => {
            let set = MarkedSet::of(under(fact.set.set, tupleset.as_str()));
            is_barred(&AskedFact { set, ..*fact }, Some(computed.as_str()))
        }
        Rewrite::Union(children) => {
            for child in children {
                if !refuted(child, fact) {
                    return false;
                }
            }
            true
        }
        Rewrite::Inter(children) => {
            for child in children {
                if refuted(child, fact) {
                    return true;
                }
            }
            false
        }
        Rewrite::Minus(base, subtract) => { refuted(base, fact) || established(subtract, fact) }
    }
}
