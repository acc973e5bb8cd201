//! Rules of many places, of which each part is asked for once for a fact.
//!
//! An [`AskedRule`] answers what `established` and `refuted` of `judgement` answer, of one rule and many facts one
//! after the other, by the rule's parts (`PartedRule` of `rewrites`). It takes memory for what was asked. Contracts see
//! it as a `RuleValue`, the timeline and the rule's expression; what its parts were asked is `Asked`, and what follows
//! from that for the rule is `Follows`. [`namespaces_declaring`] says which namespaces ever declare what a part reads
//! through a tupleset.
//!
//! Callers may rely on this: each answer is that of `Established` or `Refuted`, whatever was asked before; and each
//! namespace that declares a relation, at whatever time, is among those that are said to (`HaveDeclaring`).
//!
//! What a call costs is no promise. Each part is asked for once for a fact, and the rule is gone over only where its
//! parts have other answers than they had for each fact that is remembered. Of a part that reads through a tupleset it
//! remembers which namespaces matter: what is stored of others has nobody.
//!
//! ```text
//! let mut rule = AskedRule::new(alloc, timeline, parted)?;
//! let is_given = rule.does(true, MarkedSet::of(set), user, at, &known)?;
//! ```
#![tactic(auto)]

mod answers;
mod asked_rule;
mod asking;
mod covers;
mod crowded;
mod declaring;
mod kept;
mod live;
mod paths;
mod through;

pub use asked_rule::AskedRule;
pub use declaring::namespaces_declaring;
