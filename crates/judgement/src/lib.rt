//! What follows for one rule from facts that are known: the table by which evidence is judged (Zanzibar, section 2.3,
//! gives the rules).
//!
//! [`Known`] holds the facts that are known to hold and those that are known not to. [`established`] says whether a
//! rule gives a fact by them, [`refuted`] whether it cannot give it. Contracts see what is known as `KnownValue`, the
//! two lists of facts, and the table as the relations `Established` and `Refuted` over the rules in force, the tuples
//! stored at a timestamp, and an `Expression`. An [`AskedFact`] is the fact that is asked for, with all of these but
//! the rule.
//!
//! Callers may rely on this: both answers are those relations, exactly, for all six forms of a rule; neither searches,
//! nor looks into another relation's rule; neither takes memory. A userset that is undeclared at the timestamp counts
//! as refuted where it is stored, in a tupleset too, and a user id in a tupleset contributes nobody.
//!
//! What a call costs is no promise. A look-up among known facts goes by their marks. What is stored in a userset with
//! many usersets is passed over by the trace's index of them, so that those that are dead or undeclared then are not
//! looked at; and whether one of them leads to a known fact is found from the shorter of two lists, the usersets that
//! were ever stored there and the user's known facts.
//!
//! ```text
//! known.add_yes(fact)?;
//! let fact = AskedFact {
//!     snapshot: &snapshot,
//!     known: &known,
//!     set: MarkedSet::of(set),
//!     user,
//! };
//! let is_given = established(rewrite, &fact);
//! ```
#![tactic(auto)]

mod absent;
mod asked;
mod fact;
mod facts;
mod indexed;
mod known;
mod leading;
mod stored;
mod table;

pub use absent::{is_absent, stored_in};
pub use asked::AskedFact;
pub use fact::{KnownFact, MarkedFact};
pub use facts::SetsOfUser;
pub use indexed::{are_out, is_number_out};
pub use known::Known;
pub use leading::stores_object;
pub use stored::{crowd_of, is_barred, is_in, is_out, under};
pub use table::{established, refuted};
