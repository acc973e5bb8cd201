//! Namespaces, their relations and the rules of those, with the timestamps from which they are in force (Zanzibar,
//! sections 2.3.1 and 3.2.2).
//!
//! [`Rules`] reads a namespace from a JSON value by `add` (in force from 0) and `change` (in force from a timestamp
//! on). Contracts see it as the list of its declarations: every accepted value in order, each with its timestamp,
//! name, and relations (name, stratum, rule). Rules themselves are values of `rewrites`. [`Rules::plain_in`] gives
//! one in its plain form, which is made once, when it is declared, and with it its parts where it has many places.
//! [`Rules::declaring`] gives the namespaces that declare a relation of a name, as a set of their [`Numbers`].
//!
//! Callers may rely on this: a value is accepted, or refused with the first fault that applies, exactly as the
//! definitions over its JSON data say, running out of memory apart; after a refusal the rules hold what they held
//! before; every look-up answers by the list. `IsWellFormed`, a clause of `namespace` and `relation`, says what holds
//! of that list at any time: names that are distinct, the limits, and that a later declaration of a namespace begins
//! with the relations of the earlier ones, each with its stratum.
//!
//! What a call costs is no promise. A look-up takes no memory, and none goes through the declarations one by one. A
//! table has 256 names at most, so the choice of names cannot make it slow.
//!
//! ```text
//! rules.add(&value)?;
//! let rewrite = rules.body(tuple.set(), 12);
//! ```
#![tactic(auto)]

mod declaring;
mod fault;
mod index;
mod number;
mod number_set;
mod reading;
mod relation;
mod rules;
mod table;

pub use fault::RulesFault;
pub use number::{MAX_NUMBER, RelNo, RulePlace};
pub use number_set::Numbers;
pub use relation::PlainRule;
pub use rewrites::Rewrite;
pub use rules::Rules;
