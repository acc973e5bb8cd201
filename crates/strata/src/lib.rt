//! What rewrite rules mean over a tuple store (Zanzibar, section 2.3.2), and its laws.
//!
//! A stratum is a relation's level: what a rule subtracts has to stand on a lower one. The specs hold the
//! definitions. `Meaning` says which facts a rule's expression gives, round by round and stratum by stratum, and so
//! who is a member. `Strata` says when strata are valid, over the rules in force at one timestamp, given as a
//! look-up, and one store, given as a list of tuples. `Edges` lists what the rules ever declared, and the tuples ever
//! added, read.
//!
//! Callers may rely on this: [`check_rules`], [`check_declared`], [`check_tuple`], [`check_tuple_again`],
//! [`check_tuple_by`] and [`check_change`] answer the first broken edge of those lists, or that there is none; where
//! there is none, strata are valid at each timestamp; and the laws in [`laws`] hold for valid strata: a settled fact
//! stays settled at higher strata, members are a fixed point of the rules, and the least one (stratum by stratum
//! where rules have exclusions), a member has a least round, and renumbering the strata changes no member.
//!
//! ```text
//! check_rules(&rules)?;
//! check_tuple(&rules, &tuple)?;
//! ```
#![tactic(auto)]

mod change;
mod check;
mod edge;
pub mod laws;
mod walk;

pub use change::{ChangeFault, check_change};
pub use check::{
    check_declared, check_rules, check_tuple, check_tuple_again, check_tuple_by, reads_tuplesets,
};
pub use edge::Edge;
