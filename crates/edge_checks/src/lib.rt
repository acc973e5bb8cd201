//! Whether a tuple or a declaration more breaks an edge between strata (the order of `strata`), told without a walk
//! over all rules and tuples.
//!
//! [`Sample`] has of the tuples ever added the first of each kind, whose edges are those of all: contracts see it as
//! the list of these tuples, and `Represents` says that whatever is declared, their first broken edge is that of all.
//! [`EdgeIndex`] has what the rules ever declared read of them (`rule_reads`); `IsIndex` says that nothing is left out.
//!
//! Callers may rely on this: [`Sample::admit_all`] and [`EdgeIndex::follow`] answer the first broken edge, or that
//! there is none, running out of memory apart. Who takes back what was admitted, as of a line that is refused, calls
//! [`EdgeIndex::give_up`]: from then on all is walked over.
//!
//! ```text
//! index.begin(rules, &sample, namespace, known)?;
//! sample.admit_all(rules, &mut index, adds)?;
//! ```
#![tactic(auto)]

mod edge_index;
mod fault;
mod sample;

pub use edge_index::EdgeIndex;
pub use fault::EdgeFault;
pub use sample::{Sample, is_of_relation};
