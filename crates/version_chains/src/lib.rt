//! The tuple store at any timestamp: which relation tuples stand at a given moment, answered from the list of
//! commits that added and removed them (Zanzibar, sections 2.1 and 3.1.1).
//!
//! Contracts see [`Chains`] as the list of its commits and the number of touches that it may hold. A touch is
//! a timestamp, a tuple, and whether the tuple is added or removed; the changelog is the list of touches of all
//! commits in order; a tuple is stored at a timestamp where the last of its touches up to then adds it.
//!
//! Callers may rely on this: timestamps rise strictly from commit to commit, no commit touches a tuple twice,
//! [`Chains::append`] adds one commit at the end or changes nothing, each question is answered by those
//! definitions alone, and none of the questions takes memory. [`Users`], [`Usersets`] and [`History`] are iterators
//! whose model is the list of what is left to give; `proofs.CallerLemmas` says what a loop over them shows.
//! [`Usersets::step`] looks at one tuple, stored or not, for who goes over another list beside it.
//!
//! [`Chains::touch`] gives the changelog touch by touch, to who keeps an index of it.
//!
//! A question about a userset asks for a `MarkedSet` of the crate `marks`, so that who asks again hashes nothing.
//!
//! Each tuple is kept once, and touches are linked, so that a question walks back over the touches, the users or the
//! usersets that it is about and no others; nothing of that shows in a contract. Why such a walk may jump is the law
//! [`laws::jump_is_walk`].
//!
//! ```text
//! chains.append(10, &adds, &removes)?;
//! let is_viewer = chains.has(&tuple, 12);
//! ```
#![tactic(auto)]

pub mod among;
mod arena;
mod chains;
mod fault;
mod history;
pub mod laws;
mod node;
mod repeats;
mod row;
mod rows;
mod texts;
mod touch;
mod users;

pub use chains::Chains;
pub use fault::AppendFault;
pub use history::History;
pub use row::RowRef;
pub use rows::Rows;
pub use texts::{Span, push_set, set_at};
pub use touch::TouchRef;
pub use users::{Users, Usersets};
