//! What the rules ever declared read of tuples' users, and whether a tuple fits it: so a new tuple, or a new rule, is
//! looked at once against what concerns it, and no walk over all of them tells that no edge between strata is broken
//! (the order of `strata`).
//!
//! [`Reads`] has each place of the rules ever declared once: which relations read their own tuples, plainly or where
//! they subtract, and which read through a tupleset, with the level below which that has to stand what they read.
//! [`Kinds`] has of some tuples the marks of their kinds. Contracts see both by the specs in `Reads`: `HasRead` and
//! `AllFit` say that all places are there, and that all tuples fit.
//!
//! Callers may rely on this: where a call answers that a tuple, or a namespace, fits, no edge of it is broken
//! (`Fits`, `IsFitting`). Where it answers that it does not, nothing is said, and the caller walks. Equal marks of
//! other names cost time and change no answer.
//!
//! ```text
//! let is_known = kinds.knows_pair(tuples, tuple);
//! kinds.push(tuple)?;
//! let fits = reads.own_fits(rules, tuple) && (is_known || reads.through_fits(scope, tuple));
//! ```
#![tactic(auto)]

mod kinds;
mod reads;

pub use kinds::Kinds;
pub use reads::{Reads, Scope};
