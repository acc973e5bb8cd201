//! Userset rewrites: the rules that say who the members of a relation are (Zanzibar, section 2.3.1), as values. What
//! SpiceDB calls the expression of a permission.
//!
//! A [`Rewrite`] is a rule as it was declared. Contracts see it as its `Expression`, over which the meaning of rules
//! is defined, by `expression_of`. [`plain_of`] gives a rule that says the same with nothing nested or repeated
//! without need, [`leaves_of`] the rules without children that it is made of, and [`parts_of`] a [`PartedRule`], in
//! which each of these is one part, so that it is asked for once.
//!
//! Callers may rely on this: the plain form and the parts give and rule out what the rule does, whatever their leaves
//! give and rule out (`IsAlike`); the leaves are those of the rule, each once; a copy has the same expression. Where
//! one of these calls is refused, memory ran out.
//!
//! ```text
//! let plain = plain_of(alloc, &rewrite)?;
//! let parted = parts_of(alloc, &plain)?;
//! ```
#![tactic(auto)]

mod leaves;
mod parts;
mod plain;
mod rewrite;

pub use leaves::leaves_of;
pub use parts::{Node, Part, PartedRule, Through, parts_of};
pub use plain::plain_of;
pub use rewrite::{
    Rewrite, copy_of, counts_fit, has_good_names, has_more_places, is_deeper, minus,
};
