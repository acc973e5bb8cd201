//! Evidence for recorded decisions: steps that are found by search, and judged before they are given.
//!
//! [`make`] gives the steps for one entry: those of one step where that is enough; else those of a direct search
//! (`goal_cone`), of the facts on which the goal leans; and where these do not do, those that settle every fact of the
//! goal's cone, stratum by stratum: each fact that holds by what is known is said to hold, in the order of a search, and
//! what is left of a stratum is said not to, all at once.
//!
//! Callers may rely on this: steps that are given are accepted in order, they settle the goal, and a record may hold
//! them, with at most 100,000 facts and 2^20 bytes; so the entry is supported or contradicted by them. `make` gives
//! up only where one step is not enough, and one of these holds: every list of facts that holds the goal and its own
//! premises has more than 100,000 facts or reads more than [`MAX_LINKS`] stored usersets, or the record of the whole
//! cone has more than 2^20 bytes. The search is not trusted: what it finds is judged by `judge_steps_by`, and what it
//! misses is looked at again. How few the steps are is not promised: longer evidence that fits would meet the
//! contract too. [`laws`] say why there is evidence to find.
//!
//! What a [`Maker`] found of rules of many places serves for the entries behind. Where more of the trace comes, it is
//! put aside as a [`PausedMaker`], and taken up again over the longer trace.
//!
//! ```text
//! let steps = make(alloc, &trace, 0)?;
//! ```
#![tactic(auto)]

mod fault;
pub mod laws;
mod layers;
mod like;
mod maker;
mod settle;

pub use fault::MakeFault;
pub use goal_cone::{MAX_LINKS, MAX_USERSETS};
pub use like::Found;
pub use maker::{Made, Maker, PausedMaker, make};
