//! What a call answers beside what its specification gives, in one vocabulary for every crate whose calls may be
//! refused.
//!
//! A specification reads in steps, `read >>= next`, where the first refusal ends the reading. A clause `Gives
//! is_memory view result given` says of a call: where it answers a value, that is the specification's, seen by
//! `view`; where it answers a refusal, that is the specification's too, unless it is out of memory, which may stop a
//! call at any step. There is no code here: callers rely on the definitions, and on lemmas about steps.
//!
//! ```text
//! ensures { Gives is_memory (λ f. f) result (fact_at text.now) }
//! ```
#![tactic(auto)]
