//! Snapshots: the rules that are in force and the tuples that are stored at a timestamp (Zanzibar, section 2.2;
//! SpiceDB calls it a revision).
//!
//! A [`Timeline`] lends the rules, the store of tuples and an index of the usersets in it, at every timestamp; a
//! [`Snapshot`] is that at one. Contracts see a timeline as its declarations and its commits. What they ask of a
//! snapshot are `rules_in` and `tuples_in`.
//!
//! Callers may rely on this: what a timeline lends has the values that it was made of, and its index is one of these.
//! What [`Snapshot::leading`] gives of a userset is stored there, each once, with all that is declared
//! (`AreLeading`), and what [`Snapshot::leading_through`] gives has one of the object of each that is of a wanted
//! namespace (`AreLeadingThrough`).
//!
//! ```text
//! let snapshot = Timeline::new(&rules, &chains, &usersets).at(entry.snapshot);
//! let body = snapshot.timeline.rules().body(set, snapshot.at);
//! ```
#![tactic(auto)]

mod leading;
mod snapshot;
mod timeline;

pub use snapshot::Snapshot;
pub use timeline::Timeline;
