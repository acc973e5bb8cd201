//! An index of the usersets that are stored in usersets, as the groups among the viewers of a document (Zanzibar,
//! section 2.1): at a timestamp it gives those that can matter then, and passes over those that are dead, or whose
//! relation is not declared yet, without looking at each.
//!
//! Contracts see a [`UsersetIndex`] as three lists of [`Life`]s. A life is a touch that adds a tuple whose user is a
//! userset, and the timestamps from which on and until which it can matter. One list has it by the userset that it is
//! stored in, from when its own relation is declared; one by that and its namespace, where one userset of an object
//! stands for all of them at a time; and one by that and its object.
//!
//! Callers may rely on this: of a userset that is crowded the index gives each userset that is stored in it and
//! declared at a timestamp ([`UsersetIndex::own`]), of an object each that is stored in it
//! ([`UsersetIndex::of_object`]), and of a namespace one of each object of which some are stored in it
//! ([`UsersetIndex::through`]), as touches of the changelog. It may give others, since usersets may share a mark: who
//! asks looks of which userset a touch is. What `own` and `through` give is stored then, and comes once (`AreExact`).
//! Of any userset it says of which namespaces usersets are stored there, and maybe of others
//! ([`UsersetIndex::namespaces`]), in a trace in which many may be asked for.
//!
//! An index is made of a whole store ([`UsersetIndex::of`]), or grows with a log ([`UsersetIndex::grow`]): then each
//! touch is taken once, and ends the lives of the touch before it of the same tuple (`specs/Growth.antt`).
//!
//! ```text
//! let index = UsersetIndex::of(alloc, &chains, &rules)?;
//! for touch in index.own(set, at) { .. chains.touch(touch) .. }
//! ```
#![tactic(auto)]

mod build;
mod growth;
mod index;
mod life;
mod moments;
mod objects;
mod spans;

pub use index::UsersetIndex;
pub use life::{Life, Way};
pub use spans::Alive;
