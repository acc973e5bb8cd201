//! What is found by marks: places of a list that grows, by a hash of what stands there.
//!
//! A mark is a number of 64 bits. Equal values have equal marks, and no more is used of them: who walks the places
//! with a mark compares what stands there. [`MarkedSet`] and [`MarkedUser`] are a userset and a user with theirs,
//! so that who asks again hashes nothing; [`fact_mark`] and [`tuple_mark`] are of a fact and a tuple, [`kind_mark`]
//! of the users of one kind in a userset, and [`pair_mark`] is of two marks.
//!
//! Contracts see [`Places`] as the list of the marks that were pushed. Callers may rely on this: [`Places::with`]
//! gives the indices at which a mark stands, the newest first; places count from 1, [`Places::newest`] is the last
//! place with a mark, [`Places::older`] the last one before an index with the mark that stands there, and 0 is
//! none; a push adds at the end or changes nothing. A question takes no memory. However a stranger chose the marks,
//! the newest place is found in the logarithm of their number: those for which the table has no room stand in a
//! tree. `proofs.LeftLemmas` says what going over the indices shows.
//!
//! ```text
//! places.push(set.mark)?;
//! for index in places.with(set.mark) {
//!     // whether what stands there is the userset
//! }
//! ```
#![tactic(auto)]

mod places;
mod slots;
mod table;
mod tuples;
mod words;

pub use places::{MOST_PLACES, Places, Walk};
pub use tuples::{MarkedSet, MarkedUser, fact_mark, is_userset, kind_mark, pair_mark, tuple_mark};
