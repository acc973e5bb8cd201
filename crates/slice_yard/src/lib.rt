//! Yards of slices: lanes that their owners take from and thieves steal from, so that no slice is lost and none is given twice.
//!
//! [`cut`] makes slices of the entries, and [`Yard::open`] deals them to lanes: `Yard::open(alloc, cut(alloc, 1000, 64)?, 4, 4)`
//! gives four lanes, and for each of four workers the thieves with which it steals from the others. [`Lane::next`] and
//! [`Thief::steal`] may be called by all at once; neither waits, and no lock stands round the yard. [`close`] takes all ends in again,
//! and its [`Receipts`] hand out what nobody took.
//!
//! The model of an end is a `Hand`: what was put into its lane, and the list of what it was handed. Callers may rely on this, over
//! every schedule: a slice that an end gives was put into its lane and stands last in that list; the lists of a closed lane and what
//! was handed out since hold each slice of it once, and are a run of the core of `slice_core`.
//!
//! No progress and no fairness is promised: a `Thief::steal` that always answers `None` would be proved, and tests refuse it.
#![tactic(auto)]

mod lane;
mod receipts;
mod rule;
mod slices;
mod yard;

pub use lane::{Lane, Thief};
pub use receipts::Receipts;
pub use slice_core::{MOST_WORKERS, OpenCause};
pub use slices::{Slice, cut};
pub use yard::{OpenFault, Yard, close};
