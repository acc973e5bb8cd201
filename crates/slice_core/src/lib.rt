//! The core of work sharing: slice numbers in lanes, in the workers' hands, done or lost, and what one step of a worker does to them.
//!
//! `Core::start(alloc, 5, 2, 2)` deals the numbers 0 to 4 to two lanes for two workers, and `core.step(Event::Steal(0, 1))` moves the
//! first number of lane 1 to the empty hand of worker 0, or answers `NotEnabled` and changes nothing.
//!
//! The model of a [`Core`] is a `State`: its lanes, its hands, what is done and what is lost. `after` says what an event does to a
//! state, and a run is a list of events of which each is enabled in its turn.
//!
//! Callers may rely on this: [`Core::start`] and [`Core::step`] are those definitions exactly; and after every list of events each
//! number stands in one place, once, and what left a lane is the front of it ([`laws`]). No thread and no lock is in here: the yards
//! of `slice_yard` show that what threads did to their lanes is a run of the core.
#![tactic(auto)]

pub mod laws;
mod machine;
mod opening;

pub use machine::{Core, Event, NotEnabled};
pub use opening::{MOST_WORKERS, OpenCause, refusal};
