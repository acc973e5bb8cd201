//! Work sharing that loses nothing: entries are checked by several workers, and each report stands in its place.
//!
//! `cut` makes slices of the entries, and `run_pool` has 1 to 16 workers check them, each in a thread and with a lane of its own:
//! `run_pool(rt, alloc, &check, &Free, Some(&board), &mut watch, cut(alloc, 1000, 64)?, 4)` answers the reports of entry 0, 1 and so
//! on, and shows the watch the alerts that the checks raise on a shared [`Board`]. The yards below are those of `slice_yard`, and
//! their core that of `slice_core`; both are passed on here. A slice is checked by one call of [`Check::check_run`]: a check may
//! write it itself, and keep in it what several entries need.
//!
//! The model of a [`Check`] is which reports it may give to an entry; where that is one, its reports are known. Callers
//! may rely on this, over every schedule: the reports of [`run_pool`] are one for entry 0, 1 and so on, each one that the check may
//! give to that entry, and each alert on a board is true.
//!
//! No progress and no fairness is promised, and not which worker checks what. So a `Thief::steal` that always answers
//! `None`, a pool in one thread and a pool whose workers never steal would be proved: in the crate `tests_of_slices`
//! the tests of the yards and `two_workers_are_at_work_at_once` refuse them. No clause says that a new `Board` is empty,
//! since none says what is on a board that threads share: `one_alert_is_posted` there tests it. `Watch::seen` is the
//! caller's, and may do anything but change its watch's mark, which `run_pool` keeps.
#![tactic(auto)]

mod board;
mod checks;
mod members;
mod pool;
mod run;

pub use board::{Alert, Alerts, Blind, Board, Names, Posted, Watch};
pub use checks::{Check, Free, Gate, SliceReport, check_slice};
pub use run::run_pool;
pub use slice_core::{Core, Event, MOST_WORKERS, NotEnabled, OpenCause, laws};
pub use slice_yard::{Lane, OpenFault, Receipts, Slice, Thief, Yard, close, cut};
