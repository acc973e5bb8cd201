//! Tests of `audit_slices`, by public calls alone, of what no clause says: that a steal finds something, that two workers are at work
//! at once, that an alert is shown once, and that a new board is empty. A slice alone is checked in `tests_of_growth`.
#![tactic(auto)]

#[cfg(test)]
mod cores;
#[cfg(test)]
mod five;
#[cfg(test)]
mod pools;
#[cfg(test)]
mod yards;
