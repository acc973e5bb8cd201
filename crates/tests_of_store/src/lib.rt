//! Tests of `version_chains`, by public calls alone: the calls that the program does not make (`has`, `history`), a limit below the
//! program's, loops over the stored users, and the texts of faults of `namespaces`, `strata` and `version_chains` that no input brings
//! about. Which tuples are stored at a snapshot, and which commits and namespaces are refused, is shown by rows of the program.
#![tactic(auto)]

#[cfg(test)]
mod chains;
#[cfg(test)]
mod faults;
