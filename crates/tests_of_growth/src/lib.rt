//! Tests of calls that can answer out of memory and that no command of the program makes, by public calls alone; `tools/dev/refuse_growth`
//! tries the others on the program. `tools/dev/refuse_growth_of_calls` refuses the first growth of each test, then the second, and so on. A
//! call that is refused is made once more, after what stands was compared with what stood; so each test passes whichever one growth is
//! refused.
#![tactic(auto)]

#[cfg(test)]
mod chains;
#[cfg(test)]
mod known;
#[cfg(test)]
mod slices;
#[cfg(test)]
mod texts;
