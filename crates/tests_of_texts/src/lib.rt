//! Tests of `tuple_text` and `zookie`, by public calls alone: what is written is what was read, values made of parts are those that
//! are read, tuples are in order, and what a fault says that is out of memory. What is refused, where and with which text is shown by
//! rows of the program.
#![tactic(auto)]

#[cfg(test)]
mod tuples;
#[cfg(test)]
mod zookies;
