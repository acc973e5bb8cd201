//! The command line: what the words behind the program's name ask for.
//!
//! A [`Request`] is one of the program's commands with its words read: paths and a tuple as they were written, numbers
//! as numbers. [`read_words`] reads them by `clap`, by commands without rules between their arguments, of which `clap`'s
//! contract gives exactly what is found, and which faults. Where these ask for nothing, commands with such rules read the
//! words once more, for the text alone.
//!
//! Callers may rely on this: where there is no word, and only there, joined input is asked for. Words that clap takes
//! (`AreTaken`), however many, and that write a whole request (`Write`), ask for that request; so do `audit T E`,
//! `audit T --make`, `make T` and `history T U` of plain words. A request is the one that the first word names, and its
//! paths, its tuple and its numbers are those that clap finds in the words (`IsAskedBy`). A text is shown in place of an
//! answer only where clap finds that help or the version is asked for (`AskForHelp`). What the texts say, no contract
//! tells: the program's rows do.
//!
//! ```text
//! let answer = read_words(alloc, &words)?;
//! ```
#![tactic(auto)]

mod commands;
mod request;

pub use request::{Answer, Request, read_words};
